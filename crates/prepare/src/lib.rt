// From an accepted book's shape and rows to the words that the search reads: its rules and its Q lines as masks,
// its preferences as sets.
#![tactic(auto)]

ghost use Rattle.std.specs.Prelude.{◌≡◌, ℕ, ◌+◌, ◌-◌, ◌*◌, ◌^◌, ◌<◌, ◌≤◌, List, ℤ, nat_abs, length};
ghost use Rattle.std.proofs.lemmas.List.Edits.{sets as sets_at};
ghost use Rattle.book.specs.Limits as limit;
ghost use Rattle.book.specs.Kinds.{kind, entries_each, plain, exception, preference, conditional};
ghost use Rattle.book.specs.Counts.{count_at, start_of};
ghost use Rattle.meaning.specs.Meant.{entry, number, entries_at, rule_at, condition_at, book_of};
ghost use Rattle.masks.specs.declared.Masks.{Masks};
ghost use Rattle.bridge.specs.Packed.{mask_all, masks_of, line_of, Packs};
ghost use Rattle.bridge.specs.Ranks.{Names, RanksOf};
ghost use Rattle.bridge.specs.Rows.{rule_count, RowsLawful};
ghost use Rattle.bridge.specs.Roots.{up_to, root_of};
ghost use Rattle.prepare.specs.Packing.{Readable, LineReadable, own_of, words_of, rule_row, line_row, PackedTo, Blank};
ghost use Rattle.prepare.specs.Ranking.{WithLine, LinesFrom, LinesTo, Extended, ClosedThrough, ClosedTo};

use book::{Book, Shape};
use masks::{Bounds, Masks};
use sets::Pair;

// The words of each rule and of each Q line; masks::masks_at says what each is.
pub const WORDS: usize = 8;

// The size of a head's or an entry's number: the statement that it names.
fn statement(x: i32) -> u64
    requires { nat_abs x ≤ limit.statements }
    ensures { result ≡ nat_abs x }
{
    u64::from(x.unsigned_abs())
}

// The mask of a head or an entry: its conclusion, or nothing where it is 0.
fn entry_mask(x: i32) -> Pair
    requires { nat_abs x ≤ limit.statements }
    ensures { result ≡ mask_all (entry x) }
{
    let i = statement(x);
    if i == 0 {
        return Pair::EMPTY;
    }
    let one: u64 = 1 << (i - 1);
    if x < 0 {
        return Pair::of_statements(0, one);
    }
    Pair::of_statements(one, 0)
}

// The mask of the heads, the needed or the barred entries of a rule or a Q line: those of n numbers from a place of the rows on.
fn entries_mask(rows: &[i32], from: usize, n: usize) -> Pair
    requires { Readable rows.now from n }
    ensures { result ≡ mask_all (entries_at rows.now from n) }
{
    let mut m = Pair::EMPTY;
    for i in (0..n).rev() {
        m = sets::join(entry_mask(rows[from + i]), m);
    }
    m
}

// The masks of the rule whose row begins at a place of the rows, with room for so many heads, and with the set of its own exception.
fn rule_masks(rows: &[i32], from: usize, heads: usize, own: u64) -> Masks
    requires { Readable rows.now from (heads + (entries_each + entries_each)) }
    ensures { result ≡ masks_of (record { own = own; rule = rule_at heads rows.now from }) }
{
    let head = entries_mask(rows, from, heads);
    let needed = entries_mask(rows, from + heads, Book::ENTRIES);
    let barred = entries_mask(rows, from + heads + Book::ENTRIES, Book::ENTRIES);
    Masks {
        head,
        need: Pair {
            taken: own,
            ..needed
        },
        bar: barred,
    }
}

// The exception that a number of a P row or a Q row names.
fn named(x: i32) -> u64
    requires { Names limit.exceptions (number x) }
    ensures { result ≡ number x }
{
    x as u64
}

// The set of the exception that a number names.
fn named_set(x: i32) -> u64
    requires { Names limit.exceptions (number x) }
    ensures { result ≡ 2 ^ (number x - 1) }
{
    let i = named(x);
    1 << (i - 1)
}

// The masks of the Q line whose row begins at a place of the rows: the two exceptions stand in the head, the body is as a rule's.
fn line_masks(rows: &[i32], from: usize) -> Masks
    requires { LineReadable rows.now from }
    ensures { result ≡ line_of (condition_at rows.now from) }
{
    let upper = named_set(rows[from]);
    let lower = named_set(rows[from + 1]);
    let needed = entries_mask(rows, from + Book::PREFERENCE_FIELDS, Book::ENTRIES);
    let barred = entries_mask(
        rows,
        from + Book::PREFERENCE_FIELDS + Book::ENTRIES,
        Book::ENTRIES,
    );
    Masks {
        head: Pair::of_statements(upper, lower),
        need: needed,
        bar: barred,
    }
}

// Writes the masks of a rule or a Q line into the words of row k; the last word of a row is not used.
fn put(words: &mut [u64], k: usize, r: Masks)
    requires { k * 8 + 8 ≤ length words.old }
    ensures { words.new ≡ sets_at words.old (k * 8) (words_of r) }
{
    let at = k * WORDS;
    words[at..at + WORDS - 1].copy_from_slice(&[
        r.head.held,
        r.head.denied,
        r.need.held,
        r.need.denied,
        r.need.taken,
        r.bar.held,
        r.bar.denied,
    ]);
}

// The set of its own exception that rule k of the kind at place q has: none for a plain rule.
fn own_set(q: usize, k: usize) -> u64
    requires { q ≡ exception → k < 64 }
    ensures { result ≡ own_of q k }
{
    if q == Book::AT_EXCEPTION {
        return 1 << k;
    }
    0
}

// Packs m rules or Q lines into the words from row n on: into row n + k what `row` gives for k, in which neither the head nor what bars it has exceptions.
fn pack_rows<F: Fn(usize) -> Masks>(words: &mut [u64], n: usize, m: usize, row: F)
    requires room { (n + m) * 8 ≤ length words.old }
    requires given { (k : ℕ) → k < m → F.pre row k }
    requires flat { (k : ℕ) (r : _) → F.post row k r → (r.head.taken ≡ 0) × (r.bar.taken ≡ 0) }
    ensures { (f : ℕ → Masks) → ((k : ℕ) (r : _) → F.post row k r → r ≡ f k) → PackedTo f n words.old words.new m }
{
    for k in 0..m {
        put(words, n + k, row(k));
    }
}

// Packs the rules of the kind at place q, R, O or X lines, into the words from row n on.
fn pack_kind(shape: Shape, rows: &[i32], q: usize, words: &mut [u64], n: usize)
    requires { RowsLawful shape rows.now × (plain ≤ q) × (q ≤ exception) × ((n + count_at shape q) * 8 ≤ length words.old) × (n ≤ rule_count shape) }
    ensures { PackedTo (rule_row rows.now q (start_of shape q)) n words.old words.new (count_at shape q) }
{
    let x = book::kind_at(q);
    let m = book::count_of(shape, q);
    let from = book::start_of(shape, q);
    pack_rows(words, n, m, |k| {
        let own = own_set(q, k);
        rule_masks(rows, from + k * x.numbers, x.heads, own)
    });
}

// Packs the Q lines of a book into the rows after those of its rules.
fn pack_lines(shape: Shape, rows: &[i32], words: &mut [u64])
    requires { RowsLawful shape rows.now × ((rule_count shape + shape.conditionals) * 8 ≤ length words.old) }
    ensures { PackedTo (line_row rows.now (start_of shape conditional)) (rule_count shape) words.old words.new shape.conditionals }
{
    let n = shape.plain + shape.alternatives + shape.exceptions;
    let from = book::start_of(shape, Book::AT_CONDITIONAL);
    pack_rows(
        words,
        n,
        shape.conditionals,
        |k| line_masks(rows, from + k * Book::CONDITIONAL_NUMBERS),
    );
}

// Packs the rules of a book into words, R, O and X lines, and after them its Q lines. Behind the rules the words are lent as zeros: the rows of no line.
pub fn pack(shape: Shape, rows: &[i32], words: &mut [u64])
    requires { RowsLawful shape rows.now × ((rule_count shape + limit.conditionals) * 8 ≤ length words.old) × Blank words.old (rule_count shape * 8) }
    ensures { Packs (book_of shape rows.now) words.new (rule_count shape) }
{
    pack_kind(shape, rows, Book::AT_PLAIN, words, 0);
    pack_kind(shape, rows, Book::AT_ALTERNATIVE, words, shape.plain);
    pack_kind(
        shape,
        rows,
        Book::AT_EXCEPTION,
        words,
        shape.plain + shape.alternatives,
    );
    pack_lines(shape, rows, words);
}

// The set, with exception y added where x is a: a P row says that x comes before y.
fn with_line(a: u64, set: u64, x: u64, y: u64) -> u64
    requires { (0 < y) × (y ≤ 64) }
    ensures { WithLine a set x y result }
{
    if x == a {
        return sets::add(y, set);
    }
    set
}

// The exceptions before which the P rows, which begin at a place of the rows, put exception a.
fn lines_from(shape: Shape, rows: &[i32], from: usize, a: u64) -> u64
    requires { RowsLawful shape rows.now × (from ≡ start_of shape preference) }
    ensures { LinesFrom (book_of shape rows.now).preferences a result }
{
    let mut set = sets::EMPTY;
    for k in (0..shape.preferences).rev() {
        let at = from + k * Book::PREFERENCE_NUMBERS;
        let x = named(rows[at]);
        let y = named(rows[at + 1]);
        set = with_line(a, set, x, y);
    }
    set
}

// For each exception those before which the P rows put it.
fn lines(shape: Shape, rows: &[i32], ranks: &mut [u64])
    requires { RowsLawful shape rows.now }
    ensures { LinesTo (book_of shape rows.now).preferences ranks.new (length ranks.old) }
{
    let from = book::start_of(shape, Book::AT_PREFERENCE);
    for (a, rank) in ranks.iter_mut().enumerate() {
        *rank = lines_from(shape, rows, from, a as u64 + 1);
    }
}

// The set, with all of onward added where exception d + 1 is in it.
fn extend(d: u64, onward: u64, set: u64) -> u64
    requires { d < 64 }
    ensures { Extended d onward set result }
{
    if sets::member(d + 1, set) {
        return set | onward;
    }
    set
}

// Adds to each set that has exception d + 1 the set of that exception: who outranks it outranks what it outranks.
fn close_through(ranks: &mut [u64], d: usize)
    requires { (d < length ranks.old) × (length ranks.old ≤ 64) }
    ensures { ClosedThrough d ranks.old ranks.new (length ranks.old) }
{
    let onward = ranks[d];
    for rank in ranks.iter_mut() {
        *rank = extend(d as u64, onward, *rank);
    }
}

// Closes the sets under steps, through one exception after the other.
fn close(ranks: &mut [u64])
    requires { length ranks.old ≤ 64 }
    ensures { ClosedTo ranks.old ranks.new (length ranks.old) }
{
    for d in 0..ranks.len() {
        close_through(ranks, d);
    }
}

// Makes the words of a book's preferences: for each exception the set of those that it outranks.
pub fn rank(shape: Shape, rows: &[i32], ranks: &mut [u64])
    requires { RowsLawful shape rows.now × (shape.exceptions ≤ length ranks.old) × (length ranks.old ≤ 64) }
    ensures { RanksOf (book_of shape rows.now) ranks.new }
{
    lines(shape, rows, ranks);
    close(ranks);
}

// The set of the numbers 1 to k.
fn up_to(k: usize) -> u64
    requires { k < 64 }
    ensures { result ≡ up_to k }
{
    (1 << k) - 1
}

// The bounds of all lawful pairs of a book, where every search in it begins.
pub fn root(shape: Shape) -> Bounds
    requires { (shape.statements ≤ limit.statements) × (shape.exceptions ≤ limit.exceptions) }
    ensures { (t : List ℤ) → result ≡ root_of (book_of shape t) }
{
    let all = up_to(shape.statements);
    let taken = up_to(shape.exceptions);
    Bounds {
        lo: Pair::EMPTY,
        hi: Pair {
            taken,
            held: all,
            denied: all,
        },
    }
}
