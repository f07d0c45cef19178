// Write: from a number table to its text. The whole table is tested before a byte is written.
#![tactic(auto)]

ghost use Rattle.std.specs.Prelude.{◌≡◌, true, List, [], ◌∷◌, ◌++◌, ℕ, ◌+◌, ◌*◌, ◌<◌, ◌≤◌, pos, length, get_or, drop, take, replicate};
ghost use Rattle.std.proofs.lemmas.List.Edits.{sets};
ghost use Rattle.logic.specs.Tests.{some};
ghost use Rattle.book.specs.Faults.{numbered};
ghost use Rattle.book.specs.Kinds.{kinds, kind, none, first, last, front, contents, numbers_of, bytes, range_of};
ghost use Rattle.book.specs.Counts.{row_numbers, text_bytes, InLimits};
ghost use Rattle.book.specs.declared.Content.TheVariants.{Statements};
ghost use Rattle.text.specs.Lines.{inside, line_of};
ghost use Rattle.text.specs.Reading.{read_answer};
ghost use Rattle.text.specs.Tables.{cut, rows_of, test_rows, shape_in, miscount, test_table};
ghost use Rattle.text.specs.Writing.{text_of};
ghost use Rattle.fields.specs.Short.{all_short};
ghost use Rattle.read.specs.Storing.{none_seen};
ghost use Rattle.write.specs.Testing.{test_seen, row_is, on_tested};
ghost use Rattle.write.specs.Parts.{lines_at, rows_text};
ghost use Rattle.write.specs.Promise.{Met};

use book::{Book, Content, Fault, Kind, Shape};
use fields::Seen;
use text::Refusal;

// ---- the test of a row

// The numbers of a row of kind x, from a place of the table on: what they say in a book of n statements and m exceptions, or the refusal.
pub fn test_fields(t: &[i32], from: usize, x: Kind, n: usize, m: usize) -> Result<Seen, Fault>
    requires { (from + x.numbers ≤ length t.now) × (x.from + x.numbers ≤ length contents) × (n < 2147483648) × (m < 2147483648) }
    ensures { numbered result ≡ test_seen n m (numbers_of x) (none_seen n) (drop from t.now) }
{
    let mut seen = Seen {
        statements: n,
        missing: false,
        miscounted: false,
    };
    for i in 0..x.numbers {
        let content = book::content_at(x.from + i);
        let v = t[from + i];
        fields::check_number(content, n, v)?;
        seen = fields::see(seen, content, m, 0, v);
    }
    Ok(seen)
}

// A row of the kind at place k, from a place of the table on: 6, its kind's own refusal for heads, 10.
pub fn test_row(t: &[i32], from: usize, k: usize, n: usize, m: usize) -> Result<(), Fault>
    requires { (first < k) × (k < last) × (from + (kind k).numbers ≤ length t.now) × (n < 2147483648) × (m < 2147483648) }
    ensures { numbered result ≡ row_is n m k (take (kind k).numbers (drop from t.now)) }
{
    let x = book::kind_at(k);
    let seen = test_fields(t, from, x, n, m)?;
    if fields::is_headless(&t[from..], x) {
        return Err(x.unfilled);
    }
    if seen.missing {
        return Err(Fault::NoException);
    }
    Ok(())
}

// ---- the test of a table

// c rows of the kind at place k, from a place of the table on; the first would have this line.
pub fn test_kind(
    t: &[i32],
    from: usize,
    k: usize,
    c: usize,
    s: Shape,
    line: usize,
) -> Result<(), Refusal>
    requires { (first < k) × (k < last) × (from + c * (kind k).numbers ≤ length t.now) × (s.statements < 2147483648) × (s.exceptions < 2147483648) × (line + c < 2147483648) }
    ensures { (ks : List ℕ) → read_answer (test_rows s (cut (replicate c k ++ ks) (drop from t.now)) line) ≡ on_tested result (read_answer (test_rows s (cut ks (drop (from + c * (kind k).numbers) t.now)) (line + c))) }
{
    let x = book::kind_at(k);
    let w = x.numbers;
    let n = s.statements;
    let m = s.exceptions;
    let mut at = from;
    for i in 0..c {
        test_row(t, at, k, n, m).map_err(|fault| Refusal::of(fault, line + i))?;
        at += w;
    }
    Ok(())
}

// The rows of a table of this shape, from the top.
pub fn test_rows(t: &[i32], s: Shape) -> Result<Shape, Refusal>
    requires { InLimits s × (length t.now ≡ front + row_numbers s) }
    ensures { result ≡ read_answer (test_rows s (rows_of s (drop front t.now)) 2) }
{
    let mut from = Book::FRONT;
    let mut line = 2;
    for k in Book::AT_PLAIN..Book::AT_LAST {
        let c = book::count_of(s, k);
        test_kind(t, from, k, c, s, line)?;
        let x = book::kind_at(k);
        from += c * x.numbers;
        line += c;
    }
    Ok(s)
}

// The count of a kind x in front of a table is negative or over its limit, if it is a kind of row.
pub fn count_over(t: &[i32], x: Kind) -> bool
    requires { (x.count < length t.now) × (x.limit < 2147483648) }
    ensures { result ≡ miscount t.now x }
{
    let v = t[x.count];
    x.row & ((v < 0) | !fields::at_most(v, x.limit))
}

// Some count of the table is.
pub fn counts_over(t: &[i32]) -> bool
    requires { front ≤ length t.now }
    ensures { result ≡ some (miscount t.now) kinds }
{
    for k in 0..Book::KINDS {
        let x = book::kind_at(k);
        if count_over(t, x) {
            return true;
        }
    }
    false
}

// n and the counts of a table, as a shape.
pub fn shape_in(t: &[i32]) -> Shape
    requires { front ≤ length t.now }
    ensures { result ≡ shape_in t.now }
{
    let mut counts = [0usize; Book::KINDS];
    for k in 0..Book::KINDS {
        let x = book::kind_at(k);
        counts[k] = fields::to_nat(t[x.count]);
    }
    book::shape_from(fields::to_nat(t[0]), counts)
}

// The test of a table whose n is right: the counts, the length, the rows.
pub fn test_counts(t: &[i32]) -> Result<Shape, Refusal>
    requires { (front ≤ length t.now) × (inside (range_of Statements 0) (get_or t.now 0 (pos 0)) ≡ true) }
    ensures { result ≡ read_answer (test_table t.now) }
{
    if counts_over(t) {
        return Err(Refusal::of(Fault::TooMany, 1));
    }
    let s = shape_in(t);
    if t.len() != Book::FRONT + book::row_numbers(s) {
        return Err(Refusal::of(Fault::TableLength, 0));
    }
    test_rows(t, s)
}

// The test of a number table: its shape, or the refusal.
pub fn test_table(t: &[i32]) -> Result<Shape, Refusal>
    ensures { result ≡ read_answer (test_table t.now) }
{
    if t.len() < Book::FRONT {
        return Err(Refusal::of(Fault::TableLength, 0));
    }
    fields::check_number(Content::Statements, 0, t[0]).map_err(|fault| Refusal::of(fault, 1))?;
    test_counts(t)
}

// ---- the text written

// The line of the kind at place k with the numbers of t from a place on, its line feed too, at a place of a buffer.
pub fn put_line(buf: &mut [u8], at: usize, k: usize, t: &[i32], from: usize)
    requires { (k < none) × all_short t.now × (from + (kind k).fields ≤ length t.now) × (at + bytes (kind k) ≤ length buf.old) }
    ensures { buf.new ≡ sets buf.old at (line_of k (take (kind k).fields (drop from t.now)) ++ (10 ∷ [])) }
{
    let x = book::kind_at(k);
    let w = x.fields;
    buf[at] = x.letter;
    fields::put_numbers(buf, at + 1, t, from, w);
    buf[at + 1 + w * Book::COLUMNS] = b'\n';
}

// c lines of the kind of row at place k, with the numbers of t from a place on, at a place of a buffer.
pub fn put_kind(buf: &mut [u8], at: usize, k: usize, c: usize, t: &[i32], from: usize)
    requires { (first < k) × (k < last) × all_short t.now × (from + c * (kind k).numbers ≤ length t.now) × (at + c * bytes (kind k) ≤ length buf.old) }
    ensures { buf.new ≡ sets buf.old at (lines_at k t.now from c) }
{
    let x = book::kind_at(k);
    let w = x.numbers;
    let b = book::line_bytes(k);
    let mut a = at;
    let mut f = from;
    for _i in 0..c {
        put_line(buf, a, k, t, f);
        a += b;
        f += w;
    }
}

// The rows of a table of this shape, at a place of a buffer.
pub fn put_rows(buf: &mut [u8], at: usize, s: Shape, t: &[i32])
    requires { all_short t.now × (length t.now ≡ front + row_numbers s) × (at + length (rows_text s t.now) ≤ length buf.old) }
    ensures { buf.new ≡ sets buf.old at (rows_text s t.now) }
{
    let mut a = at;
    let mut f = Book::FRONT;
    for k in Book::AT_PLAIN..Book::AT_LAST {
        let c = book::count_of(s, k);
        put_kind(buf, a, k, c, t, f);
        let x = book::kind_at(k);
        a += c * book::line_bytes(k);
        f += c * x.numbers;
    }
}

// The text of a table of this shape, in front of a buffer that is long enough: B, the rows, Z.
pub fn put_text(buf: &mut [u8], s: Shape, t: &[i32])
    requires { InLimits s × all_short t.now × (length t.now ≡ front + row_numbers s) × (text_bytes s ≤ length buf.old) }
    ensures { buf.new ≡ sets buf.old 0 (text_of s (drop front t.now)) }
{
    let b = [1i32, s.statements as i32];
    put_line(buf, 0, Book::AT_FIRST, &b, 0);
    put_rows(buf, book::line_bytes(Book::AT_FIRST), s, t);
    let z = [book::total(s) as i32];
    put_line(
        buf,
        book::text_bytes(s) - book::line_bytes(Book::AT_LAST),
        Book::AT_LAST,
        &z,
        0,
    );
}

// Write: from a number table to its text in front of the lent slice. It answers the text's length, or the refusal; after a refusal the
// slice is as it was.
pub fn write(table: &[i32], buf: &mut [u8]) -> Result<usize, Refusal>
    ensures { Met table.now buf.old result buf.new }
{
    let s = test_table(table)?;
    let n = book::text_bytes(s);
    if buf.len() < n {
        return Err(Refusal::of(Fault::BufferShort, 0));
    }
    put_text(buf, s, table);
    Ok(n)
}
