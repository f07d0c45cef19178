// Read: from a text to the number table. One pass finds a line's end, one reads its fields.
#![tactic(auto)]

ghost use Rattle.std.specs.Prelude.{◌≡◌, [], ◌+◌, ◌*◌, ◌<◌, ◌≤◌, length, get_or, drop, take, MatchOption};
ghost use Rattle.std.proofs.lemmas.List.Edits.{sets};
ghost use Rattle.book.specs.Faults.{numbered};
ghost use Rattle.book.specs.Kinds.{none, range_of, contents, fields_of, widest, front, longest, room, exception};
ghost use Rattle.book.specs.Counts.{InLimits};
ghost use Rattle.text.specs.Fields.{first_field};
ghost use Rattle.text.specs.Lines.{kind_for, read_line, lines};
ghost use Rattle.text.specs.Reading.{start, last_byte, read_lines, read_book, table_of, over};
ghost use Rattle.read.specs.Storing.{number_of, answer_fields, store_fields, whole_is, answer_line, store_line, step_with, until_feed, end_of, front_is, outcome_of};
ghost use Rattle.read.specs.Parsing.{Parsing, Met};

use book::{Book, Content, Fault, Kind, Shape};
use cursor::Cursor;
use fields::Seen;
use text::{Refusal, State};

// The place of the kind of a line with this letter, if there is one; the kinds before `next` may not come any more.
pub fn kind_for(next: usize, b: u8) -> Option<usize>
    ensures { MatchOption result (kind_for next b ≡ none) (λ k. (k ≡ kind_for next b) × (k < none)) }
{
    for k in next..Book::KINDS {
        let x = book::kind_at(k);
        if x.letter == b {
            return Some(k);
        }
        if !x.row {
            return None;
        }
    }
    None
}

// The field at a place of the text, tested by what its content may hold: its number, or the refusal.
pub fn read_number(text: &[u8], at: usize, content: Content, n: usize) -> Result<i32, Fault>
    requires { (at + 4 ≤ length text.now) × (n < 2147483648) }
    ensures { numbered result ≡ number_of (first_field (drop at text.now)) (range_of content n) }
{
    let v = fields::read_field(text, at)?;
    fields::check_number(content, n, v)?;
    Ok(v)
}

// The fields of a line of kind x, its letter before `at`, into t from `to` on: what its numbers say, or the refusal.
pub fn read_fields(
    text: &[u8],
    at: usize,
    x: Kind,
    st: State,
    t: &mut [i32],
    to: usize,
) -> Result<Seen, Fault>
    requires { (at + x.fields * 4 ≤ length text.now) × (to + x.fields ≤ length t.old) × (x.from + x.fields ≤ length contents) × (st.statements < 2147483648) × (get_or st.counts exception 0 < 2147483648) × (st.rows < 2147483648) }
    ensures { answer_fields (numbered result) t.new ≡ store_fields st.statements (get_or st.counts exception 0) st.rows (fields_of x) t.old to (drop at text.now) }
{
    let n = st.statements;
    let exceptions = st.counts[Book::AT_EXCEPTION];
    let mut seen = Seen {
        statements: n,
        missing: false,
        miscounted: false,
    };
    for i in 0..x.fields {
        let content = book::content_at(x.from + i);
        let v = read_number(text, at + i * Book::COLUMNS, content, n)?;
        t[to + i] = v;
        seen = fields::see(seen, content, exceptions, st.rows, v);
    }
    Ok(seen)
}

// The test of a line as a whole: 8 (for Q lines 19, for O lines 22), 9 (for O lines 23), 10, 11 in this order, the first two being its
// kind's own.
pub fn line_fault(x: Kind, count: usize, headless: bool, seen: Seen) -> Result<(), Fault>
    ensures { numbered result ≡ whole_is x count headless seen }
{
    if x.limit <= count {
        return Err(x.over);
    }
    if headless {
        return Err(x.unfilled);
    }
    if seen.missing {
        return Err(Fault::NoException);
    }
    if seen.miscounted {
        return Err(Fault::WrongTotal);
    }
    Ok(())
}

// The line of len bytes, without its line feed, at a place of the text: the place of its kind, and n after it; or the refusal. Its numbers go
// to t from `to` on.
pub fn read_line(
    text: &[u8],
    at: usize,
    len: usize,
    st: State,
    t: &mut [i32],
    to: usize,
) -> Result<(usize, usize), Fault>
    requires { (at + len ≤ length text.now) × (to + widest ≤ length t.old) × (st.statements < 2147483648) × (get_or st.counts exception 0 < 2147483648) × (st.rows < 2147483648) }
    ensures { answer_line (numbered result) t.new ≡ store_line st t.old to (read_line st (take len (drop at text.now))) }
{
    if len == 0 {
        return Err(Fault::NotAllowed);
    }
    let Some(k) = kind_for(st.next, text[at]) else {
        return Err(Fault::NotAllowed);
    };
    let x = book::kind_at(k);
    if len - 1 != x.fields * Book::COLUMNS {
        return Err(Fault::LineLength);
    }
    let seen = read_fields(text, at + 1, x, st, t, to)?;
    line_fault(x, st.counts[k], fields::is_headless(&t[to..], x), seen)?;
    Ok((k, seen.statements))
}

// The bytes before the next line feed.
pub fn line_length(text: &[u8]) -> usize
    ensures { (result ≡ until_feed text.now) × (result ≤ length text.now) }
{
    text.iter().position(|&b| b == b'\n').unwrap_or(text.len())
}

// The state before the first line.
pub fn empty() -> State
    ensures { result ≡ start }
{
    State {
        next: Book::AT_FIRST,
        statements: 0,
        counts: [0usize; Book::KINDS],
        rows: 0,
    }
}

// The state after a line of the kind at place k, n being known.
pub fn stepped(st: State, k: usize, n: usize) -> State
    requires { (k < none) × (get_or st.counts k 0 < 2147483648) × (st.rows < 2147483648) }
    ensures { result ≡ step_with st k n }
{
    let mut counts = st.counts;
    counts[k] += 1;
    if book::kind_at(k).row {
        return State {
            next: k,
            statements: n,
            counts,
            rows: st.rows + 1,
        };
    }
    State {
        next: k + 1,
        statements: n,
        counts,
        rows: st.rows,
    }
}

// The answer where no line is left, or Z has come: the book's shape and where the reader is after its Z, or the refusal.
pub fn ended(st: State, c: Cursor) -> Result<(Shape, Cursor), Refusal>
    ensures { result ≡ end_of st c }
{
    if st.next != Book::KINDS {
        return Err(Refusal::of(Fault::NotAllowed, c.line));
    }
    Ok((book::shape_from(st.statements, st.counts), c))
}

// The book in front of what is left of a text from a cursor on, up to its Z, and where the reader is then; the rows' numbers go to the
// front of t.
pub fn read_book(text: &[u8], from: Cursor, t: &mut [i32]) -> Result<(Shape, Cursor), Refusal>
    requires { (from.at ≤ length text.now) × (from.line ≤ from.at + 1) × (length text.now ≤ longest) × (last_byte text.now ≡ 10) × (room ≤ length t.old) }
    ensures { front_is text.now result t.new ≡ read_book (lines (drop from.at text.now)) start from.line }
{
    let mut st = empty();
    let mut c = from;
    let mut to = 0;
    // Kept: a while, for the cursor goes on by whole lines: no range gives its places.
    while c.at < text.len() {
        if st.next == Book::KINDS {
            return ended(st, c);
        }
        let len = line_length(&text[c.at..]);
        let (k, n) = read_line(text, c.at, len, st, t, to).map_err(|fault| Refusal::of(
            fault, c.line,
        ))?;
        st = stepped(st, k, n);
        to += book::numbers_at(k);
        c.advance(len);
    }
    ended(st, c)
}

// The lines of a text that ends with a line feed, with nothing after the book; the rows' numbers go to the front of t.
pub fn read_lines(text: &[u8], t: &mut [i32]) -> Result<Shape, Refusal>
    requires { (length text.now ≤ longest) × (last_byte text.now ≡ 10) × (room ≤ length t.old) }
    ensures { outcome_of result t.new ≡ read_lines (lines text.now) start 1 }
{
    let (s, c) = read_book(text, Cursor::first(), t)?;
    if c.at < text.len() {
        return Err(Refusal::of(Fault::NotAllowed, c.line));
    }
    Ok(s)
}

// The parse of a text into a scratch of the caller's own: the outcome of reading, with an accepted book's rows at the front of the
// scratch. Read, Judge, First, After and Line all begin with it.
pub fn parse(text: &[u8], rows: &mut [i32; Book::ROOM]) -> Result<Shape, Refusal>
    ensures { Parsing text.now result rows.new }
{
    if Book::TEXT < text.len() {
        return Err(Refusal::of(Fault::TooLong, 0));
    }
    if text.len() == 0 {
        return Err(Refusal::of(Fault::NoLineFeed, 0));
    }
    if text[text.len() - 1] != b'\n' {
        return Err(Refusal::of(Fault::NoLineFeed, 0));
    }
    read_lines(text, rows)
}

// The numbers before a table's rows, in front of a slice that is long enough.
pub fn put_front(table: &mut [i32], s: Shape)
    requires { (front ≤ length table.old) × InLimits s }
    ensures { table.new ≡ sets table.old 0 (table_of s []) }
{
    for (i, &number) in book::front_of(s).iter().enumerate() {
        table[i] = number as i32;
    }
}

// The number table of a book in front of a slice that is long enough.
pub fn put_table(table: &mut [i32], s: Shape, rows: &[i32])
    requires { (front + length rows.now ≤ length table.old) × InLimits s }
    ensures { table.new ≡ over table.old (table_of s rows.now) }
{
    put_front(table, s);
    table[Book::FRONT..Book::FRONT + rows.len()].copy_from_slice(rows);
}

// Read: from a text to the number table in front of the lent slice. It answers the numbers before the table's rows, or the refusal;
// after a refusal the slice is as it was.
pub fn read(text: &[u8], table: &mut [i32]) -> Result<Shape, Refusal>
    ensures { Met text.now table.old result table.new }
{
    let mut scratch = Book::empty();
    let s = parse(text, &mut scratch.rows)?;
    let m = book::row_numbers(s);
    if table.len() < Book::FRONT + m {
        return Err(Refusal::of(Fault::BufferShort, 0));
    }
    let rows = &scratch.rows[..m];
    put_table(table, s, rows);
    Ok(s)
}
