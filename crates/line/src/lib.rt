// Line: from a text and a lawful pair to the A line of the pair, in front of a lent buffer.
#![tactic(auto)]

ghost use Rattle.std.specs.Prelude.{◌≡◌, map, ◌+◌, ◌*◌, ◌<◌, ◌≤◌, length, replicate};
ghost use Rattle.std.proofs.lemmas.List.Edits.{sets};
ghost use Rattle.book.specs.Limits as limit;
ghost use Rattle.text.specs.ALines.{from, line_fields, taken_fields, mark as mark_of, a_line};
ghost use Rattle.answers.specs.Operations.{line_answer};
ghost use Rattle.line.specs.Parts.{fields_of, taken_of, line_bytes};
ghost use Rattle.line.specs.Promise.{Met, part_of};

use book::{Book, Fault};
use sets::Pair;
use text::Refusal;

// Where the fields of the exceptions begin in a line.
const AT_TAKEN: usize = 1 + Book::COLUMNS;

// ---- how long a line is

// How many fields for exceptions a line has in a book with so many exceptions: fewer in books that keep the short form.
pub fn line_fields(exceptions: usize) -> usize
    ensures { (result ≡ line_fields exceptions) × (result ≤ limit.exceptions) }
{
    if exceptions <= Book::SHORT_LINE {
        return Book::SHORT_LINE;
    }
    Book::EXCEPTIONS
}

// The bytes of a line with w fields for exceptions in a book of n statements, its line feed too.
pub fn line_bytes(w: usize, n: usize) -> usize
    requires { (w ≤ 64) × (n ≤ 64) }
    ensures { result ≡ line_bytes w n }
{
    AT_TAKEN + w * Book::COLUMNS + n + 1
}

// ---- the fields

// The fields of the exceptions taken of the first w, ascending, in front of a buffer; how many there are.
pub fn put_members(buf: &mut [u8], w: usize, taken: u64) -> usize
    requires { (w ≤ 64) × (w * 4 ≤ length buf.old) }
    ensures { (buf.new ≡ sets buf.old 0 (fields_of (taken_of w taken))) × (result ≡ length (taken_of w taken)) × (result ≤ w) }
{
    let mut k = 0;
    for i in 0..w {
        if sets::member((i + 1) as u64, taken) {
            fields::put_columns(buf, k * Book::COLUMNS, false, (i + 1) as u32);
            k += 1;
        }
    }
    k
}

// w fields of 0 in front of a buffer.
pub fn put_zeros(buf: &mut [u8], w: usize)
    requires { w * 4 ≤ length buf.old }
    ensures { buf.new ≡ sets buf.old 0 (fields_of (replicate w 0)) }
{
    for i in 0..w {
        fields::put_columns(buf, i * Book::COLUMNS, false, 0);
    }
}

// The fields of the exceptions taken of the first w, then of 0, w in all, in front of a buffer.
pub fn put_taken(buf: &mut [u8], w: usize, taken: u64)
    requires { (w ≤ 64) × (w * 4 ≤ length buf.old) }
    ensures { buf.new ≡ sets buf.old 0 (fields_of (taken_fields w taken)) }
{
    let k = put_members(buf, w, taken);
    put_zeros(&mut buf[k * Book::COLUMNS..], w - k);
}

// ---- the marks

// What the pair says of statement i: held `+`, denied `-`, else `.`.
pub fn mark(p: Pair, i: u64) -> u8
    requires { (0 < i) × (i ≤ 64) }
    ensures { result ≡ mark_of p i }
{
    if sets::member(i, p.held) {
        return b'+';
    }
    if sets::member(i, p.denied) {
        return b'-';
    }
    b'.'
}

// The marks of as many statements as the buffer has bytes.
pub fn put_marks(buf: &mut [u8], p: Pair)
    requires { length buf.old ≤ 64 }
    ensures { buf.new ≡ map (mark_of p) (from 1 (length buf.old)) }
{
    for (i, b) in buf.iter_mut().enumerate() {
        *b = mark(p, (i + 1) as u64);
    }
}

// ---- the line

// The line of a pair in a book of n statements, with w fields for exceptions, its line feed too, in front of a buffer.
pub fn put_line(buf: &mut [u8], w: usize, n: usize, p: Pair)
    requires { (w ≤ 64) × (n ≤ 64) × (line_bytes w n ≤ length buf.old) }
    ensures { buf.new ≡ sets buf.old 0 (a_line w n p) }
{
    let marks = AT_TAKEN + w * Book::COLUMNS;
    buf[0] = b'A';
    fields::put_columns(buf, 1, false, sets::size(p.taken));
    put_taken(&mut buf[AT_TAKEN..], w, p.taken);
    put_marks(&mut buf[marks..marks + n], p);
    buf[marks + n] = b'\n';
}

// Line: the line of a lawful pair in front of the lent buffer. It answers the line's length, or the refusal of the text, then of the
// pair, then 15 for a buffer that is too short; after a refusal the buffer is as it was.
pub fn line(text: &[u8], p: Pair, buf: &mut [u8]) -> Result<usize, Refusal>
    ensures { Met text.now p buf.old result buf.new }
{
    let mut scratch = Book::empty();
    let s = read::parse(text, &mut scratch.rows)?;
    lawful::check(s.statements, s.exceptions, p)?;
    let w = line_fields(s.exceptions);
    let m = line_bytes(w, s.statements);
    if buf.len() < m {
        return Err(Refusal::of(Fault::BufferShort, 0));
    }
    put_line(buf, w, s.statements, p);
    Ok(m)
}

// Line's second form: the part of the buffer that holds the line, an empty part on refusal. The bytes past it are as `line` leaves them.
pub fn line_part<'a>(text: &[u8], p: Pair, buf: &'a mut [u8]) -> &'a mut [u8]
    ensures { result.now ≡ part_of (line_answer text.now p (length buf.old)) }
{
    let k = line(text, p, buf).unwrap_or(0);
    &mut buf[..k]
}
