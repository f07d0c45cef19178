// Fields: four columns read and written, and the number of a field against what its content allows.
#![tactic(auto)]

ghost use Rattle.std.specs.Prelude.{◌≡◌, true, false, [], ◌∷◌, ◌+◌, ◌*◌, ◌<◌, ◌≤◌, pos, length, get_or, drop, take};
ghost use Rattle.std.proofs.lemmas.List.Edits.{sets};
ghost use Rattle.std.specs.Int.Signed.{le_z};
ghost use Rattle.logic.specs.Tests.{both};
ghost use Rattle.book.specs.Faults.{number, numbered};
ghost use Rattle.book.specs.Kinds.{range_of};
ghost use Rattle.text.specs.Fields.{digit_of, column_of, columns, minus_in, signed, size_of, same, spelt, first_field, written, written_all, Short};
ghost use Rattle.text.specs.Fields.{is_space, is_digit, stray_byte, stray, gapped, misspelling as misspelling_of, is_number};
ghost use Rattle.text.specs.Lines.{between, filled_in, headless};
ghost use Rattle.text.specs.Reading.{to_nat};
ghost use Rattle.fields.specs.Checks.{number_is, ranged, see_of};
ghost use Rattle.fields.specs.Short.{all_short};

use book::{Book, Content, Fault, Kind};

// ---- four columns read

// The digit that a byte is, 0 for every other byte.
pub fn digit(b: u8) -> u32
    ensures { (result ≡ digit_of b) × (result ≤ 9) }
{
    if b.is_ascii_digit() {
        u32::from(b - b'0')
    } else {
        0
    }
}

// The byte in the column worth `scale` of a number of size m, negative or not.
pub fn column(neg: bool, m: u32, scale: u32) -> u8
    requires { (0 < scale) × (m < 10000) }
    ensures { result ≡ column_of neg m scale }
{
    if scale == 1 || scale <= m {
        return b'0' + (m / scale % 10) as u8;
    }
    if neg && scale <= m * 10 {
        return b'-';
    }
    b' '
}

// A minus stands in one of the first three columns.
pub fn minus_in(a: u8, b: u8, c: u8) -> bool
    ensures { result ≡ minus_in a b c }
{
    (a == b'-') | (b == b'-') | (c == b'-')
}

// The number of this sign and size.
pub fn to_signed(neg: bool, v: u32) -> i32
    requires { v < 10000 }
    ensures { result ≡ signed neg v }
{
    let m = v as i32;
    if neg { -m } else { m }
}

// The size of the number that the digits of four columns make.
pub fn size(a: u8, b: u8, c: u8, d: u8) -> u32
    ensures { (result ≡ size_of a b c d) × (result < 10000) }
{
    digit(a) * 1000 + digit(b) * 100 + digit(c) * 10 + digit(d)
}

// Four columns are how the number of this sign and size is written.
pub fn columns_are(neg: bool, m: u32, a: u8, b: u8, c: u8, d: u8) -> bool
    requires { m < 10000 }
    ensures { result ≡ same (columns neg m) (a ∷ b ∷ c ∷ d ∷ []) }
{
    (column(neg, m, 1000) == a)
        & (column(neg, m, 100) == b)
        & (column(neg, m, 10) == c)
        & (column(neg, m, 1) == d)
}

// ---- four columns misspelt

// A byte, between its neighbours, is no space, digit or minus, or is a minus out of its place.
pub fn is_stray(before: u8, b: u8, after: u8) -> bool
    ensures { result ≡ stray_byte before b after }
{
    match b {
        b'-' => before.is_ascii_digit() | !after.is_ascii_digit(),
        b' ' => false,
        _ => !b.is_ascii_digit(),
    }
}

// Some column has such a byte: 5.
pub fn has_stray(a: u8, b: u8, c: u8, d: u8) -> bool
    ensures { result ≡ stray (a ∷ b ∷ c ∷ d ∷ []) }
{
    is_stray(0, a, b) | (is_stray(a, b, c) | (is_stray(b, c, d) | is_stray(c, d, 0)))
}

// A byte is a space directly after a digit.
pub fn is_gap(before: u8, b: u8) -> bool
    ensures { result ≡ both (is_digit before) (is_space b) }
{
    before.is_ascii_digit() & (b == b' ')
}

// The columns are blank, or a space follows a digit: 17.
pub fn has_gap(a: u8, b: u8, c: u8, d: u8) -> bool
    ensures { result ≡ gapped (a ∷ b ∷ c ∷ d ∷ []) }
{
    let blank = (a == b' ') & ((b == b' ') & ((c == b' ') & (d == b' ')));
    blank | (is_gap(a, b) | (is_gap(b, c) | is_gap(c, d)))
}

// The refusal of columns that are misspelt: 5, 17, and for all that is left 18.
pub fn misspelling(a: u8, b: u8, c: u8, d: u8) -> Fault
    requires { is_number a b c d ≡ false }
    ensures { number result ≡ misspelling_of (a ∷ b ∷ c ∷ d ∷ []) }
{
    let stray = has_stray(a, b, c, d);
    let gap = has_gap(a, b, c, d);
    if stray {
        return Fault::StrayByte;
    }
    if gap {
        return Fault::Gap;
    }
    Fault::WrongZero
}

// ---- a field

// One or two digits after spaces, a minus directly before them or not, no leading zero and no "-0": so most fields are, and all such columns
// are how their number is written.
pub fn is_usual(a: u8, b: u8, c: u8, d: u8) -> bool
    ensures { result ≡ true → is_number a b c d ≡ true }
{
    if (a != b' ') | !d.is_ascii_digit() {
        return false;
    }
    if (b'1' <= c) & (c <= b'9') {
        return (b == b' ') | (b == b'-');
    }
    (b == b' ') & ((c == b' ') | ((c == b'-') & (d != b'0')))
}

// What four columns are: a number, or misspelt, with what is wrong. The number of a usual field is made apart: what the look has told of its
// columns makes that cheap.
pub fn spell(a: u8, b: u8, c: u8, d: u8) -> Result<i32, Fault>
    ensures { numbered result ≡ spelt a b c d }
{
    if is_usual(a, b, c, d) {
        return Ok(to_signed(minus_in(a, b, c), size(a, b, c, d)));
    }
    let m = size(a, b, c, d);
    let neg = minus_in(a, b, c);
    if columns_are(neg, m, a, b, c, d) {
        return Ok(to_signed(neg, m));
    }
    Err(misspelling(a, b, c, d))
}

// The field that starts at a place of the text.
pub fn read_field(text: &[u8], at: usize) -> Result<i32, Fault>
    requires { at + 4 ≤ length text.now }
    ensures { numbered result ≡ first_field (drop at text.now) }
{
    spell(text[at], text[at + 1], text[at + 2], text[at + 3])
}

// ---- the number of a field

// A number against a range: what is wrong, by whatever word the caller has for it, if it lies outside.
pub fn in_range<E: Copy>(low: i32, high: i32, fault: E, v: i32) -> Result<(), E>
    ensures { result ≡ ranged low high fault v }
{
    if low <= v && v <= high {
        Ok(())
    } else {
        Err(fault)
    }
}

// A number against what a field of this content may hold in a book of n statements.
pub fn check_number(content: Content, n: usize, v: i32) -> Result<(), Fault>
    requires { n < 2147483648 }
    ensures { numbered result ≡ number_is (range_of content n) v }
{
    match content {
        Content::Edition => in_range(1, 1, Fault::Edition, v),
        Content::Statements => in_range(1, Book::STATEMENTS as i32, Fault::OutOfRange, v),
        Content::Literal => in_range(-(n as i32), n as i32, Fault::OutOfRange, v),
        Content::Exception => in_range(1, Book::EXCEPTIONS as i32, Fault::OutOfRange, v),
        Content::Total => in_range(0, Book::ROWS as i32, Fault::OutOfRange, v),
    }
}

// A number that is not negative; else 0.
pub fn to_nat(v: i32) -> usize
    ensures { (result ≡ to_nat v) × (result < 2147483648) }
{
    usize::try_from(v).unwrap_or(0)
}

// A number is at most a count.
pub fn at_most(v: i32, m: usize) -> bool
    requires { m < 2147483648 }
    ensures { result ≡ le_z v (pos m) }
{
    v <= m as i32
}

// A number is a count.
pub fn is_count(v: i32, m: usize) -> bool
    requires { m < 2147483648 }
    ensures { result ≡ between (pos m) (pos m) v }
{
    v == m as i32
}

// What the numbers of a line say beside their ranges: n, an exception that is missing, a wrong number of rows.
#[derive(Clone, Copy)]
pub struct Seen {
    pub statements: usize,
    pub missing: bool,
    pub miscounted: bool,
}

// One number more, in a field of this content, where the book has so many exceptions and rows.
pub fn see(s: Seen, content: Content, exceptions: usize, rows: usize, v: i32) -> Seen
    requires { (exceptions < 2147483648) × (rows < 2147483648) }
    ensures { result ≡ see_of s content exceptions rows v }
{
    match content {
        Content::Statements => Seen {
            statements: to_nat(v),
            ..s
        },
        Content::Exception => Seen {
            missing: s.missing | !at_most(v, exceptions),
            ..s
        },
        Content::Total => Seen {
            miscounted: s.miscounted | !is_count(v, rows),
            ..s
        },
        Content::Edition | Content::Literal => s,
    }
}

// How many numbers of a slice are filled: not 0.
pub fn filled_in(t: &[i32]) -> usize
    ensures { result ≡ filled_in t.now }
{
    let mut n = 0;
    for &v in t {
        if v != 0 {
            n += 1;
        }
    }
    n
}

// A line of kind x, its numbers in front of a slice, has fewer heads filled than it must have.
pub fn is_headless(t: &[i32], x: Kind) -> bool
    requires { x.heads ≤ length t.now }
    ensures { result ≡ headless x t.now }
{
    x.filled != 0 && filled_in(&t[..x.heads]) < x.filled
}

// ---- four columns written

// The columns of a number of this sign and size at a place of a buffer.
// Kept: a place beside the buffer, as the definitions store (`sets buf at ..`): with `&mut buf[at..]` each caller cuts, and its proof joins again.
pub fn put_columns(buf: &mut [u8], at: usize, neg: bool, m: u32)
    requires { (m < 10000) × (at + 4 ≤ length buf.old) }
    ensures { buf.new ≡ sets buf.old at (columns neg m) }
{
    buf[at] = column(neg, m, 1000);
    buf[at + 1] = column(neg, m, 100);
    buf[at + 2] = column(neg, m, 10);
    buf[at + 3] = column(neg, m, 1);
}

// The field of a number at a place of a buffer.
pub fn put_number(buf: &mut [u8], at: usize, v: i32)
    requires { Short v × (at + 4 ≤ length buf.old) }
    ensures { buf.new ≡ sets buf.old at (written v) }
{
    put_columns(buf, at, v < 0, v.unsigned_abs());
}

// The fields of w numbers of t from a place on, at a place of a buffer.
pub fn put_numbers(buf: &mut [u8], at: usize, t: &[i32], from: usize, w: usize)
    requires { all_short (take w (drop from t.now)) × (from + w ≤ length t.now) × (at + w * 4 ≤ length buf.old) }
    ensures { buf.new ≡ sets buf.old at (written_all (take w (drop from t.now))) }
{
    for i in 0..w {
        put_number(buf, at + i * Book::COLUMNS, t[from + i]);
    }
}
