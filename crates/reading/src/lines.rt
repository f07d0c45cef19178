// Texts that Read turns down, by place: the whole text, each line's letter, length, fields, the line as a whole, the lent slice.
// One book of seventeen lines is read with other bytes in the place of one of its lines, or of one or two of its fields.
ghost use Rattle.std.specs.Prelude.{◌<◌, ◌≤◌};

use crate::{books, rows};
use std::io;

// The lines of the book.
const BOOK: [&[u8]; 17] = [
    b"B   1   3\n",
    b"R   0   0   0   0   0   1   2   0   0\n",
    b"R   3   1   0   0   0   0   0   0   0\n",
    b"R  -1  -2   0   0   0   3   0   0  -3\n",
    b"O   1   2   0   0   0   0   0   0   0   0   0\n",
    b"O   0  -3   3   1  -2   0   0   0   0   0  -1\n",
    b"O   2   2   0   0   0   0   0   3   0   0   0\n",
    b"X   1   0   0   0   0   0   0   0   0\n",
    b"X   2   0   0   0   0   0   0   0   0\n",
    b"X   3   0   0   0   0   0   0   0   0\n",
    b"P   1   2\n",
    b"P   2   3\n",
    b"P   3   3\n",
    b"Q   1   3   0   0   0   0   2   0   0   0\n",
    b"Q   3   2  -1   2   0   0   0   0   0  -3\n",
    b"Q   2   2   0   0   0   0   0   0   0   0\n",
    b"Z  15\n",
];

// The book with these bytes in the place of line k and its line feed; line 18 comes after the last, line 0 is none. The place after it all.
fn exchange(buf: &mut [u8; books::ROOM], k: usize, new: &[u8]) -> usize
    ensures { result ≤ 11900 }
{
    let mut to = 0;
    for (i, own) in BOOK.iter().enumerate() {
        let line = if i + 1 == k { new } else { *own };
        to = books::put(buf, to, line);
    }
    if k == 18 {
        to = books::put(buf, to, new);
    }
    to
}

// Where line k of the book begins.
fn start(k: usize) -> usize
    ensures { result ≤ 532 }
{
    match k {
        0 | 1 => 0,
        2..=4 => 10 + (k - 2) * 38,
        5..=7 => 124 + (k - 5) * 46,
        8..=10 => 262 + (k - 8) * 38,
        11..=13 => 376 + (k - 11) * 10,
        14..=16 => 406 + (k - 14) * 42,
        _ => 532,
    }
}

// The row of a whole text.
fn text(rt: &impl Print, t: &[u8]) -> io::Result<()> {
    rows::quote(rt, t)?;
    rows::read_row(rt, t)
}

// The row of the book with these bytes in the place of line k.
fn with(rt: &impl Print, k: usize, new: &[u8]) -> io::Result<()> {
    let mut buf = [0u8; books::ROOM];
    let end = exchange(&mut buf, k, new);
    print!(rt; "line {k} ")?;
    rows::quote(rt, new)?;
    rows::read_row(rt, &buf[..end])
}

// The row of the book with these bytes in line k, from field f on; the first field is 1.
fn field(rt: &impl Print, k: usize, f: u8, new: &[u8]) -> io::Result<()> {
    if f == 0 {
        return Ok(());
    }
    let mut buf = [0u8; books::ROOM];
    let end = exchange(&mut buf, 0, b"");
    books::put(&mut buf, start(k) + 4 * usize::from(f) - 3, new);
    print!(rt; "line {k} field {f} ")?;
    rows::quote(rt, new)?;
    rows::read_row(rt, &buf[..end])
}

// 1 and 2, the whole text: 1 comes before 2, 2 before 3, 1 before 8, 19 and 22.
pub fn whole(rt: &impl Print) -> io::Result<()> {
    text(rt, b"")?;
    text(rt, b"B   1   1\nZ   0")?;
    text(rt, b"B   1   1\nZ   0\n\r")?;
    text(rt, b"B   1   1\nZ   0\n\x00")?;
    with(rt, 17, b"Z  15")?;
    with(rt, 17, b"Q")?;
    books::over(rt, [200, 40, 16, 32, 32], b"Z 320\nZ")?;
    books::over(rt, [200, 40, 16, 32, 32], b"Z 320 ")?;
    books::over(rt, [200, 40, 16, 33, 32], b"Z 321\n")?;
    books::over(rt, [200, 40, 16, 32, 33], b"Z 321\n")?;
    books::over(rt, [200, 41, 16, 32, 32], b"Z 321\n")
}

// 3, the letter, on the first line.
fn first_letters(rt: &impl Print) -> io::Result<()> {
    text(rt, b"\n")?;
    text(rt, b"Z   0\n")?;
    with(rt, 0, b"")?;
    with(rt, 1, b"")?;
    with(rt, 1, b"b   1   3\n")?;
    with(rt, 1, b" B   1   3\n")?;
    with(rt, 1, b"\nB   1   3\n")
}

// Between.
fn middle_letters(rt: &impl Print) -> io::Result<()> {
    with(rt, 2, b"B   1   3\n")?;
    with(rt, 9, b"\n")?;
    with(rt, 9, b"\r\n")?;
    with(rt, 9, b"R   2   0   0   0   0   0   0   0   0\n")?;
    with(rt, 9, b"S   2   0   0   0   0   0   0   0   0\n")?;
    with(rt, 9, b"\x00   2   0   0   0   0   0   0   0   0\n")?;
    with(rt, 9, b"\xd8   2   0   0   0   0   0   0   0   0\n")?;
    with(rt, 12, b"X   2   0   0   0   0   0   0   0   0\n")?;
    with(rt, 13, b"R   2   3\n")?;
    with(rt, 4, b"O   1   2   0   0   0   0   0   0   0   0   0\n")?;
    with(rt, 3, b"O   1   2   0   0   0   0   0   0   0   0   0\n")?;
    with(rt, 6, b"o   1   2   0   0   0   0   0   0   0   0   0\n")?;
    with(rt, 9, b"O   1   2   0   0   0   0   0   0   0   0   0\n")?;
    with(rt, 15, b"O   1   2   0   0   0   0   0   0   0   0   0\n")?;
    with(rt, 9, b"Q   1   1   0   0   0   0   0   0   0   0\n")?;
    with(rt, 12, b"Q   1   1   0   0   0   0   0   0   0   0\n")?;
    with(rt, 15, b"P   1   1\n")?;
    with(rt, 16, b"q   2   2   0   0   0   0   0   0   0   0\n")
}

// On the last line, where it is missing, and after it.
fn last_letters(rt: &impl Print) -> io::Result<()> {
    text(rt, b"B   1   1\n")?;
    with(rt, 9, b"Z   7\n")?;
    with(rt, 17, b"B   1   3\n")?;
    with(rt, 17, b"")?;
    with(rt, 17, b"\n")?;
    with(rt, 18, b"\n")?;
    with(rt, 18, b"Z  15\n")?;
    with(rt, 18, b"P   1   1\n")?;
    with(rt, 18, b"Q   1   1   0   0   0   0   0   0   0   0\n")
}

// 3, the letter.
pub fn letters(rt: &impl Print) -> io::Result<()> {
    first_letters(rt)?;
    middle_letters(rt)?;
    last_letters(rt)
}

// 4, the length, on the first line; it comes before 5.
fn first_lengths(rt: &impl Print) -> io::Result<()> {
    with(rt, 1, b"B\n")?;
    with(rt, 1, b"B   1\n")?;
    with(rt, 1, b"B   1   3   0\n")?;
    with(rt, 1, b"B   1   3\r\n")?;
    with(rt, 1, b"B   x\n")?;
    with(rt, 4, b"R  -1  -2   0   0   0   3   0   0 -3\n")
}

// Between and on the last; it comes after 3.
fn later_lengths(rt: &impl Print) -> io::Result<()> {
    with(rt, 5, b"O   1   2   0   0   0   0   0   0   0\n")?;
    with(rt, 6, b"O   0  -3   3   1  -2   0   0   0   0   0\n")?;
    with(
        rt,
        7,
        b"O   2   2   0   0   0   0   0   3   0   0   0   0\n",
    )?;
    with(rt, 9, b"X   2   0   0   0   0   0   0   0   0 \n")?;
    with(rt, 9, b"X   2   0   0   0   0   0   0   0   0\r\n")?;
    with(rt, 9, b"S    9\n")?;
    with(rt, 11, b"P   1\n")?;
    with(rt, 13, b"P   3   3   0\n")?;
    with(rt, 15, b"Q   3   2\n")?;
    with(rt, 15, b"Q   3   2  -1   2   0   0   0   0   0\n")?;
    with(rt, 15, b"Q   3   2  -1   2   0   0   0   0   0  -3   0\n")?;
    with(rt, 17, b"Z\n")?;
    with(rt, 17, b"Z  15\r\n")?;
    with(rt, 17, b"Z   15\n")
}

// 4, the length.
pub fn lengths(rt: &impl Print) -> io::Result<()> {
    first_lengths(rt)?;
    later_lengths(rt)
}

// 5, 17, 18 and 7 on the first line: each field from the left is tested to its end.
pub fn editions(rt: &impl Print) -> io::Result<()> {
    field(rt, 1, 1, b"  01")?;
    field(rt, 1, 1, b"\t  1")?;
    field(rt, 1, 1, b"1   ")?;
    field(rt, 1, 2, b"  +3")?;
    field(rt, 1, 2, b"    ")?;
    field(rt, 1, 1, b"   0")?;
    field(rt, 1, 1, b"   2")?;
    field(rt, 1, 1, b"  -1")?;
    field(rt, 1, 1, b"   2  49")?;
    field(rt, 1, 1, b"   2  03")?;
    field(rt, 1, 1, b"   x  49")
}

// 5, a byte that is no space, digit or minus, or a minus out of its place: each way, in a line in the middle.
pub fn strays(rt: &impl Print) -> io::Result<()> {
    field(rt, 9, 5, b"  +1")?;
    field(rt, 9, 5, b" - 1")?;
    field(rt, 9, 5, b"   -")?;
    field(rt, 9, 5, b"-  1")?;
    field(rt, 9, 5, b" --1")?;
    field(rt, 9, 5, b"  1-")?;
    field(rt, 9, 5, b" 1-1")?;
    field(rt, 9, 5, b"\t  1")?;
    field(rt, 9, 5, b"  \x001")?;
    field(rt, 9, 5, b"  \xb21")?;
    field(rt, 9, 5, b"   /")?;
    field(rt, 9, 5, b"   :")?;
    field(rt, 9, 5, b"1 1x")?;
    field(rt, 9, 5, b"01 x")?;
    field(rt, 9, 5, b"   -   1")
}

// 17, a blank field or a space after a digit.
pub fn gaps(rt: &impl Print) -> io::Result<()> {
    field(rt, 9, 5, b"    ")?;
    field(rt, 9, 5, b"1   ")?;
    field(rt, 9, 5, b"  1 ")?;
    field(rt, 9, 5, b" 1 1")?;
    field(rt, 9, 5, b"1 -1")?;
    field(rt, 9, 5, b"01 1")?;
    field(rt, 9, 5, b"0  0")?;
    field(rt, 9, 5, b"   4    ")
}

// 18, a leading zero or "-0".
pub fn zeros(rt: &impl Print) -> io::Result<()> {
    field(rt, 9, 5, b"  01")?;
    field(rt, 9, 5, b"0000")?;
    field(rt, 9, 5, b"  -0")?;
    field(rt, 9, 5, b" -01")?;
    field(rt, 9, 5, b" -00")?;
    field(rt, 9, 5, b"  01   x")
}

// 5, 17 and 18 on the lines around.
pub fn misspelt(rt: &impl Print) -> io::Result<()> {
    field(rt, 2, 1, b"   o")?;
    field(rt, 4, 9, b" - 3")?;
    field(rt, 5, 1, b"  01")?;
    field(rt, 6, 11, b" - 1")?;
    field(rt, 7, 3, b"0   ")?;
    field(rt, 10, 1, b"0  1")?;
    field(rt, 11, 1, b"  01")?;
    field(rt, 12, 2, b"3   ")?;
    field(rt, 13, 2, b"  +3")?;
    field(rt, 14, 1, b"  01")?;
    field(rt, 15, 10, b" - 3")?;
    field(rt, 16, 3, b"0   ")?;
    field(rt, 17, 1, b"    ")?;
    field(rt, 17, 1, b"  -0")
}

// 6, a number outside its range; the leftmost field that is wrong decides. With n 2 the first number outside is in line 3.
pub fn ranges(rt: &impl Print) -> io::Result<()> {
    field(rt, 1, 2, b"   0")?;
    field(rt, 1, 2, b"  -1")?;
    field(rt, 1, 2, b"  49")?;
    field(rt, 1, 2, b"9999")?;
    field(rt, 1, 2, b"   2")?;
    field(rt, 2, 1, b"   4")?;
    field(rt, 3, 1, b"  -4")?;
    field(rt, 4, 9, b"   4")?;
    field(rt, 5, 1, b"  -4")?;
    field(rt, 6, 3, b"   4")?;
    field(rt, 7, 11, b"9999")?;
    field(rt, 9, 2, b"-999")?;
    field(rt, 10, 1, b"9999")?;
    field(rt, 9, 2, b"  01   4")?;
    field(rt, 9, 2, b"   4  01")?;
    field(rt, 11, 1, b"   0")?;
    field(rt, 12, 2, b"  17")?;
    field(rt, 13, 1, b"  -1")?;
    field(rt, 14, 1, b"   0")?;
    field(rt, 14, 2, b"  17")?;
    field(rt, 15, 3, b"  -4")?;
    field(rt, 15, 10, b"   4")?;
    field(rt, 17, 1, b" 321")?;
    field(rt, 17, 1, b"  -1")
}

// 8, a line over its limit: before 9, 10 and what is wrong in a later line; after 6.
pub fn overs(rt: &impl Print) -> io::Result<()> {
    books::over(rt, [201, 0, 16, 1, 0], b"Z 218\n")?;
    books::over(rt, [200, 0, 17, 0, 0], b"Z 217\n")?;
    books::over(rt, [0, 0, 16, 33, 0], b"Z  49\n")?;
    books::over(rt, [0, 0, 17, 0, 0], b"R\n")?;
    books::over(
        rt,
        [0, 0, 16, 0, 0],
        b"X   0   0   0   0   0   0   0   0   0\n",
    )?;
    books::over(
        rt,
        [0, 0, 16, 0, 0],
        b"X  49   0   0   0   0   0   0   0   0\n",
    )?;
    books::over(rt, [0, 0, 1, 32, 0], b"P   2   2\n")
}

// 22, an O line over its limit, in the same places: before 23, after 4 and 6.
pub fn alternative_overs(rt: &impl Print) -> io::Result<()> {
    books::over(rt, [200, 41, 16, 0, 33], b"Z 290\n")?;
    books::over(rt, [0, 41, 17, 0, 0], b"Z  58\n")?;
    books::over(rt, [201, 41, 0, 0, 0], b"Z 242\n")?;
    books::over(rt, [0, 41, 0, 0, 0], b"R\n")?;
    books::over(
        rt,
        [0, 40, 0, 0, 0],
        b"O   1   0   0   0   0   0   0   0   0   0   0\n",
    )?;
    books::over(
        rt,
        [0, 40, 0, 0, 0],
        b"O   1   0   0   0   0   0   0   0   0   0  49\n",
    )?;
    books::over(rt, [0, 40, 0, 0, 0], b"O   1   0\n")
}

// 19, a Q line over its limit, in the same places; after 4.
pub fn conditional_overs(rt: &impl Print) -> io::Result<()> {
    books::over(rt, [200, 0, 16, 0, 33], b"Z 249\n")?;
    books::over(rt, [0, 0, 1, 33, 33], b"Z  67\n")?;
    books::over(rt, [0, 0, 1, 0, 33], b"P\n")?;
    books::over(
        rt,
        [0, 0, 1, 0, 32],
        b"Q   2   2   0   0   0   0   0   0   0   0\n",
    )?;
    books::over(
        rt,
        [0, 0, 1, 0, 32],
        b"Q   2   2   0   0   0   0   0   0   0  49\n",
    )?;
    books::over(rt, [0, 0, 1, 0, 32], b"Q   1   1\n")
}

// 9 and 10: an exception without head, a P or Q line that names a missing one; 6 comes before them.
pub fn heads(rt: &impl Print) -> io::Result<()> {
    field(rt, 8, 1, b"   0   1")?;
    field(rt, 9, 1, b"   0")?;
    field(rt, 10, 1, b"   0")?;
    field(rt, 9, 1, b"   0   4")?;
    field(rt, 11, 1, b"   4")?;
    field(rt, 12, 2, b"   4")?;
    field(rt, 12, 2, b"  13")?;
    field(rt, 13, 1, b"  16  16")?;
    field(rt, 11, 1, b"   4  17")?;
    field(rt, 14, 1, b"   4")?;
    field(rt, 15, 2, b"  16")?;
    field(rt, 16, 1, b"   4  17")?;
    with(rt, 15, b"Q   4   2  -1   2   0   0   0   0   0  -4\n")?;
    with(rt, 8, b"P   1   1\n")?;
    with(rt, 8, b"Q   1   1   0   0   0   0   0   0   0   0\n")?;
    with(rt, 10, b"")
}

// 23, an O line with fewer than two heads filled; 6 comes before it. Heads may have gaps, stand twice, or be opposed.
pub fn alternative_heads(rt: &impl Print) -> io::Result<()> {
    field(rt, 5, 1, b"   0")?;
    field(rt, 5, 2, b"   0")?;
    field(rt, 6, 2, b"   0")?;
    field(rt, 7, 1, b"   0   0")?;
    with(rt, 5, b"O   0   0   0   1   2   3   0   1   2   3   0\n")?;
    field(rt, 5, 1, b"   0   4")?;
    field(rt, 6, 3, b"   0")?;
    with(rt, 7, b"O   1   0   0   0   0   0   0   0   0   0  -4\n")?;
    field(rt, 5, 2, b"   0   2")?;
    field(rt, 5, 2, b"   1")?;
    field(rt, 5, 2, b"  -1")?;
    field(rt, 7, 3, b"   2   2")
}

// 11, Z's number wrong.
pub fn totals(rt: &impl Print) -> io::Result<()> {
    text(rt, b"B   1   1\nZ   1\n")?;
    field(rt, 17, 1, b"  14")?;
    field(rt, 17, 1, b"  16")?;
    field(rt, 17, 1, b"  12")?;
    field(rt, 17, 1, b"   9")?;
    field(rt, 17, 1, b"   0")?;
    field(rt, 17, 1, b" 320")?;
    with(rt, 7, b"")?;
    with(rt, 13, b"")?;
    with(rt, 16, b"")?;
    with(rt, 17, b"Z  14\n\n")
}

// The small book after i others, read into a slice of m numbers.
fn book_into(rt: &impl Print, i: usize, m: usize) -> io::Result<()>
    requires { i < 14 }
{
    print!(rt; "K{}", i + 1)?;
    rows::read_short(rt, books::SMALL[i], m)
}

// A text read into a slice of m numbers.
fn text_into(rt: &impl Print, t: &[u8], m: usize) -> io::Result<()> {
    rows::quote(rt, t)?;
    rows::read_short(rt, t, m)
}

// 15, the lent slice: one number short, just enough, one more; after all else.
pub fn lent(rt: &impl Print) -> io::Result<()> {
    book_into(rt, 0, 0)?;
    book_into(rt, 0, 5)?;
    book_into(rt, 0, 6)?;
    book_into(rt, 6, 41)?;
    book_into(rt, 6, 42)?;
    book_into(rt, 6, 43)?;
    text_into(rt, b"B   1   1\nZ   1\n", 3)?;
    text_into(rt, b"", 0)
}
