// Tables for Write: the table of the book in `lines`, which is right, and the same with a number or two exchanged, or cut.
use crate::rows;
use std::io;

// n and the counts; then the R, O, X, P and Q rows, from places 6, 33, 66, 93 and 99 on.
const TABLE: [i32; 129] = [
    3, 3, 3, 3, 3, 3, // n and the counts
    0, 0, 0, 0, 0, 1, 2, 0, 0, // R
    3, 1, 0, 0, 0, 0, 0, 0, 0, // R
    -1, -2, 0, 0, 0, 3, 0, 0, -3, // R
    1, 2, 0, 0, 0, 0, 0, 0, 0, 0, 0, // O
    0, -3, 3, 1, -2, 0, 0, 0, 0, 0, -1, // O
    2, 2, 0, 0, 0, 0, 0, 3, 0, 0, 0, // O
    1, 0, 0, 0, 0, 0, 0, 0, 0, // X
    2, 0, 0, 0, 0, 0, 0, 0, 0, // X
    3, 0, 0, 0, 0, 0, 0, 0, 0, // X
    1, 2, // P
    2, 3, // P
    3, 3, // P
    1, 3, 0, 0, 0, 0, 2, 0, 0, 0, // Q
    3, 2, -1, 2, 0, 0, 0, 0, 0, -3, // Q
    2, 2, 0, 0, 0, 0, 0, 0, 0, 0, // Q
];

// The table with numbers at some places.
fn with_all(changes: &[(usize, i32)]) -> [i32; 129] {
    let mut t = TABLE;
    for &(at, v) in changes {
        if let Some(place) = t.get_mut(at) {
            *place = v;
        }
    }
    t
}

// The place and the number that is put there.
fn say(rt: &impl Print, at: usize, v: i32) -> io::Result<()> {
    print!(rt; "t {at} is {v}")
}

// The row of the table with v at a place.
fn with(rt: &impl Print, at: usize, v: i32) -> io::Result<()> {
    say(rt, at, v)?;
    rows::write_row(rt, &with_all(&[(at, v)]))
}

// The same with numbers at two places.
fn with_two(rt: &impl Print, at: usize, v: i32, and: usize, w: i32) -> io::Result<()> {
    say(rt, at, v)?;
    rows::letter(rt, b' ')?;
    say(rt, and, w)?;
    rows::write_row(rt, &with_all(&[(at, v), (and, w)]))
}

// The row of its first m numbers.
fn cut(rt: &impl Print, m: usize) -> io::Result<()> {
    print!(rt; "t to {m}")?;
    rows::write_row(rt, rows::front(&TABLE, m))
}

// The table is what Read gives of its text, and Write gives the text back. Other good tables.
pub fn good(rt: &impl Print) -> io::Result<()> {
    let text =
        b"B   1   3\nR   0   0   0   0   0   1   2   0   0\nR   3   1   0   0   0   0   0   0   0\nR  -1  -2   0   0   0   3   0   0  -3\nO   1   2   0   0   0   0   0   0   0   0   0\nO   0  -3   3   1  -2   0   0   0   0   0  -1\nO   2   2   0   0   0   0   0   3   0   0   0\nX   1   0   0   0   0   0   0   0   0\nX   2   0   0   0   0   0   0   0   0\nX   3   0   0   0   0   0   0   0   0\nP   1   2\nP   2   3\nP   3   3\nQ   1   3   0   0   0   0   2   0   0   0\nQ   3   2  -1   2   0   0   0   0   0  -3\nQ   2   2   0   0   0   0   0   0   0   0\nZ  15\n";
    print!(rt; "t")?;
    rows::read_same(rt, text, &TABLE)?;
    rows::write_same(rt, &TABLE, text)?;
    with(rt, 0, 48)?;
    with(rt, 15, 0)?;
    with(rt, 23, -3)
}

// Tables with no row: a good one, one too short (16 before 6), one too long.
pub fn few(rt: &impl Print) -> io::Result<()> {
    print!(rt; "1 0 0 0 0 0")?;
    rows::write_row(rt, &[1, 0, 0, 0, 0, 0])?;
    print!(rt; "49 0 0 0 0")?;
    rows::write_row(rt, &[49, 0, 0, 0, 0])?;
    print!(rt; "1 0 0 0 0 0 0")?;
    rows::write_row(rt, &[1, 0, 0, 0, 0, 0, 0])
}

// 16 under 6 numbers; 6 for n; 8 for the counts; 16 where the length differs from the counts.
pub fn counts(rt: &impl Print) -> io::Result<()> {
    cut(rt, 0)?;
    cut(rt, 1)?;
    cut(rt, 5)?;
    with(rt, 0, 0)?;
    with(rt, 0, 49)?;
    with(rt, 0, -1)?;
    with(rt, 0, i32::MAX)?;
    with(rt, 0, i32::MIN)?;
    with(rt, 1, -1)?;
    with(rt, 1, 201)?;
    with(rt, 2, -1)?;
    with(rt, 2, 17)?;
    with(rt, 3, -1)?;
    with(rt, 3, 33)?;
    with(rt, 3, i32::MAX)?;
    with(rt, 3, i32::MIN)?;
    with(rt, 4, -1)?;
    with(rt, 4, 33)?;
    with(rt, 4, i32::MAX)?;
    with(rt, 4, i32::MIN)?;
    with(rt, 5, -1)?;
    with(rt, 5, 41)?;
    with(rt, 5, i32::MAX)?;
    with(rt, 5, i32::MIN)?;
    with_two(rt, 0, 0, 1, 201)?;
    cut(rt, 6)?;
    cut(rt, 128)?;
    with(rt, 1, 4)?;
    with(rt, 2, 2)?;
    with(rt, 3, 0)?;
    with(rt, 4, 2)?;
    with(rt, 4, 32)?;
    with(rt, 5, 2)?;
    with(rt, 5, 40)?;
    with_two(rt, 1, 4, 6, 4)
}

// 6, 9 and 10 in the rows, each with the line that the row would have; in a row 6 comes first, and the first row that is wrong decides.
pub fn lines(rt: &impl Print) -> io::Result<()> {
    with(rt, 6, 4)?;
    with(rt, 14, -4)?;
    with(rt, 16, i32::MAX)?;
    with(rt, 32, 4)?;
    with(rt, 66, -4)?;
    with(rt, 92, i32::MIN)?;
    with(rt, 93, 0)?;
    with(rt, 96, 17)?;
    with(rt, 98, -1)?;
    with(rt, 66, 0)?;
    with(rt, 75, 0)?;
    with(rt, 84, 0)?;
    with_two(rt, 75, 0, 83, 4)?;
    with_two(rt, 75, 0, 85, 4)?;
    with(rt, 93, 4)?;
    with(rt, 96, 4)?;
    with(rt, 97, 16)?;
    with_two(rt, 93, 4, 94, 0)?;
    with_two(rt, 94, 4, 95, 0)?;
    with(rt, 0, 2)
}

// 6 and 23 in the rows of O lines, before 9 in a later row.
pub fn alternative_lines(rt: &impl Print) -> io::Result<()> {
    with(rt, 33, -4)?;
    with(rt, 46, 4)?;
    with(rt, 65, i32::MAX)?;
    with(rt, 33, 0)?;
    with(rt, 34, 0)?;
    with(rt, 45, 0)?;
    with_two(rt, 55, 0, 56, 0)?;
    with_two(rt, 33, 0, 36, 1)?;
    with_two(rt, 33, 0, 43, 4)?;
    with_two(rt, 32, 4, 33, 0)?;
    with_two(rt, 46, 0, 66, 0)?;
    with_two(rt, 33, 0, 35, 1)?;
    with(rt, 34, 1)?;
    with(rt, 34, -1)
}

// 6 and 10 in the rows of Q lines.
pub fn conditional_lines(rt: &impl Print) -> io::Result<()> {
    with(rt, 99, 0)?;
    with(rt, 100, 17)?;
    with(rt, 101, 4)?;
    with(rt, 112, i32::MIN)?;
    with(rt, 128, -4)?;
    with(rt, 99, 4)?;
    with(rt, 110, 4)?;
    with(rt, 119, 16)?;
    with_two(rt, 99, 4, 108, 4)?;
    with_two(rt, 99, 4, 109, 0)
}

// The table written into a slice of m bytes.
fn into(rt: &impl Print, m: usize) -> io::Result<()> {
    print!(rt; "t")?;
    rows::write_short(rt, &TABLE, m)
}

// 15, the lent slice: one byte short, just enough, one more; after all else.
pub fn lent(rt: &impl Print) -> io::Result<()> {
    into(rt, 0)?;
    into(rt, 537)?;
    into(rt, 538)?;
    into(rt, 539)?;
    print!(rt; "0 0 0 0 0 0")?;
    rows::write_short(rt, &[0, 0, 0, 0, 0, 0], 0)
}
