// Rows of the output. After what was tried comes A with n and the counts, or W with the length, or F with a refusal's number and line; then
// how many places of the lent slice changed.
use book::{Book, Shape};
use std::io;
use text::Refusal;

// What a lent slice holds before a call: a number that is in no table, a byte that is in no text.
const MARK: i32 = 7777;

const MARK_BYTE: u8 = 255;

// ---- words

// One letter.
pub fn letter(rt: &impl Print, c: u8) -> io::Result<()> {
    rt.write_all(&[c])
}

// A blank and a number.
pub fn number(rt: &impl Print, x: usize) -> io::Result<()> {
    print!(rt; " {x}")
}

// Bytes in quotes: each as it is, or its number if it cannot be seen.
pub fn quote(rt: &impl Print, b: &[u8]) -> io::Result<()> {
    letter(rt, b'"')?;
    for &c in b {
        match c {
            b' '..=b'~' => letter(rt, c)?,
            _ => print!(rt; "<{c}>")?,
        }
    }
    letter(rt, b'"')
}

// F, the refusal's number and line.
fn refusal(rt: &impl Print, q: Refusal) -> io::Result<()> {
    print!(rt; ": F {} {}", q.number, q.line)
}

// What Read answers.
fn reading(rt: &impl Print, r: Result<Shape, Refusal>) -> io::Result<()> {
    match r {
        Ok(s) => {
            print!(rt; ": A {} {}", s.statements, s.plain)?;
            print!(rt; " {} {}", s.exceptions, s.preferences)?;
            print!(rt; " {} {}", s.conditionals, s.alternatives)
        }
        Err(q) => refusal(rt, q),
    }
}

// What Write answers.
fn writing(rt: &impl Print, w: Result<usize, Refusal>) -> io::Result<()> {
    match w {
        Ok(n) => print!(rt; ": W {n}"),
        Err(q) => refusal(rt, q),
    }
}

// How many places changed.
fn touched(rt: &impl Print, k: usize) -> io::Result<()> {
    print!(rt; ", changed {k}")
}

// Whether what came out is what was to come, and the end of the row.
fn verdict(rt: &impl Print, same: bool) -> io::Result<()> {
    if same {
        return println!(rt; ", same");
    }
    println!(rt; ", DIFFERENT")
}

// ---- slices

// How many places do not hold the mark.
fn changed<T: PartialEq>(s: &[T], mark: &T) -> usize {
    s.iter().filter(|&x| *x != *mark).count()
}

// The first m places of a slice; all of it if it has fewer.
pub fn front<T>(s: &[T], m: usize) -> &[T] {
    &s[..s.len().min(m)]
}

// ---- Read

// Read into a slice that is long enough.
pub fn read_row(rt: &impl Print, text: &[u8]) -> io::Result<()> {
    let mut t = [MARK; Book::NUMBERS];
    reading(rt, read::read(text, &mut t))?;
    touched(rt, changed(&t, &MARK))?;
    letter(rt, b'\n')
}

// Read into a slice of m numbers, m at most 100.
pub fn read_short(rt: &impl Print, text: &[u8], m: usize) -> io::Result<()> {
    let mut t = [MARK; 100];
    print!(rt; " into {m}")?;
    let Some(part) = t.get_mut(..m) else {
        return Ok(());
    };
    let r = read::read(text, part);
    reading(rt, r)?;
    touched(rt, changed(&t, &MARK))?;
    letter(rt, b'\n')
}

// Read, and whether the table is this one.
pub fn read_same(rt: &impl Print, text: &[u8], table: &[i32]) -> io::Result<()> {
    let mut t = [MARK; Book::NUMBERS];
    reading(rt, read::read(text, &mut t))?;
    touched(rt, changed(&t, &MARK))?;
    verdict(rt, t.starts_with(table))
}

// ---- Write

// Write into a slice that is long enough.
pub fn write_row(rt: &impl Print, t: &[i32]) -> io::Result<()> {
    let mut b = [MARK_BYTE; Book::TEXT];
    writing(rt, write::write(t, &mut b))?;
    touched(rt, changed(&b, &MARK_BYTE))?;
    letter(rt, b'\n')
}

// Write into a slice of m bytes, m at most 600.
pub fn write_short(rt: &impl Print, t: &[i32], m: usize) -> io::Result<()> {
    let mut b = [MARK_BYTE; 600];
    print!(rt; " into {m}")?;
    let Some(part) = b.get_mut(..m) else {
        return Ok(());
    };
    let w = write::write(t, part);
    writing(rt, w)?;
    touched(rt, changed(&b, &MARK_BYTE))?;
    letter(rt, b'\n')
}

// Write, and whether the text is this one.
pub fn write_same(rt: &impl Print, t: &[i32], text: &[u8]) -> io::Result<()> {
    let mut b = [MARK_BYTE; Book::TEXT];
    print!(rt; " back")?;
    writing(rt, write::write(t, &mut b))?;
    touched(rt, changed(&b, &MARK_BYTE))?;
    verdict(rt, b.starts_with(text))
}

// Read, and Write of the table that was read: as many numbers as changed.
pub fn both(rt: &impl Print, text: &[u8]) -> io::Result<()> {
    let mut t = [MARK; Book::NUMBERS];
    reading(rt, read::read(text, &mut t))?;
    let m = changed(&t, &MARK);
    touched(rt, m)?;
    letter(rt, b'\n')?;
    write_same(rt, front(&t, m), text)
}
