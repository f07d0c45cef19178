// Books that are accepted: the small books of document 01, the case of document 02, (e), and one with O lines, and those at the limits; and one line
// more than each limit.
ghost use Rattle.std.specs.Prelude.{◌≤◌};

use crate::rows;
use std::io;

// Room for the texts that are made here, some of which are too long.
pub const ROOM: usize = 11900;

// ---- the small books

// K1 to K14.
pub const SMALL: [&[u8]; 14] = [
    b"B   1   1\nZ   0\n",
    b"B   1   1\nR   0   0   0   0   0   0   0   0   0\nZ   1\n",
    b"B   1   2\nR   2   0   0   0   0  -1   0   0   0\nZ   1\n",
    b"B   1   2\nR   1   0   0   0   0   2   0   0   0\nR   2   0   0   0   0   1   0   0   0\nZ   2\n",
    b"B   1   1\nR   1   1   0   0   0   0   0   0   0\nZ   1\n",
    b"B   1   1\nR   1   0   0   0   0   0   0   0   0\nR  -1   0   0   0   0   0   0   0   0\nZ   2\n",
    b"B   1   3\nR   0   0   0   0   0   1   2   0   0\nR   3   1   0   0   0   0   0   0   0\nX   1   0   0   0   0   0   0   0   0\nX   2   0   0   0   0   0   0   0   0\nZ   4\n",
    b"B   1   3\nR   0   0   0   0   0   1   2   0   0\nR   3   1   0   0   0   0   0   0   0\nX   1   0   0   0   0   0   0   0   0\nX   2   0   0   0   0   0   0   0   0\nP   1   2\nZ   5\n",
    b"B   1   4\nR   0   0   0   0   0   1   2   0   0\nR   0   0   0   0   0   3   4   0   0\nR   0   1   3   0   0   0   0   0   0\nR   0   2   4   0   0   0   0   0   0\nX   1   0   0   0   0   0   0   0   0\nX   2   0   0   0   0   0   0   0   0\nX   3   0   0   0   0   0   0   0   0\nX   4   0   0   0   0   0   0   0   0\nP   1   2\nP   3   4\nZ  10\n",
    b"B   1   1\nR   0   0   0   0   0   1   0   0   0\nX   1   0   0   0   0   0   0   0   0\nP   1   1\nZ   3\n",
    b"B   1   2\nR   0   0   0   0   0   1   0   0   0\nX   1   0   0   0   0   0   0   0   0\nX   2  -1   0   0   0   0   0   0   0\nZ   3\n",
    b"B   1   1\nR   0   0   0   0   0   1   0   0   0\nX   1   0   0   0   0   0   0   0   0\nX   1   0   0   0   0   0   0   0   0\nZ   3\n",
    b"B   1   3\nR   0   0   0   0   0   1   3   0   0\nR   0   2   0   0   0   0   0   0   0\nX   1   0   0   0   0   0   0   0   0\nX   2   0   0   0   0   0   0   0   0\nX   3   0   0   0   0   0   0   0   0\nP   1   2\nP   2   3\nZ   7\n",
    b"B   1   3\nR   0   0   0   0   0   1   2   0   0\nR   0   1   0   0   0   3   0   0   0\nX   1   0   0   0   0   0   0   0   0\nX   2   0   0   0   0   0   0   0   0\nX   3   0   0   0   0   0   0   0   0\nP   1   2\nZ   6\n",
];

// Each small book: read, and written again.
fn small_books(rt: &impl Print) -> io::Result<()> {
    for (i, text) in SMALL.iter().enumerate() {
        print!(rt; "K{}", i + 1)?;
        rows::both(rt, text)?;
    }
    Ok(())
}

// The case of document 02, (e), in the same way.
fn conditional(rt: &impl Print) -> io::Result<()> {
    rows::letter(rt, b'e')?;
    rows::both(
        rt,
        b"B   1   3\nR   0   0   0   0   0   1   3   0   0\nX   1   0   0   0   0   0   0   0   0\nX   2   0   0   0   0   0   0   0   0\nX   3   0   0   0   0   0   0   0   0\nQ   3   1   0   0   0   0   2   0   0   0\nZ   5\n",
    )
}

// A book with rules of two and of three alternatives, one of them twice, in the same way.
fn alternatives(rt: &impl Print) -> io::Result<()> {
    rows::letter(rt, b'g')?;
    rows::both(
        rt,
        b"B   1   3\nR   3   2   0   0   0   0   0   0   0\nO   1   2   0   0   0   0   0   0   0   0   0\nO  -1   0   3   2   0   0   0   1   0   0   0\nO   3   3  -2   0   0   0   0   0   0   0   0\nX   1   0   0   0   0   0   0   0   0\nZ   5\n",
    )
}

// The small books.
pub fn small(rt: &impl Print) -> io::Result<()> {
    small_books(rt)?;
    conditional(rt)?;
    alternatives(rt)
}

// ---- texts made line by line

// A line put into a buffer from a place on; the place after it. What has no room is left out.
pub fn put(buf: &mut [u8; ROOM], at: usize, line: &[u8]) -> usize
    requires { at ≤ 11900 }
    ensures { result ≤ 11900 }
{
    let n = line.len().min(ROOM - at);
    buf[at..at + n].copy_from_slice(&line[..n]);
    at + n
}

// A line put k times.
fn repeat(buf: &mut [u8; ROOM], at: usize, line: &[u8], k: usize) -> usize
    requires { at ≤ 11900 }
    ensures { result ≤ 11900 }
{
    let mut to = at;
    for _ in 0..k {
        to = put(buf, to, line);
    }
    to
}

// A book of 48 statements with so many R, O, X, P and Q lines in a buffer, and these last bytes; the place after them.
fn fill(buf: &mut [u8; ROOM], counts: [usize; 5], last: &[u8]) -> usize
    ensures { result ≤ 11900 }
{
    let lines: [&[u8]; 5] = [
        b"R -48  48   0   0   0   0   0   0 -48\n",
        b"O  48 -48   0 -48  48   0   0   0   0   0 -48\n",
        b"X  48   0   0   0   0   0   0   0   0\n",
        b"P   1   1\n",
        b"Q   1   1 -48  48   0   0   0   0   0 -48\n",
    ];
    let mut to = put(buf, 0, b"B   1  48\n");
    for (i, line) in lines.iter().enumerate() {
        to = repeat(buf, to, line, counts[i]);
    }
    put(buf, to, last)
}

// What such a book has.
fn say(rt: &impl Print, counts: [usize; 5], last: &[u8]) -> io::Result<()> {
    let [r, o, x, p, q] = counts;
    print!(rt; "R {r} O {o} X {x} P {p} Q {q} ")?;
    rows::quote(rt, last)
}

// Such a book, read and written again.
fn fits(rt: &impl Print, counts: [usize; 5], last: &[u8]) -> io::Result<()> {
    let mut buf = [0u8; ROOM];
    let end = fill(&mut buf, counts, last);
    say(rt, counts, last)?;
    rows::both(rt, &buf[..end])
}

// Such a book, read only.
pub fn over(rt: &impl Print, counts: [usize; 5], last: &[u8]) -> io::Result<()> {
    let mut buf = [0u8; ROOM];
    let end = fill(&mut buf, counts, last);
    say(rt, counts, last)?;
    rows::read_row(rt, &buf[..end])
}

// Each limit reached, and passed by one.
pub fn limits(rt: &impl Print) -> io::Result<()> {
    fits(rt, [0, 0, 0, 0, 0], b"Z   0\n")?;
    fits(rt, [200, 0, 0, 0, 0], b"Z 200\n")?;
    over(rt, [201, 0, 0, 0, 0], b"Z 201\n")?;
    fits(rt, [0, 40, 0, 0, 0], b"Z  40\n")?;
    over(rt, [0, 41, 0, 0, 0], b"Z  41\n")?;
    fits(rt, [0, 0, 13, 0, 0], b"Z  13\n")?;
    fits(rt, [0, 0, 16, 0, 0], b"Z  16\n")?;
    over(rt, [0, 0, 17, 0, 0], b"Z  17\n")?;
    fits(rt, [0, 0, 1, 32, 0], b"Z  33\n")?;
    over(rt, [0, 0, 1, 33, 0], b"Z  34\n")?;
    fits(rt, [0, 0, 1, 0, 32], b"Z  33\n")?;
    over(rt, [0, 0, 1, 0, 33], b"Z  34\n")?;
    fits(rt, [200, 40, 16, 32, 32], b"Z 320\n")?;
    over(rt, [200, 40, 16, 32, 32], b"Z 320\n\n")
}
