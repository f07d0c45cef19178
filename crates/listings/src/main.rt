// Lists of calls, made by `run` from several beginnings with refused calls among them, and lines by the second form of Line. Of each list: a
// heading; each answer, A and the pair, E, or F with number and line; then the pairs handed out, behind =; then the point reached, behind @.
// Both slices are lent full of sevens; the last number of each is printed at the end, since it should still be there.
#![tactic(auto)]

use calls::Handed;
use sets::Pair;
use std::io;
use text::Refusal;

// A pair of three numbers.
fn pair(taken: u64, held: u64, denied: u64) -> Pair {
    Pair {
        taken,
        held,
        denied,
    }
}

// An answer, of four numbers.
fn answer(rt: &impl Print, row: &[u64; 4]) -> io::Result<()> {
    let [kind, x, y, z] = *row;
    match kind {
        1 => println!(rt; "A {x} {y} {z}"),
        2 => println!(rt; "F {x} {y}"),
        _ => println!(rt; "E"),
    }
}

// The first n answers.
fn answers_of(rt: &impl Print, answers: &[u64; 32], n: usize) -> io::Result<()> {
    let (rows, _) = answers.as_chunks::<4>();
    for row in rows.iter().take(n) {
        answer(rt, row)?;
    }
    Ok(())
}

// The first n pairs.
fn pairs_of(rt: &impl Print, pairs: &[u64; 25], n: usize) -> io::Result<()> {
    let (rows, _) = pairs.as_chunks::<3>();
    for row in rows.iter().take(n) {
        let [x, y, z] = *row;
        println!(rt; "= {x} {y} {z}")?;
    }
    Ok(())
}

// A point.
fn point(rt: &impl Print, spot: Option<Pair>) -> io::Result<()> {
    match spot {
        None => println!(rt; "@ start"),
        Some(p) => println!(rt; "@ {} {} {}", p.taken, p.held, p.denied),
    }
}

// Makes the calls from the point and prints what they leave.
fn show(rt: &impl Print, text: &[u8], calls: &[u64], spot: Option<Pair>) -> io::Result<()> {
    let mut answers = [7u64; 32];
    let mut pairs = [7u64; 25];
    print!(rt; "from ")?;
    point(rt, spot)?;
    match calls::run(text, calls, spot, &mut answers, &mut pairs) {
        Err(q) => refused(rt, q)?,
        Ok(h) => {
            answers_of(rt, &answers, calls.len() / 4)?;
            pairs_of(rt, &pairs, h.count)?;
            point(rt, h.spot)?;
        }
    }
    println!(rt; " {} {}", answers[31], pairs[24])
}

// The refusal of a whole list.
fn refused(rt: &impl Print, q: Refusal) -> io::Result<()> {
    println!(rt; "refused F {} {}", q.number, q.line)
}

// The same with room for one pair less than calls, and for one answer less.
fn show_short(rt: &impl Print, text: &[u8], calls: &[u64]) -> io::Result<()> {
    let mut answers = [7u64; 12];
    let mut few_answers = [7u64; 11];
    let mut pairs = [7u64; 9];
    let mut few_pairs = [7u64; 8];
    made_or_not(
        rt,
        calls::run(text, calls, None, &mut answers, &mut few_pairs),
    )?;
    made_or_not(
        rt,
        calls::run(text, calls, None, &mut few_answers, &mut pairs),
    )?;
    made_or_not(rt, calls::run(text, calls, None, &mut answers, &mut pairs))
}

// Whether a list was made, and how many pairs it handed out.
fn made_or_not(rt: &impl Print, r: Result<Handed, Refusal>) -> io::Result<()> {
    match r {
        Err(q) => refused(rt, q),
        Ok(h) => println!(rt; "made {}", h.count),
    }
}

// The line of a pair by the second form of Line, in the lent buffer, between two bars.
fn part_of(rt: &impl Print, text: &[u8], p: Pair, buf: &mut [u8]) -> io::Result<()> {
    print!(rt; "|")?;
    rt.write_all(line::line_part(text, p, buf))?;
    println!(rt; "|")
}

// The same in a buffer that is long enough for any book, and in one that is too short.
fn line_of(rt: &impl Print, text: &[u8], p: Pair, short: &mut [u8]) -> io::Result<()> {
    let mut buf = [b'~'; 118];
    part_of(rt, text, p, &mut buf)?;
    part_of(rt, text, p, short)
}

// K7, from the start, from a resolution, from a pair that is none, from the last resolution, and from a pair that is not lawful.
fn k7(rt: &impl Print) -> io::Result<()> {
    let text =
        b"B   1   3\nR   0   0   0   0   0   1   2   0   0\nR   3   1   0   0   0   0   0   0   0\nX   1   0   0   0   0   0   0   0   0\nX   2   0   0   0   0   0   0   0   0\nZ   4\n";
    let calls = [
        1u64, 4, 0, 0, 0, 0, 0, 0, 1, 0, 8, 0, 0, 9, 9, 9, 1, 0, 1, 1, 0, 0, 0, 0, 1, 4, 8, 8,
    ];
    println!(rt; "K7")?;
    show(rt, text, &calls, None)?;
    show(rt, text, &calls, Some(pair(1, 5, 0)))?;
    show(rt, text, &calls, Some(pair(1, 2, 4)))?;
    show(rt, text, &calls, Some(pair(2, 2, 0)))?;
    show(rt, text, &calls, Some(pair(4, 0, 0)))?;
    let none = [0u64; 0];
    show(rt, text, &none, None)?;
    let broken = [0u64; 6];
    show(rt, text, &broken, None)?;
    let many = [0u64; 36];
    show(rt, text, &many, None)?;
    let three_calls = [0u64; 12];
    show_short(rt, text, &three_calls)?;
    let mut short = [b'~'; 56];
    line_of(rt, text, pair(1, 5, 0), &mut short)?;
    line_of(rt, text, pair(3, 2, 5), &mut short)?;
    line_of(rt, text, pair(4, 0, 0), &mut short)
}

// K4 twice, in two texts with the same book: the second names its barred entries in other columns.
fn k4(rt: &impl Print) -> io::Result<()> {
    let text =
        b"B   1   2\nR   1   0   0   0   0   2   0   0   0\nR   2   0   0   0   0   1   0   0   0\nZ   2\n";
    let other =
        b"B   1   2\nR   1   0   0   0   0   0   0   2   0\nR   2   0   0   0   0   0   1   0   0\nZ   2\n";
    let calls = [0u64, 0, 0, 0, 1, 1, 0, 0, 0, 0, 0, 0, 0, 0, 0, 0];
    println!(rt; "K4")?;
    show(rt, text, &calls, None)?;
    show(rt, other, &calls, None)?;
    show(rt, text, &calls, Some(pair(0, 2, 0)))?;
    show(rt, other, &calls, Some(pair(0, 2, 0)))?;
    show(rt, text, &calls, Some(pair(0, 3, 0)))
}

// K2, which has no resolution; and two texts that are no books.
fn none(rt: &impl Print) -> io::Result<()> {
    let text = b"B   1   1\nR   0   0   0   0   0   0   0   0   0\nZ   1\n";
    let calls = [0u64, 0, 0, 0, 1, 0, 0, 2, 0, 0, 0, 0];
    println!(rt; "K2")?;
    show(rt, text, &calls, None)?;
    println!(rt; "no book")?;
    show(rt, b"Z   0\n", &calls, None)?;
    show(rt, b"B   1   1\n", &calls, Some(pair(0, 0, 0)))
}

// A book of twelve exceptions, whose lines have 12 fields for them, and one of thirteen, whose lines have 16. Only the last exceptions give +1,
// which must be held. Each time a pair that takes all of them, one that takes none, and one with a bit past them.
fn twelve(rt: &impl Print) -> io::Result<()> {
    let text =
        b"B   1   3\nR   0   0   0   0   0   1   0   0   0\nX   2   0   0   0   0   0   0   0   0\nX   2   0   0   0   0   0   0   0   0\nX   2   0   0   0   0   0   0   0   0\nX   2   0   0   0   0   0   0   0   0\nX   2   0   0   0   0   0   0   0   0\nX   2   0   0   0   0   0   0   0   0\nX   2   0   0   0   0   0   0   0   0\nX   2   0   0   0   0   0   0   0   0\nX   2   0   0   0   0   0   0   0   0\nX   2   0   0   0   0   0   0   0   0\nX   2   0   0   0   0   0   0   0   0\nX   1   0   0   0   0   0   0   0   0\nZ  13\n";
    let calls = [0u64, 0, 0, 0, 1, 4096, 0, 0, 0, 0, 0, 0];
    println!(rt; "twelve")?;
    show(rt, text, &calls, None)?;
    let mut short = [b'~'; 56];
    line_of(rt, text, pair(4095, 3, 0), &mut short)?;
    line_of(rt, text, pair(0, 0, 5), &mut short)?;
    line_of(rt, text, pair(4096, 0, 0), &mut short)
}

fn thirteen(rt: &impl Print) -> io::Result<()> {
    let text =
        b"B   1   3\nR   0   0   0   0   0   1   0   0   0\nX   2   0   0   0   0   0   0   0   0\nX   2   0   0   0   0   0   0   0   0\nX   2   0   0   0   0   0   0   0   0\nX   2   0   0   0   0   0   0   0   0\nX   2   0   0   0   0   0   0   0   0\nX   2   0   0   0   0   0   0   0   0\nX   2   0   0   0   0   0   0   0   0\nX   2   0   0   0   0   0   0   0   0\nX   2   0   0   0   0   0   0   0   0\nX   2   0   0   0   0   0   0   0   0\nX   2   0   0   0   0   0   0   0   0\nX   1   0   0   0   0   0   0   0   0\nX   1   0   0   0   0   0   0   0   0\nZ  14\n";
    let calls = [0u64, 0, 0, 0, 1, 8192, 0, 0, 0, 0, 0, 0, 0, 0, 0, 0];
    println!(rt; "thirteen")?;
    show(rt, text, &calls, None)?;
    show(rt, text, &calls, Some(pair(2048, 1, 0)))?;
    let mut short = [b'~'; 72];
    line_of(rt, text, pair(8191, 3, 0), &mut short)?;
    line_of(rt, text, pair(0, 0, 5), &mut short)?;
    line_of(rt, text, pair(8192, 0, 0), &mut short)
}

fn main(rt: HostRuntime) -> io::Result<()> {
    let rt = &rt;
    k7(rt)?;
    k4(rt)?;
    none(rt)?;
    twelve(rt)?;
    thirteen(rt)
}
