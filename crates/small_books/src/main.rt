// The small books of document 01, K1 to K14, through Judge, First and After: each resolution as taken, held, denied, then E; a refusal as F,
// its number and line; verdicts as V, the pair and the verdict.
#![tactic(auto)]

use sets::Pair;
use std::io;
use text::Refusal;

// A pair of three numbers.
fn pair(taken: u64, held: u64, denied: u64) -> Pair {
    Pair {
        taken,
        held,
        denied,
    }
}

// A letter and a pair.
fn say(rt: &impl Print, c: char, p: Pair) -> io::Result<()> {
    print!(rt; "{c} {} {} {}", p.taken, p.held, p.denied)
}

// The listing from an answer on, by After, at most 20 lines.
fn list(rt: &impl Print, text: &[u8], from: Result<Option<Pair>, Refusal>) -> io::Result<()> {
    let mut answer = from;
    for _ in 0..20 {
        match answer {
            Ok(Some(p)) => {
                say(rt, 'A', p)?;
                println!(rt; "")?;
                answer = operations::after(text, p);
            }
            Ok(None) => return println!(rt; "E"),
            Err(q) => return println!(rt; "F {} {}", q.number, q.line),
        }
    }
    Ok(())
}

// What follows a pair, which need be no resolution.
fn follow(rt: &impl Print, text: &[u8], p: Pair) -> io::Result<()> {
    say(rt, '>', p)?;
    println!(rt; "")?;
    list(rt, text, operations::after(text, p))
}

// The verdict on a pair.
fn judge(rt: &impl Print, text: &[u8], p: Pair) -> io::Result<()> {
    say(rt, 'V', p)?;
    match operations::judge(text, p) {
        Ok(verdict) => println!(rt; " {verdict}"),
        Err(q) => println!(rt; " F {} {}", q.number, q.line),
    }
}

// The whole listing of a book, and the verdicts on some pairs.
fn show(rt: &impl Print, text: &[u8], pairs: &[Pair]) -> io::Result<()> {
    list(rt, text, operations::first(text))?;
    for &p in pairs {
        judge(rt, text, p)?;
    }
    Ok(())
}

const K1: &[u8] = b"B   1   1\nZ   0\n";

const K2: &[u8] = b"B   1   1\nR   0   0   0   0   0   0   0   0   0\nZ   1\n";

const K3: &[u8] = b"B   1   2\nR   2   0   0   0   0  -1   0   0   0\nZ   1\n";

const K4: &[u8] =
    b"B   1   2\nR   1   0   0   0   0   2   0   0   0\nR   2   0   0   0   0   1   0   0   0\nZ   2\n";

const K5: &[u8] = b"B   1   1\nR   1   1   0   0   0   0   0   0   0\nZ   1\n";

const K6: &[u8] =
    b"B   1   1\nR   1   0   0   0   0   0   0   0   0\nR  -1   0   0   0   0   0   0   0   0\nZ   2\n";

const K7: &[u8] =
    b"B   1   3\nR   0   0   0   0   0   1   2   0   0\nR   3   1   0   0   0   0   0   0   0\nX   1   0   0   0   0   0   0   0   0\nX   2   0   0   0   0   0   0   0   0\nZ   4\n";

const K8: &[u8] =
    b"B   1   3\nR   0   0   0   0   0   1   2   0   0\nR   3   1   0   0   0   0   0   0   0\nX   1   0   0   0   0   0   0   0   0\nX   2   0   0   0   0   0   0   0   0\nP   1   2\nZ   5\n";

const K9: &[u8] =
    b"B   1   4\nR   0   0   0   0   0   1   2   0   0\nR   0   0   0   0   0   3   4   0   0\nR   0   1   3   0   0   0   0   0   0\nR   0   2   4   0   0   0   0   0   0\nX   1   0   0   0   0   0   0   0   0\nX   2   0   0   0   0   0   0   0   0\nX   3   0   0   0   0   0   0   0   0\nX   4   0   0   0   0   0   0   0   0\nP   1   2\nP   3   4\nZ  10\n";

const K10: &[u8] =
    b"B   1   1\nR   0   0   0   0   0   1   0   0   0\nX   1   0   0   0   0   0   0   0   0\nP   1   1\nZ   3\n";

const K11: &[u8] =
    b"B   1   2\nR   0   0   0   0   0   1   0   0   0\nX   1   0   0   0   0   0   0   0   0\nX   2  -1   0   0   0   0   0   0   0\nZ   3\n";

const K12: &[u8] =
    b"B   1   1\nR   0   0   0   0   0   1   0   0   0\nX   1   0   0   0   0   0   0   0   0\nX   1   0   0   0   0   0   0   0   0\nZ   3\n";

const K13: &[u8] =
    b"B   1   3\nR   0   0   0   0   0   1   3   0   0\nR   0   2   0   0   0   0   0   0   0\nX   1   0   0   0   0   0   0   0   0\nX   2   0   0   0   0   0   0   0   0\nX   3   0   0   0   0   0   0   0   0\nP   1   2\nP   2   3\nZ   7\n";

const K14: &[u8] =
    b"B   1   3\nR   0   0   0   0   0   1   2   0   0\nR   0   1   0   0   0   3   0   0   0\nX   1   0   0   0   0   0   0   0   0\nX   2   0   0   0   0   0   0   0   0\nX   3   0   0   0   0   0   0   0   0\nP   1   2\nZ   6\n";

// K7, and what follows pairs that are no resolutions.
fn seven(rt: &impl Print) -> io::Result<()> {
    show(rt, K7, &[pair(3, 7, 0)])?;
    follow(rt, K7, pair(1, 2, 4))?;
    follow(rt, K7, pair(4, 0, 0))?;
    follow(rt, K7, pair(0, 8, 0))?;
    follow(rt, K7, pair(0, 1, 1))?;
    judge(rt, K7, pair(1, 5, 0))?;
    judge(rt, K7, pair(4, 0, 0))?;
    judge(rt, K7, pair(0, 8, 0))?;
    judge(rt, K7, pair(0, 0, 8))?;
    judge(rt, K7, pair(0, 1, 1))?;
    judge(rt, K7, pair(4, 8, 8))
}

fn main(rt: HostRuntime) -> io::Result<()> {
    let rt = &rt;
    show(rt, K1, &[])?;
    show(rt, K2, &[])?;
    show(rt, K3, &[])?;
    show(rt, K4, &[])?;
    show(rt, K5, &[pair(0, 1, 0)])?;
    show(rt, K6, &[])?;
    seven(rt)?;
    show(rt, K8, &[pair(2, 2, 0), pair(3, 7, 0)])?;
    show(rt, K9, &[pair(9, 9, 0), pair(6, 6, 0)])?;
    show(rt, K10, &[pair(1, 1, 0)])?;
    show(rt, K11, &[pair(3, 1, 0)])?;
    show(rt, K12, &[])?;
    show(rt, K13, &[pair(4, 4, 0)])?;
    show(rt, K14, &[pair(2, 2, 0)])?;
    show(rt, b"", &[])?;
    show(rt, b"Z   0\n", &[])
}
