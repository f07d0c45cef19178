// Which exceptions preference lines lead to: steps of P lines, as words, and of Q lines, which stand after the rules.
ghost use Rattle.std.specs.Prelude.{ℕ, ◌<◌, ◌≤◌, length};
ghost use Rattle.logic.specs.Tests.{Decides};
ghost use Rattle.masks.specs.Views.{Alike, masks_at, Fires, Lined, Uncrossed};
ghost use Rattle.masks.specs.Steps.{Grown, ByRanks, ByLine, ByLines, Passed, Reached, Chosen, Passing, Counting, Mates, MatesOf};
ghost use Rattle.masks.specs.OfRules.{HasLines};

use crate::Rules;
use sets::Pair;

// The most lines.
pub const LINES: usize = 32;

// The set o with `to`, if a member of t or of o is in `from`.
pub fn through(from: u64, to: u64, t: u64, o: u64) -> u64
    ensures { Grown from to t o result }
{
    if from & (t | o) != 0 {
        return o | to;
    }
    o
}

// The set o with what the words of the members of t and of o have.
pub fn by_ranks(ranks: &[u64], t: u64, o: u64) -> u64
    requires { length ranks.now ≤ 64 }
    ensures { ByRanks ranks.now (length ranks.now) t o result }
{
    let mut p = o;
    for (a, &rank) in ranks.iter().enumerate() {
        p = through(1 << (a as u64), rank, t, p);
    }
    p
}

// The set o with what line j leads to from members of t and of o, if it is one of m. The lines stand from row n on.
pub fn by_line(rules: &Rules<'_>, m: u64, j: usize, t: u64, o: u64) -> u64
    requires { HasLines rules.now × (j < 32) }
    ensures { ByLine rules.now.words.now rules.now.count m j t o result }
{
    if (m >> (j as u64)) % 2 == 0 {
        return o;
    }
    let l = crate::masks_at(rules.words, rules.count + j);
    through(l.head.held, l.head.denied, t, o)
}

// The set o with what the lines of m lead to from members of t and of o.
pub fn by_lines(rules: &Rules<'_>, m: u64, t: u64, o: u64) -> u64
    requires { HasLines rules.now }
    ensures { ByLines rules.now.words.now rules.now.count m 32 t o result }
{
    let mut p = o;
    for j in 0..LINES {
        p = by_line(rules, m, j, t, p);
    }
    p
}

// One pass over all steps.
pub fn pass(rules: &Rules<'_>, ranks: &[u64], m: u64, t: u64, o: u64) -> u64
    requires { HasLines rules.now × (length ranks.now ≤ 64) }
    ensures { Passed rules.now.words.now rules.now.count ranks.now m t o result }
{
    by_lines(rules, m, t, by_ranks(ranks, t, o))
}

// The exceptions that steps lead to from a member of t, one or more of them.
pub fn reach(rules: &Rules<'_>, ranks: &[u64], m: u64, t: u64) -> u64
    requires { HasLines rules.now × (length ranks.now ≤ 64) }
    ensures { Reached rules.now.words.now rules.now.count ranks.now m t result }
{
    let mut o: u64 = 0;
    loop {
        let p = pass(rules, ranks, m, t, o);
        if p == o {
            break;
        }
        o = p;
    }
    o
}

// The numbers below n that pass a test.
pub fn passing<F: Fn(usize) -> bool>(n: usize, test: F) -> u64
    requires few { n ≤ 64 }
    requires callable { (j : ℕ) → j < n → F.pre test j }
    ensures { Passing (F.post test) n result }
{
    let mut m: u64 = 0;
    for j in 0..n {
        if test(j) {
            m |= 1 << (j as u64);
        }
    }
    m
}

// The lines whose needed entries are in c and whose barred ones are not in v: with the upper and the lower end of bounds those that surely count
// within them, with the lower and the upper end those that may.
pub fn lines_in(rules: &Rules<'_>, v: Pair, c: Pair) -> u64
    requires { HasLines rules.now }
    ensures { Counting rules.now.words.now rules.now.count v c result }
{
    passing(
        LINES,
        |j| crate::fires(crate::masks_at(rules.words, rules.count + j), v, c),
    )
}

// The lines that are the same step as line i.
pub fn twins(rules: &Rules<'_>, i: usize) -> u64
    requires { HasLines rules.now × (i < 32) }
    ensures { Chosen (Alike rules.now.words.now rules.now.count i) 32 result }
{
    let head = crate::masks_at(rules.words, rules.count + i).head;
    passing(
        LINES,
        |j| crate::masks_at(rules.words, rules.count + j).head == head,
    )
}

// The set o with the lines that are the same step as line i, if that is one of m.
pub fn mates_of(rules: &Rules<'_>, m: u64, i: usize, o: u64) -> u64
    requires { HasLines rules.now × (i < 32) }
    ensures { MatesOf rules.now.words.now rules.now.count m i o result }
{
    if (m >> (i as u64)) % 2 == 0 {
        return o;
    }
    o | twins(rules, i)
}

// The lines that are the same step as a line of m.
pub fn mates(rules: &Rules<'_>, m: u64) -> u64
    requires { HasLines rules.now }
    ensures { Mates rules.now.words.now rules.now.count m 32 result }
{
    let mut o: u64 = 0;
    for i in 0..LINES {
        o = mates_of(rules, m, i, o);
    }
    o
}

// The words have lines.
pub fn lined(rules: &Rules<'_>) -> bool
    ensures { Decides result (Lined rules.now.words.now rules.now.count) }
{
    let words = rules.words;
    let at = rules.count * 8;
    if words.len() - at < LINES * 8 {
        return false;
    }
    words[at] != 0
}

// No exception that the pair takes leads to one that it takes, by lines that count in it; so it is where the words have no lines.
pub fn uncrossed(rules: &Rules<'_>, ranks: &[u64], v: Pair) -> bool
    requires { length ranks.now ≤ 64 }
    ensures { Decides result (Lined rules.now.words.now rules.now.count → Uncrossed rules.now.words.now rules.now.count ranks.now v) }
{
    if !lined(rules) {
        return true;
    }
    let taken = v.taken;
    let m = lines_in(rules, v, v);
    reach(rules, ranks, m, taken) & taken == 0
}
