// Bounds without pairs that a remembered view dominates: sound steps on bounds, as those of crate bounds are.
ghost use Rattle.std.specs.Prelude.{◌≡◌, true, ◌<◌, ◌≤◌, length};
ghost use Rattle.bounds.specs.Sound.{In, Keeps};
ghost use Rattle.masks.specs.declared.Bounds.{Bounds as BoundsOf};
ghost use Rattle.sets.specs.declared.Pair.{Pair as PairOf};
ghost use Rattle.queue.specs.Chains.{Chains};
ghost use Rattle.admissible.specs.Admissible.{Stands as StandsOf};
ghost use Rattle.standing.specs.Standing.{Right as RightOf, Failing, ShutAt, Shut, Spared};
ghost use Rattle.admissible.specs.InBook.{Stands};
ghost use Rattle.queue.specs.InBook.{MaskView};
ghost use Rattle.standing.specs.InBook.{Right, StandingView, Unbanned};
ghost use Rattle.masks.specs.OfRules.{HasLines};

use crate::memory::Memory;
use masks::{Bounds, Masks, Rules};
use queue::{Prepared, Rest, index};
use sets::Pair;

// The body of a line is not satisfied: if one open condition is left, it is made false. A line needs no exception, so it is like a rule that a
// pair meets where it does not satisfy the body.
pub fn fails_body(r: Masks, b: Bounds) -> Bounds
    ensures { Keeps (Failing r) b result }
{
    if r.need.taken != 0 {
        return b;
    }
    bounds::falsified(r, b)
}

// Line j does not count, if it is one of m and leads from a member of s to one of t.
pub fn shut_at(rules: &Rules<'_>, m: u64, s: u64, t: u64, j: usize, b: Bounds) -> Bounds
    requires { HasLines rules.now × (j < 32) }
    ensures { Keeps (ShutAt rules.now.words.now rules.now.count m s t j) b result }
{
    if (m >> (j as u64)) % 2 == 0 {
        return b;
    }
    let l = masks::masks_at(rules.words, rules.count + j);
    if l.head.held & s == 0 || l.head.denied & t == 0 {
        return b;
    }
    fails_body(l, b)
}

// No line of m that leads from a member of s to one of t counts.
pub fn shut(rules: &Rules<'_>, m: u64, s: u64, t: u64, b: Bounds) -> Bounds
    requires { HasLines rules.now }
    ensures { Keeps (Shut rules.now.words.now rules.now.count m s t) b result }
{
    let mut o = b;
    for j in 0..masks::lines::LINES {
        o = shut_at(rules, m, s, t, j, o);
    }
    o
}

// The bounds without pairs that the ban bars. The lines of `sure` count within them, those of `may` perhaps: what sure lines of the ban lead to is
// not taken, and no line of the ban leads from there to what is surely taken.
pub fn by_ban(
    rules: &Rules<'_>,
    ranks: &[u64],
    taken: u64,
    lines: u64,
    sure: u64,
    may: u64,
    b: Bounds,
) -> Bounds
    requires { HasLines rules.now × (length ranks.now ≤ 64) }
    ensures { Keeps (Spared rules.now.words.now rules.now.count ranks.now sure taken lines) b result }
{
    if taken == 0 {
        return b;
    }
    let low = b.lo.taken;
    let f = masks::lines::reach(rules, ranks, sure & lines, taken);
    if f & low != 0 {
        return bounds::void();
    }
    let o = bounds::out(
        b,
        Pair {
            taken: f,
            ..Pair::EMPTY
        },
    );
    let left = may & lines;
    shut(rules, left ^ (left & sure), taken | f, low, o)
}

// The bounds without pairs that a remembered view dominates.
pub fn by_bans(rules: &Rules<'_>, ranks: &[u64], mem: &Memory, b: Bounds) -> Bounds
    requires { HasLines rules.now × (length ranks.now ≤ 64) }
    ensures { (root : BoundsOf) → RightOf rules.now.words.now rules.now.count ranks.now root mem.now → Keeps (StandsOf rules.now.words.now rules.now.count ranks.now root) b result }
{
    if mem.next_ban == 0 {
        return b;
    }
    let sure = masks::lines::lines_in(rules, b.hi, b.lo);
    let may = masks::lines::lines_in(rules, b.lo, b.hi);
    let mut o = b;
    for ban in &mem.bans {
        o = by_ban(rules, ranks, ban.taken, ban.lines, sure, may, o);
        if !sets::within(o.lo, o.hi) {
            return o;
        }
    }
    o
}

// How many times bans and rules narrow bounds in turn, at most.
const ROUNDS: u64 = 4;

// Bounds at rest, narrowed by bans and rules in turn.
pub fn in_turn(book: &Prepared<'_>, rest: Rest, mem: &Memory) -> Rest
    requires { HasLines book.now.rules }
    ensures { (root : BoundsOf) → Right book.now root mem.now → Keeps (StandingView book.now root) rest.bounds result.bounds }
{
    let mut r = rest;
    for _ in 0..ROUNDS {
        let b = r.bounds;
        let o = by_bans(&book.rules, book.ranks, mem, b);
        if o == b {
            return r;
        }
        let w = index::among(book.index, r.live, b, o);
        r = queue::propagate(book, w, o);
        if !sets::within(r.bounds.lo, r.bounds.hi) {
            return r;
        }
    }
    r
}

// Bounds at rest without views that a remembered view dominates; no wider than they were.
pub fn unbanned(book: &Prepared<'_>, rest: Rest, mem: &Memory) -> Rest
    requires { HasLines book.now.rules }
    ensures { Unbanned book.now mem.now rest.bounds result.bounds }
{
    let r = in_turn(book, rest, mem);
    let live = r.live;
    Rest {
        bounds: bounds::narrowed(rest.bounds, r.bounds),
        live,
    }
}

// Remembered views dominate every view within bounds at rest.
pub fn barred(book: &Prepared<'_>, rest: Rest, mem: &Memory) -> bool
    requires { HasLines book.now.rules }
    ensures { (root : BoundsOf) → Right book.now root mem.now → result ≡ true → (v : PairOf) → MaskView book.now v → In rest.bounds v → Stands book.now root v → ⊥ }
{
    let r = unbanned(book, rest, mem);
    !sets::within(r.bounds.lo, r.bounds.hi)
}
