// Sound steps on bounds: no view within them is lost. In which order steps are taken, no proof depends on.
// The letters behind the comments are those of the facts and steps in docs/SEARCH.md.
#![tactic(auto)]

ghost use Rattle.std.specs.Prelude.{◌≡◌, ◌*◌, ◌<◌, ◌≤◌, length};
ghost use Rattle.masks.specs.Views.{Meets};
ghost use Rattle.bounds.specs.Singles.{one_of, number_of, Place, Picked};
ghost use Rattle.bounds.specs.Sound.{Keeps, Firing, Idle, Coherent, Levelled, LevelledAt, Unlinked, Ruled, into_of, out_of, narrow_of, with_sets};

use masks::{Bounds, Masks, Rules, lines};
use sets::Pair;

// The words of a pair.
#[derive(Clone, Copy, PartialEq, Eq, Debug)]
pub enum Part {
    Held,
    Denied,
    Taken,
}

impl Part {
    // All of them, in this order.
    pub const ALL: [Part; 3] = [Part::Held, Part::Denied, Part::Taken];

    // Its place among them.
    pub fn number(self) -> u64
        ensures { result ≡ number_of self }
    {
        match self {
            Part::Held => 0,
            Part::Denied => 1,
            Part::Taken => 2,
        }
    }
}

// The pair whose one member stands at place k of a word.
pub fn one(part: Part, k: u64) -> Pair
    requires { k < 64 }
    ensures { result ≡ one_of (number_of part) k }
{
    let x = 1 << k;
    match part {
        Part::Held => Pair::of_statements(x, 0),
        Part::Denied => Pair::of_statements(0, x),
        Part::Taken => Pair::of_exceptions(x),
    }
}

// The place of the highest member of a word that has one.
pub fn top(x: u64) -> u64
    requires { 0 < x }
    ensures { Place x result }
{
    u64::from(x.ilog2())
}

// One member, of x if x has any: which one, nothing depends on.
pub fn single(x: Pair) -> Pair
    ensures { Picked x result }
{
    let held = x.held;
    if 0 < held {
        return one(Part::Held, top(held));
    }
    let denied = x.denied;
    if 0 < denied {
        return one(Part::Denied, top(denied));
    }
    let taken = x.taken;
    if 0 < taken {
        return one(Part::Taken, top(taken));
    }
    one(Part::Held, 0)
}

// The bounds with m in every pair.
pub fn into(b: Bounds, m: Pair) -> Bounds
    ensures { result ≡ into_of b m }
{
    let hi = b.hi;
    Bounds {
        lo: sets::join(b.lo, m),
        hi,
    }
}

// The bounds with nothing of m in any pair.
pub fn out(b: Bounds, m: Pair) -> Bounds
    ensures { result ≡ out_of b m }
{
    let lo = b.lo;
    Bounds {
        lo,
        hi: sets::minus(b.hi, m),
    }
}

// Bounds with nothing in them.
pub fn void() -> Bounds {
    Bounds {
        lo: Pair::of_statements(1, 0),
        hi: Pair::EMPTY,
    }
}

// Bounds with nothing in them that differ little from b: few rules mention what differs.
pub fn crossed(b: Bounds) -> Bounds {
    Bounds {
        lo: Pair {
            held: b.lo.held | (1 << 63),
            ..b.lo
        },
        hi: b.hi,
    }
}

// The bounds b without what o leaves out.
pub fn narrowed(b: Bounds, o: Bounds) -> Bounds
    ensures { result ≡ narrow_of b o }
{
    Bounds {
        lo: sets::join(b.lo, o.lo),
        hi: sets::meet(b.hi, o.hi),
    }
}

// The bounds root with only the sets of exceptions from lo to hi.
pub fn with_sets(root: Bounds, lo: u64, hi: u64) -> Bounds
    ensures { result ≡ with_sets root lo hi }
{
    Bounds {
        lo: Pair {
            taken: root.lo.taken | lo,
            ..root.lo
        },
        hi: Pair {
            taken: root.hi.taken & hi,
            ..root.hi
        },
    }
}

// The body is satisfied: needed entries in, barred ones out, and the head in if one alone is possible. If none is, as for a constraint, nothing is
// left. (a), (b)
pub fn forced(r: Masks, b: Bounds) -> Bounds
    ensures { Keeps (Firing r) b result }
{
    let x = sets::meet(r.head, b.hi);
    if !masks::lone(x) {
        return into(out(b, r.bar), r.need);
    }
    if x.held | x.denied | x.taken == 0 {
        return crossed(b);
    }
    into(into(out(b, r.bar), r.need), x)
}

// The body is not satisfied: the rule is no exception that is taken. (c)
pub fn untaken(r: Masks, b: Bounds) -> Bounds
    ensures { Keeps (Idle r) b result }
{
    out(b, Pair::of_exceptions(r.need.taken))
}

// The body is not satisfied: if one open condition is left, it is made false. (B1)
pub fn falsified(r: Masks, b: Bounds) -> Bounds
    ensures { Keeps (Idle r) b result }
{
    if sets::apart(r.bar, b.hi) {
        let x = sets::minus(r.need, b.lo);
        let m = single(x);
        if sets::within(x, m) {
            return out(b, m);
        }
        return b;
    }
    if sets::within(r.need, b.lo) {
        let y = sets::meet(r.bar, b.hi);
        let m = single(y);
        if sets::within(y, m) {
            return into(b, m);
        }
    }
    b
}

// What a rule says whose body may hold: it surely holds, or must not hold.
pub fn step(r: Masks, b: Bounds) -> Bounds
    ensures { Keeps (Meets r) b result }
{
    if r.need.taken & b.lo.taken != 0 {
        return forced(r, b);
    }
    if masks::fires(r, b.hi, b.lo) {
        return forced(r, b);
    }
    if sets::apart(r.head, b.hi) {
        return falsified(r, b);
    }
    b
}

// What is held is not denied. (e)
pub fn coheres(b: Bounds) -> Bounds
    ensures { Keeps Coherent b result }
{
    out(b, Pair::of_statements(b.lo.denied, b.lo.held))
}

// What the exception at place a outranks is not taken beside it. (f)
pub fn level_step(rank: u64, a: u64, b: Bounds) -> Bounds
    requires { a < 64 }
    ensures { Keeps (LevelledAt rank a) b result }
{
    if (b.lo.taken >> a) % 2 == 1 {
        return out(b, Pair::of_exceptions(rank));
    }
    if rank & b.lo.taken != 0 {
        return out(b, one(Part::Taken, a));
    }
    b
}

// The same of every exception.
pub fn levels(ranks: &[u64], b: Bounds) -> Bounds
    requires { length ranks.now ≤ 64 }
    ensures { Keeps (Levelled ranks.now) b result }
{
    let mut o = b;
    for (a, &rank) in ranks.iter().enumerate() {
        o = level_step(rank, a as u64, o);
    }
    o
}

// What lines that surely count lead to, from an exception that is surely taken, is not taken.
pub fn unlinked(rules: &Rules<'_>, ranks: &[u64], b: Bounds) -> Bounds
    requires { length ranks.now ≤ 64 }
    ensures { Keeps (Unlinked rules.now.words.now rules.now.count ranks.now) b result }
{
    if !lines::lined(rules) {
        return b;
    }
    let m = lines::lines_in(rules, b.hi, b.lo);
    let taken = lines::reach(rules, ranks, m, b.lo.taken);
    out(b, Pair::of_exceptions(taken))
}

// What no chain of rules can give from nothing within the bounds is out: the upper end shrinks to a closure.
pub fn upper(rules: &Rules<'_>, b: Bounds) -> Bounds
    ensures { Keeps (Ruled rules.now.words.now rules.now.count) b result }
{
    let lo = b.lo;
    Bounds {
        lo,
        hi: sets::meet(b.hi, masks::closure(rules, b)),
    }
}
