// Which rules mention a conclusion or an exception. No contract depends on these rows: a wrong one costs time, not truth.
ghost use Rattle.std.specs.Prelude.{◌+◌, ◌*◌, ◌<◌, ◌≤◌, length};
ghost use Rattle.queue.specs.Chains.{Chains};

use crate::waiting::{Waiting, Work};
use crate::{heads, waiting};
use masks::{Bounds, Masks, Rules};
use sets::Pair;

// Four words for each of 192 rows: rows 0 to 63 for the statements held, 64 to 127 denied, 128 to 191 for the exceptions.
// Then one word, not 0 if conclusions can need each other in a circle; then the chains and rows of `heads`.
pub const CIRCLE: usize = 192 * 4;

// Not 0 if a rule has alternatives: then the search asks whether what is sure has a smaller closed set.
pub const KNOT: usize = heads::ROWS + 128;

pub const LENGTH: usize = KNOT + 1;

pub type Index = [u64; LENGTH];

// The rules of t with those of a row.
pub fn added(index: &Index, row: u64, t: Waiting) -> Waiting
    requires { row < 192 }
{
    let at = (row * 4) as usize;
    let mut o = t;
    for (k, word) in o.words.iter_mut().enumerate() {
        *word |= index[at + k];
    }
    o
}

// The rules of t with those of the rows of m's members, counted from row `from`.
pub fn rows(index: &Index, from: u64, m: u64, t: Waiting) -> Waiting
    requires { from ≤ 128 }
{
    let mut o = t;
    for i in sets::members(m) {
        o = added(index, from + i, o);
    }
    o
}

// The rules of t with those that mention what differs between two bounds.
pub fn marked(index: &Index, a: Bounds, b: Bounds, t: Waiting) -> Waiting {
    let held = (a.lo.held ^ b.lo.held) | (a.hi.held ^ b.hi.held);
    let denied = (a.lo.denied ^ b.lo.denied) | (a.hi.denied ^ b.hi.denied);
    let taken = (a.lo.taken ^ b.lo.taken) | (a.hi.taken ^ b.hi.taken);
    rows(
        index,
        128,
        taken,
        rows(index, 64, denied, rows(index, 0, held, t)),
    )
}

// What is to be done after a change from bounds at rest: of the live rules those wait that mention what differs, and what is newly sure
// asks for its support.
pub fn among(index: &Index, live: Waiting, a: Bounds, b: Bounds) -> Work {
    Work {
        rules: waiting::both(live, marked(index, a, b, waiting::nothing())),
        asked: sets::minus(b.lo, a.lo),
        live,
    }
}

// The same where any rule may be live.
pub fn changed(index: &Index, a: Bounds, b: Bounds) -> Work {
    among(index, waiting::everything(), a, b)
}

// Puts rule k into the rows of m's members, counted from row `from`.
pub fn put(index: &mut Index, from: u64, m: u64, k: u64)
    requires { (from ≤ 128) × (k < 256) }
{
    let bit = 1 << (k % 64);
    for i in sets::members(m) {
        index[((from + i) * 4 + k / 64) as usize] |= bit;
    }
}

// Puts rule k into the rows of all that it mentions.
pub fn put_rule(index: &mut Index, r: Masks, k: u64)
    requires { k < 256 }
{
    put(index, 0, r.head.held | r.need.held | r.bar.held, k);
    put(index, 64, r.head.denied | r.need.denied | r.bar.denied, k);
    put(index, 128, r.need.taken, k);
}

// The heads of the rules that need a conclusion of c.
pub fn fed(rules: &Rules<'_>, c: Pair) -> Pair {
    let mut d = Pair::EMPTY;
    for k in 0..rules.count {
        let r = masks::masks_at(rules.words, k);
        if !sets::apart(r.need, c) {
            d = sets::join(d, r.head);
        }
    }
    d
}

// Conclusions can need each other in a circle: some are left when those are taken away that need none of the rest.
pub fn circular(rules: &Rules<'_>) -> bool {
    let mut c = Pair::of_statements(u64::MAX, u64::MAX);
    for _ in 0..128 {
        let d = sets::meet(c, fed(rules, c));
        if c == d {
            return c != Pair::EMPTY;
        }
        c = d;
    }
    true
}

// A rule has alternatives.
pub fn branching(rules: &Rules<'_>) -> bool {
    heads::simple(rules) < rules.count
}

// Fills an index of zeros from the rules.
pub fn fill(rules: &Rules<'_>, index: &mut Index)
    requires { rules.now.count ≤ 256 }
    ensures { Chains rules.now.words.now rules.now.count index.new }
{
    for k in 0..rules.count {
        put_rule(index, masks::masks_at(rules.words, k), k as u64);
    }
    if circular(rules) {
        index[CIRCLE] = 1;
    }
    if index[CIRCLE] != 0 {
        index[KNOT] = u64::from(branching(rules));
    }
    heads::chains(rules, index);
}
