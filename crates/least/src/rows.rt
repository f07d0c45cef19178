// What the rules say of the sets below bounds, a row for each rule that can ask for a head. The rows are gathered once, and the search looks at no rule.
ghost use Rattle.std.specs.Prelude.{◌≡◌, ◌+◌, ◌*◌, ◌≤◌, length};
ghost use Rattle.logic.specs.Tests.{Decides};
ghost use Rattle.least.specs.Rows.{row_at, put_at, row_of, CanAsk, Unanswered, Gathered};

use masks::{Bounds, Masks, Rules};
use sets::Pair;

// How many rows there is room for: one for each rule of a book.
pub const ROOM: usize = 256;

// A row: a set that has all that is needed is to have one of the heads.
#[derive(Clone, Copy)]
pub struct Row {
    pub need: Pair,
    pub head: Pair,
}

// Row k of a slice that has four words for each row.
pub fn row_at(rows: &[u64], k: usize) -> Row
    requires { k * 4 + 4 ≤ length rows.now }
    ensures { result ≡ row_at rows.now k }
{
    let at = k * 4;
    Row {
        need: Pair::of_statements(rows[at], rows[at + 1]),
        head: Pair::of_statements(rows[at + 2], rows[at + 3]),
    }
}

// What the rule says of the sets below b, all of which have the exceptions of its lower end.
pub fn row_of(r: Masks, b: Bounds) -> Row
    ensures { result ≡ row_of r b }
{
    Row {
        need: Pair::of_statements(r.need.held & b.lo.held, r.need.denied & b.lo.denied),
        head: Pair::of_statements(r.head.held & b.lo.held, r.head.denied & b.lo.denied),
    }
}

// Writes a row at place k.
pub fn put(rows: &mut [u64], k: usize, r: Row)
    requires { k * 4 + 4 ≤ length rows.old }
    ensures { rows.new ≡ put_at rows.old k r }
{
    let at = k * 4;
    rows[at] = r.need.held;
    rows[at + 1] = r.need.denied;
    rows[at + 2] = r.head.held;
    rows[at + 3] = r.head.denied;
}

// The rule can ask a set below b for a head: it can fire within b, has a head in the lower end, and none among what it needs there.
pub fn can_ask(r: Masks, b: Bounds) -> bool
    ensures { Decides result (CanAsk r b) }
{
    if sets::apart(r.head, b.lo) {
        return false;
    }
    if !masks::fires(r, b.lo, b.hi) {
        return false;
    }
    sets::apart(sets::meet(r.need, b.lo), r.head)
}

// Writes the rows of the first n rules, and answers how many there are.
pub fn gather(rules: &Rules<'_>, b: Bounds, rows: &mut [u64]) -> usize
    requires { rules.now.count * 4 ≤ length rows.old }
    ensures { Gathered rules.now.words.now rules.now.count b rows.new result }
{
    let mut m: usize = 0;
    for k in 0..rules.count {
        let r = masks::masks_at(rules.words, k);
        if can_ask(r, b) {
            put(rows, m, row_of(r, b));
            m += 1;
        }
    }
    m
}

// The set c has all that the row needs and none of its heads.
pub fn unanswered(r: Row, c: Pair) -> bool
    ensures { Decides result (Unanswered r c) }
{
    if !sets::apart(r.head, c) {
        return false;
    }
    sets::within(r.need, c)
}
