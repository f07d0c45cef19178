// Is there a view within given bounds? Propagate, test what is left if it is one pair, else split the bounds by one member.
#![tactic(auto)]

ghost use Rattle.std.specs.Prelude.{◌*◌, ◌≤◌, length};
ghost use Rattle.sets.specs.Pairs.{minus_of};
ghost use Rattle.bounds.specs.Singles.{Picked};
ghost use Rattle.queue.specs.Chains.{Chains};
ghost use Rattle.probe.specs.InBook.{Attempted, Opened, Probed};

use masks::{Bounds, Rules};
use queue::waiting::{Waiting, Work};
use queue::{Prepared, index, waiting};
use sets::Pair;

pub mod shaving;
pub mod weights;

// What propagation leaves of bounds: one view; nothing; narrower bounds, with a member to split them by and the rules that are live.
#[derive(Clone, Copy)]
pub enum Node {
    View(Pair),
    Empty,
    Open(Bounds, Pair, Waiting),
}

// A member that is in some pairs within the bounds and not in others: the heaviest, or any if that is none.
pub fn pick(rules: &Rules<'_>, live: Waiting, c: Bounds) -> Pair
    ensures { Picked (minus_of c.hi c.lo) result }
{
    let free = sets::minus(c.hi, c.lo);
    if let Some(best) = weights::heaviest(rules, live, free) {
        let m = bounds::one(best.part, best.place);
        if sets::within(m, free) {
            return m;
        }
    }
    bounds::single(free)
}

// One node of the search.
pub fn visit(book: &Prepared<'_>, w: Work, b: Bounds) -> Node
    ensures { Opened book.now b result }
{
    let index = book.index;
    let rest = queue::propagate(book, w, b);
    let c = rest.bounds;
    let live = rest.live;
    let lo = c.lo;
    let hi = c.hi;
    if !sets::within(lo, hi) {
        return Node::Empty;
    }
    if lo == hi {
        if least::is_view(&book.rules, book.ranks, lo) {
            return Node::View(lo);
        }
        return Node::Empty;
    }
    if index[index::KNOT] != 0 {
        if !least::founded(&book.rules, c) {
            return Node::Empty;
        }
    }
    Node::Open(c, pick(&book.rules, live, c), live)
}

// A view within the bounds b, or none; w is what is to be done before the bounds are at rest.
pub fn probe(book: &Prepared<'_>, w: Work, b: Bounds) -> Option<Pair>
    ensures { Probed book.now b result }
{
    match visit(book, w, b) {
        Node::View(v) => Some(v),
        Node::Empty => None,
        Node::Open(c, m, live) => {
            let o = bounds::out(c, m);
            let t = index::among(book.index, live, c, o);
            if let Some(v) = probe(book, t, o) {
                return Some(v);
            }
            let p = bounds::into(c, m);
            let t = index::among(book.index, live, c, p);
            probe(book, t, p)
        }
    }
}

// How many nodes a search for one view may visit before the bounds it began with are shaved.
const FUEL: u64 = 1024;

// What a search with so much fuel has to say: a view; that there is none, and the fuel that is left; nothing, where the fuel is used up.
#[derive(Clone, Copy)]
pub enum Outcome {
    Has(Pair),
    Lacks(u64),
    Stopped,
}

// The same search, which visits at most `fuel` nodes.
pub fn attempt(book: &Prepared<'_>, w: Work, b: Bounds, fuel: u64) -> Outcome
    ensures { Attempted book.now b result }
{
    if fuel == 0 {
        return Outcome::Stopped;
    }
    match visit(book, w, b) {
        Node::View(v) => Outcome::Has(v),
        Node::Empty => Outcome::Lacks(fuel - 1),
        Node::Open(c, m, live) => {
            let o = bounds::out(c, m);
            let t = index::among(book.index, live, c, o);
            match attempt(book, t, o, fuel - 1) {
                Outcome::Has(v) => Outcome::Has(v),
                Outcome::Stopped => Outcome::Stopped,
                Outcome::Lacks(left) => {
                    let p = bounds::into(c, m);
                    let t = index::among(book.index, live, c, p);
                    attempt(book, t, p, left)
                }
            }
        }
    }
}

// The same as probe, from shaved bounds.
pub fn probe_shaved(book: &Prepared<'_>, w: Work, b: Bounds) -> Option<Pair>
    ensures { Probed book.now b result }
{
    let rest = queue::propagate(book, w, b);
    let r = shaving::shaved(book, rest);
    probe(book, waiting::none(r.live), r.bounds)
}

// The same as probe: from shaved bounds where the plain search has used up its fuel.
pub fn ask(book: &Prepared<'_>, w: Work, b: Bounds) -> Option<Pair>
    ensures { Probed book.now b result }
{
    match attempt(book, w, b, FUEL) {
        Outcome::Has(v) => Some(v),
        Outcome::Lacks(_) => None,
        Outcome::Stopped => probe_shaved(book, w, b),
    }
}
