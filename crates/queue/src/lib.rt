// Propagation: sound steps from a queue until nothing changes. Only the rules wait that mention what has changed.
#![tactic(auto)]

ghost use Rattle.std.specs.Prelude.{◌≡◌, ◌*◌, ◌≤◌, length};
ghost use Rattle.logic.specs.Tests.{Decides};
ghost use Rattle.masks.specs.Views.{Fires, Meets, MaskView};
ghost use Rattle.bounds.specs.Sound.{Keeps, Coherent, Ruled, Propagated};
ghost use Rattle.queue.specs.Chains.{Chains};

use index::Index;
use masks::{Bounds, Masks, Rules};
use sets::Pair;
use waiting::{Waiting, Work};

pub mod heads;
pub mod index;
pub mod waiting;

// A book as the search reads it: its rules, for each exception those that it outranks, and the index of the rules.
#[derive(Clone, Copy)]
pub struct Prepared<'a> {
    pub rules: Rules<'a>,
    pub ranks: &'a [u64],
    pub index: &'a Index,
    ghost few: { length ranks.now ≤ 64 },
    ghost chained: { Chains rules.words.now rules.count index.now },
}

// Bounds, and what is to be done before they are at rest.
#[derive(Clone, Copy)]
pub struct State {
    pub bounds: Bounds,
    pub work: Work,
}

// Bounds at rest, and the rules that are live within them.
#[derive(Clone, Copy)]
pub struct Rest {
    pub bounds: Bounds,
    pub live: Waiting,
}

// The word has two members at least.
pub fn several(x: u64) -> bool {
    sets::size(x) > 1
}

// The rule says nothing new within the bounds. No contract depends on this: a wrong answer costs time, not truth.
pub fn quiet(r: Masks, b: Bounds, alive: bool) -> bool {
    if !alive {
        return r.need.taken & b.hi.taken == 0;
    }
    let x = sets::minus(r.need, b.lo);
    let y = sets::meet(r.bar, b.hi);
    let open = x.held | x.denied | x.taken | y.held | y.denied;
    if open == 0 {
        return !sets::apart(r.head, b.lo) || !masks::lone(sets::meet(r.head, b.hi));
    }
    if r.need.taken & b.lo.taken != 0 {
        return false;
    }
    !sets::apart(r.head, b.hi) || several(open)
}

// What a rule says: `alive` tells whether its body may hold.
pub fn said(r: Masks, b: Bounds, alive: bool) -> Bounds
    requires { Decides alive (Fires r b.lo b.hi) }
    ensures { Keeps (Meets r) b result }
{
    if alive {
        return bounds::step(r, b);
    }
    bounds::untaken(r, b)
}

// The heads of a rule with alternatives that ask for support where some of them are sure: the others if one is, and if several are, these.
pub fn unsupported(head: Pair, lo: Pair) -> Pair {
    let sure = sets::meet(head, lo);
    if masks::lone(sure) {
        return sets::minus(head, sure);
    }
    sure
}

// The work without rule j. If its body surely fails it is live no longer, and its head asks for support; so do heads of which one is sure, where
// the rule is one of those that may have alternatives.
pub fn without_rule(w: Work, j: u64, head: Pair, lo: Pair, several: bool, alive: bool) -> Work {
    let rules = waiting::without(w.rules, j);
    let asked = w.asked;
    let live = w.live;
    if alive {
        if several && !sets::apart(head, lo) {
            return Work {
                rules,
                asked: sets::join(asked, unsupported(head, lo)),
                live,
            };
        }
        return Work { rules, asked, live };
    }
    Work {
        rules,
        asked: sets::join(asked, head),
        live: waiting::without(live, j),
    }
}

// The rules that wait, one after the other, until one has something new to say. Those before place `cut` have one head or none.
pub fn stepped(rules: &Rules<'_>, cut: u64, q: State) -> State
    ensures { Keeps (Ruled rules.now.words.now rules.now.count) q.bounds result.bounds }
{
    let n = rules.count;
    let bounds = q.bounds;
    let mut work = q.work;
    for _ in 0..256 {
        let Some(j) = waiting::next(work.rules) else {
            return State { bounds, work };
        };
        if j as usize >= n {
            return State { bounds, work };
        }
        let r = masks::masks_at(rules.words, j as usize);
        let alive = masks::fires(r, bounds.lo, bounds.hi);
        work = without_rule(work, j, r.head, bounds.lo, cut <= j, alive);
        if !quiet(r, bounds, alive) {
            return State {
                bounds: said(r, bounds, alive),
                work,
            };
        }
    }
    State { bounds, work }
}

// The state with other bounds, where these conclusions ask for support.
pub fn asking(q: State, bounds: Bounds, asked: Pair) -> State
    ensures { result.bounds ≡ bounds }
{
    let rules = q.work.rules;
    let live = q.work.live;
    State {
        bounds,
        work: Work { rules, asked, live },
    }
}

// The support of the conclusions asked for that are still possible, one after the other, until one changes the bounds.
pub fn answered(rules: &Rules<'_>, index: &Index, q: State) -> State
    requires { Chains rules.now.words.now rules.now.count index.now }
    ensures { Keeps (Ruled rules.now.words.now rules.now.count) q.bounds result.bounds }
{
    let b = q.bounds;
    let mut asked = sets::meet(q.work.asked, b.hi);
    for _ in 0..128 {
        let Some(i) = heads::place(asked) else {
            return asking(q, b, asked);
        };
        let o = heads::support(rules, index, heads::side(asked), i, b);
        asked = heads::others(asked);
        if b != o {
            return asking(q, o, asked);
        }
    }
    asking(q, b, asked)
}

// One turn: what the rules say that wait, and if that is nothing new the support of what is asked for.
pub fn turn(rules: &Rules<'_>, index: &Index, q: State) -> State
    requires { Chains rules.now.words.now rules.now.count index.now }
    ensures { Keeps (Ruled rules.now.words.now rules.now.count) q.bounds result.bounds }
{
    let p = stepped(rules, index[heads::CUT], q);
    if q.bounds != p.bounds {
        return p;
    }
    answered(rules, index, p)
}

// The state p after a turn from the bounds b. If they changed: what is held is not denied, live rules that mention what differs wait, and
// what is newly sure asks for support.
pub fn moved(index: &Index, b: Bounds, p: State) -> State
    ensures { Keeps Coherent p.bounds result.bounds }
{
    if b == p.bounds {
        return p;
    }
    let o = bounds::coheres(p.bounds);
    let live = p.work.live;
    State {
        bounds: o,
        work: Work {
            rules: waiting::both(live, index::marked(index, b, o, p.work.rules)),
            asked: sets::join(p.work.asked, sets::minus(o.lo, b.lo)),
            live,
        },
    }
}

// Nothing is to be done: no rule waits, and no conclusion that is possible asks for support.
pub fn idle(n: usize, q: State) -> bool {
    if let Some(j) = waiting::next(q.work.rules) {
        if (j as usize) < n {
            return false;
        }
    }
    let x = sets::meet(q.work.asked, q.bounds.hi);
    x.held | x.denied == 0
}

// Turns until nothing is to be done, or the bounds have nothing in them.
pub fn run(rules: &Rules<'_>, index: &Index, from: State) -> State
    requires { Chains rules.now.words.now rules.now.count index.now }
    ensures { Keeps (Ruled rules.now.words.now rules.now.count) from.bounds result.bounds }
{
    let n = rules.count;
    let mut q = from;
    for _ in 0..100000 {
        if idle(n, q) {
            return q;
        }
        q = moved(index, q.bounds, turn(rules, index, q));
        if !sets::within(q.bounds.lo, q.bounds.hi) {
            return q;
        }
    }
    q
}

// What all rules together say: preferences, and the bound by a closure if these find nothing and the rules are circular.
pub fn whole(rules: &Rules<'_>, ranks: &[u64], index: &Index, b: Bounds) -> Bounds
    requires { length ranks.now ≤ 64 }
    ensures { Keeps (MaskView rules.now.words.now rules.now.count ranks.now) b result }
{
    let o = bounds::unlinked(rules, ranks, bounds::levels(ranks, b));
    if o != b {
        return o;
    }
    if index[index::CIRCLE] == 0 {
        return o;
    }
    bounds::upper(rules, o)
}

// Narrows the bounds by what is to be done, then by what all rules say together, in turn until nothing changes.
// No view within the bounds is lost; how far they are narrowed, the contract does not say.
pub fn propagate(book: &Prepared<'_>, w: Work, b: Bounds) -> Rest
    ensures { Propagated book.now.rules.words.now book.now.rules.count book.now.ranks.now b result.bounds }
{
    let mut q = State { bounds: b, work: w };
    for _ in 0..512 {
        let a = run(&book.rules, book.index, q);
        let live = a.work.live;
        let c = a.bounds;
        if !sets::within(c.lo, c.hi) {
            return Rest {
                bounds: bounds::narrowed(b, c),
                live,
            };
        }
        let o = whole(&book.rules, book.ranks, book.index, c);
        if c == o {
            return Rest {
                bounds: bounds::narrowed(b, o),
                live,
            };
        }
        q = State {
            bounds: o,
            work: index::among(book.index, live, c, o),
        };
    }
    let live = q.work.live;
    Rest {
        bounds: bounds::narrowed(b, q.bounds),
        live,
    }
}
