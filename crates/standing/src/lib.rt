// Which pairs stand: those that no view dominates. What was found is remembered, since many pairs fall to one and the same view.
#![tactic(auto)]

ghost use Rattle.std.specs.Prelude.{◌<◌};
ghost use Rattle.logic.specs.Tests.{Decides};
ghost use Rattle.queue.specs.Chains.{Chains};
ghost use Rattle.standing.specs.Standing.{Ranked};
ghost use Rattle.admissible.specs.InBook.{Stands, Unexceeded};
ghost use Rattle.standing.specs.InBook.{AttemptedIn, Right, Searched, StandingIn, UnexceededAt, UnexceededIn};
ghost use Rattle.masks.specs.OfRules.{HasLines};

use crate::memory::Memory;
use masks::{Bounds, Rules};
use probe::{Node, Outcome};
use queue::waiting::Work;
use queue::{Prepared, Rest, index, waiting};
use sets::Pair;

pub mod bans;
pub mod memory;
pub mod splitting;

// The lines whose steps rank in the pair: those that count in it, and those that are the same step as one of these.
pub fn ranking(rules: &Rules<'_>, v: Pair) -> u64
    requires { HasLines rules.now }
    ensures { Ranked rules.now.words.now rules.now.count v result }
{
    masks::lines::mates(rules, masks::lines::lines_in(rules, v, v))
}

// No view within root leads to a member of `taken` by lines of u that count in it. What is found is remembered.
pub fn undominated(book: &Prepared<'_>, root: Bounds, mem: &mut Memory, taken: u64, u: u64) -> bool
    requires { HasLines book.now.rules }
    ensures { Searched book.now root taken u mem.old mem.new result }
{
    let rest = Rest {
        bounds: root,
        live: waiting::everything(),
    };
    match superior::superior(book, rest, taken, u, u) {
        Some(w) => {
            memory::forbid(mem, w.taken, ranking(&book.rules, w));
            false
        }
        None => {
            memory::allow(mem, taken, u);
            true
        }
    }
}

// No view within root dominates the pair. The bounds root should be at rest.
pub fn stands(book: &Prepared<'_>, root: Bounds, mem: &mut Memory, v: Pair) -> bool
    requires { HasLines book.now.rules }
    ensures { Right book.now root mem.old → Right book.now root mem.new × Decides result (Stands book.now root v) }
{
    let taken = v.taken;
    let m = masks::lines::lines_in(&book.rules, v, v);
    let u = masks::lines::mates(&book.rules, m);
    if memory::known_free(mem, taken, u) {
        return true;
    }
    if memory::known_barred(&book.rules, book.ranks, mem, m, taken) {
        return false;
    }
    undominated(book, root, mem, taken, u)
}

// A view within the bounds b stands; w is what is to be done before the bounds are at rest. As probe::probe, but bans narrow the bounds of each node, what
// lines ask is decided first, and a view that is found is asked whether it stands.
pub fn search(book: &Prepared<'_>, root: Bounds, w: Work, b: Bounds, mem: &mut Memory) -> bool
    requires { HasLines book.now.rules }
    ensures { Right book.now root mem.old → Right book.now root mem.new × StandingIn book.now root b result }
{
    let x = probe::visit(book, w, b);
    match x {
        Node::View(v) => stands(book, root, mem, v),
        Node::Empty => false,
        Node::Open(c, m, live) => {
            let r = bans::unbanned(book, Rest { bounds: c, live }, mem);
            let d = r.bounds;
            if !sets::within(d.lo, d.hi) {
                return false;
            }
            let m = splitting::asked(&book.rules, d, m);
            let o = bounds::out(d, m);
            let t = index::among(book.index, r.live, d, o);
            if search(book, root, t, o, mem) {
                return true;
            }
            let p = bounds::into(d, m);
            let t = index::among(book.index, r.live, d, p);
            search(book, root, t, p, mem)
        }
    }
}

// How many nodes a search for one view that stands may visit before the bounds it began with are shaved.
const FUEL: u64 = 256;

// The same search, which visits at most `fuel` nodes.
// Kept: one function for this and `search` would make the fuel an Option, and `search` would have an answer `Stopped` that never comes.
pub fn attempt(
    book: &Prepared<'_>,
    root: Bounds,
    w: Work,
    b: Bounds,
    mem: &mut Memory,
    fuel: u64,
) -> Outcome
    requires { HasLines book.now.rules }
    ensures { Right book.now root mem.old → Right book.now root mem.new × AttemptedIn book.now root b result }
{
    if fuel == 0 {
        return Outcome::Stopped;
    }
    let x = probe::visit(book, w, b);
    match x {
        Node::View(v) => {
            if stands(book, root, mem, v) {
                return Outcome::Has(v);
            }
            Outcome::Lacks(fuel - 1)
        }
        Node::Empty => Outcome::Lacks(fuel - 1),
        Node::Open(c, m, live) => {
            let r = bans::unbanned(book, Rest { bounds: c, live }, mem);
            let d = r.bounds;
            if !sets::within(d.lo, d.hi) {
                return Outcome::Lacks(fuel - 1);
            }
            let m = splitting::asked(&book.rules, d, m);
            let o = bounds::out(d, m);
            let t = index::among(book.index, r.live, d, o);
            let a = attempt(book, root, t, o, mem, fuel - 1);
            match a {
                Outcome::Has(v) => Outcome::Has(v),
                Outcome::Stopped => Outcome::Stopped,
                Outcome::Lacks(left) => {
                    let p = bounds::into(d, m);
                    let t = index::among(book.index, r.live, d, p);
                    attempt(book, root, t, p, mem, left)
                }
            }
        }
    }
}

// The same as search, from shaved bounds.
pub fn search_shaved(
    book: &Prepared<'_>,
    root: Bounds,
    w: Work,
    b: Bounds,
    mem: &mut Memory,
) -> bool
    requires { HasLines book.now.rules }
    ensures { Right book.now root mem.old → Right book.now root mem.new × StandingIn book.now root b result }
{
    let rest = queue::propagate(book, w, b);
    let r = probe::shaving::shaved(book, rest);
    search(book, root, waiting::none(r.live), r.bounds, mem)
}

// The same as search: from shaved bounds where the plain search has used up its fuel.
pub fn standing(book: &Prepared<'_>, root: Bounds, w: Work, b: Bounds, mem: &mut Memory) -> bool
    requires { HasLines book.now.rules }
    ensures { Right book.now root mem.old → Right book.now root mem.new × StandingIn book.now root b result }
{
    let a = attempt(book, root, w, b, mem, FUEL);
    match a {
        Outcome::Has(_) => true,
        Outcome::Lacks(_) => false,
        Outcome::Stopped => search_shaved(book, root, w, b, mem),
    }
}

// No view within bounds at rest that stands has a subset of `taken` that lacks its exception at place e.
pub fn unexceeded_at(
    book: &Prepared<'_>,
    root: Bounds,
    rest: Rest,
    mem: &mut Memory,
    taken: u64,
    e: u64,
) -> bool
    requires { HasLines book.now.rules × (e < 64) }
    ensures { Right book.now root mem.old → Right book.now root mem.new × Decides result (UnexceededAt book.now root rest.bounds taken e) }
{
    if (taken >> e) % 2 == 0 {
        return true;
    }
    let b = rest.bounds;
    if (b.lo.taken >> e) % 2 == 1 {
        return true;
    }
    let c = bounds::with_sets(b, 0, sets::cleared(taken, e));
    let w = index::among(book.index, rest.live, b, c);
    !standing(book, root, w, c, mem)
}

// No view within bounds at rest that stands has a proper subset of `taken`: for each member there is none without it.
// Kept: one function for this and `admissible::each_needed` would take a closure that changes the memory, with a `requires` of its own.
pub fn each_needed(
    book: &Prepared<'_>,
    root: Bounds,
    rest: Rest,
    mem: &mut Memory,
    taken: u64,
) -> bool
    requires { HasLines book.now.rules }
    ensures { Right book.now root mem.old → Right book.now root mem.new × Decides result (UnexceededIn book.now root rest.bounds taken) }
{
    for e in 0..64 {
        if !unexceeded_at(book, root, rest, mem, taken, e) {
            return false;
        }
    }
    true
}

// No view within root that stands has a proper subset of `taken`. What all subsets have in common is found first, once for all members.
pub fn unexceeded(book: &Prepared<'_>, root: Bounds, mem: &mut Memory, taken: u64) -> bool
    requires { HasLines book.now.rules }
    ensures { Right book.now root mem.old → Right book.now root mem.new × Decides result (Unexceeded book.now root taken) }
{
    let b = bounds::with_sets(root, 0, taken);
    let rest = queue::propagate(book, index::changed(book.index, root, b), b);
    each_needed(book, root, rest, mem, taken)
}
