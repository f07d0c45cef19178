// Which sets of exceptions a resolution can have: no view has a proper subset, and no view has a member that outranks one.
#![tactic(auto)]

ghost use Rattle.std.specs.Prelude.{◌*◌, ◌<◌, ◌≤◌, length};
ghost use Rattle.logic.specs.Tests.{Decides};
ghost use Rattle.queue.specs.Chains.{Chains};
ghost use Rattle.admissible.specs.InBook.{Admissible, Minimal, MinimalAt, Undominated, UndominatedAt};

use bounds::Part;
use masks::Bounds;
use queue::waiting::Waiting;
use queue::{Prepared, index};

// No view within root has a subset of `taken` that lacks its exception at place e. The bounds root are at rest with these live rules.
pub fn minimal_at(book: &Prepared<'_>, live: Waiting, root: Bounds, taken: u64, e: u64) -> bool
    requires { e < 64 }
    ensures { Decides result (MinimalAt book.now root taken e) }
{
    if (taken >> e) % 2 == 0 {
        return true;
    }
    if (root.lo.taken >> e) % 2 == 1 {
        return true;
    }
    let b = bounds::with_sets(root, 0, sets::cleared(taken, e));
    let t = index::among(book.index, live, root, b);
    probe::ask(book, t, b).is_none()
}

// No view within root has a proper subset of `taken`: for each member there is none without it.
pub fn each_needed(book: &Prepared<'_>, live: Waiting, root: Bounds, taken: u64) -> bool
    ensures { Decides result (Minimal book.now root taken) }
{
    for e in 0..64 {
        if !minimal_at(book, live, root, taken, e) {
            return false;
        }
    }
    true
}

// No view within root has a proper subset of `taken`. What all subsets have in common is found first, once for all members.
pub fn minimal(book: &Prepared<'_>, root: Bounds, taken: u64) -> bool
    ensures { Decides result (Minimal book.now root taken) }
{
    let b = bounds::with_sets(root, 0, taken);
    let rest = queue::propagate(book, index::changed(book.index, root, b), b);
    each_needed(book, rest.live, rest.bounds, taken)
}

// No view within root takes the exception at place a, if that outranks a member of `taken`.
pub fn undominated_at(book: &Prepared<'_>, root: Bounds, taken: u64, rank: u64, a: u64) -> bool
    requires { a < 64 }
    ensures { Decides result (UndominatedAt book.now root taken rank a) }
{
    if rank & taken == 0 {
        return true;
    }
    let b = bounds::into(root, bounds::one(Part::Taken, a));
    let t = index::changed(book.index, root, b);
    probe::ask(book, t, b).is_none()
}

// No view within root takes an exception that outranks a member of `taken`.
pub fn undominated(book: &Prepared<'_>, root: Bounds, taken: u64) -> bool
    ensures { Decides result (Undominated book.now root taken) }
{
    for (a, &rank) in book.ranks.iter().enumerate() {
        if !undominated_at(book, root, taken, rank, a as u64) {
            return false;
        }
    }
    true
}

// The set is one that a resolution can have, among the views within root. The bounds root should be at rest.
pub fn admissible(book: &Prepared<'_>, root: Bounds, taken: u64) -> bool
    ensures { Decides result (Admissible book.now root taken) }
{
    minimal(book, root, taken) && undominated(book, root, taken)
}
