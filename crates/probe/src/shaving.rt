// Shaving: each member that is open in bounds at rest is tried both ways, and what propagation alone refutes is taken away.
ghost use Rattle.std.specs.Prelude.{◌*◌, ◌≤◌, length};
ghost use Rattle.sets.specs.Pairs.{Atom};
ghost use Rattle.queue.specs.Chains.{Chains};
ghost use Rattle.queue.specs.InBook.{Propagated};

use bounds::Part;
use masks::Bounds;
use queue::{Prepared, Rest, index};
use sets::Pair;

// From bounds at rest, narrower bounds at rest.
pub fn settled(book: &Prepared<'_>, rest: Rest, o: Bounds) -> Rest
    ensures { Propagated book.now o result.bounds }
{
    let w = index::among(book.index, rest.live, rest.bounds, o);
    queue::propagate(book, w, o)
}

// The bounds with the member m, if it is open, where no view lacks it, without m where no view has it, as far as propagation shows that.
pub fn tried(book: &Prepared<'_>, rest: Rest, m: Pair) -> Rest
    requires { Atom m }
    ensures { Propagated book.now rest.bounds result.bounds }
{
    if !sets::within(m, sets::minus(rest.bounds.hi, rest.bounds.lo)) {
        return rest;
    }
    let o = settled(book, rest, bounds::out(rest.bounds, m));
    let p = settled(book, rest, bounds::into(rest.bounds, m));
    if !sets::within(o.bounds.lo, o.bounds.hi) {
        return p;
    }
    if !sets::within(p.bounds.lo, p.bounds.hi) {
        return o;
    }
    rest
}

// The bounds after each open member has been tried, until nothing is left of them.
pub fn shaved(book: &Prepared<'_>, rest: Rest) -> Rest
    ensures { Propagated book.now rest.bounds result.bounds }
{
    let mut r = rest;
    for part in Part::ALL {
        for place in 0..64 {
            r = tried(book, r, bounds::one(part, place));
            if !sets::within(r.bounds.lo, r.bounds.hi) {
                return r;
            }
        }
    }
    r
}
