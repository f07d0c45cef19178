// Ranges of sets of exceptions that have no view.
#![tactic(auto)]

ghost use Rattle.std.specs.Prelude.{◌≡◌, true, ◌*◌, ◌<◌, ◌≤◌, length, IfSome};
ghost use Rattle.bounds.specs.Sound.{with_sets};
ghost use Rattle.queue.specs.Chains.{Chains};
ghost use Rattle.queue.specs.InBook.{Propagated};
ghost use Rattle.ranges.specs.InBook.{NoView, Wider};

use bounds::Part;
use masks::Bounds;
use probe::shaving;
use queue::{Prepared, Rest, index, waiting};

// Bounds for the views with a set of exceptions from lo to hi, at rest.
pub fn narrowed(book: &Prepared<'_>, root: Bounds, lo: u64, hi: u64) -> Rest
    ensures { Propagated book.now (with_sets root lo hi) result.bounds }
{
    let b = bounds::with_sets(root, lo, hi);
    queue::propagate(book, index::changed(book.index, root, b), b)
}

// Whether propagation alone shows that no view has a set of exceptions from lo to hi.
pub fn refuted(book: &Prepared<'_>, root: Bounds, lo: u64, hi: u64) -> bool
    ensures { result ≡ true → NoView book.now root lo hi }
{
    let rest = narrowed(book, root, lo, hi);
    let b = rest.bounds;
    !sets::within(b.lo, b.hi)
}

// Sets of exceptions from lo to hi.
#[derive(Clone, Copy)]
pub struct Range {
    pub lo: u64,
    pub hi: u64,
}

impl Range {
    // All sets.
    pub const ALL: Range = Range {
        lo: 0,
        hi: u64::MAX,
    };
}

// The range s where the exception at place e is decided as t has it: taken, or not taken.
pub fn fixed(s: Range, t: u64, e: u64) -> Range
    requires { e < 64 }
{
    let bit = 1 << e;
    let taken = t & bit;
    Range {
        lo: s.lo | taken,
        hi: (s.hi ^ (s.hi & bit)) | taken,
    }
}

// The bounds b where the exception at place e is decided as t has it.
pub fn decided(b: Bounds, t: u64, e: u64) -> Bounds
    requires { e < 64 }
{
    let m = bounds::one(Part::Taken, e);
    if t & m.taken == 0 {
        return bounds::out(b, m);
    }
    bounds::into(b, m)
}

// From bounds at rest, bounds at rest after that decision.
pub fn settled(book: &Prepared<'_>, rest: Rest, t: u64, e: u64) -> Rest
    requires { e < 64 }
{
    let b = decided(rest.bounds, t, e);
    if rest.bounds == b {
        return rest;
    }
    let w = index::among(book.index, rest.live, rest.bounds, b);
    queue::propagate(book, w, b)
}

// The exceptions that the bounds decide otherwise than t.
pub fn contrary(b: Bounds, t: u64) -> u64 {
    (b.lo.taken ^ (b.lo.taken & t)) | (t ^ (t & b.hi.taken))
}

// The first exception that the bounds decide otherwise than t.
pub fn first_contrary(b: Bounds, t: u64) -> Option<u64>
    ensures { IfSome result (λ e. e < 64) }
{
    sets::first(contrary(b, t))
}

// A decision that is in conflict with those at the places before `before`.
#[derive(Clone, Copy)]
pub struct Conflict {
    pub place: u64,
    pub before: usize,
}

// The first conflict of t's decisions at the places before `end`, made one after the other from bounds at rest.
pub fn first_conflict(book: &Prepared<'_>, rest: Rest, t: u64, end: usize) -> Option<Conflict>
    requires { end ≤ 64 }
    ensures { IfSome result (λ c. (c.place < 64) × (c.before ≤ end)) }
{
    let mut r = rest;
    for before in 0..end {
        if let Some(place) = first_contrary(r.bounds, t) {
            return Some(Conflict { place, before });
        }
        let place = before as u64;
        r = settled(book, r, t, place);
        if !sets::within(r.bounds.lo, r.bounds.hi) {
            return Some(Conflict { place, before });
        }
    }
    let place = first_contrary(r.bounds, t)?;
    Some(Conflict { place, before: end })
}

// A range around t from a core: a few of t's decisions that are in conflict already. Each round adds one to the core: one that is in
// conflict with the core and the decisions at the first places. No contract depends on this: a wrong core costs time, not truth.
pub fn core_around(book: &Prepared<'_>, root: Bounds, t: u64) -> Range {
    let mut s = Range::ALL;
    let mut rest = Rest {
        bounds: root,
        live: waiting::everything(),
    };
    let mut end = book.ranks.len();
    for _ in book.ranks {
        let Some(c) = first_conflict(book, rest, t, end) else {
            return Range { lo: t, hi: t };
        };
        s = fixed(s, t, c.place);
        rest = settled(book, rest, t, c.place);
        if !sets::within(rest.bounds.lo, rest.bounds.hi) {
            return s;
        }
        end = c.before;
    }
    s
}

// A range of sets without a view around one that has none: that from a core, if propagation shows that it has no view.
pub fn widened(book: &Prepared<'_>, root: Bounds, t: u64) -> Range
    ensures { Wider book.now root (record { lo = t; hi = t }) result }
{
    let s = core_around(book, root, t);
    if refuted(book, root, s.lo, s.hi) {
        return s;
    }
    Range { lo: t, hi: t }
}

// Whether shaving shows that no view has a set of exceptions of the range.
pub fn barren(book: &Prepared<'_>, root: Bounds, s: Range) -> bool
    ensures { result ≡ true → NoView book.now root s.lo s.hi }
{
    let rest = narrowed(book, root, s.lo, s.hi);
    let shaved = shaving::shaved(book, rest);
    let b = shaved.bounds;
    !sets::within(b.lo, b.hi)
}

// The range s where the exception at place e may be taken or not, if shaving shows that this has no view either; else s itself.
pub fn freed(book: &Prepared<'_>, root: Bounds, s: Range, e: u64) -> Range
    requires { e < 64 }
    ensures { Wider book.now root s result }
{
    let bit = 1 << e;
    let wide = Range {
        lo: s.lo ^ (s.lo & bit),
        hi: s.hi | bit,
    };
    if barren(book, root, wide) {
        return wide;
    }
    s
}

// The range s after each exception has been freed in it, as far as shaving shows that no view is lost.
pub fn all_freed(book: &Prepared<'_>, root: Bounds, s: Range) -> Range
    ensures { Wider book.now root s result }
{
    let mut r = s;
    for e in 0..book.ranks.len() {
        r = freed(book, root, r, e as u64);
    }
    r
}

// A range of sets without a view around one that has none, by shaving: all sets if shaving shows that there is no view at all; else, where shaving alone shows
// that t has none, t with each exception freed as far as that goes.
pub fn shaven(book: &Prepared<'_>, root: Bounds, t: u64) -> Range
    ensures { Wider book.now root (record { lo = t; hi = t }) result }
{
    if barren(book, root, Range::ALL) {
        return Range::ALL;
    }
    let own = Range { lo: t, hi: t };
    if !barren(book, root, own) {
        return own;
    }
    all_freed(book, root, own)
}
