// A view that dominates, found by the lines that it may use.
#![tactic(auto)]

ghost use Rattle.std.specs.Prelude.{◌<◌, ◌≤◌, length};
ghost use Rattle.logic.specs.Tests.{Decides};
ghost use Rattle.masks.specs.Steps.{Chosen};
ghost use Rattle.queue.specs.Chains.{Chains};
ghost use Rattle.superior.specs.Superiors.{Source, Picks};
ghost use Rattle.superior.specs.InBook.{Assumed, Hopeless, Left, Superior, Taking, TakingAt};
ghost use Rattle.masks.specs.OfRules.{HasLines};

use bounds::Part;
use masks::Rules;
use queue::{Prepared, Rest, index, waiting};
use sets::Pair;

// Exception a is one of `among`, and the lines of m lead from it to a member of t.
pub fn source_at(rules: &Rules<'_>, ranks: &[u64], m: u64, among: u64, t: u64, a: u64) -> bool
    requires { HasLines rules.now × (length ranks.now ≤ 64) × (a < 64) }
    ensures { Decides result (Source rules.now.words.now rules.now.count ranks.now m among t a) }
{
    (among >> a) % 2 != 0 && masks::lines::reach(rules, ranks, m, 1 << a) & t != 0
}

// The exceptions of `among` from which the lines of m lead to a member of t.
pub fn sources(rules: &Rules<'_>, ranks: &[u64], m: u64, among: u64, t: u64) -> u64
    requires { HasLines rules.now × (length ranks.now ≤ 64) }
    ensures { Chosen (Source rules.now.words.now rules.now.count ranks.now m among t) 64 result }
{
    masks::lines::passing(64, |a| source_at(rules, ranks, m, among, t, a as u64))
}

// A view within the bounds that takes exception a, if it is one of s.
pub fn taking_at(book: &Prepared<'_>, rest: Rest, s: u64, a: u64) -> Option<Pair>
    requires { a < 64 }
    ensures { TakingAt book.now rest.bounds s a result }
{
    if (s >> a) % 2 == 0 {
        return None;
    }
    let b = rest.bounds;
    let c = bounds::into(b, bounds::one(Part::Taken, a));
    let w = index::among(book.index, rest.live, b, c);
    probe::ask(book, w, c)
}

// A view within the bounds that takes one of the exceptions of s, or none.
pub fn taking(book: &Prepared<'_>, rest: Rest, s: u64) -> Option<Pair>
    ensures { Taking book.now rest.bounds s 64 result }
{
    for a in 0..64 {
        if let Some(v) = taking_at(book, rest, s, a) {
            return Some(v);
        }
    }
    None
}

// The bounds without the exceptions of s, at rest.
pub fn left(book: &Prepared<'_>, rest: Rest, s: u64) -> Rest
    ensures { Left book.now rest.bounds s result.bounds }
{
    let b = rest.bounds;
    let c = bounds::out(
        b,
        Pair {
            taken: s,
            ..Pair::EMPTY
        },
    );
    queue::propagate(book, index::among(book.index, rest.live, b, c), c)
}

// The bounds where the body of line j holds, at rest.
pub fn assumed(book: &Prepared<'_>, rest: Rest, j: usize) -> Rest
    requires { HasLines book.now.rules × (j < 32) }
    ensures { Assumed book.now rest.bounds j result.bounds }
{
    let b = rest.bounds;
    let l = masks::masks_at(book.rules.words, book.rules.count + j);
    let c = bounds::into(bounds::out(b, l.bar), l.need);
    queue::propagate(book, index::among(book.index, rest.live, b, c), c)
}

// How many lines may be decided before it is asked whether there is any hope.
const PATIENCE: u32 = 4;

// After many decisions: no view within the bounds takes an exception from which lines of m lead to t.
pub fn hopeless(book: &Prepared<'_>, rest: Rest, m: u64, t: u64, decided: u64) -> bool
    requires { HasLines book.now.rules }
    ensures { Hopeless book.now rest.bounds m t result }
{
    if decided.count_ones() < PATIENCE {
        return false;
    }
    let s = sources(&book.rules, book.ranks, m, rest.bounds.hi.taken, t);
    taking(book, rest, s).is_none()
}

// The lines that end in a member of k. No contract depends on this.
pub fn ending(rules: &Rules<'_>, k: u64) -> u64
    requires { HasLines rules.now }
{
    let n = rules.count;
    let mut e: u64 = 0;
    for j in 0..32 {
        if masks::masks_at(rules.words, n + j).head.denied & k != 0 {
            e |= 1 << j;
        }
    }
    e
}

// A line of m: one that ends in a member of k, if there is one.
pub fn line_to_try(rules: &Rules<'_>, m: u64, k: u64) -> u64
    requires { HasLines rules.now }
    ensures { Picks m result }
{
    let near = m & ending(rules, k);
    if near != 0 {
        sets::low(near)
    } else {
        sets::low(m)
    }
}

// A view within bounds at rest from whose exceptions P lines and lines lead to a member of t, or none. Of `usable`, the lines of `free` may be
// used, and those that surely count within the bounds.
pub fn superior(book: &Prepared<'_>, rest: Rest, t: u64, usable: u64, free: u64) -> Option<Pair>
    requires { HasLines book.now.rules }
    ensures { Superior book.now rest.bounds t usable free result }
{
    let b = rest.bounds;
    let lo = b.lo;
    let hi = b.hi;
    if !sets::within(lo, hi) {
        return None;
    }
    let sure = masks::lines::lines_in(&book.rules, hi, lo) & usable;
    let may = masks::lines::lines_in(&book.rules, lo, hi) & free;
    let far = masks::lines::reach(&book.rules, book.ranks, sure | may, hi.taken);
    if far & t == 0 {
        return None;
    }
    let s = sources(&book.rules, book.ranks, sure, hi.taken, t);
    if let Some(v) = taking(book, rest, s) {
        return Some(v);
    }
    let m = may ^ (may & sure);
    if m == 0 {
        return None;
    }
    let decided = usable ^ (usable & free);
    if hopeless(book, rest, sure | may, t, decided) {
        return None;
    }
    let j = line_to_try(&book.rules, m, t | s);
    let less = sets::cleared(free, j);
    let others = left(book, rest, s);
    let inner = assumed(book, others, j as usize);
    if let Some(v) = superior(book, inner, t, usable, less) {
        return Some(v);
    }
    superior(book, others, t, usable, less)
}
