// The exact test of a view: no proper subset of S is closed. A search for a smaller closed set; the same search tells of bounds that no view is in them.
#![tactic(auto)]

ghost use Rattle.std.specs.Prelude.{◌*◌, ◌≤◌, length};
ghost use Rattle.logic.specs.Tests.{Decides};
ghost use Rattle.masks.specs.Views.{MaskView};
ghost use Rattle.bounds.specs.Sound.{Keeps};
ghost use Rattle.least.specs.Founded.{Founded};
ghost use Rattle.least.specs.Rows.{AnswersRow, AnswersRows};
ghost use Rattle.least.specs.Search.{Has, Lacks, Lowered, Asking, Alone, Looked};

use crate::rows::Row;
use masks::{Bounds, Rules, lines};
use sets::Pair;

pub mod rows;

// Some head is in: if one alone is possible it goes in; if none is, nothing is left.
pub fn given(head: Pair, x: Bounds) -> Bounds
    ensures { Keeps (Has head) x result }
{
    if sets::apart(head, x.hi) {
        return bounds::void();
    }
    let m = sets::meet(head, x.hi);
    if masks::lone(m) {
        return bounds::into(x, m);
    }
    x
}

// Not all of these are in: if one alone is open, it goes out.
pub fn lacking(need: Pair, x: Bounds) -> Bounds
    ensures { Keeps (Lacks need) x result }
{
    let m = sets::minus(need, x.lo);
    if masks::lone(m) {
        return bounds::out(x, m);
    }
    x
}

// What a row says of the sets within x.
pub fn step(r: Row, x: Bounds) -> Bounds
    ensures { Keeps (AnswersRow r) x result }
{
    if !sets::apart(r.head, x.lo) {
        return x;
    }
    if !sets::within(r.need, x.hi) {
        return x;
    }
    if sets::within(r.need, x.lo) {
        return given(r.head, x);
    }
    if sets::apart(r.head, x.hi) {
        return lacking(r.need, x);
    }
    x
}

// What the first m rows say, one after the other.
pub fn pass(rows: &[u64], m: usize, x: Bounds) -> Bounds
    requires { m * 4 ≤ length rows.now }
    ensures { Keeps (AnswersRows rows.now m) x result }
{
    let mut y = x;
    for k in 0..m {
        y = step(rows::row_at(rows, k), y);
    }
    y
}

// The same again and again, until nothing changes or nothing is left.
pub fn lowered(rows: &[u64], m: usize, x: Bounds) -> Bounds
    requires { m * 4 ≤ length rows.now }
    ensures { Lowered rows.now m x result }
{
    let mut y = x;
    for _ in 0..256 {
        let z = pass(rows, m, y);
        if y == z {
            return bounds::narrowed(x, z);
        }
        y = z;
        if !sets::within(y.lo, y.hi) {
            return bounds::narrowed(x, y);
        }
    }
    bounds::narrowed(x, y)
}

// A row that c leaves unanswered, if there is one among the first m. The last are looked at first: rules with alternatives stand behind the plain
// ones, and at rest no row with one head is left unanswered.
pub fn asking(rows: &[u64], m: usize, c: Pair) -> Option<usize>
    requires { m * 4 ≤ length rows.now }
    ensures { Asking rows.now m c result }
{
    for k in (0..m).rev() {
        if rows::unanswered(rows::row_at(rows, k), c) {
            return Some(k);
        }
    }
    None
}

// What a look at bounds says of the sets in them that answer the rows: all have the whole; one has less; narrower bounds, and a member to split them by.
#[derive(Clone, Copy)]
pub enum Look {
    Whole,
    Less,
    Open(Bounds, Pair),
}

// One node of the search. Every set has a head of a row that the lower end leaves unanswered, so it is split by one of these.
pub fn seek(rows: &[u64], m: usize, whole: Pair, x: Bounds) -> Look
    requires { m * 4 ≤ length rows.now }
    ensures { Looked rows.now m whole x result }
{
    let y = lowered(rows, m, x);
    let lo = y.lo;
    let hi = y.hi;
    if !sets::within(lo, hi) {
        return Look::Whole;
    }
    if sets::within(whole, lo) {
        return Look::Whole;
    }
    let Some(k) = asking(rows, m, lo) else {
        return Look::Less;
    };
    let r = rows::row_at(rows, k);
    if sets::apart(r.head, hi) {
        return Look::Whole;
    }
    Look::Open(y, bounds::single(sets::meet(r.head, hi)))
}

// Each set within x that answers the first m rows has the whole.
pub fn alone(rows: &[u64], m: usize, whole: Pair, x: Bounds) -> bool
    requires { m * 4 ≤ length rows.now }
    ensures { Decides result (Alone rows.now m whole x) }
{
    match seek(rows, m, whole, x) {
        Look::Whole => true,
        Look::Less => false,
        Look::Open(y, h) => {
            let o = bounds::out(y, h);
            if !alone(rows, m, whole, o) {
                return false;
            }
            let p = bounds::into(y, h);
            alone(rows, m, whole, p)
        }
    }
}

// The lower end of b is the only set below it. If it is not, no view is within b.
pub fn founded(rules: &Rules<'_>, b: Bounds) -> bool
    requires { rules.now.count ≤ 256 }
    ensures { Decides result (Founded rules.now.words.now rules.now.count b) }
{
    let mut rows = [0u64; rows::ROOM * 4];
    let m = rows::gather(rules, b, &mut rows);
    let hi = b.lo;
    let x = Bounds {
        lo: Pair::of_exceptions(hi.taken),
        hi,
    };
    alone(&rows, m, hi, x)
}

// The pair is a view, by the definition. The search for a smaller closed set is left to pairs that the rules with one head in them do not reach, and
// below which these leave nothing closed.
pub fn is_view(rules: &Rules<'_>, ranks: &[u64], v: Pair) -> bool
    requires { (rules.now.count ≤ 256) × (length ranks.now ≤ 64) }
    ensures { Decides result (MaskView rules.now.words.now rules.now.count ranks.now v) }
{
    let held = v.held;
    let denied = v.denied;
    if held & denied != 0 {
        return false;
    }
    let taken = v.taken;
    if !masks::level(ranks, taken) {
        return false;
    }
    if !lines::uncrossed(rules, ranks, v) {
        return false;
    }
    let Ok(reached) = masks::sweep(rules, v) else {
        return false;
    };
    if reached == v {
        return true;
    }
    let d = masks::grown(rules, v, reached);
    if d == v {
        return true;
    }
    if masks::closed_within(rules, v, d) {
        return false;
    }
    founded(rules, Bounds { lo: v, hi: v })
}
