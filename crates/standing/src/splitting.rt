// Which member to split bounds by: one that the body of an open line asks for, since what counts then decides who dominates whom.
ghost use Rattle.std.specs.Prelude.{◌<◌};
ghost use Rattle.standing.specs.Standing.{Split};
ghost use Rattle.masks.specs.OfRules.{HasLines};

use masks::{Bounds, Rules, lines};
use sets::Pair;

// The pair x with the entries of line j, if that is one of m. No contract depends on this.
pub fn with_entries(rules: &Rules<'_>, m: u64, j: usize, x: Pair) -> Pair
    requires { HasLines rules.now × (j < 32) }
{
    if (m >> (j as u64)) % 2 == 0 {
        return x;
    }
    let l = masks::masks_at(rules.words, rules.count + j);
    sets::join(x, sets::join(l.need, l.bar))
}

// The entries of the lines of m. No contract depends on this.
pub fn entries(rules: &Rules<'_>, m: u64) -> Pair
    requires { HasLines rules.now }
{
    let mut x = Pair::EMPTY;
    for j in 0..lines::LINES {
        x = with_entries(rules, m, j, x);
    }
    x
}

// A member that is open in the bounds and that an open line asks for; m if there is none.
pub fn asked(rules: &Rules<'_>, b: Bounds, m: Pair) -> Pair
    requires { HasLines rules.now }
    ensures { Split b m result }
{
    let lo = b.lo;
    let hi = b.hi;
    let sure = lines::lines_in(rules, hi, lo);
    let may = lines::lines_in(rules, lo, hi);
    let x = sets::meet(entries(rules, may ^ (may & sure)), sets::minus(hi, lo));
    let s = bounds::single(x);
    if sets::within(s, x) {
        return s;
    }
    m
}
