// The sets of taken exceptions in the order of pairs (document 01), by formula: from how many sets there are of each size. No table, no search for a place.
#![tactic(auto)]

ghost use Rattle.std.specs.Prelude.{◌≡◌, ◌+◌, ◌-◌, ◌^◌, ◌<◌, ◌≤◌};
ghost use Rattle.sets.specs.Sets.{size_to};
ghost use Rattle.order.specs.Formula.{count as count_of, of_size, place_in_size, place_of, set_at, NextSet, widest};
ghost use Rattle.order.specs.Runs.{Run};

// How many sets there are of no numbers.
const EMPTY_SETS: usize = 1;

// How many sets of x exceptions there are: the places of their order.
pub fn place_count(x: usize) -> usize
    requires { x ≤ widest }
    ensures { result ≡ 2 ^ x }
{
    1 << x
}

// Of the `count` sets of n of w numbers, how many are without the last number: as many of w as are left out, w - n.
pub fn without_last(w: usize, n: usize, count: usize) -> usize
    requires { (0 < w) × (w ≤ widest) × (n ≤ w) × (count ≡ count_of w n) }
    ensures { result ≡ count_of (w - 1) n }
{
    count * (w - n) / w
}

// How many sets of n + 1 of w numbers there are, from the `count` sets of n: each takes one of w - n numbers more, and comes from n + 1 of them.
pub fn of_next_size(w: usize, n: usize, count: usize) -> usize
    requires { (w ≤ widest) × (n ≤ w) × (count ≡ count_of w n) }
    ensures { result ≡ count_of w (n + 1) }
{
    count * (w - n) / (n + 1)
}

// The set at a place among the `count` sets of n of x numbers: from the largest number down, a number is a member if the sets without it end before the place.
pub fn set_of_size(x: usize, n: usize, count: usize, place: usize) -> u64
    requires { (x ≤ widest) × (count ≡ count_of x n) × (place < count) }
    ensures { result ≡ of_size x n place }
{
    let mut t: u64 = 0;
    let mut left = n;
    let mut rest = place;
    let mut c = count;
    for w in (0..x).rev() {
        if left == 0 {
            break;
        }
        let without = without_last(w + 1, left, c);
        if rest < without {
            c = without;
        } else {
            t += 1 << w;
            left -= 1;
            rest -= without;
            c -= without;
        }
    }
    t
}

// The set of x exceptions at a place of the order, counted from 0: the sizes whose sets all stand before the place are passed over.
pub fn set_at(x: usize, place: usize) -> u64
    requires { (x ≤ widest) × (place < 2 ^ x) }
    ensures { result ≡ set_at x place }
{
    let mut count = EMPTY_SETS;
    let mut rest = place;
    for n in 0..x {
        if rest < count {
            return set_of_size(x, n, count, rest);
        }
        rest -= count;
        count = of_next_size(x, n, count);
    }
    set_of_size(x, x, count, rest)
}

// The place of the set t among the `count` sets of its size n: from the largest number down, a member stands after the sets without it.
pub fn place_in_size(x: usize, n: usize, count: usize, t: u64) -> usize
    requires { (x ≤ widest) × (n ≡ size_to x t) × (count ≡ count_of x n) }
    ensures { result ≡ place_in_size x t }
{
    let mut place = 0;
    let mut left = n;
    let mut c = count;
    for w in (0..x).rev() {
        if left == 0 {
            break;
        }
        let without = without_last(w + 1, left, c);
        if (t >> w) % 2 == 0 {
            c = without;
        } else {
            place += without;
            left -= 1;
            c -= without;
        }
    }
    place
}

// The place in the order of a set of x exceptions: after the sets of every smaller size.
pub fn place_of(x: usize, t: u64) -> usize
    requires { (x ≤ widest) × (t < 2 ^ x) }
    ensures { result ≡ place_of x t }
{
    let size = sets::size(t) as usize;
    let mut count = EMPTY_SETS;
    let mut before = 0;
    for n in 0..size {
        before += count;
        count = of_next_size(x, n, count);
    }
    before + place_in_size(x, size, count, t)
}

// The lowest run of ones of a set: the place where it begins, the place after it, and the set with the run carried into a one there.
#[derive(Clone, Copy)]
pub struct LowestRun {
    pub from: u64,
    pub end: u64,
    pub carried: u64,
}

// The lowest run of ones of the set t of x exceptions, which is not empty.
pub fn lowest_run(x: usize, t: u64) -> LowestRun
    requires { (x ≤ widest) × (t < 2 ^ x) × (0 < t) }
    ensures { Run x t result.from result.end result.carried }
{
    let from = sets::low(t);
    let carried = t + (1 << from);
    LowestRun {
        from,
        end: sets::low(carried),
        carried,
    }
}

// The set after t in the order of the sets of x exceptions: the highest of its lowest run of ones moves up by one place and the others move down to the
// end; where the run ends with the last exception, the next size begins.
pub fn next(x: usize, t: u64) -> u64
    requires { (x ≤ widest) × (t < 2 ^ x) }
    ensures { NextSet x t result }
{
    if t == 0 {
        return 1;
    }
    let run = lowest_run(x, t);
    let ones = run.end - run.from;
    if x as u64 <= run.end {
        return (1 << (ones + 1)) - 1;
    }
    run.carried + ((1 << (ones - 1)) - 1)
}
