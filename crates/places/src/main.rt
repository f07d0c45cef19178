// The order of the sets of exceptions as its functions work it out. For each number of exceptions from 0 to 16: how many places there are, and how many
// of them are sound. Then the entries that the documents name, of 12 and of 16 exceptions, and the whole order of 4.
#![tactic(auto)]

ghost use Rattle.std.specs.Prelude.{◌^◌, ◌<◌, ◌≤◌};
ghost use Rattle.order.specs.Formula.{widest};

use std::io;

// The set a comes before the set b: fewer members, then the smaller number.
fn before(a: u64, b: u64) -> bool {
    (a.count_ones(), a) < (b.count_ones(), b)
}

// The set at this place is one of x exceptions, its place is this place, and the next set is that at the next place and comes later.
// Where all places are sound their sets rise, so they are all sets in their order.
fn sound(x: usize, place: usize) -> bool
    requires { (x ≤ widest) × (place < 2 ^ x) }
{
    let places = order::place_count(x);
    let t = order::set_at(x, place);
    if places as u64 <= t || order::place_of(x, t) != place {
        return false;
    }
    let next = place + 1;
    if places <= next {
        return true;
    }
    let u = order::next(x, t);
    u == order::set_at(x, next) && before(t, u)
}

// How many exceptions, how many places, how many of them are sound.
fn all_sound(rt: &impl Print, x: usize) -> io::Result<()>
    requires { x ≤ widest }
{
    let places = order::place_count(x);
    let mut count: usize = 0;
    for place in 0..places {
        if sound(x, place) {
            count += 1;
        }
    }
    println!(rt; " {x} {places} {count}")
}

// These places and their sets, as far as there are such places.
fn named(rt: &impl Print, x: usize, places: &[usize]) -> io::Result<()>
    requires { x ≤ widest }
{
    for &place in places {
        if place < order::place_count(x) {
            print!(rt; " {place}: {}", order::set_at(x, place))?;
        }
    }
    println!(rt; "")
}

// Each set after the other, from the empty one on.
fn whole(rt: &impl Print, x: usize) -> io::Result<()>
    requires { x ≤ widest }
{
    for place in 0..order::place_count(x) {
        print!(rt; " {}", order::set_at(x, place))?;
    }
    println!(rt; "")
}

fn main(rt: HostRuntime) -> io::Result<()> {
    let rt = &rt;
    for x in 0..=16 {
        all_sound(rt, x)?;
    }
    named(rt, 12, &[0, 1, 2, 3, 13, 14, 4095])?;
    named(rt, 16, &[0, 1, 2, 3, 17, 18, 65535])?;
    whole(rt, 4)
}
