// Which member to split bounds by: the one in the most and shortest bodies. No contract depends on the choice, so only safety is proved.
ghost use Rattle.std.specs.Prelude.{◌*◌, ◌<◌, ◌≤◌, length};

use bounds::Part;
use masks::{Masks, Rules};
use queue::waiting::Waiting;
use sets::Pair;

// A weight for each member of a pair: the statements held, then those denied, then the exceptions taken.
pub type Weights = [u64; 192];

// Where the weight of the member at place i of a word stands.
pub fn at(part: Part, i: u64) -> usize
    requires { i < 64 }
    ensures { result < 192 }
{
    (part.number() * 64 + i) as usize
}

// Adds w to the weight of each member of that word of a pair.
pub fn add(t: &mut Weights, part: Part, m: u64, w: u64) {
    for i in sets::members(m) {
        let k = at(part, i);
        t[k] = t[k].wrapping_add(w);
    }
}

// Adds w to the weight of each member of x.
pub fn add_pair(t: &mut Weights, x: Pair, w: u64) {
    add(t, Part::Held, x.held, w);
    add(t, Part::Denied, x.denied, w);
    add(t, Part::Taken, x.taken, w);
}

// How many members a word has, from 4 on counted as 4.
pub fn few(x: u64) -> u64
    ensures { result ≤ 4 }
{
    u64::from(sets::size(x)).min(4)
}

// About how many conditions a body has open: a statement of which both sides are asked for counts once.
pub fn conditions(x: Pair, y: Pair) -> u64
    ensures { result ≤ 5 }
{
    let k = few(x.held | x.denied | y.held | y.denied);
    if x.taken == 0 {
        return k;
    }
    k + 1
}

// 4 to the minus k, as a part of 256.
pub fn weight(k: u64) -> u64
    ensures { result ≤ 64 }
{
    match k {
        1 => 64,
        2 => 16,
        3 => 4,
        _ => 1,
    }
}

// Adds the weight of one rule to its open conditions; barred entries count twice.
pub fn add_rule(t: &mut Weights, r: Masks, free: Pair) {
    let x = sets::meet(r.need, free);
    let y = sets::meet(r.bar, free);
    let k = conditions(x, y);
    if k == 0 {
        return;
    }
    let w = weight(k);
    add_pair(t, x, w);
    add_pair(t, y, w * 2 + 1);
}

// A member of a pair, by its word and its place there, and what it weighs.
#[derive(Clone, Copy)]
pub struct Best {
    pub part: Part,
    pub place: u64,
    pub weight: u64,
    ghost small: { place < 64 },
}

// What a member counts for: its own weight and that of the statement's other side, more where both weigh much, since then both halves of a
// split are narrow. An exception has no other side.
pub fn score(t: &Weights, part: Part, i: u64) -> u64
    requires { i < 64 }
{
    let a = t[at(part, i)];
    let other = match part {
        Part::Held => Part::Denied,
        Part::Denied => Part::Held,
        Part::Taken => return a.wrapping_mul(4),
    };
    let b = t[at(other, i)];
    let both = a.wrapping_add(b).wrapping_mul(3);
    both.wrapping_add(a).wrapping_add(a.min(b).wrapping_mul(6))
}

// The heaviest of s and the members of that word of a pair.
pub fn heavier(t: &Weights, part: Part, m: u64, s: Option<Best>) -> Option<Best> {
    let mut o = s;
    for place in sets::members(m) {
        let weight = score(t, part, place);
        o = better(
            o,
            Best {
                part,
                place,
                weight,
            },
        );
    }
    o
}

// The heavier of the two, the one so far if they weigh the same.
pub fn better(s: Option<Best>, b: Best) -> Option<Best> {
    match s {
        Some(a) if a.weight >= b.weight => s,
        _ => Some(b),
    }
}

// Adds the weights of the rules whose places are the members of m, counted from place `from`.
pub fn add_rules(t: &mut Weights, rules: &Rules<'_>, from: u64, m: u64, free: Pair)
    requires { from ≤ 192 }
{
    let n = rules.count;
    for i in sets::members(m) {
        let k = (from + i) as usize;
        if k >= n {
            return;
        }
        add_rule(t, masks::masks_at(rules.words, k), free);
    }
}

// The heaviest of the members `free`, over the live rules.
pub fn heaviest(rules: &Rules<'_>, live: Waiting, free: Pair) -> Option<Best> {
    let mut t: Weights = [0; 192];
    for (k, &word) in live.words.iter().enumerate() {
        add_rules(&mut t, rules, k as u64 * 64, word, free);
    }
    let s = heavier(&t, Part::Held, free.held, None);
    let s = heavier(&t, Part::Denied, free.denied, s);
    heavier(&t, Part::Taken, free.taken, s)
}
