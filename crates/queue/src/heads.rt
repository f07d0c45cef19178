// The rules by their heads: for each conclusion a chain of the rules that give it, in rising order, up to the first rule with
// alternatives, and a row of those from there on. What follows for a conclusion's support is proved from the chains and rows.
ghost use Rattle.std.specs.Prelude.{◌≡◌, true, ◌+◌, ◌*◌, ◌<◌, ◌≤◌, length, get_or, IfSome};
ghost use Rattle.bounds.specs.Singles.{number_of, one_of};
ghost use Rattle.bounds.specs.Sound.{Keeps, Ruled};
ghost use Rattle.queue.specs.Places.{whole_place, rows_place, index_length};
ghost use Rattle.queue.specs.Chains.{ChainsFrom, Chains, Chained, Named, Put, HeadsPut, RowsPut, Seen, Counted, Weighed, FiringFor};

use crate::index::Index;
use crate::{index, waiting};
use bounds::Part;
use masks::{Bounds, Masks, Rules};
use sets::Pair;

// Places in the index: the first rules of 64 conclusions held and 64 denied; the rule after each of 256 with the same head; whether
// the chains are whole.
pub const FIRST: usize = index::CIRCLE + 1;

pub const NEXT: usize = FIRST + 128;

pub const WHOLE: usize = NEXT + 256;

// How many rules are in chains: those before the first with alternatives.
pub const CUT: usize = WHOLE + 1;

// A row for each of 64 conclusions held and 64 denied: bit j is 1 if rule CUT + j has the conclusion among its heads.
pub const ROWS: usize = CUT + 1;

// The word in which a conclusion of x stands.
pub fn side(x: Pair) -> Part
    ensures { number_of result < 2 }
{
    if x.held != 0 {
        return Part::Held;
    }
    Part::Denied
}

// The place of a conclusion of x in that word, if x has one.
pub fn place(x: Pair) -> Option<u64>
    ensures { IfSome result (λ i. i < 64) }
{
    if x.held != 0 {
        return sets::first(x.held);
    }
    sets::first(x.denied)
}

// Puts rule k before the rules with its head; whether that is one conclusion or none.
pub fn chain(index: &mut [u64], r: Masks, k: usize) -> bool
    requires { (k < 256) × (length index.old ≡ index_length) }
    ensures { result ≡ true → Chained index.old r k index.new }
{
    if masks::constraint(r) {
        return true;
    }
    let s = side(r.head);
    let Some(i) = place(r.head) else {
        return false;
    };
    if r.head != bounds::one(s, i) {
        return false;
    }
    let at = FIRST + (s.number() * 64 + i) as usize;
    index[NEXT + k] = index[at];
    index[at] = k as u64;
    true
}

// No chain has a rule yet: n stands for none.
// Kept: what may not change: `ChainsFrom` (specs/Chains) names the rule after each by a word of the index.
pub fn clear(index: &mut [u64], n: usize)
    requires { length index.old ≡ index_length }
{
    index[FIRST..NEXT].fill(n as u64);
}

// How many rules there are before the first with alternatives.
pub fn simple(rules: &Rules<'_>) -> usize
    ensures { result ≤ rules.now.count }
{
    for k in 0..rules.count {
        let r = masks::masks_at(rules.words, k);
        if !masks::lone(r.head) {
            return k;
        }
    }
    rules.count
}

// Chains the rules, from the last to the first; whether each has one conclusion for its head, or none.
pub fn chained(rules: &Rules<'_>, index: &mut [u64]) -> bool
    requires { (rules.now.count ≤ 256) × (length index.old ≡ index_length) }
    ensures { result ≡ true → ChainsFrom rules.now.words.now rules.now.count index.new 0 }
{
    clear(index, rules.count);
    let mut whole = true;
    for k in (0..rules.count).rev() {
        if !chain(index, masks::masks_at(rules.words, k), k) {
            whole = false;
        }
    }
    whole
}

// Puts rule CUT + j into the rows of m's members, counted from place `from`.
pub fn put(index: &mut [u64], from: usize, m: u64, j: u64)
    requires { (length index.old ≡ index_length) × (rows_place ≤ from) × (from ≤ rows_place + 64) × (j < 64) }
    ensures { Put index.old from m j index.new }
{
    let bit = 1 << j;
    for i in sets::members(m) {
        index[from + i as usize] |= bit;
    }
}

// Puts rule CUT + j into the rows of its heads.
pub fn put_heads(index: &mut [u64], r: Masks, j: u64)
    requires { (length index.old ≡ index_length) × (j < 64) }
    ensures { HeadsPut index.old r j index.new }
{
    put(index, ROWS, r.head.held, j);
    put(index, ROWS + 64, r.head.denied, j);
}

// Puts the rules from c on into the rows of their heads, if they are not more than a row holds.
pub fn rows(rules: &Rules<'_>, c: usize, index: &mut [u64])
    requires { (c ≤ rules.now.count) × (rules.now.count ≤ 256) × (length index.old ≡ index_length) }
    ensures { RowsPut rules.now.words.now rules.now.count c index.old index.new }
{
    let n = rules.count;
    if c + 64 < n {
        return;
    }
    for k in c..n {
        put_heads(index, masks::masks_at(rules.words, k), (k - c) as u64);
    }
}

// Chains the rules before the first with alternatives, and puts the others into rows.
pub fn chains(rules: &Rules<'_>, index: &mut [u64])
    requires { (rules.now.count ≤ 256) × (length index.old ≡ index_length) }
    ensures { Chains rules.now.words.now rules.now.count index.new }
{
    let c = simple(rules);
    let plain = Rules {
        words: rules.words,
        count: c,
    };
    let whole = chained(&plain, index);
    rows(rules, c, index);
    index[CUT] = c as u64;
    index[WHOLE] = u64::from(whole);
}

// The rules that can give a conclusion within bounds: none; one, and which; perhaps more.
#[derive(Clone, Copy)]
pub enum Givers {
    Nobody,
    One(usize),
    Several,
}

// The givers g and rule k, if it can fire.
pub fn with_rule(r: Masks, b: Bounds, k: usize, g: Givers) -> Givers
    ensures { Counted r b k g result }
{
    if !masks::fires(r, b.lo, b.hi) {
        return g;
    }
    match g {
        Givers::Nobody => Givers::One(k),
        _ => Givers::Several,
    }
}

// Of the rules, which are in chains if the index says so, those that can give the conclusion at place i of word s.
pub fn count_givers(rules: &Rules<'_>, index: &Index, s: Part, i: u64, b: Bounds) -> Givers
    requires { (rules.now.count ≤ 256) × (get_or index.now whole_place 0 ≡ 1 → ChainsFrom rules.now.words.now rules.now.count index.now 0) × (number_of s < 2) × (i < 64) }
    ensures { Seen rules.now.words.now rules.now.count rules.now.count (one_of (number_of s) i) b result }
{
    let n = rules.count;
    if index[WHOLE] != 1 {
        return Givers::Several;
    }
    let m = bounds::one(s, i);
    let mut g = Givers::Nobody;
    let mut k = index[FIRST + (s.number() * 64 + i) as usize] as usize;
    for _ in 0..256 {
        if n <= k {
            return g;
        }
        let r = masks::masks_at(rules.words, k);
        if !sets::within(m, r.head) {
            return Givers::Several;
        }
        g = with_rule(r, b, k, g);
        match g {
            Givers::Several => {
                return g;
            }
            _ => {}
        }
        k = index[NEXT + k] as usize;
    }
    Givers::Several
}

// The givers g and rule k, if it can give m: it has m in its head, and no other head that is sure.
pub fn weighed(r: Masks, b: Bounds, m: Pair, k: usize, g: Givers) -> Givers
    ensures { Weighed r b m k g result }
{
    if !sets::within(m, r.head) {
        return g;
    }
    if !sets::apart(sets::minus(r.head, m), b.lo) {
        return g;
    }
    with_rule(r, b, k, g)
}

// The givers g of m among the first c rules, and those that the row names from there on.
pub fn more_givers(rules: &Rules<'_>, c: usize, row: u64, m: Pair, b: Bounds, g: Givers) -> Givers
    requires { (c ≤ rules.now.count) × Named rules.now.words.now rules.now.count c m row × Seen rules.now.words.now c c m b g }
    ensures { Seen rules.now.words.now rules.now.count rules.now.count m b result }
{
    let n = rules.count;
    let mut h = g;
    for i in sets::members(row) {
        match h {
            Givers::Several => {
                return h;
            }
            _ => {}
        }
        let k = c + i as usize;
        if n <= k {
            return Givers::Several;
        }
        h = weighed(masks::masks_at(rules.words, k), b, m, k, h);
    }
    h
}

// The rules that can give the conclusion at place i of word s; perhaps several if more rules follow the chains than a row holds.
pub fn all_givers(rules: &Rules<'_>, index: &Index, s: Part, i: u64, b: Bounds) -> Givers
    requires { Chains rules.now.words.now rules.now.count index.now × (number_of s < 2) × (i < 64) }
    ensures { Seen rules.now.words.now rules.now.count rules.now.count (one_of (number_of s) i) b result }
{
    let n = rules.count;
    let c = index[CUT] as usize;
    let plain = Rules {
        words: rules.words,
        count: c,
    };
    let g = count_givers(&plain, index, s, i, b);
    if n <= c {
        return g;
    }
    if c + 64 < n {
        return Givers::Several;
    }
    let m = bounds::one(s, i);
    let row = index[ROWS + (s.number() * 64 + i) as usize];
    more_givers(rules, c, row, m, b, g)
}

// The rule r alone can give the conclusion m: if m is sure, r fires, and its other heads are out. (B2)
pub fn sole_giver(r: Masks, m: Pair, b: Bounds) -> Bounds
    ensures { Keeps (FiringFor r m) b result }
{
    if sets::within(m, b.lo) {
        return bounds::into(
            bounds::out(b, sets::join(r.bar, sets::minus(r.head, m))),
            r.need,
        );
    }
    b
}

// A conclusion that no rule can give is out; a sure one makes the rule fire that alone can give it. (d), (B2)
pub fn support(rules: &Rules<'_>, index: &Index, s: Part, i: u64, b: Bounds) -> Bounds
    requires { Chains rules.now.words.now rules.now.count index.now × (number_of s < 2) × (i < 64) }
    ensures { Keeps (Ruled rules.now.words.now rules.now.count) b result }
{
    let m = bounds::one(s, i);
    let g = all_givers(rules, index, s, i, b);
    match g {
        Givers::Nobody => bounds::out(b, m),
        Givers::One(k) => sole_giver(masks::masks_at(rules.words, k), m, b),
        Givers::Several => b,
    }
}

// The conclusions x without the one at that place.
pub fn others(x: Pair) -> Pair {
    if x.held != 0 {
        return Pair::of_statements(waiting::fewer(x.held), x.denied);
    }
    Pair::of_statements(0, waiting::fewer(x.denied))
}
