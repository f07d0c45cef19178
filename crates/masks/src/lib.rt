// Rules as masks. A mask is a set of conclusions and exceptions in three words.
#![tactic(auto)]

ghost use Rattle.std.specs.Prelude.{◌≡◌, true, ◌+◌, ◌*◌, ◌<◌, ◌≤◌, length};
ghost use Rattle.logic.specs.Tests.{Decides};
ghost use Rattle.sets.specs.Sets.{bit_of, Apart};
ghost use Rattle.sets.specs.Pairs.{Sub, Off, Atom};
ghost use Rattle.masks.specs.Views.{masks_at, Fires, MaskClosed, Constraint, Meets, Level};
ghost use Rattle.masks.specs.Closures.{Fired, Passed, Closure, Lone, Grown, Beneath, Swept};

use sets::Pair;

pub mod lines;

// A rule: its head, its needed entries (the rule's own exception among them), its barred entries.
#[derive(Clone, Copy, PartialEq, Eq)]
pub struct Masks {
    pub head: Pair,
    pub need: Pair,
    pub bar: Pair,
}

// The pairs between lo and hi.
#[derive(Clone, Copy, PartialEq, Eq)]
pub struct Bounds {
    pub lo: Pair,
    pub hi: Pair,
}

// The rules of a book: the first `count` rows of a slice that has eight words for each. Behind them may stand the rows of its Q lines.
#[derive(Clone, Copy)]
pub struct Rules<'a> {
    pub words: &'a [u64],
    pub count: usize,
    ghost room: { count * 8 ≤ length words.now },
}

// Rule k of a slice that has eight words for each rule.
pub fn masks_at(words: &[u64], k: usize) -> Masks
    requires { k * 8 + 8 ≤ length words.now }
    ensures { result ≡ masks_at words.now k }
{
    let at = k * 8;
    Masks {
        head: Pair::of_statements(words[at], words[at + 1]),
        need: Pair {
            taken: words[at + 4],
            held: words[at + 2],
            denied: words[at + 3],
        },
        bar: Pair::of_statements(words[at + 5], words[at + 6]),
    }
}

// What the rule needs is in c, and nothing of v bars it.
pub fn fires(r: Masks, v: Pair, c: Pair) -> bool
    ensures { Decides result (Fires r v c) }
{
    if !sets::within(r.need, c) {
        return false;
    }
    sets::apart(r.bar, v)
}

// The pair d with what the rule adds within the bounds, if it can fire from d.
pub fn fire(r: Masks, b: Bounds, d: Pair) -> Pair
    ensures { Fired r b d result }
{
    if fires(r, b.lo, d) {
        return sets::join(d, sets::meet(r.head, b.hi));
    }
    d
}

// The pair c with what the rules add in one pass, each from what those before it have left.
pub fn pass(rules: &Rules<'_>, b: Bounds, c: Pair) -> Pair
    ensures { Passed rules.now.words.now rules.now.count b c result }
{
    let mut d = c;
    for k in 0..rules.count {
        d = fire(masks_at(rules.words, k), b, d);
    }
    d
}

// The least pair that has the exceptions of the upper bound and to which no rule adds anything within the bounds.
pub fn closure(rules: &Rules<'_>, b: Bounds) -> Pair
    ensures { Closure rules.now.words.now rules.now.count b result }
{
    let mut c = Pair::of_exceptions(b.hi.taken);
    loop {
        if c == b.hi {
            return c;
        }
        let d = pass(rules, b, c);
        if d == c {
            break;
        }
        c = d;
    }
    c
}

// The rule has no head.
pub fn constraint(r: Masks) -> bool
    ensures { Decides result (Constraint r) }
{
    r.head.held | r.head.denied == 0
}

// The pair v is to this rule what a view is to every rule; f tells whether v satisfies the rule's body.
pub fn meets(r: Masks, v: Pair, f: bool) -> bool
    requires { Decides f (Fires r v v) }
    ensures { Decides result (Meets r v) }
{
    if f {
        return !sets::apart(r.head, v);
    }
    r.need.taken & v.taken == 0
}

// The word has one member at most.
pub fn lone_word(x: u64) -> bool
    ensures { result ≡ true → Lone x }
{
    sets::size(x) <= 1
}

// The pair has one conclusion at most, and no exception: every pair has all of it or nothing.
pub fn lone(x: Pair) -> bool
    ensures { result ≡ true → Atom x }
{
    if x.taken != 0 {
        return false;
    }
    let held = x.held;
    let denied = x.denied;
    if denied == 0 {
        return lone_word(held);
    }
    if held == 0 {
        return lone_word(denied);
    }
    false
}

// The pair d with the rule's head, if d has what it needs, v satisfies its body and has one of its heads alone.
pub fn add_within(r: Masks, v: Pair, f: bool, d: Pair) -> Pair
    requires { Decides f (Fires r v v) }
    ensures { Grown r v d result }
{
    if !f {
        return d;
    }
    let x = sets::meet(r.head, v);
    if !lone(x) {
        return d;
    }
    if sets::within(r.need, d) {
        return sets::join(d, x);
    }
    d
}

// The most passes over the rules for one pair: each but the last adds a conclusion.
const PASSES: u64 = 128;

// One sweep over the rules: what they add to v's exceptions alone, if v meets them all. It ends at the first that v does not meet, with what those before
// it add.
pub fn sweep(rules: &Rules<'_>, v: Pair) -> Result<Pair, Pair>
    ensures { Swept rules.now.words.now rules.now.count v result }
{
    let mut d = Pair::of_exceptions(v.taken);
    for k in 0..rules.count {
        let r = masks_at(rules.words, k);
        let f = fires(r, v, v);
        let e = add_within(r, v, f, d);
        if !meets(r, v, f) {
            return Err(d);
        }
        d = e;
    }
    Ok(d)
}

// The pair d with what the first n rules add to it in one pass, which every closed pair within v has as it has d.
pub fn grow(rules: &Rules<'_>, v: Pair, d: Pair) -> Pair
    requires { Beneath rules.now.words.now rules.now.count v d }
    ensures { Beneath rules.now.words.now rules.now.count v result }
{
    let mut e = d;
    for k in 0..rules.count {
        let r = masks_at(rules.words, k);
        let f = fires(r, v, v);
        e = add_within(r, v, f, e);
    }
    e
}

// The same again and again, until v is reached or nothing is added.
pub fn grown(rules: &Rules<'_>, v: Pair, d: Pair) -> Pair
    requires { Beneath rules.now.words.now rules.now.count v d }
    ensures { Beneath rules.now.words.now rules.now.count v result }
{
    let mut c = d;
    for _ in 0..PASSES {
        let e = grow(rules, v, c);
        if e == v || e == c {
            return e;
        }
        c = e;
    }
    c
}

// The pair d has one of the rule's heads at least, or it lacks something that the rule needs, or v has something that it bars.
pub fn closed_at(r: Masks, v: Pair, d: Pair) -> bool
    ensures { result ≡ true → Fires r v d → Off r.head d → ⊥ }
{
    if !fires(r, v, d) {
        return true;
    }
    !sets::apart(r.head, d)
}

// The pair d is closed and within v, with the same exceptions: if it is not v, then v is not minimal.
pub fn closed_within(rules: &Rules<'_>, v: Pair, d: Pair) -> bool
    ensures { result ≡ true → (d.taken ≡ v.taken) × Sub d v × MaskClosed rules.now.words.now rules.now.count v d }
{
    if d.taken != v.taken {
        return false;
    }
    if !sets::within(d, v) {
        return false;
    }
    for k in 0..rules.count {
        if !closed_at(masks_at(rules.words, k), v, d) {
            return false;
        }
    }
    true
}

// The exception at place a is not taken, or none of those that it outranks is.
pub fn level_at(rank: u64, a: u64, taken: u64) -> bool
    requires { a < 64 }
    ensures { Decides result (bit_of taken a ≡ 1 → Apart rank taken) }
{
    if (taken >> a) % 2 == 0 {
        return true;
    }
    rank & taken == 0
}

// No taken exception outranks a taken one. The slice has for each exception those that it outranks.
pub fn level(ranks: &[u64], taken: u64) -> bool
    requires { length ranks.now ≤ 64 }
    ensures { Decides result (Level ranks.now taken) }
{
    for (a, &rank) in ranks.iter().enumerate() {
        if !level_at(rank, a as u64, taken) {
            return false;
        }
    }
    true
}
