// The views with one set of exceptions, in the order of pairs, from a point on, into a lent slice until it is full.
#![tactic(auto)]

ghost use Rattle.std.specs.Prelude.{None, ◌≡◌, ◌+◌, ◌-◌, ◌*◌, ◌<◌, ◌≤◌, [], ◌∷◌, length, ◌==◌, nat_lt};
ghost use Rattle.std.proofs.lemmas.List.Edits.{sets};
ghost use Rattle.logic.specs.Tests.{both};
ghost use Rattle.masks.specs.Views.{MaskView as MaskViewOf};
ghost use Rattle.bounds.specs.Sound.{Keeps};
ghost use Rattle.queue.specs.Chains.{Chains};
ghost use Rattle.meaning.specs.Order.{value as value_of};
ghost use Rattle.page.specs.Orders.{number, about as about_of, said as said_of, given as given_of};
ghost use Rattle.sets.specs.Pairs.{flat};
ghost use Rattle.page.specs.Sought.{sought};
ghost use Rattle.page.specs.Pages.{pair_at, Giving, Fits as FitsOf, GoneOn, Settled, TriedOne, Started, Listed};
ghost use Rattle.page.specs.InBook.{Barren, BranchReady, Branched, Fits, Ready, ViewGiving, asked};
ghost use Rattle.queue.specs.InBook.{MaskView};

use bounds::Part;
use masks::{Bounds, Rules};
use queue::waiting::Waiting;
use queue::{Prepared, Rest, index, waiting};
use sets::Pair;

// The value of a statement, in the order of pairs.
#[derive(Clone, Copy, PartialEq, Eq, PartialOrd, Ord)]
pub enum Value {
    Absent,
    Held,
    Denied,
}

// All values, in that order.
pub const VALUES: [Value; 3] = [Value::Absent, Value::Held, Value::Denied];

// How many branches without a find it takes until `glimpse` searches for a view.
const MANY: u64 = 64;

// The set of all numbers that a word has room for.
const EVERY: u64 = 0xffff_ffff_ffff_ffff;

// What is asked for: how many statements the book has, room for how many pairs the slice has, and the point.
#[derive(Clone, Copy)]
pub struct Task {
    pub statements: u64,
    pub room: usize,
    pub point: Pair,
}

// Where the search stands: the pair as far as settled, whether that is the same as in the point, bounds for the views that come from it,
// the rules that are live within them, and perhaps a view that was found within them.
#[derive(Clone, Copy)]
pub struct Node {
    // Kept: a fact about the pair beside it, and no flag for a value that may be missing.
    pub equal: bool,
    pub pair: Pair,
    pub bounds: Bounds,
    pub live: Waiting,
    pub hint: Pair,
}

// How far the page is filled, and how many branches were opened since the last find.
#[derive(Clone, Copy)]
pub struct Place {
    pub at: usize,
    pub dry: u64,
}

// What the pair says of statement i.
pub fn value_at(p: Pair, i: u64) -> Value
    requires { (0 < i) × (i ≤ 64) }
    ensures { number result ≡ value_of p i }
{
    if sets::member(i, p.held) {
        Value::Held
    } else if sets::member(i, p.denied) {
        Value::Denied
    } else {
        Value::Absent
    }
}

// Both conclusions about statement i.
pub fn about(i: u64) -> Pair
    requires { (0 < i) × (i ≤ 64) }
    ensures { result ≡ about_of i }
{
    let x = 1 << (i - 1);
    Pair {
        taken: 0,
        held: x,
        denied: x,
    }
}

// The conclusion about statement i that the value stands for, if any.
pub fn said(i: u64, value: Value) -> Pair
    requires { (0 < i) × (i ≤ 64) }
    ensures { result ≡ said_of i (number value) }
{
    match value {
        Value::Absent => Pair::EMPTY,
        Value::Held => bounds::one(Part::Held, i - 1),
        Value::Denied => bounds::one(Part::Denied, i - 1),
    }
}

// The pair with the value at statement i.
pub fn given(p: Pair, i: u64, value: Value) -> Pair
    requires { (0 < i) × (i ≤ 64) }
    ensures { result ≡ given_of p i (number value) }
{
    sets::join(sets::minus(p, about(i)), said(i, value))
}

// Bounds for the pairs within b that have the value at statement i.
pub fn fixed(b: Bounds, i: u64, value: Value) -> Bounds
    requires { (0 < i) × (i ≤ 64) }
    ensures { Keeps (Giving i (number value)) b result }
{
    let m = said(i, value);
    bounds::out(bounds::into(b, m), sets::minus(about(i), m))
}

// The same for the views among them: propagated, unless that is b or has nothing in it.
pub fn narrow(book: &Prepared<'_>, live: Waiting, b: Bounds, i: u64, value: Value) -> Rest
    requires { (0 < i) × (i ≤ 64) }
    ensures { Keeps (ViewGiving book.now i (number value)) b result.bounds }
{
    let c = fixed(b, i, value);
    if b == c || !sets::within(c.lo, c.hi) {
        return Rest { bounds: c, live };
    }
    let w = index::among(book.index, live, b, c);
    queue::propagate(book, w, c)
}

// Where the statements settled so far are the point's: the value comes before the point's own.
pub fn earlier(equal: bool, value: Value, own: Value) -> bool
    ensures { result ≡ both equal (nat_lt (number value) (number own)) }
{
    equal && value < own
}

// With the value the statements settled are still the point's.
pub fn still(equal: bool, value: Value, own: Value) -> bool
    ensures { result ≡ both equal (number value == number own) }
{
    equal && value == own
}

// Whether any view is within the bounds: asked only after many branches without a find, not where the point's own branch goes on, and not
// where the hint is within them. If the answer is that there is none, that is so; what is found may be no more than the hint.
pub fn glimpse(
    book: &Prepared<'_>,
    dry: u64,
    equal: bool,
    live: Waiting,
    b: Bounds,
    hint: Pair,
) -> Option<Pair>
    ensures { result ≡ None → Barren book.now b }
{
    if dry < MANY || equal || (sets::within(b.lo, hint) && sets::within(hint, b.hi)) {
        return Some(hint);
    }
    probe::ask(book, waiting::none(live), b)
}

// The branch of a value at a statement that `left` others follow: the node that the search goes on from, or none if the value comes before the
// point's own, forced conclusions clash, or the branch is barren.
pub fn branch_of(
    book: &Prepared<'_>,
    task: Task,
    left: u64,
    value: Value,
    node: Node,
    dry: u64,
) -> Option<Node>
    requires { BranchReady book.now task left (number value) }
    ensures { Branched book.now task left (number value) node result }
{
    let i = task.statements - left;
    let own = value_at(task.point, i);
    if earlier(node.equal, value, own) {
        return None;
    }
    let rest = narrow(book, node.live, node.bounds, i, value);
    let bounds = rest.bounds;
    let live = rest.live;
    if !sets::within(bounds.lo, bounds.hi) {
        return None;
    }
    let equal = still(node.equal, value, own);
    let hint = glimpse(book, dry, equal, live, bounds, node.hint)?;
    let pair = given(node.pair, i, value);
    Some(Node {
        equal,
        pair,
        bounds,
        live,
        hint,
    })
}

// Writes the pair at place `at`.
// Kept: the C interface lends a page as words, three to a pair (`bantameasel_first_page`), so a page is no slice of pairs.
pub fn put(out: &mut [u64], at: usize, p: Pair)
    requires { at * 3 + 3 ≤ length out.old }
    ensures { out.new ≡ sets out.old (at * 3) (flat (p ∷ [])) }
{
    out[at * 3] = p.taken;
    out[at * 3 + 1] = p.held;
    out[at * 3 + 2] = p.denied;
}

// Writes the pair at the place, and answers the next one.
pub fn put_next(out: &mut [u64], place: Place, p: Pair) -> Place
    requires { place.at * 3 + 3 ≤ length out.old }
    ensures { (out.new ≡ sets out.old (place.at * 3) (flat (p ∷ []))) × (result.at ≡ place.at + 1) }
{
    put(out, place.at, p);
    Place {
        at: place.at + 1,
        dry: 0,
    }
}

// The pair at a place of a page.
pub fn pair_at(pairs: &[u64], k: usize) -> Pair
    requires { k * 3 + 3 ≤ length pairs.now }
    ensures { result ≡ pair_at pairs.now k }
{
    let i = k * 3;
    Pair {
        taken: pairs[i],
        held: pairs[i + 1],
        denied: pairs[i + 2],
    }
}

// Every statement is settled: the pair is put on the page if it is a view and not the point itself.
pub fn finish(
    rules: &Rules<'_>,
    ranks: &[u64],
    task: Task,
    node: Node,
    out: &mut [u64],
    place: Place,
) -> Place
    requires { (FitsOf rules.now.words.now ranks.now out.old (sought rules.now.count task) place.at) × (place.at < task.room) × (rules.now.count ≤ 256) }
    ensures { Settled (MaskViewOf rules.now.words.now rules.now.count ranks.now) (sought rules.now.count task) 0 node place.at out.old out.new result.at }
{
    if node.equal {
        return place;
    }
    if !least::is_view(rules, ranks, node.pair) {
        return place;
    }
    put_next(out, place, node.pair)
}

// How far a node has come without a search: its pair with more values, and how many statements are left then.
#[derive(Clone, Copy)]
pub struct Stretch {
    pub pair: Pair,
    pub left: u64,
}

// The next statements of a node that are settled already, since its bounds leave them one value: these values, up to the first statement that is open.
// The point's own branch goes on statement by statement.
pub fn ahead(node: Node, n: u64, left: u64) -> Stretch
    requires { (left ≤ n) × (n ≤ 64) }
    ensures { GoneOn n left node result }
{
    let mut pair = node.pair;
    if node.equal {
        return Stretch { pair, left };
    }
    let x = sets::minus(node.bounds.hi, node.bounds.lo);
    let free = x.held | x.denied;
    for i in n - left..n {
        if (free >> i) % 2 == 1 {
            return Stretch { pair, left: n - i };
        }
        pair = given(pair, i + 1, value_at(node.bounds.lo, i + 1));
    }
    Stretch { pair, left: 0 }
}

// Settles the last `left` statements: puts the views that come from the node on the page, in order, and answers the place after them. Statements
// that the bounds have settled are passed over.
#[cycle(settle_try_value)]
pub fn settle(
    book: &Prepared<'_>,
    task: Task,
    left: u64,
    node: Node,
    out: &mut [u64],
    place: Place,
) -> Place
    requires { (Ready book.now out.old task left place.at) × (place.at < task.room) }
    ensures { Settled (MaskView book.now) (asked book.now task) left node place.at out.old out.new result.at }
{
    let a = ahead(node, task.statements, left);
    let pair = a.pair;
    let next = Node { pair, ..node };
    if a.left == 0 {
        return finish(&book.rules, book.ranks, task, next, out, place);
    }
    let mut r = place;
    for &value in &VALUES {
        r = try_value(book, task, a.left, value, next, out, r);
    }
    r
}

// Tries a value of the first statement left. What a branch takes on the stack is here, once for each statement.
#[cycle(settle_try_value)]
pub fn try_value(
    book: &Prepared<'_>,
    task: Task,
    left: u64,
    value: Value,
    node: Node,
    out: &mut [u64],
    place: Place,
) -> Place
    requires { (Ready book.now out.old task left place.at) × (0 < left) }
    ensures { TriedOne (MaskView book.now) (asked book.now task) (left - 1) (number value) node place.at out.old out.new result.at }
{
    if task.room <= place.at {
        return place;
    }
    match branch_of(book, task, left - 1, value, node, place.dry) {
        None => place,
        Some(c) => {
            let next = Place {
                at: place.at,
                dry: place.dry.wrapping_add(1),
            };
            settle(book, task, left - 1, c, out, next)
        }
    }
}

// The node that a search for the pairs with these exceptions within the bounds begins with. Its hint is within no bounds.
pub fn start(taken: u64, rest: Rest, equal: bool) -> Node
    ensures { Started taken rest.bounds equal result }
{
    let bounds = rest.bounds;
    let live = rest.live;
    // Kept: a hint that is an Option would make the answer of `glimpse` an Option of an Option, since it may answer with a hint that is none.
    let hint = Pair {
        taken: EVERY,
        held: EVERY,
        denied: EVERY,
    };
    Node {
        equal,
        pair: Pair {
            taken,
            ..Pair::EMPTY
        },
        bounds,
        live,
        hint,
    }
}

// Puts all views with these exceptions on the page from place `at` on, in the order of pairs until the page is full;
// where `after` is true only those later than the point, which takes these exceptions. None of those views may be beyond the bounds at rest.
// Answers the place after them.
pub fn list_views(
    book: &Prepared<'_>,
    task: Task,
    taken: u64,
    rest: Rest,
    after: bool,
    out: &mut [u64],
    at: usize,
) -> usize
    requires { Fits book.now out.old task at }
    ensures { Listed (MaskView book.now) (asked book.now task) taken rest.bounds after at out.old out.new result }
{
    if task.room <= at {
        return at;
    }
    let node = start(taken, rest, after);
    let place = Place { at, dry: 0 };
    settle(book, task, task.statements, node, out, place).at
}
