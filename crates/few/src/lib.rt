// All views within bounds, where these are few: gathered as the search finds them, then put on the page in the order of pairs.
#![tactic(auto)]

ghost use Rattle.std.specs.Prelude.{◌≡◌, ◌⊎◌, false, ◌+◌, ◌*◌, ◌<◌, ◌≤◌, length};
ghost use Rattle.queue.specs.Chains.{Chains};
ghost use Rattle.page.specs.Pages.{pair_at, Listed};
ghost use Rattle.few.specs.Few.{most, Sooner, Follows, Leads, FirstOf, PutSorted};
ghost use Rattle.few.specs.InBook.{AllListed, Collected, Gathered};
ghost use Rattle.page.specs.InBook.{Fits, asked};
ghost use Rattle.queue.specs.InBook.{MaskView};

use masks::Bounds;
use page::Task;
use probe::Node;
use queue::waiting::Work;
use queue::{Prepared, Rest, index, waiting};
use sets::Pair;

// How many views the store has room for. Where it is full there may be more.
pub const MOST: usize = 32;

// Room for fewer pairs than that is not worth gathering.
const SHORT: usize = 16;

// How many views to gather at most for a page with room for so many pairs. One is enough to know that there is any: where few are asked for, or
// those after a point, the search in order does less.
pub fn limit(room: usize, after: bool) -> usize
    ensures { (0 < result) × (result ≤ most) }
{
    if after || room < SHORT { 1 } else { MOST }
}

// How far the store is filled, and how many nodes may still be visited.
#[derive(Clone, Copy)]
pub struct Place {
    pub at: usize,
    pub fuel: u64,
}

// Puts the views within the bounds b into the store from a place on, as the search finds them, up to place `cap` or until the fuel is used up.
// Answers the place after them and the fuel that is left; w is what is to be done before the bounds are at rest.
pub fn gather(
    book: &Prepared<'_>,
    w: Work,
    b: Bounds,
    store: &mut [u64],
    cap: usize,
    place: Place,
) -> Place
    requires { (cap * 3 ≤ length store.old) × (place.at ≤ cap) }
    ensures { Gathered book.now b cap place.at place.fuel store.old store.new result }
{
    let k = place.at;
    if cap <= k {
        return place;
    }
    if place.fuel == 0 {
        return place;
    }
    let fuel = place.fuel - 1;
    let x = probe::visit(book, w, b);
    match x {
        Node::View(v) => {
            page::put(store, k, v);
            Place { at: k + 1, fuel }
        }
        Node::Empty => Place { at: k, fuel },
        Node::Open(c, m, live) => {
            let o = bounds::out(c, m);
            let t = index::among(book.index, live, c, o);
            let j = gather(book, t, o, store, cap, Place { at: k, fuel });
            let p = bounds::into(c, m);
            let t = index::among(book.index, live, c, p);
            gather(book, t, p, store, cap, j)
        }
    }
}

// How many views the store has, and how many nodes were visited for that.
#[derive(Clone, Copy)]
pub struct Stored {
    pub count: usize,
    pub visited: u64,
}

// Puts the views within bounds at rest into the store, up to `cap` of them. Answers how many. Where the search for all of them has used up its
// fuel, the store counts as full if there is any view: one that was found, or that a search from shaved bounds finds.
pub fn collect(book: &Prepared<'_>, rest: Rest, store: &mut [u64], cap: usize, fuel: u64) -> Stored
    requires { cap * 3 ≤ length store.old }
    ensures { Collected book.now rest.bounds cap store.new result.count }
{
    let w = waiting::none(rest.live);
    let r = gather(book, w, rest.bounds, store, cap, Place { at: 0, fuel });
    let visited = fuel - r.fuel;
    if r.fuel != 0 {
        return Stored {
            count: r.at,
            visited,
        };
    }
    if r.at != 0 {
        return Stored {
            count: cap,
            visited,
        };
    }
    let a = probe::probe_shaved(book, w, rest.bounds);
    match a {
        Some(_) => Stored {
            count: cap,
            visited,
        },
        None => Stored { count: 0, visited },
    }
}

// The pair a comes before b, if both take the same exceptions: the lowest statement that differs decides.
pub fn sooner(a: Pair, b: Pair) -> bool
    ensures { Sooner a b result }
{
    let i = sets::low((a.held ^ b.held) | (a.denied ^ b.denied));
    if 64 <= i {
        return false;
    }
    page::value_at(a, i + 1) < page::value_at(b, i + 1)
}

// The same of the pairs at places i and j of the store.
pub fn sooner_at(store: &[u64], i: usize, j: usize) -> bool
    requires { (i * 3 + 3 ≤ length store.now) × (j * 3 + 3 ≤ length store.now) }
    ensures { Sooner (pair_at store.now i) (pair_at store.now j) result }
{
    sooner(page::pair_at(store, i), page::pair_at(store, j))
}

// Of the first k pairs the one at place i is later than the one at place `last`, if there is one.
pub fn follows(store: &[u64], k: usize, last: Option<usize>, i: usize) -> bool
    requires { (k * 3 ≤ length store.now) × (i < k) }
    ensures { Follows store.now k last i result }
{
    match last {
        None => true,
        Some(l) => k <= l || sooner_at(store, l, i),
    }
}

// Of the first k pairs the one at place i comes before the one at place `best`, if there is one.
// Kept: one function for this and `follows` would take which of the two places comes first as a flag, or a closure with a `requires` of its own.
pub fn leads(store: &[u64], k: usize, i: usize, best: Option<usize>) -> bool
    requires { (k * 3 ≤ length store.now) × (i < k) }
    ensures { Leads store.now k i best result }
{
    match best {
        None => true,
        Some(b) => k <= b || sooner_at(store, i, b),
    }
}

// The place of the first of those that are later than the one at place `last`, of the pair at place i and those before it: of these it is at
// place `best`.
pub fn better(
    store: &[u64],
    k: usize,
    last: Option<usize>,
    best: Option<usize>,
    i: usize,
) -> Option<usize>
    requires { (k * 3 ≤ length store.now) × (i < k) }
    ensures { FirstOf store.now k last i best → FirstOf store.now k last (i + 1) result }
{
    if follows(store, k, last, i) && leads(store, k, i, best) {
        Some(i)
    } else {
        best
    }
}

// The place of the first in order of those of the first k pairs that are later than the one at place `last`; of all where there is no such
// place.
pub fn first_later(store: &[u64], k: usize, last: Option<usize>) -> Option<usize>
    requires { k * 3 ≤ length store.now }
    ensures { FirstOf store.now k last k result }
{
    let mut best = None;
    for i in 0..k {
        best = better(store, k, last, best, i);
    }
    best
}

// Puts the first k pairs of the store on the page from place `at` on, in the order of pairs, until it is full. Answers the place after them.
pub fn put_sorted(store: &[u64], k: usize, room: usize, out: &mut [u64], at: usize) -> usize
    requires { (k * 3 ≤ length store.now) × (room * 3 ≤ length out.old) × (at ≤ room) }
    ensures { PutSorted store.now k room at out.old out.new result }
{
    let mut next = first_later(store, k, None);
    for place in at..room {
        let Some(j) = next else {
            return place;
        };
        page::put(out, place, page::pair_at(store, j));
        next = first_later(store, k, next);
    }
    room
}

// Puts all views with these exceptions on the page from place `at` on, in the order of pairs until it is full; where `after` is true only those
// later than the task's point. None of those views may be beyond the bounds at rest. Where k is less than `cap`, they are the first k pairs of
// the store. Answers the place after them.
pub fn list(
    book: &Prepared<'_>,
    task: Task,
    taken: u64,
    rest: Rest,
    store: &[u64],
    cap: usize,
    k: usize,
    after: bool,
    out: &mut [u64],
    at: usize,
) -> usize
    requires { (Fits book.now out.old task at) × (cap * 3 ≤ length store.now) }
    ensures { Listed (MaskView book.now) (asked book.now task) taken rest.bounds after at out.old out.new result ⊎ ((after ≡ false) × (k < cap) × AllListed book.now task rest.bounds store.now k at out.old out.new result) }
{
    if !after && k < cap {
        return put_sorted(store, k, task.room, out, at);
    }
    page::list_views(book, task, taken, rest, after, out, at)
}
