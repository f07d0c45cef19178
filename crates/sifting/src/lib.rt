// The views with one set of exceptions that stand, in the order of pairs. The search in order of `page`, whose bounds are narrowed by what is remembered, so that
// views which a remembered one dominates are passed over many at a time; a view that is left is asked whether it stands.
#![tactic(auto)]

ghost use Rattle.std.specs.Prelude.{◌-◌, ◌<◌};
ghost use Rattle.bounds.specs.Sound.{Keeps};
ghost use Rattle.queue.specs.Chains.{Chains};
ghost use Rattle.page.specs.Orders.{number};
ghost use Rattle.page.specs.Pages.{Settled, TriedOne};
ghost use Rattle.page.specs.InBook.{Fits, Ready, asked};
ghost use Rattle.sifting.specs.InBook.{AllSifted, Sifts};
ghost use Rattle.standing.specs.InBook.{Right, StandingView};
ghost use Rattle.masks.specs.OfRules.{HasLines};

use masks::Bounds;
use page::{Node, Place, Task, Value};
use queue::{Prepared, Rest};
use standing::memory::Memory;

// Every statement is settled: the pair is put on the page if it is a view that stands and not the point itself.
pub fn finish(
    book: &Prepared<'_>,
    root: Bounds,
    task: Task,
    node: Node,
    memory: &mut Memory,
    out: &mut [u64],
    place: Place,
) -> Place
    requires { Fits book.now out.old task place.at × (place.at < task.room) × HasLines book.now.rules }
    ensures { Sifts book.now root task memory.old memory.new result.at (Settled (StandingView book.now root) (asked book.now task) 0 node place.at out.old out.new result.at) }
{
    if node.equal {
        return place;
    }
    let p = node.pair;
    if !least::is_view(&book.rules, book.ranks, p) {
        return place;
    }
    if !standing::stands(book, root, memory, p) {
        return place;
    }
    page::put_next(out, place, p)
}

// The bounds of a node without views that a remembered view dominates, unless they are those it came from.
pub fn lessened(book: &Prepared<'_>, from: Bounds, node: Node, memory: &Memory) -> Rest
    requires { HasLines book.now.rules }
    ensures { (root : _) → Right book.now root memory.now → Keeps (StandingView book.now root) node.bounds result.bounds }
{
    let b = node.bounds;
    let live = node.live;
    let rest = Rest { bounds: b, live };
    if from == b {
        return rest;
    }
    standing::bans::unbanned(book, rest, memory)
}

// Settles the last `left` statements: puts the views that come from the node and stand on the page, in order, and answers the place after them.
// Kept: one function for this and `page::settle` would take a trait for the property, the memory, the last test and the narrowing, of which `page` needs
// the test alone; `page::settle` besides passes over settled statements.
#[cycle(settle_try_value)]
pub fn settle(
    book: &Prepared<'_>,
    root: Bounds,
    task: Task,
    left: u64,
    node: Node,
    memory: &mut Memory,
    out: &mut [u64],
    place: Place,
) -> Place
    requires { Ready book.now out.old task left place.at × (place.at < task.room) × HasLines book.now.rules }
    ensures { Sifts book.now root task memory.old memory.new result.at (Settled (StandingView book.now root) (asked book.now task) left node place.at out.old out.new result.at) }
{
    if left == 0 {
        return finish(book, root, task, node, memory, out, place);
    }
    let mut r = place;
    for &value in &page::VALUES {
        r = try_value(book, root, task, left, value, node, memory, out, r);
    }
    r
}

// Tries a value of the first statement left. What a branch takes on the stack is here, once for each statement.
#[cycle(settle_try_value)]
pub fn try_value(
    book: &Prepared<'_>,
    root: Bounds,
    task: Task,
    left: u64,
    value: Value,
    node: Node,
    memory: &mut Memory,
    out: &mut [u64],
    place: Place,
) -> Place
    requires { Ready book.now out.old task left place.at × (0 < left) × HasLines book.now.rules }
    ensures { Sifts book.now root task memory.old memory.new result.at (TriedOne (StandingView book.now root) (asked book.now task) (left - 1) (number value) node place.at out.old out.new result.at) }
{
    if task.room <= place.at {
        return place;
    }
    match page::branch_of(book, task, left - 1, value, node, place.dry) {
        None => place,
        Some(c) => {
            let r = lessened(book, node.bounds, c, memory);
            let bounds = r.bounds;
            let live = r.live;
            if !sets::within(bounds.lo, bounds.hi) {
                return place;
            }
            let d = Node { bounds, live, ..c };
            let next = Place {
                at: place.at,
                dry: place.dry.wrapping_add(1),
            };
            settle(book, root, task, left - 1, d, memory, out, next)
        }
    }
}

// Puts all views with the set t that stand on the page from place `at` on, in the order of pairs until it is full; where `after` is true only those later than
// the task's point. None of the views with that set may be beyond the bounds at rest. Answers the place after them.
pub fn list_standing(
    book: &Prepared<'_>,
    root: Bounds,
    task: Task,
    t: u64,
    rest: Rest,
    after: bool,
    memory: &mut Memory,
    out: &mut [u64],
    at: usize,
) -> usize
    requires { Fits book.now out.old task at × HasLines book.now.rules }
    ensures { AllSifted book.now root task t rest.bounds after at memory.old memory.new out.old out.new result }
{
    if task.room <= at {
        return at;
    }
    let node = page::start(t, rest, after);
    let place = Place { at, dry: 0 };
    settle(book, root, task, task.statements, node, memory, out, place).at
}
