// The walk over all sets of exceptions in their order: which of them a resolution can have.
#![tactic(auto)]

ghost use Rattle.std.specs.Prelude.{◌≡◌, true, false, ◌+◌, ◌-◌, ◌*◌, ◌/◌, ◌^◌, ◌<◌, ◌≤◌, length};
ghost use Rattle.logic.specs.Tests.{Decides};
ghost use Rattle.book.specs.Limits.{exceptions};
ghost use Rattle.marking.specs.Marks.{marks_in, Clear};
ghost use Rattle.queue.specs.Chains.{Chains};
ghost use Rattle.page.specs.Sought.{sought};
ghost use Rattle.few.specs.Few.{most};
ghost use Rattle.walk.specs.Walks.{RuledOut, AtPlace, Spanned, Skipped};
ghost use Rattle.page.specs.InBook.{Fits};
ghost use Rattle.standing.specs.InBook.{Right};
ghost use Rattle.walk.specs.InBook.{Paged, Walked};

use book::Book;
use masks::Bounds;
use one_set::Effort;
use page::Task;
use queue::Prepared;
use standing::memory;
use standing::memory::Memory;

// A look is enough to see that no resolution has the set t: it is marked, or it is not between the root's sets.
pub fn ruled_out(root: Bounds, marks: &[u64], t: u64) -> bool
    requires { t < marks_in marks.now }
    ensures { Decides result (RuledOut root marks.now t) }
{
    if marking::is_marked(marks, t) {
        return true;
    }
    if !sets::subset(t, root.hi.taken) {
        return true;
    }
    !sets::subset(root.lo.taken, t)
}

// A place of the order of the sets, and the set there.
#[derive(Clone, Copy)]
pub struct Position {
    pub place: usize,
    pub set: u64,
}

// The places of the sets that stand between the root's sets: from that of the lower one on, up to that of the upper one.
#[derive(Clone, Copy)]
pub struct Span {
    pub first: usize,
    pub past: usize,
}

// These places: a set earlier than the root's lower one does not contain it, and one later than the upper one is not within it.
pub fn spanned(x: usize, root: Bounds) -> Span
    requires { x ≤ exceptions }
    ensures { Spanned x root result }
{
    let all = (1 << x) - 1;
    Span {
        first: order::place_of(x, root.lo.taken & all),
        past: order::place_of(x, root.hi.taken & all) + 1,
    }
}

// The first place from p on and before `past` at which a look is not enough, in the order of the sets of x exceptions; or, where there is none, the
// place past these.
pub fn past_ruled_out(
    x: usize,
    past: usize,
    root: Bounds,
    marks: &[u64],
    p: Position,
) -> Result<Position, Position>
    requires { (x ≤ exceptions) × (past ≤ 2 ^ x) × (2 ^ x ≤ marks_in marks.now) × AtPlace x p }
    ensures { Skipped x past root marks.now p result }
{
    let mut r = p;
    for place in p.place..past {
        if !ruled_out(root, marks, r.set) {
            return Ok(r);
        }
        r = Position {
            place: place + 1,
            set: order::next(x, r.set),
        };
    }
    Err(r)
}

// Puts the resolutions with the sets of x exceptions from place `from` on on the page, until it is full. Where `known` is true, the sets before that
// place have been walked with these marks.
pub fn walk(
    book: &Prepared<'_>,
    root: Bounds,
    task: Task,
    x: usize,
    from: usize,
    known: bool,
    at: usize,
    effort: &mut Effort,
    marks: &mut [u64],
    memory: &mut Memory,
    store: &mut [u64],
    out: &mut [u64],
) -> usize
    requires { Fits book.now out.old task at × (x ≤ exceptions) × (from ≤ 2 ^ x) × (2 ^ x ≤ marks_in marks.old) × (most * 3 ≤ length store.old) }
    ensures { Walked book.now root task x from known at marks.old memory.old out.old out.new result }
{
    if task.room <= at {
        return at;
    }
    let s = spanned(x, root);
    let first = from.max(s.first);
    if s.past <= first {
        return at;
    }
    let set = order::set_at(x, first);
    let mut next = past_ruled_out(x, s.past, root, marks, Position { place: first, set });
    let mut r = at;
    // Kept: a while, for what is next is known only once the page is seen to have room: no range gives the places that are not ruled out.
    while let Ok(p) = next {
        r = one_set::list_set(
            book, root, task, p.set, false, known, r, effort, marks, memory, store, out,
        );
        if task.room <= r {
            return r;
        }
        let place = p.place + 1;
        let set = order::next(x, p.set);
        next = past_ruled_out(x, s.past, root, marks, Position { place, set });
    }
    r
}

// The page of the first resolutions later than the task's point, in a book of at most x exceptions whose views are within root: those with the point's own
// set, unless a look is enough, then those with later ones. Nothing is marked yet.
pub fn after_with(
    book: &Prepared<'_>,
    root: Bounds,
    x: usize,
    task: Task,
    effort: &mut Effort,
    marks: &mut [u64],
    memory: &mut Memory,
    store: &mut [u64],
    out: &mut [u64],
) -> usize
    requires { Fits book.now out.old task 0 × (x ≤ exceptions) × (task.point.taken < 2 ^ x) × (2 ^ x ≤ marks_in marks.old) × Clear marks.old × (most * 3 ≤ length store.old) × Right book.now root memory.old }
    ensures { Paged book.now root task x true out.old out.new result }
{
    let t = task.point.taken;
    let next = order::place_of(x, t) + 1;
    if ruled_out(root, marks, t) {
        return walk(
            book, root, task, x, next, false, 0, effort, marks, memory, store, out,
        );
    }
    let at = one_set::list_set(
        book, root, task, t, true, false, 0, effort, marks, memory, store, out,
    );
    walk(
        book, root, task, x, next, false, at, effort, marks, memory, store, out,
    )
}

// The page of the first resolutions; where `after` is true, of the first later than the task's point. Nothing is marked yet.
pub fn page_with(
    book: &Prepared<'_>,
    root: Bounds,
    x: usize,
    task: Task,
    after: bool,
    marks: &mut [u64],
    out: &mut [u64],
) -> usize
    requires { Fits book.now out.old task 0 × (x ≤ exceptions) × (task.point.taken < 2 ^ x) × (2 ^ x ≤ marks_in marks.old) × Clear marks.old }
    ensures { Paged book.now root task x after out.old out.new result }
{
    let mut memory = memory::nothing();
    let mut store = [0u64; few::MOST * 3];
    let mut effort = Effort::fresh();
    if after {
        return after_with(
            book,
            root,
            x,
            task,
            &mut effort,
            marks,
            &mut memory,
            &mut store,
            out,
        );
    }
    walk(
        book,
        root,
        task,
        x,
        0,
        true,
        0,
        &mut effort,
        marks,
        &mut memory,
        &mut store,
        out,
    )
}

// How many exceptions have sets for one word of marks, and for 64 words.
const FEW: usize = 6;

const MANY: usize = 12;

// The words of marks for the sets of so many, and of as many as there may be.
const FEW_WORDS: usize = (1 << FEW) / 64 + 1;

const MANY_WORDS: usize = (1 << MANY) / 64 + 1;

const ALL_WORDS: usize = Book::SETS / 64 + 1;

// The words of marks for the sets of x exceptions, and the one before them.
fn words_for(x: usize) -> usize
    requires { (6 ≤ x) × (x ≤ exceptions) }
    ensures { result ≡ 2 ^ x / 64 + 1 }
{
    (1 << x) / 64 + 1
}

// The page, with marks in the first words of an array of W, which is cleared.
fn page_of<const W: usize>(
    book: &Prepared<'_>,
    root: Bounds,
    x: usize,
    task: Task,
    after: bool,
    used: usize,
    out: &mut [u64],
) -> usize
    requires { Fits book.now out.old task 0 × (x ≤ exceptions) × (task.point.taken < 2 ^ x) × (used ≤ W) × (W ≤ 1025) × (2 ^ x ≤ 64 * (used - 1)) }
    ensures { Paged book.now root task x after out.old out.new result }
{
    let mut marks = [0u64; W];
    page_with(book, root, x, task, after, &mut marks[..used], out)
}

// The page, with marks for the book's own sets: in one of three arrays, the smallest that has them all.
pub fn page(
    book: &Prepared<'_>,
    root: Bounds,
    x: usize,
    task: Task,
    after: bool,
    out: &mut [u64],
) -> usize
    requires { Fits book.now out.old task 0 × (x ≤ exceptions) × (task.point.taken < 2 ^ x) }
    ensures { Paged book.now root task x after out.old out.new result }
{
    if x <= FEW {
        return page_of::<FEW_WORDS>(book, root, x, task, after, FEW_WORDS, out);
    }
    let used = words_for(x);
    if x <= MANY {
        return page_of::<MANY_WORDS>(book, root, x, task, after, used, out);
    }
    page_of::<ALL_WORDS>(book, root, x, task, after, used, out)
}
