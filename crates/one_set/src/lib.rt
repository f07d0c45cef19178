// The resolutions with one set of exceptions.
#![tactic(auto)]

ghost use Rattle.std.specs.Prelude.{◌*◌, ◌<◌, ◌≤◌, length};
ghost use Rattle.masks.specs.Views.{Lined};
ghost use Rattle.bounds.specs.Sound.{with_sets};
ghost use Rattle.queue.specs.Chains.{Chains};
ghost use Rattle.page.specs.Sought.{sought};
ghost use Rattle.few.specs.Few.{most};
ghost use Rattle.marking.specs.Marks.{marks_in, Struck, Marked, all_ones};
ghost use Rattle.one_set.specs.InBook.{Admits, Gathered, HasView, Looked, MarksRight, NoneBelow, OpenListed, Rests, SetListed};
ghost use Rattle.page.specs.InBook.{Fits};
ghost use Rattle.queue.specs.InBook.{Propagated};
ghost use Rattle.ranges.specs.InBook.{NoView};
ghost use Rattle.masks.specs.OfRules.{HasLines};

use marking::Strike;
use masks::Bounds;
use page::Task;
use probe::Outcome;
use queue::{Prepared, Rest, waiting};
use ranges::Range;
use standing::memory::Memory;

// The views that have a set: bounds at rest for them, and how many of them the store has.
#[derive(Clone, Copy)]
pub struct Views {
    pub rest: Rest,
    pub count: usize,
}

// How many nodes searches have visited for sets that turned out to have no view. Once they are many, or the last range of such sets was worth it, the next one
// is looked for by shaving; none is any more after one that was not.
#[derive(Clone, Copy, PartialEq, Eq)]
pub enum Doubt {
    Visited(u64),
    AtOnce,
    Never,
}

// How many nodes searches may visit for sets that turn out to have no view before ranges of such sets are looked for by shaving.
// Kept: a limit that is counted up to, and no number for a state: the states are `Doubt`.
const DOUBT: u64 = 8192;

// How many nodes a search may visit while ranges are being found.
const LITTLE: u64 = 64;

impl Doubt {
    // After a search for such a set has visited so many nodes more.
    pub fn after(self, visited: u64) -> Doubt {
        let Doubt::Visited(before) = self else {
            return self;
        };
        let all = before.saturating_add(visited);
        if all < DOUBT {
            return Doubt::Visited(all);
        }
        Doubt::AtOnce
    }

    // How many nodes the next search may visit: so many, or few where the last look for a range was worth it.
    pub fn fuel(self, most: u64) -> u64 {
        if self == Doubt::AtOnce {
            return LITTLE;
        }
        most
    }
}

// What may still be spent on marking sets without a view: looks for widening ranges of them, and searches for shaving.
#[derive(Clone, Copy)]
pub struct Effort {
    pub credit: u64,
    pub doubt: Doubt,
}

// How many looks may be spent on widening ranges of sets that have no view: at first, and at most at any time.
pub const CREDIT: u64 = 64;

impl Effort {
    // Before the first set.
    pub fn fresh() -> Effort {
        Effort {
            credit: CREDIT,
            doubt: Doubt::Visited(0),
        }
    }
}

// How many looks a widening takes of the credit. It costs fewer, three to thirteen: ranges have to be well worth it to keep the credit up.
const WIDENING: u64 = 16;

// Marks the sets of a range, which have no view. The result is how many are newly marked.
pub fn mark_viewless(s: Range, marks: &mut [u64]) -> u64
    requires { 0 < length marks.old }
    ensures { Marked marks.old (Struck (record { lo = s.lo; hi = s.hi; but = all_ones; any = 0 })) marks.new }
{
    marking::mark(
        marks,
        Strike {
            lo: s.lo,
            hi: s.hi,
            but: u64::MAX,
            any: 0,
        },
    )
}

// Marks a range of sets around t, which has no view, if there is credit for it: widening takes sixteen looks of it, and each set newly marked
// earns one.
pub fn mark_around(
    book: &Prepared<'_>,
    root: Bounds,
    t: u64,
    effort: &mut Effort,
    marks: &mut [u64],
)
    requires { 0 < length marks.old }
    ensures { NoView book.now root t t → MarksRight book.now root marks.old marks.new }
{
    if effort.credit < WIDENING {
        return;
    }
    let s = ranges::widened(book, root, t);
    let earned = mark_viewless(s, marks);
    effort.credit = (effort.credit - WIDENING)
        .saturating_add(earned)
        .min(CREDIT);
}

// So few sets newly marked are not worth a look for ranges.
const SCANT: u64 = 16;

// How many nodes the search for the views of a set may visit before its bounds are shaved; how many the search for one that stands may.
const FUEL: u64 = 4096;

const GLANCE: u64 = 256;

// Marks a range of sets around t, which has no view as a search has found that has visited so many nodes, once such searches have visited many.
pub fn mark_shaven(
    book: &Prepared<'_>,
    root: Bounds,
    t: u64,
    visited: u64,
    effort: &mut Effort,
    marks: &mut [u64],
)
    requires { 0 < length marks.old }
    ensures { NoView book.now root t t → MarksRight book.now root marks.old marks.new }
{
    effort.doubt = effort.doubt.after(visited);
    if effort.doubt != Doubt::AtOnce {
        return;
    }
    let s = ranges::shaven(book, root, t);
    let earned = mark_viewless(s, marks);
    if earned < SCANT {
        effort.doubt = Doubt::Never;
    }
}

// The views with the set t, if there is one: up to `cap` of them are gathered in the store. Around a set without one a range is marked.
pub fn gathered(
    book: &Prepared<'_>,
    root: Bounds,
    t: u64,
    effort: &mut Effort,
    marks: &mut [u64],
    store: &mut [u64],
    cap: usize,
) -> Option<Views>
    requires { (0 < length marks.old) × (cap * 3 ≤ length store.old) × (0 < cap) }
    ensures { Gathered book.now root t cap marks.old marks.new store.new result }
{
    let rest = ranges::narrowed(book, root, t, t);
    let b = rest.bounds;
    if !sets::within(b.lo, b.hi) {
        mark_around(book, root, t, effort, marks);
        return None;
    }
    let s = few::collect(book, rest, store, cap, effort.doubt.fuel(FUEL));
    if s.count == 0 {
        mark_shaven(book, root, t, s.visited, effort, marks);
        return None;
    }
    Some(Views {
        rest,
        count: s.count,
    })
}

// Whether a resolution can have the set t, where there is a view that has it, in a book without Q lines. That marks the sets that the view surpasses. Where
// `known` is true, every set before t in the order has been walked with these marks: if a view had a proper subset of t, then t would be marked.
pub fn tested(book: &Prepared<'_>, root: Bounds, t: u64, known: bool, marks: &mut [u64]) -> bool
    requires { t < marks_in marks.old }
    ensures { (Lined book.now.rules.words.now book.now.rules.count → ⊥) → HasView book.now root t → Admits book.now root t known marks.old marks.new result }
{
    marking::mark_surpassed(book.ranks, t, marks);
    if marking::is_marked(marks, t) {
        return false;
    }
    if known {
        return admissible::undominated(book, root, t);
    }
    admissible::admissible(book, root, t)
}

// Puts the resolutions with the set t on the page, in a book without Q lines; where `after` is true only those later than the task's point, which has that set.
// Where `known` is true, every set before t has been walked with these marks.
pub fn list_plain(
    book: &Prepared<'_>,
    root: Bounds,
    task: Task,
    t: u64,
    after: bool,
    known: bool,
    at: usize,
    effort: &mut Effort,
    marks: &mut [u64],
    store: &mut [u64],
    out: &mut [u64],
) -> usize
    requires { Fits book.now out.old task at × (t < marks_in marks.old) × (most * 3 ≤ length store.old) }
    ensures { (Lined book.now.rules.words.now book.now.rules.count → ⊥) → (w : _) → SetListed book.now root task t after known (Rests book.now root t known marks.old) at marks.old marks.new w w out.old out.new result }
{
    let cap = few::limit(task.room - at, after);
    let Some(views) = gathered(book, root, t, effort, marks, store, cap) else {
        return at;
    };
    if !tested(book, root, t, known, marks) {
        return at;
    }
    few::list(
        book,
        task,
        t,
        views.rest,
        store,
        cap,
        views.count,
        after,
        out,
        at,
    )
}

// Puts the views with the set t that stand on the page, later ones than the task's point where `after` is true. Where all were asked for and there is
// one, the sets that it surpasses are marked. None of the views with that set may be beyond the bounds at rest.
pub fn list_open(
    book: &Prepared<'_>,
    root: Bounds,
    task: Task,
    t: u64,
    rest: Rest,
    after: bool,
    marks: &mut [u64],
    memory: &mut Memory,
    out: &mut [u64],
    at: usize,
) -> usize
    requires { Fits book.now out.old task at × (0 < length marks.old) × HasLines book.now.rules }
    ensures { OpenListed book.now root task t rest.bounds after at marks.old marks.new memory.old memory.new out.old out.new result }
{
    let r = sifting::list_standing(book, root, task, t, rest, after, memory, out, at);
    if after {
        return r;
    }
    if at < r {
        marking::mark_surpassed(book.ranks, t, marks);
    }
    r
}

// Marks the set t and all above it: some view that stands has a proper subset of t.
pub fn mark_above(t: u64, marks: &mut [u64])
    requires { 0 < length marks.old }
    ensures { Marked marks.old (Struck (record { lo = t; hi = all_ones; but = 0; any = 0 })) marks.new }
{
    marking::mark(
        marks,
        Strike {
            lo: t,
            hi: u64::MAX,
            but: 0,
            any: 0,
        },
    );
}

// Bounds at rest for the views with the set t, if one of them stands, from shaved bounds: `rest` has those bounds, whose search has used up its fuel. Where
// shaving alone shows that there is no view, a range around the set is marked.
pub fn look_harder(
    book: &Prepared<'_>,
    root: Bounds,
    t: u64,
    rest: Rest,
    effort: &mut Effort,
    marks: &mut [u64],
    memory: &mut Memory,
) -> Option<Rest>
    requires { HasLines book.now.rules × (0 < length marks.old) }
    ensures { Propagated book.now (with_sets root t t) rest.bounds → Looked book.now root t marks.old marks.new memory.old memory.new result }
{
    let s = probe::shaving::shaved(book, rest);
    let b = s.bounds;
    if !sets::within(b.lo, b.hi) {
        mark_shaven(book, root, t, GLANCE, effort, marks);
        return None;
    }
    let w = waiting::none(s.live);
    if standing::search(book, root, w, b, memory) {
        return Some(rest);
    }
    None
}

// Bounds at rest for the views with the set t, if one of them stands. Around a set without a view a range is marked; remembered views may dominate all that
// have the set.
pub fn look(
    book: &Prepared<'_>,
    root: Bounds,
    t: u64,
    effort: &mut Effort,
    marks: &mut [u64],
    memory: &mut Memory,
) -> Option<Rest>
    requires { HasLines book.now.rules × (0 < length marks.old) }
    ensures { Looked book.now root t marks.old marks.new memory.old memory.new result }
{
    let rest = ranges::narrowed(book, root, t, t);
    let b = rest.bounds;
    if !sets::within(b.lo, b.hi) {
        mark_around(book, root, t, effort, marks);
        return None;
    }
    if standing::bans::barred(book, rest, memory) {
        return None;
    }
    let w = waiting::none(rest.live);
    let a = standing::attempt(book, root, w, b, memory, effort.doubt.fuel(GLANCE));
    match a {
        Outcome::Has(_) => Some(rest),
        Outcome::Lacks(_) => None,
        Outcome::Stopped => look_harder(book, root, t, rest, effort, marks, memory),
    }
}

// No view that stands has a proper subset of t. Where `known` is true that is known from the marks, if t is not marked.
pub fn none_below(
    book: &Prepared<'_>,
    root: Bounds,
    memory: &mut Memory,
    t: u64,
    known: bool,
) -> bool
    requires { HasLines book.now.rules }
    ensures { NoneBelow book.now root t known memory.old memory.new result }
{
    if !known {
        return standing::unexceeded(book, root, memory, t);
    }
    true
}

// Puts the resolutions with the set t on the page, in a book with Q lines; where `after` is true only those later than the task's point, which has that set.
// Where `known` is true, every set before t has been walked with these marks.
pub fn list_lined(
    book: &Prepared<'_>,
    root: Bounds,
    task: Task,
    t: u64,
    after: bool,
    known: bool,
    at: usize,
    effort: &mut Effort,
    marks: &mut [u64],
    memory: &mut Memory,
    out: &mut [u64],
) -> usize
    requires { Fits book.now out.old task at × (t < marks_in marks.old) × HasLines book.now.rules }
    ensures { SetListed book.now root task t after known (Rests book.now root t known marks.old) at marks.old marks.new memory.old memory.new out.old out.new result }
{
    if marking::is_marked(marks, t) {
        return at;
    }
    let Some(rest) = look(book, root, t, effort, marks, memory) else {
        return at;
    };
    if !none_below(book, root, memory, t, known) {
        mark_above(t, marks);
        return at;
    }
    list_open(book, root, task, t, rest, after, marks, memory, out, at)
}

// Puts the resolutions with the set t on the page; where `after` is true only those later than the task's point, which has that set. Where
// `known` is true, every set before t has been walked with these marks.
pub fn list_set(
    book: &Prepared<'_>,
    root: Bounds,
    task: Task,
    t: u64,
    after: bool,
    known: bool,
    at: usize,
    effort: &mut Effort,
    marks: &mut [u64],
    memory: &mut Memory,
    store: &mut [u64],
    out: &mut [u64],
) -> usize
    requires { Fits book.now out.old task at × (t < marks_in marks.old) × (most * 3 ≤ length store.old) }
    ensures { SetListed book.now root task t after known (Rests book.now root t known marks.old) at marks.old marks.new memory.old memory.new out.old out.new result }
{
    if masks::lines::lined(&book.rules) {
        return list_lined(
            book, root, task, t, after, known, at, effort, marks, memory, out,
        );
    }
    list_plain(
        book, root, task, t, after, known, at, effort, marks, store, out,
    )
}
