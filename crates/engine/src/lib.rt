// A prepared book: the verdict on a pair, and the pages of its resolutions.
#![tactic(auto)]

ghost use Rattle.std.specs.Prelude.{◌+◌, ◌^◌, ◌<◌, ◌≤◌, length, take, ◌≡◌};
ghost use Rattle.book.specs.Counts.{InLimits};
ghost use Rattle.meaning.specs.Order.{start, at as at_pair};
ghost use Rattle.bridge.specs.Rows.{rule_count};
ghost use Rattle.engine.specs.Loaded.{RootIs, VerdictIs, PageIs, since};

use book::{Book, Shape};
use masks::{Bounds, Rules};
use page::Task;
use queue::{Prepared, index, waiting};
use sets::Pair;

// The words of a book's rules and after them of its Q lines, and those of its ranks. Of the ranks the search is lent those of the book's own
// exceptions.
pub type Words = [u64; (Book::RULES + Book::CONDITIONALS) * 8];

pub type Ranks = [u64; Book::EXCEPTIONS];

// The ranks of the first x exceptions: those that a book of x exceptions has.
fn own<'a>(ranks: &'a [u64], x: usize) -> &'a [u64]
    requires { x ≤ length ranks.now }
    ensures { result.now ≡ take x ranks.now }
{
    &ranks[..x]
}

// How many rules a book has.
fn rules(s: Shape) -> usize
    requires { InLimits s }
    ensures { result ≡ rule_count s }
{
    s.plain + s.alternatives + s.exceptions
}

// The bounds of the book's views, where every search begins.
pub fn root_of(book: &Prepared<'_>, s: Shape) -> Bounds
    requires { InLimits s × (book.now.rules.count ≡ rule_count s) }
    ensures { RootIs s book.now.rules.words.now book.now.ranks.now result }
{
    queue::propagate(book, waiting::all(), prepare::root(s)).bounds
}

// The verdict on a lawful pair of a prepared book.
pub fn verdict_in(words: &Words, ranks: &Ranks, s: Shape, p: Pair) -> u32
    requires { InLimits s }
    ensures { VerdictIs s words.now ranks.now p result }
{
    let count = rules(s);
    let rules = Rules { words, count };
    let mut index = [0u64; index::LENGTH];
    index::fill(&rules, &mut index);
    let ranks = own(ranks, s.exceptions);
    let index = &index;
    let book = Prepared {
        rules,
        ranks,
        index,
    };
    let root = root_of(&book, s);
    judge::verdict(&book, root, p).number()
}

// The first resolutions of a prepared book; where `after` is true the first later than the point. As many as the lent slice has room for.
fn page_in(
    words: &Words,
    ranks: &Ranks,
    s: Shape,
    point: Pair,
    after: bool,
    out: &mut [u64],
) -> usize
    requires { InLimits s × (point.taken < 2 ^ s.exceptions) }
    ensures { PageIs s words.now ranks.now (since after point) out.old out.new result }
{
    let count = rules(s);
    let rules = Rules { words, count };
    let mut index = [0u64; index::LENGTH];
    index::fill(&rules, &mut index);
    let ranks = own(ranks, s.exceptions);
    let index = &index;
    let book = Prepared {
        rules,
        ranks,
        index,
    };
    let root = root_of(&book, s);
    let task = Task {
        statements: s.statements as u64,
        room: out.len() / 3,
        point,
    };
    walk::page(&book, root, s.exceptions, task, after, out)
}

// The first resolutions of a prepared book, as many as the lent slice has room for.
pub fn first_in(words: &Words, ranks: &Ranks, s: Shape, out: &mut [u64]) -> usize
    requires { InLimits s }
    ensures { PageIs s words.now ranks.now start out.old out.new result }
{
    page_in(words, ranks, s, Pair::EMPTY, false, out)
}

// The first resolutions later than a pair that is lawful in the prepared book.
pub fn after_in(words: &Words, ranks: &Ranks, s: Shape, p: Pair, out: &mut [u64]) -> usize
    requires { InLimits s × (p.taken < 2 ^ s.exceptions) }
    ensures { PageIs s words.now ranks.now (at_pair p) out.old out.new result }
{
    page_in(words, ranks, s, p, true, out)
}
