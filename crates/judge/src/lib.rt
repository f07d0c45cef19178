// The verdict on a lawful pair of a prepared book.
#![tactic(auto)]

ghost use Rattle.std.specs.Prelude.{◌≡◌, ◌*◌, ◌≤◌, length};
ghost use Rattle.logic.specs.Tests.{Decides};
ghost use Rattle.masks.specs.Views.{Level, Lined, Uncrossed};
ghost use Rattle.queue.specs.Chains.{Chains};
ghost use Rattle.judge.specs.Judged.{number_of};
ghost use Rattle.judge.specs.InBook.{Free, Judged, Smallest};

use masks::{Bounds, Rules};
use queue::Prepared;
use sets::Pair;

mod lined;

// No member of T stands beside its superior: by P lines, and by Q lines that count in the pair.
fn unranked(rules: &Rules<'_>, ranks: &[u64], p: Pair) -> bool
    requires { length ranks.now ≤ 64 }
    ensures { Decides result (Level ranks.now p.taken × (Lined rules.now.words.now rules.now.count → Uncrossed rules.now.words.now rules.now.count ranks.now p)) }
{
    let taken = p.taken;
    if !masks::level(ranks, taken) {
        return false;
    }
    masks::lines::uncrossed(rules, ranks, p)
}

// No view dominates the pair. Without lines the set of exceptions alone decides.
fn undominated(book: &Prepared<'_>, root: Bounds, p: Pair) -> bool
    ensures { Free book.now root p result }
{
    if masks::lines::lined(&book.rules) {
        return lined::undominated(book, root, p);
    }
    admissible::undominated(book, root, p.taken)
}

// No undominated view has a proper subset of the exceptions of the pair, which is undominated. Without lines a view with a subset of an undominated set is
// undominated, so all views are asked.
fn minimal(book: &Prepared<'_>, root: Bounds, p: Pair) -> bool
    ensures { Smallest book.now root p result }
{
    if masks::lines::lined(&book.rules) {
        return lined::minimal(book, root, p.taken);
    }
    admissible::minimal(book, root, p.taken)
}

// The verdicts. Their numbers are those of the documents and of C.
#[derive(Clone, Copy, PartialEq, Eq)]
pub enum Judgement {
    Resolution,
    NoAnswerSet,
    RankedWithin,
    BodyUnsatisfied,
    Dominated,
    NotMinimal,
}

impl Judgement {
    // Its number.
    pub fn number(self) -> u32
        ensures { result ≡ number_of self }
    {
        self as u32
    }
}

// The verdict, the first that applies: 1 no answer set; 2 a member of T beside its superior; 3 a body in T unsatisfied; 4 dominated;
// 5 some undominated view has a proper subset of T; 0 a resolution. The bounds root have the book's views.
pub fn verdict(book: &Prepared<'_>, root: Bounds, p: Pair) -> Judgement
    ensures { Judged book.now root p (number_of result) }
{
    if !verdict::is_answer(&book.rules, p) {
        return Judgement::NoAnswerSet;
    }
    if !unranked(&book.rules, book.ranks, p) {
        return Judgement::RankedWithin;
    }
    if !verdict::bodies(&book.rules, p) {
        return Judgement::BodyUnsatisfied;
    }
    if !undominated(book, root, p) {
        return Judgement::Dominated;
    }
    if !minimal(book, root, p) {
        return Judgement::NotMinimal;
    }
    Judgement::Resolution
}
