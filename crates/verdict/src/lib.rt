// The tests of verdicts 1 and 3, of rules as words; judge::unranked is the test of verdict 2.
#![tactic(auto)]

ghost use Rattle.std.specs.Prelude.{◌*◌, ◌≤◌, length};
ghost use Rattle.logic.specs.Tests.{Decides};
ghost use Rattle.bridge.specs.Answers.{OfAll, Obeys, MaskAnswers, Satisfies, MaskBodies};

use masks::{Bounds, Masks, Rules};
use sets::Pair;

// The pair is to this rule what an answer set is to every rule: it has one of its heads if it satisfies its body; a constraint has none.
fn obeys(r: Masks, v: Pair) -> bool
    ensures { Decides result (Obeys v r) }
{
    if !masks::fires(r, v, v) {
        return true;
    }
    !sets::apart(r.head, v)
}

// The same of all rules.
fn obeys_all(rules: &Rules<'_>, v: Pair) -> bool
    ensures { Decides result (OfAll (Obeys v) rules.now.words.now rules.now.count) }
{
    (0..rules.count).all(|k| obeys(masks::masks_at(rules.words, k), v))
}

// The pair's S is an answer set of the plain rules with those of its T added; where it is not, the verdict is 1.
pub fn is_answer(rules: &Rules<'_>, v: Pair) -> bool
    requires { rules.now.count ≤ 256 }
    ensures { Decides result (MaskAnswers rules.now.words.now rules.now.count v) }
{
    let held = v.held;
    let denied = v.denied;
    if held & denied != 0 {
        return false;
    }
    if !obeys_all(rules, v) {
        return false;
    }
    least::founded(rules, Bounds { lo: v, hi: v })
}

// The pair does not take the rule, or satisfies its body.
fn satisfies(r: Masks, v: Pair) -> bool
    ensures { Decides result (Satisfies v r) }
{
    if masks::fires(r, v, v) {
        return true;
    }
    r.need.taken & v.taken == 0
}

// Every body in the pair's T is satisfied by its S; where one is not, the verdict is 3.
pub fn bodies(rules: &Rules<'_>, v: Pair) -> bool
    ensures { Decides result (MaskBodies rules.now.words.now rules.now.count v) }
{
    (0..rules.count).all(|k| satisfies(masks::masks_at(rules.words, k), v))
}
