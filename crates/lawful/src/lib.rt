// The refusal of a pair: 12 to 14 of document 01, or none.
#![tactic(auto)]

ghost use Rattle.std.specs.Prelude.{◌≡◌, ◌<◌, MatchResult};
ghost use Rattle.text.specs.Reading.{refusal};
ghost use Rattle.lawful.specs.Refusals.{Refuses, number};

use sets::Pair;
use text::Refusal;

// What is wrong with a pair in a book.
#[derive(Clone, Copy, Debug, PartialEq, Eq)]
pub enum Unlawful {
    // An exception past those of the book is taken.
    PastExceptions,
    // A statement past those of the book is held or denied.
    PastStatements,
    // A statement is both held and denied.
    Shared,
}

// The refusal has the number that the documents give it, and is tied to no line.
impl From<Unlawful> for Refusal {
    ghost from_gives = { λ u q. q ≡ refusal (number u) 0 };

    fn from(u: Unlawful) -> Refusal {
        let number = match u {
            Unlawful::PastExceptions => 12,
            Unlawful::PastStatements => 13,
            Unlawful::Shared => 14,
        };
        Refusal::new(number, 0)
    }
}

// The first refusal that applies to the pair in a book of so many statements and exceptions.
pub fn check(statements: usize, exceptions: usize, p: Pair) -> Result<(), Unlawful>
    requires { (statements < 64) × (exceptions < 64) }
    ensures { MatchResult result (λ _. Refuses statements exceptions p 0) (λ u. Refuses statements exceptions p (number u)) }
{
    if p.taken >> exceptions != 0 {
        return Err(Unlawful::PastExceptions);
    }
    if p.held >> statements != 0 || p.denied >> statements != 0 {
        return Err(Unlawful::PastStatements);
    }
    if p.held & p.denied != 0 {
        return Err(Unlawful::Shared);
    }
    Ok(())
}
