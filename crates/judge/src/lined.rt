// The tests of the last verdicts where the words have lines: what decides is not the set of exceptions alone.

ghost use Rattle.logic.specs.Tests.{Decides};
ghost use Rattle.queue.specs.Chains.{Chains};
ghost use Rattle.admissible.specs.InBook.{Stands, Unexceeded};
ghost use Rattle.masks.specs.OfRules.{HasLines};

use masks::Bounds;
use queue::Prepared;
use sets::Pair;
use standing::memory;

// No view within root dominates the pair.
pub fn undominated(book: &Prepared<'_>, root: Bounds, p: Pair) -> bool
    requires { HasLines book.now.rules }
    ensures { Decides result (Stands book.now root p) }
{
    let mut memory = memory::nothing();
    standing::stands(book, root, &mut memory, p)
}

// No undominated view within root has a proper subset of `taken`. The memory is a new one: what the test of domination remembers would
// spare one search at most.
pub fn minimal(book: &Prepared<'_>, root: Bounds, taken: u64) -> bool
    requires { HasLines book.now.rules }
    ensures { Decides result (Unexceeded book.now root taken) }
{
    let mut memory = memory::nothing();
    standing::unexceeded(book, root, &mut memory, taken)
}
