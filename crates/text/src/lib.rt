// The text of a book and its number table: what is known between lines, and a refusal. Read answers the shape, the numbers before a table's
// rows, Write the text's length, each in a Result with a refusal.
#![tactic(auto)]

ghost use Rattle.std.specs.Prelude.{◌≡◌};
ghost use Rattle.book.specs.Faults.{number};
ghost use Rattle.text.specs.Reading.{refusal};

use book::{Book, Fault};

// What is known before a line: the place of the first kind that may come, the statements, how many lines of each kind
// have come, and how many of these are rows of the number table.
#[derive(Clone, Copy)]
pub struct State {
    pub next: usize,
    pub statements: usize,
    pub counts: [usize; Book::KINDS],
    pub rows: usize,
}

// A refusal: its number, and the line that it is tied to, else 0.
#[derive(Clone, Copy, Debug, PartialEq, Eq)]
pub struct Refusal {
    pub number: u32,
    pub line: usize,
}

impl Refusal {
    pub fn new(number: u32, line: usize) -> Self
        ensures { result ≡ refusal number line }
    {
        Self { number, line }
    }

    // The refusal of what is wrong.
    pub fn of(fault: Fault, line: usize) -> Self
        ensures { result ≡ refusal (number fault) line }
    {
        Self::new(fault.number(), line)
    }
}
