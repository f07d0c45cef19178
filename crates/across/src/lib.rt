// The answers of the operations as programs in C have them: structs of numbers. Each has the refusal, 0 where there is none, and its line; all
// else in it is 0 where it was refused.
#![tactic(auto)]

ghost use Rattle.std.specs.Prelude.{◌≡◌};
ghost use Rattle.answers.specs.Operations.{answer_of, told_of};
ghost use Rattle.across.specs.Across.{book_in, amount_in, verdict_in, answer_in, done_of, gone_of};

use book::Shape;
use sets::Pair;
use text::Refusal;

// What Read answers: the edition, n and the numbers of R, X, P, Q and O lines. The reserved numbers are 0: room for counts to come. The numbers
// of Q and O lines have the places of the first two of four, so that the struct keeps its size and every field its place.
#[repr(C)]
#[derive(Clone, Copy)]
pub struct BookAnswer {
    pub refusal: u32,
    pub edition: u32,
    pub line: u64,
    pub statements: u64,
    pub plain: u64,
    pub exceptions: u64,
    pub preferences: u64,
    pub conditionals: u64,
    pub alternatives: u64,
    pub reserved: [u64; 2],
}

// What Write, Line and a page answer: how many bytes, how many pairs.
#[repr(C)]
#[derive(Clone, Copy)]
pub struct Amount {
    pub refusal: u32,
    pub line: u64,
    pub amount: u64,
}

// What Judge answers: the verdict, 0 to 5.
#[repr(C)]
#[derive(Clone, Copy)]
pub struct VerdictAnswer {
    pub refusal: u32,
    pub verdict: u32,
    pub line: u64,
}

// What First and After answer: found 1 and the resolution, or found 0 at the End.
#[repr(C)]
#[derive(Clone, Copy)]
pub struct PairAnswer {
    pub refusal: u32,
    pub found: u32,
    pub line: u64,
    pub pair: Pair,
}

// What Set and Drop answer: done, or the refusal.
#[repr(C)]
#[derive(Clone, Copy)]
pub struct Done {
    pub refusal: u32,
    pub line: u64,
}

// What stands in the place of counts to come.
const RESERVED: [u64; 2] = [0; 2];

// What stands beside an answer that has no pair.
const NO_PAIR: Pair = Pair {
    taken: 0,
    held: 0,
    denied: 0,
};

impl From<Result<Shape, Refusal>> for BookAnswer {
    ghost from_gives = { λ read answer. answer ≡ book_in read };

    fn from(read: Result<Shape, Refusal>) -> Self {
        match read {
            Ok(s) => Self {
                refusal: 0,
                edition: 1,
                line: 0,
                statements: s.statements as u64,
                plain: s.plain as u64,
                exceptions: s.exceptions as u64,
                preferences: s.preferences as u64,
                conditionals: s.conditionals as u64,
                alternatives: s.alternatives as u64,
                reserved: RESERVED,
            },
            Err(q) => Self {
                refusal: q.number,
                edition: 0,
                line: q.line as u64,
                statements: 0,
                plain: 0,
                exceptions: 0,
                preferences: 0,
                conditionals: 0,
                alternatives: 0,
                reserved: RESERVED,
            },
        }
    }
}

impl From<Result<usize, Refusal>> for Amount {
    ghost from_gives = { λ many answer. answer ≡ amount_in (told_of many) };

    fn from(many: Result<usize, Refusal>) -> Self {
        match many {
            Ok(k) => Self {
                refusal: 0,
                line: 0,
                amount: k as u64,
            },
            Err(q) => Self {
                refusal: q.number,
                line: q.line as u64,
                amount: 0,
            },
        }
    }
}

impl From<Result<u32, Refusal>> for VerdictAnswer {
    ghost from_gives = { λ judged answer. answer ≡ verdict_in (told_of judged) };

    fn from(judged: Result<u32, Refusal>) -> Self {
        match judged {
            Ok(verdict) => Self {
                refusal: 0,
                verdict,
                line: 0,
            },
            Err(q) => Self {
                refusal: q.number,
                verdict: 0,
                line: q.line as u64,
            },
        }
    }
}

impl From<Result<Option<Pair>, Refusal>> for PairAnswer {
    ghost from_gives = { λ found answer. answer ≡ answer_in (answer_of found) };

    fn from(found: Result<Option<Pair>, Refusal>) -> Self {
        match found {
            Ok(Some(p)) => Self {
                refusal: 0,
                found: 1,
                line: 0,
                pair: p,
            },
            Ok(None) => Self {
                refusal: 0,
                found: 0,
                line: 0,
                pair: NO_PAIR,
            },
            Err(q) => Self {
                refusal: q.number,
                found: 0,
                line: q.line as u64,
                pair: NO_PAIR,
            },
        }
    }
}

// What Set and Drop answer, for C.
impl From<Result<(), Refusal>> for Done {
    ghost from_gives = { λ kept answer. answer ≡ done_of kept };

    fn from(kept: Result<(), Refusal>) -> Self {
        match kept {
            Ok(()) => Self {
                refusal: 0,
                line: 0,
            },
            Err(q) => Self {
                refusal: q.number,
                line: q.line as u64,
            },
        }
    }
}

// Go's pair is found; a name that is not there is refused, so that there is no End.
impl From<Result<Pair, Refusal>> for PairAnswer {
    ghost from_gives = { λ went answer. answer ≡ gone_of went };

    fn from(went: Result<Pair, Refusal>) -> Self {
        Self::from(went.map(Some))
    }
}
