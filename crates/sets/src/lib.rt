// Sets of numbers 1 to 64 in a word, and pairs (S, T) in three words. What a book means is said above this crate by members and by numbers
// below a power of 2. The crates of the search handle bits themselves where no function here fits, in code, definitions (`bit_of`) and
// proofs (lib.Bits); docs/ARCHITECTURE.md says which crates, and for what.
#![tactic(auto)]

ghost use Rattle.std.specs.Prelude.{◌≡◌, false, not, ℕ, ◌^◌, ◌<◌, ◌≤◌, eqb, MatchOption};
ghost use Rattle.std.specs.Iterator.{at_most};
ghost use Rattle.logic.specs.Tests.{Decides, both, either};
ghost use Rattle.sets.specs.Sets.{member as member_of, Contained, Separate, size as size_of, Lowest, Gives, without as without_of};
ghost use Rattle.sets.specs.Pairs.{join_of, meet_of, minus_of, Sub, Off};

// The set with no number.
pub const EMPTY: u64 = 0;

// Number i is in the set a.
pub fn member(i: u64, a: u64) -> bool
    requires { (0 < i) × (i ≤ 64) }
    ensures { result ≡ member_of i a }
{
    (a >> (i - 1)) % 2 == 1
}

// The set a with number i.
pub fn add(i: u64, a: u64) -> u64
    requires { (0 < i) × (i ≤ 64) }
    ensures { (j : ℕ) → 0 < j → member_of j result ≡ either (member_of j a) (eqb i j) }
{
    a | (1 << (i - 1))
}

// What is in a or in b.
pub fn union(a: u64, b: u64) -> u64
    ensures { (j : ℕ) → member_of j result ≡ either (member_of j a) (member_of j b) }
{
    a | b
}

// What is in a and not in b: a ^ (a & b), whose digits are known with no bound on the words.
pub fn difference(a: u64, b: u64) -> u64
    ensures { (j : ℕ) → member_of j result ≡ both (member_of j a) (not (member_of j b)) }
{
    a ^ (a & b)
}

// Every number of a is in b.
pub fn subset(a: u64, b: u64) -> bool
    ensures { Decides result (Contained a b) }
{
    a ^ (a & b) == 0
}

// No number is in both.
pub fn disjoint(a: u64, b: u64) -> bool
    ensures { Decides result (Separate a b) }
{
    a & b == 0
}

// No number is in a.
pub fn is_empty(a: u64) -> bool
    ensures { Decides result ((j : ℕ) → member_of j a ≡ false) }
{
    a == EMPTY
}

// How many numbers are in a: its count of ones.
pub fn size(a: u64) -> u32
    ensures { result ≡ size_of a }
{
    u64::count_ones(a)
}

// The place of the lowest one of a word, 64 if it has none.
pub fn low(x: u64) -> u64
    ensures { (result ≤ 64) × Lowest x result }
{
    u64::trailing_zeros(x) as u64
}

// The place of the lowest one of a word, if it has one.
pub fn first(x: u64) -> Option<u64>
    ensures { MatchOption result (x ≡ 0) (λ i. (i < 64) × Lowest x i) }
{
    if x == 0 {
        return None;
    }
    Some(low(x))
}

// The word without its member at place i.
pub fn cleared(x: u64, i: u64) -> u64
    requires { i < 64 }
    ensures { result ≡ without_of x (2 ^ i) }
{
    x ^ (x & (1 << i))
}

// The places of a word's members, one after the other, from the lowest on.
#[derive(Clone, Copy, Drop)]
pub struct Places {
    pub rest: u64,
}

impl Iterator for Places {
    type Item = u64;

    ghost next_gives = { λ s r t. Gives s.rest r t.rest };

    ghost remaining = { λ s. at_most s.rest };

    fn next(&mut self) -> Option<u64> {
        let i = first(self.rest)?;
        self.rest = cleared(self.rest, i);
        Some(i)
    }
}

// The places of the members of a word.
pub fn members(x: u64) -> Places
    ensures { result.rest ≡ x }
{
    Places { rest: x }
}

// A pair (S, T) as document 01 has it: exceptions taken, statements held, statements denied. Programs in C have the same struct.
#[repr(C)]
#[derive(Clone, Copy, PartialEq, Eq)]
pub struct Pair {
    pub taken: u64,
    pub held: u64,
    pub denied: u64,
}

impl Pair {
    // The pair with nothing in it.
    pub const EMPTY: Pair = Pair {
        taken: 0,
        held: 0,
        denied: 0,
    };

    // These exceptions alone.
    pub fn of_exceptions(taken: u64) -> Pair
        ensures { result ≡ record { taken = taken; held = 0; denied = 0 } }
    {
        Pair {
            taken,
            ..Pair::EMPTY
        }
    }

    // These statements alone.
    pub fn of_statements(held: u64, denied: u64) -> Pair
        ensures { result ≡ record { taken = 0; held = held; denied = denied } }
    {
        Pair {
            taken: 0,
            held,
            denied,
        }
    }
}

// What is in a or in b.
pub fn join(a: Pair, b: Pair) -> Pair
    ensures { result ≡ join_of a b }
{
    Pair {
        taken: a.taken | b.taken,
        held: a.held | b.held,
        denied: a.denied | b.denied,
    }
}

// What is in a and in b.
pub fn meet(a: Pair, b: Pair) -> Pair
    ensures { result ≡ meet_of a b }
{
    Pair {
        taken: a.taken & b.taken,
        held: a.held & b.held,
        denied: a.denied & b.denied,
    }
}

// What is in a and not in b.
pub fn minus(a: Pair, b: Pair) -> Pair
    ensures { result ≡ minus_of a b }
{
    Pair {
        taken: a.taken ^ (a.taken & b.taken),
        held: a.held ^ (a.held & b.held),
        denied: a.denied ^ (a.denied & b.denied),
    }
}

// Each set of a is within that of b.
pub fn within(a: Pair, b: Pair) -> bool
    ensures { Decides result (Sub a b) }
{
    (a.held ^ (a.held & b.held))
        | (a.denied ^ (a.denied & b.denied))
        | (a.taken ^ (a.taken & b.taken))
        == 0
}

// Each set of a has nothing in common with that of b.
pub fn apart(a: Pair, b: Pair) -> bool
    ensures { Decides result (Off a b) }
{
    (a.held & b.held) | (a.denied & b.denied) | (a.taken & b.taken) == 0
}
