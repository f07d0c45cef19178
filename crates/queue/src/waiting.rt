// Sets of rules that wait for a step. Which rules wait, no contract depends on: every step is sound.
ghost use Rattle.std.specs.Prelude.{◌<◌, IfSome};

use sets::Pair;

// A bit for each of 256 rules.
#[derive(Clone, Copy)]
pub struct Waiting {
    pub words: [u64; 4],
}

// What propagation has to do: the rules that wait, the conclusions whose support is asked for, and the rules that are live,
// whose body has not been seen to fail.
#[derive(Clone, Copy)]
pub struct Work {
    pub rules: Waiting,
    pub asked: Pair,
    pub live: Waiting,
}

// No rule waits.
pub fn nothing() -> Waiting {
    Waiting { words: [0; 4] }
}

// Every rule waits.
pub fn everything() -> Waiting {
    Waiting {
        words: [u64::MAX; 4],
    }
}

// Nothing is to be done, and these rules are live.
pub fn none(live: Waiting) -> Work {
    Work {
        rules: nothing(),
        asked: Pair::EMPTY,
        live,
    }
}

// All is to be done.
pub fn all() -> Work {
    Work {
        rules: everything(),
        asked: Pair::of_statements(u64::MAX, u64::MAX),
        live: everything(),
    }
}

// The word without its lowest member.
pub fn fewer(x: u64) -> u64 {
    x & x.wrapping_sub(1)
}

// The first rule that waits, if one does.
// Kept: tried a loop over the words, and slower: 1 to 4 percent more instructions in a search.
pub fn next(t: Waiting) -> Option<u64>
    ensures { IfSome result (λ j. j < 256) }
{
    if let Some(i) = sets::first(t.words[0]) {
        return Some(i);
    }
    if let Some(i) = sets::first(t.words[1]) {
        return Some(64 + i);
    }
    if let Some(i) = sets::first(t.words[2]) {
        return Some(128 + i);
    }
    if let Some(i) = sets::first(t.words[3]) {
        return Some(192 + i);
    }
    None
}

// The rules of t without rule j.
// Kept: tried its word by a place that is computed, and slower: the words leave the registers, up to 19 percent more instructions in a listing.
pub fn without(t: Waiting, j: u64) -> Waiting {
    let [a, b, c, d] = t.words;
    let i = j % 64;
    let words = match j / 64 {
        0 => [sets::cleared(a, i), b, c, d],
        1 => [a, sets::cleared(b, i), c, d],
        2 => [a, b, sets::cleared(c, i), d],
        _ => [a, b, c, sets::cleared(d, i)],
    };
    Waiting { words }
}

// The rules that are in both.
pub fn both(t: Waiting, u: Waiting) -> Waiting {
    let mut o = t;
    for (word, &other) in o.words.iter_mut().zip(&u.words) {
        *word &= other;
    }
    o
}
