// What is remembered while it is asked of many pairs whether they stand. Which rows give way to new ones, no contract depends on.
ghost use Rattle.std.specs.Prelude.{◌≡◌, true, ℕ, List, ◌<◌, ◌≤◌, length};
ghost use Rattle.logic.specs.Tests.{Decides};
ghost use Rattle.masks.specs.declared.Bounds.{Bounds as BoundsOf};
ghost use Rattle.standing.specs.Standing.{Right, Put, Banned, Freed, FreeRow, KnownFree, Crosses, KnownBarred};
ghost use Rattle.masks.specs.OfRules.{HasLines};

use masks::Rules;

// How many dominating views, and how many sets that stand.
pub const BANS: usize = 32;

pub const FREE: usize = 8;

// A set of exceptions and a set of lines.
#[derive(Clone, Copy)]
pub struct Row {
    pub taken: u64,
    pub lines: u64,
}

// A ban has the exceptions of a view that was found to dominate, and the lines whose steps rank in it. A free row has a set of exceptions and a set
// of lines, such that no view dominates a pair that takes no more and in which no more lines' steps rank. Two counters say which rows are replaced
// next. Rows of zeros say nothing.
#[derive(Clone, Copy)]
pub struct Memory {
    pub bans: [Row; BANS],
    pub free: [Row; FREE],
    pub next_ban: usize,
    pub next_free: usize,
}

// Nothing is remembered yet.
pub fn nothing() -> Memory
    ensures { (words : List ℕ) (n : ℕ) (ranks : List ℕ) (root : BoundsOf) → Right words n ranks root result }
{
    let row = Row { taken: 0, lines: 0 };
    Memory {
        bans: [row; BANS],
        free: [row; FREE],
        next_ban: 0,
        next_free: 0,
    }
}

// Puts a row in the place of the oldest.
pub fn put(rows: &mut [Row], next: &mut usize, row: Row)
    requires { 0 < length rows.old }
    ensures { Put rows.old rows.new row }
{
    let k = *next % rows.len();
    rows[k] = row;
    *next = k + 1;
}

// Puts a ban in the place of the oldest.
pub fn forbid(mem: &mut Memory, taken: u64, lines: u64)
    ensures { Banned mem.old mem.new taken lines }
{
    put(&mut mem.bans, &mut mem.next_ban, Row { taken, lines });
}

// Puts a free row in the place of the oldest.
pub fn allow(mem: &mut Memory, taken: u64, lines: u64)
    ensures { Freed mem.old mem.new taken lines }
{
    put(&mut mem.free, &mut mem.next_free, Row { taken, lines });
}

// The row has these exceptions and these lines.
pub fn has(row: Row, taken: u64, lines: u64) -> bool
    ensures { result ≡ true → FreeRow row taken lines }
{
    sets::subset(taken, row.taken) && sets::subset(lines, row.lines)
}

// A free row has these exceptions and these lines.
pub fn known_free(mem: &Memory, taken: u64, lines: u64) -> bool
    ensures { result ≡ true → KnownFree mem.now taken lines }
{
    for &row in &mem.free {
        if has(row, taken, lines) {
            return true;
        }
    }
    false
}

// Steps of lines of m lead from a member of t to one of s.
pub fn crosses(rules: &Rules<'_>, ranks: &[u64], m: u64, t: u64, s: u64) -> bool
    requires { HasLines rules.now × (length ranks.now ≤ 64) }
    ensures { Decides result (Crosses rules.now.words.now rules.now.count ranks.now m t s) }
{
    t != 0 && masks::lines::reach(rules, ranks, m, t) & s != 0
}

// Lines of m that some ban has lead from one of its exceptions to a member of s.
pub fn known_barred(rules: &Rules<'_>, ranks: &[u64], mem: &Memory, m: u64, s: u64) -> bool
    requires { HasLines rules.now × (length ranks.now ≤ 64) }
    ensures { result ≡ true → KnownBarred rules.now.words.now rules.now.count ranks.now mem.now m s }
{
    for row in &mem.bans {
        if crosses(rules, ranks, m & row.lines, row.taken, s) {
            return true;
        }
    }
    false
}
