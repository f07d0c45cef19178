// Which sets of exceptions are marked: known to be those of no resolution. A bit for each set, and before them a word of exceptions that no
// resolution has, so that one look marks all sets with one of these.
#![tactic(auto)]

ghost use Rattle.std.specs.Prelude.{◌≡◌, ◌+◌, ◌*◌, ◌<◌, ◌≤◌, length, set, ◌≢◌, bit_or, slice_index, slice_set};
ghost use Rattle.logic.specs.Tests.{Decides};
ghost use Rattle.sets.specs.Sets.{Within};
ghost use Rattle.marking.specs.Marks.{marks_in, IsMarked, InRange, Struck, Marked, Digit, DigitBetween, Selected, Pattern, Spans, Next, Outranked, WithRank, Surpassed};

// Which sets to mark: those that have a member of `any`, and those from lo to hi but one.
#[derive(Clone, Copy)]
pub struct Strike {
    pub lo: u64,
    pub hi: u64,
    pub but: u64,
    pub any: u64,
}

// The word of all ones: every set is within it.
const ALL: u64 = u64::MAX;

// The set t is marked.
pub fn is_marked(marks: &[u64], t: u64) -> bool
    requires { t < marks_in marks.now }
    ensures { Decides result (IsMarked marks.now t) }
{
    if t & marks[0] != 0 {
        return true;
    }
    (marks[(t / 64) as usize + 1] >> (t % 64)) % 2 == 1
}

// Of the numbers in p those whose digit i lies from that of lo to that of hi. The word `digit` has the numbers with that digit.
pub fn with_digit(p: u64, i: u64, digit: u64, lo: u64, hi: u64) -> u64
    requires { (i < 64) × Digit i digit × Within lo hi }
    ensures { Selected p (λ k. DigitBetween lo hi k i) result }
{
    if (lo >> i) % 2 == 1 {
        return p & digit;
    }
    if (hi >> i) % 2 == 0 {
        return p ^ (p & digit);
    }
    p
}

// For each of the six digits, the numbers below 64 that have it.
const DIGITS: [u64; 6] = [
    0xaaaa_aaaa_aaaa_aaaa,
    0xcccc_cccc_cccc_cccc,
    0xf0f0_f0f0_f0f0_f0f0,
    0xff00_ff00_ff00_ff00,
    0xffff_0000_ffff_0000,
    0xffff_ffff_0000_0000,
];

// The numbers below 64 whose six digits lie from those of lo to those of hi.
pub fn pattern(lo: u64, hi: u64) -> u64
    requires { Within lo hi }
    ensures { Pattern 6 lo hi result }
{
    let mut p = ALL;
    for (i, &digit) in DIGITS.iter().enumerate() {
        p = with_digit(p, i as u64, digit, lo, hi);
    }
    p
}

// Of the sets of word w that p has, all but the one left out.
pub fn but_one(p: u64, but: u64, w: u64) -> u64
    ensures { Selected p (λ k. w * 64 + k ≢ but) result }
{
    if but / 64 != w {
        return p;
    }
    p ^ (p & (1 << (but % 64)))
}

// Sets bits of a word of marks. The result is how many are newly set.
pub fn mark_word(marks: &mut [u64], w: usize, new: u64) -> u64
    requires { w < length marks.old }
    ensures { marks.new ≡ slice_set marks.old w (bit_or (slice_index marks.old w) new) }
{
    let old = marks[w];
    marks[w] = old | new;
    sets::size(new ^ (new & old)) as u64
}

// The next word after w that has sets from lo to hi, or the end. There 1 is added to w with ones at all places outside of hi, so that it is carried
// over them.
pub fn next_word(lo: usize, hi: usize, w: usize, end: usize) -> usize
    requires { (w < end) × Spans lo hi w }
    ensures { (w < result) × Next lo hi (w + 1) end result }
{
    if w == hi {
        return end;
    }
    let u = (w | !hi) + 1;
    (u & hi) | lo
}

// Marks the sets from lo to hi but one, word by word. The result is how many bits are newly set.
pub fn mark_range(marks: &mut [u64], s: Strike) -> u64
    requires { (0 < length marks.old) × Within s.lo s.hi }
    ensures { Marked marks.old (InRange s) marks.new }
{
    let p = pattern(s.lo, s.hi);
    let lo = (s.lo / 64) as usize;
    let hi = (s.hi / 64) as usize;
    let end = marks.len() - 1;
    let mut count = 0;
    let mut w = lo;
    while w < end {
        let new = but_one(p, s.but, w as u64);
        count = std::num::wrapping_add_u64(count, mark_word(marks, w + 1, new));
        w = next_word(lo, hi, w, end);
    }
    count
}

// Marks every set that is one to mark. The result is how many bits of the range are newly set: also of sets that the first word marks already.
pub fn mark(marks: &mut [u64], s: Strike) -> u64
    requires { 0 < length marks.old }
    ensures { Marked marks.old (Struck s) marks.new }
{
    mark_word(marks, 0, s.any);
    if sets::subset(s.lo, s.hi) {
        return mark_range(marks, s);
    }
    0
}

// The set b with those of `rank`, if the exception at place a is taken.
pub fn with_rank(rank: u64, a: u64, taken: u64, b: u64) -> u64
    requires { a < 64 }
    ensures { WithRank rank a taken b result }
{
    if (taken >> a) % 2 == 1 {
        return b | rank;
    }
    b
}

// The exceptions that a member of `taken` outranks.
pub fn outranked(ranks: &[u64], taken: u64) -> u64
    requires { length ranks.now ≤ 64 }
    ensures { Outranked ranks.now taken result }
{
    let mut b = 0;
    for (a, &rank) in ranks.iter().enumerate() {
        b = with_rank(rank, a as u64, taken, b);
    }
    b
}

// Marks the sets that a view with the exceptions `taken` surpasses: those above its set, and those with a member that it outranks.
pub fn mark_surpassed(ranks: &[u64], taken: u64, marks: &mut [u64])
    requires { (length ranks.now ≤ 64) × (0 < length marks.old) }
    ensures { Surpassed ranks.now taken marks.old marks.new }
{
    let any = outranked(ranks, taken);
    mark(
        marks,
        Strike {
            lo: taken,
            hi: ALL,
            but: taken,
            any,
        },
    );
}
