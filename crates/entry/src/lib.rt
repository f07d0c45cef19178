// An entry of a store of stopping points as bytes: its name, and its pair as three numbers, least byte first.
#![tactic(auto)]

ghost use Rattle.std.specs.Prelude.{◌≡◌, ◌+◌, ◌≤◌, length, take};
ghost use Rattle.std.proofs.lemmas.List.Edits.{sets};
ghost use Rattle.entry.specs.Names.{letter, follows as follows_in, name_spelt, compare_to};
ghost use Rattle.entry.specs.Bytes.{word_of, digits, pair_of, pair_bytes, zeros};

use sets::Pair;
use std::cmp::Ordering;

// ---- names

// A name: 8 bytes, in a call by value, so that it is never short.
#[repr(C)]
#[derive(Clone, Copy)]
pub struct Name {
    pub bytes: [u8; 8],
}

// A to Z or 0 to 9.
pub fn is_letter(b: u8) -> bool
    ensures { result ≡ letter b }
{
    b.is_ascii_digit() || b.is_ascii_uppercase()
}

// Byte b may stand behind byte a in a name: a space, or a letter behind a letter.
pub fn follows(a: u8, b: u8) -> bool
    ensures { result ≡ follows_in a b }
{
    b == b' ' || is_letter(a) && is_letter(b)
}

// The first 8 bytes are a name.
pub fn is_name(s: &[u8]) -> bool
    requires { 8 ≤ length s.now }
    ensures { result ≡ name_spelt (take 8 s.now) }
{
    if !is_letter(s[0]) {
        return false;
    }
    for i in 1..8 {
        if !follows(s[i - 1], s[i]) {
            return false;
        }
    }
    true
}

// The first 8 bytes as a name.
pub fn name_at(s: &[u8]) -> Name
    requires { 8 ≤ length s.now }
    ensures { result.bytes ≡ take 8 s.now }
{
    Name {
        bytes: *s.first_chunk().unwrap(),
    }
}

// How the names at the start of a and of b compare, byte by byte.
pub fn compare(a: &[u8], b: &[u8]) -> Ordering
    requires { (8 ≤ length a.now) × (8 ≤ length b.now) }
    ensures { result ≡ compare_to (take 8 a.now) (take 8 b.now) }
{
    for i in 0..8 {
        let x = a[i];
        let y = b[i];
        if x != y {
            return x.cmp(&y);
        }
    }
    Ordering::Equal
}

// ---- numbers and bytes

// The number of the first 8 bytes.
pub fn word_at(s: &[u8]) -> u64
    requires { 8 ≤ length s.now }
    ensures { result ≡ word_of (take 8 s.now) }
{
    u64::from_le_bytes(*s.first_chunk().unwrap())
}

// The pair of the first 24 bytes.
pub fn pair_at(s: &[u8]) -> Pair
    requires { 24 ≤ length s.now }
    ensures { result ≡ pair_of s.now }
{
    Pair {
        taken: word_at(s),
        held: word_at(&s[8..]),
        denied: word_at(&s[16..]),
    }
}

// A number put as 8 bytes, least first.
// Kept: a slice and a place, as the contract's `sets` has them; the contract of a part alone would leave each caller to put the whole together again.
pub fn put_word(s: &mut [u8], at: usize, v: u64)
    requires { at + 8 ≤ length s.old }
    ensures { s.new ≡ sets s.old at (digits 8 v) }
{
    s[at..at + 8].copy_from_slice(&v.to_le_bytes());
}

// A pair put as 24 bytes.
pub fn put_pair(s: &mut [u8], at: usize, p: Pair)
    requires { at + 24 ≤ length s.old }
    ensures { s.new ≡ sets s.old at (pair_bytes p) }
{
    put_word(s, at, p.taken);
    put_word(s, at + 8, p.held);
    put_word(s, at + 16, p.denied);
}

// The bytes are zeros. All are looked at, many at once, since most that are asked about are.
pub fn is_zero(s: &[u8]) -> bool
    ensures { result ≡ zeros s.now }
{
    let mut any = 0;
    for &b in s {
        any |= b;
    }
    any == 0
}
