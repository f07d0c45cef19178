// Named stopping points: a lent store of 1,024 bytes with up to 32 names, each with a pair.
#![tactic(auto)]

ghost use Rattle.std.specs.Prelude.{◌≡◌, ◌++◌, ◌+◌, ◌*◌, ◌-◌, ◌≤◌, length, drop, take, replicate};
ghost use Rattle.entry.specs.Bytes.{entry_row};
ghost use Rattle.points.specs.Points.{OfStore, Goes, Sets, Drops};
ghost use Rattle.points.specs.Stores.{rises as rises_in, entry_count, entries_of, find_in, locate_in, store_of, go_told, set_told, drop_told, went_is, went_told, kept_is, Met, Meant};

use entry::Name;
use sets::Pair;
use std::cmp::Ordering;
use text::Refusal;

// The numbers of the refusals: the bytes are no store; the name is misspelt; no entry has it; the store is full.
const NO_STORE: u32 = 24;

const MISSPELT: u32 = 25;

const ABSENT: u32 = 25;

const FULL: u32 = 26;

// A refusal tied to no line.
pub fn refused(number: u32) -> Refusal
    ensures { (result.number ≡ number) × (result.line ≡ 0) }
{
    Refusal::new(number, 0)
}

// ---- what the store's bytes are

// The name of entry k is greater than the name before it.
pub fn rises(s: &[u8], k: usize) -> bool
    requires { k * 32 + 8 ≤ length s.now }
    ensures { result ≡ rises_in s.now k }
{
    k == 0 || entry::compare(&s[(k - 1) * 32..], &s[k * 32..]).is_lt()
}

// How many entries a store has, or none where the bytes are no store; every byte is looked at.
pub fn entries(store: &[u8]) -> Option<usize>
    ensures { result ≡ entry_count store.now }
{
    if store.len() != 1024 {
        return None;
    }
    for k in 0..32 {
        let rest = &store[k * 32..];
        if !entry::is_name(rest) {
            return if entry::is_zero(rest) { Some(k) } else { None };
        }
        if !rises(store, k) {
            return None;
        }
    }
    Some(32)
}

// ---- where a name is

// The entry among the first k that has the name, or the entry before which it would stand.
pub fn find(store: &[u8], k: usize, name: &[u8]) -> Result<usize, usize>
    requires { (k * 32 ≤ length store.now) × (8 ≤ length name.now) }
    ensures { result ≡ find_in (entries_of k store.now) 0 (take 8 name.now) }
{
    for i in 0..k {
        match entry::compare(&store[i * 32..], name) {
            Ordering::Less => {}
            Ordering::Equal => return Ok(i),
            Ordering::Greater => return Err(i),
        }
    }
    Err(k)
}

// How many entries a store has, and where a name is among them. The store is looked at first, then the name.
pub fn locate(store: &[u8], name: Name) -> Result<(usize, Result<usize, usize>), Refusal>
    ensures { result ≡ locate_in (entry_count store.now) store.now name.bytes }
{
    let Some(k) = entries(store) else {
        return Err(refused(NO_STORE));
    };
    if !entry::is_name(&name.bytes) {
        return Err(refused(MISSPELT));
    }
    Ok((k, find(store, k, &name.bytes)))
}

// ---- entries put in and taken out

// An entry put at a place, what was there and behind it moved by one entry towards the end; the last entry's bytes are lost.
pub fn insert(store: &mut [u8], at: usize, name: Name, p: Pair)
    requires { (length store.old ≡ 1024) × (at + 32 ≤ 1024) }
    ensures { store.new ≡ take at store.old ++ (entry_row name.bytes p ++ take (992 - at) (drop at store.old)) }
{
    let mut old = [0u8; 1024];
    old.copy_from_slice(store);
    store[at + 32..].copy_from_slice(&old[at..992]);
    store[at..at + 8].copy_from_slice(&name.bytes);
    entry::put_pair(store, at + 8, p);
}

// The entry at a place taken out, what is behind it moved by one entry towards the start, zeros at the end.
pub fn remove(store: &mut [u8], at: usize)
    requires { (length store.old ≡ 1024) × (at + 32 ≤ 1024) }
    ensures { store.new ≡ take at store.old ++ (drop (at + 32) store.old ++ replicate 32 0) }
{
    let mut old = [0u8; 1024];
    old.copy_from_slice(store);
    store[at..992].copy_from_slice(&old[at + 32..]);
    store[992..].fill(0);
}

// ---- the operations

// Go: the pair set under a name.
pub fn go_to(store: &[u8], name: Name) -> Result<Pair, Refusal>
    ensures value { result ≡ went_is (go_told (store_of store.now) name.bytes) }
    ensures of_store { OfStore (Goes name.bytes) store.now name.bytes (went_told result) }
{
    let (_, place) = locate(store, name)?;
    let Ok(i) = place else {
        return Err(refused(ABSENT));
    };
    Ok(entry::pair_at(&store[i * 32 + 8..]))
}

// Set: a pair under a name, which replaces what was there.
pub fn set_point(store: &mut [u8], name: Name, p: Pair) -> Result<(), Refusal>
    ensures met { Met store.old (set_told (store_of store.old) name.bytes p) result store.new }
    ensures meant { Meant kept_is (Sets name.bytes p) store.old name.bytes result store.new }
{
    let (k, place) = locate(store, name)?;
    match place {
        Ok(i) => entry::put_pair(store, i * 32 + 8, p),
        Err(i) => {
            if k == 32 {
                return Err(refused(FULL));
            }
            insert(store, i * 32, name, p);
        }
    }
    Ok(())
}

// Drop: a name and its pair taken out.
pub fn drop_point(store: &mut [u8], name: Name) -> Result<(), Refusal>
    ensures met { Met store.old (drop_told (store_of store.old) name.bytes) result store.new }
    ensures meant { Meant kept_is (Drops name.bytes) store.old name.bytes result store.new }
{
    let (_, place) = locate(store, name)?;
    match place {
        Ok(i) => {
            remove(store, i * 32);
            Ok(())
        }
        Err(_) => Err(refused(ABSENT)),
    }
}
