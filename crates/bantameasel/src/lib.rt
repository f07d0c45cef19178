// The operations for programs in C: only numbers, structs of numbers (crate across) and slices go across the border. The crate bantameasel_c, a static
// library, exports each of them under its name.
#![tactic(auto)]

ghost use Rattle.std.specs.Prelude.{◌≡◌, List, ℕ, length};
ghost use Rattle.text.specs.Reading.{read_answer, read_with, read_into};
ghost use Rattle.text.specs.Writing.{write_answer, write_with, write_into};
ghost use Rattle.sets.specs.Pairs.{flat};
ghost use Rattle.meaning.specs.Order.{start, at};
ghost use Rattle.meaning.specs.Listings.{refused, FirstLater};
ghost use Rattle.answers.specs.Means.{Means, Judges};
ghost use Rattle.answers.specs.Operations.{Told, turned, answer_of, verdict_of, count_of, length_of, counted, left, first_answer, after_answer, judge_answer, line_answer, first_page, page_after};
ghost use Rattle.points.specs.Points.{Entry, OfStore, Goes, Sets, Drops, leaves};
ghost use Rattle.points.specs.Stores.{store_of, go_told, set_told, drop_told, went_is, kept_is, Meant};
ghost use Rattle.across.specs.Across.{book_in, amount_in, verdict_in, answer_in, done_of, gone_of, verdict_from, answer_from, gone_from, version_number};

use across::{Amount, BookAnswer, Done, PairAnswer, VerdictAnswer};
use entry::Name;
use sets::Pair;

// The version as one number, 100 for each whole version and 1 for each part of one: 2.4. include/bantameasel.h and people.mk have it too.
const VERSION: u32 = 205;

// The version of this library.
#[unsafe(no_mangle)]
pub extern "C" fn bantameasel_version() -> u32
    ensures { result ≡ version_number }
{
    VERSION
}

// Read: the text to the number table in front of the lent slice.
#[unsafe(no_mangle)]
pub extern "C" fn bantameasel_read(text: &[u8], table: &mut [i32]) -> BookAnswer
    ensures value { result ≡ book_in (read_answer (read_with table.old text.now)) }
    ensures table_after { table.new ≡ read_into table.old (read_with table.old text.now) }
{
    read::read(text, table).into()
}

// Write: the number table to the text in front of the lent slice.
#[unsafe(no_mangle)]
pub extern "C" fn bantameasel_write(table: &[i32], text: &mut [u8]) -> Amount
    ensures value { result ≡ amount_in (length_of (write_answer (write_with text.old table.now))) }
    ensures text_after { text.new ≡ write_into text.old (write_with text.old table.now) }
{
    write::write(table, text).into()
}

// Judge: the verdict on a pair.
#[unsafe(no_mangle)]
pub extern "C" fn bantameasel_judge(text: &[u8], p: Pair) -> VerdictAnswer
    ensures value { result ≡ verdict_in (judge_answer text.now p) }
    ensures means { Means turned Judges text.now (at p) (verdict_from result) }
{
    operations::judge(text, p).into()
}

// First: the first resolution, or End.
#[unsafe(no_mangle)]
pub extern "C" fn bantameasel_first(text: &[u8]) -> PairAnswer
    ensures value { result ≡ answer_in (first_answer text.now) }
    ensures means { Means refused FirstLater text.now start (answer_from result) }
{
    operations::first(text).into()
}

// After: the first resolution later than a pair, or End.
#[unsafe(no_mangle)]
pub extern "C" fn bantameasel_after(text: &[u8], p: Pair) -> PairAnswer
    ensures value { result ≡ answer_in (after_answer text.now p) }
    ensures means { Means refused FirstLater text.now (at p) (answer_from result) }
{
    operations::after(text, p).into()
}

// Line: the line of a pair in front of the lent slice.
#[unsafe(no_mangle)]
pub extern "C" fn bantameasel_line(text: &[u8], p: Pair, line: &mut [u8]) -> Amount
    ensures value { result ≡ amount_in (counted (line_answer text.now p (length line.old))) }
    ensures line_after { line.new ≡ left (λ (l : List ℕ). l) line.old (line_answer text.now p (length line.old)) }
{
    line::line(text, p, line).into()
}

// A page of the first resolutions.
#[unsafe(no_mangle)]
pub extern "C" fn bantameasel_first_page(text: &[u8], pairs: &mut [u64]) -> Amount
    ensures value { result ≡ amount_in (counted (first_page text.now (length pairs.old))) }
    ensures pairs_after { pairs.new ≡ left flat pairs.old (first_page text.now (length pairs.old)) }
{
    operations::first_page(text, pairs).into()
}

// A page of the first resolutions later than a pair.
#[unsafe(no_mangle)]
pub extern "C" fn bantameasel_page_after(text: &[u8], p: Pair, pairs: &mut [u64]) -> Amount
    ensures value { result ≡ amount_in (counted (page_after text.now p (length pairs.old))) }
    ensures pairs_after { pairs.new ≡ left flat pairs.old (page_after text.now p (length pairs.old)) }
{
    operations::page_after(text, p, pairs).into()
}

// Set: a pair under a name in a store of stopping points.
#[unsafe(no_mangle)]
pub extern "C" fn bantameasel_set(store: &mut [u8], name: Name, p: Pair) -> Done
    ensures value { result ≡ done_of (kept_is (set_told (store_of store.old) name.bytes p)) }
    ensures store_after { store.new ≡ leaves store.old (set_told (store_of store.old) name.bytes p) }
    ensures meant { Meant (λ (t : Told (List Entry)). done_of (kept_is t)) (Sets name.bytes p) store.old name.bytes result store.new }
{
    points::set_point(store, name, p).into()
}

// Go: the pair under a name.
#[unsafe(no_mangle)]
pub extern "C" fn bantameasel_go(store: &[u8], name: Name) -> PairAnswer
    ensures value { result ≡ gone_of (went_is (go_told (store_of store.now) name.bytes)) }
    ensures of_store { OfStore (Goes name.bytes) store.now name.bytes (gone_from result) }
{
    points::go_to(store, name).into()
}

// Drop: a name and its pair taken out.
#[unsafe(no_mangle)]
pub extern "C" fn bantameasel_drop(store: &mut [u8], name: Name) -> Done
    ensures value { result ≡ done_of (kept_is (drop_told (store_of store.old) name.bytes)) }
    ensures store_after { store.new ≡ leaves store.old (drop_told (store_of store.old) name.bytes) }
    ensures meant { Meant (λ (t : Told (List Entry)). done_of (kept_is t)) (Drops name.bytes) store.old name.bytes result store.new }
{
    points::drop_point(store, name).into()
}
