// The operations on texts: Judge, First, After and pages. Each reads the text once and prepares its book.
#![tactic(auto)]

ghost use Rattle.std.specs.Prelude.{◌≡◌, ◌*◌, length, take};
ghost use Rattle.book.specs.Counts.{row_numbers};
ghost use Rattle.text.specs.Accepted.{Accepted as Facts};
ghost use Rattle.meaning.specs.Order.{start, at};
ghost use Rattle.meaning.specs.Listings.{refused, FirstLater};
ghost use Rattle.answers.specs.Operations.{turned, answer_of, verdict_of, first_answer, after_answer, judge_answer, first_page, page_after, PageMet};
ghost use Rattle.answers.specs.Means.{Means, Judges};
ghost use Rattle.bridge.specs.Rows.{rule_count};
ghost use Rattle.prepare.specs.Packing.{Blank};
ghost use Rattle.operations.specs.Loads.{Loads, LoadsFor, Filled, found_in};

use book::{Book, Shape};
use engine::{Ranks, Words};
use sets::Pair;
use text::Refusal;

// Prepares an accepted book: the words of its rules and its Q lines, and those of its ranks. The words after the rules are lent as zeros.
pub fn fill(s: Shape, rows: &[i32], words: &mut Words, ranks: &mut Ranks)
    requires { Facts s (take (row_numbers s) rows.now) × Blank words.old (rule_count s * 8) }
    ensures { Filled s (take (row_numbers s) rows.now) words.new ranks.new }
{
    let m = book::row_numbers(s);
    prepare::pack(s, &rows[..m], words);
    prepare::rank(s, &rows[..m], ranks);
}

// The same of rows with room for any book.
pub fn fill_from(s: Shape, rows: &[i32; Book::ROOM], words: &mut Words, ranks: &mut Ranks)
    requires { Facts s (take (row_numbers s) rows.now) × Blank words.old (rule_count s * 8) }
    ensures { Filled s (take (row_numbers s) rows.now) words.new ranks.new }
{
    fill(s, rows, words, ranks);
}

// Reads a text and prepares its book. The words are lent as zeros.
pub fn load(text: &[u8], words: &mut Words, ranks: &mut Ranks) -> Result<Shape, Refusal>
    requires { Blank words.old 0 }
    ensures { Loads text.now result words.new ranks.new }
{
    let mut scratch = Book::empty();
    let s = read::parse(text, &mut scratch.rows)?;
    fill_from(s, &scratch.rows, words, ranks);
    Ok(s)
}

// The same for a pair that has to be lawful in the book: the refusal of the text, then of the pair.
pub fn load_for(
    text: &[u8],
    p: Pair,
    words: &mut Words,
    ranks: &mut Ranks,
) -> Result<Shape, Refusal>
    requires { Blank words.old 0 }
    ensures { LoadsFor text.now p result words.new ranks.new }
{
    let s = load(text, words, ranks)?;
    lawful::check(s.statements, s.exceptions, p)?;
    Ok(s)
}

// Judge: the verdict on a pair, or the refusal of the text, then of the pair.
pub fn judge(text: &[u8], p: Pair) -> Result<u32, Refusal>
    ensures result_value { verdict_of result ≡ judge_answer text.now p }
    ensures means { Means turned Judges text.now (at p) (verdict_of result) }
{
    let mut words = [0u64; (Book::RULES + Book::CONDITIONALS) * 8];
    let mut ranks = [0u64; Book::EXCEPTIONS];
    let shape = load_for(text, p, &mut words, &mut ranks)?;
    Ok(engine::verdict_in(&words, &ranks, shape, p))
}

// A page: the first resolutions, as many as the lent slice has room for, or the refusal of the text.
pub fn first_page(text: &[u8], out: &mut [u64]) -> Result<usize, Refusal>
    ensures { PageMet (first_page text.now (length out.old)) out.old out.new result }
{
    let mut words = [0u64; (Book::RULES + Book::CONDITIONALS) * 8];
    let mut ranks = [0u64; Book::EXCEPTIONS];
    let s = load(text, &mut words, &mut ranks)?;
    Ok(engine::first_in(&words, &ranks, s, out))
}

// A page: the first resolutions later than the pair, or the refusal of the text, then of the pair.
pub fn page_after(text: &[u8], p: Pair, out: &mut [u64]) -> Result<usize, Refusal>
    ensures { PageMet (page_after text.now p (length out.old)) out.old out.new result }
{
    let mut words = [0u64; (Book::RULES + Book::CONDITIONALS) * 8];
    let mut ranks = [0u64; Book::EXCEPTIONS];
    let s = load_for(text, p, &mut words, &mut ranks)?;
    Ok(engine::after_in(&words, &ranks, s, p, out))
}

// The pair of a page of one pair, if it has one.
pub fn found(count: usize, out: &[u64; 3]) -> Option<Pair>
    ensures { result ≡ found_in count out.now }
{
    if count == 0 {
        return None;
    }
    Some(page::pair_at(out, 0))
}

// First: the first resolution, or none at the End, or the refusal of the text.
pub fn first(text: &[u8]) -> Result<Option<Pair>, Refusal>
    ensures result_value { answer_of result ≡ first_answer text.now }
    ensures means { Means refused FirstLater text.now start (answer_of result) }
{
    let mut out = [0u64; 3];
    let count = first_page(text, &mut out)?;
    Ok(found(count, &out))
}

// After: the first resolution later than the pair, or none at the End, or the refusal of the text, then of the pair.
pub fn after(text: &[u8], p: Pair) -> Result<Option<Pair>, Refusal>
    ensures result_value { answer_of result ≡ after_answer text.now p }
    ensures means { Means refused FirstLater text.now (at p) (answer_of result) }
{
    let mut out = [0u64; 3];
    let count = page_after(text, p, &mut out)?;
    Ok(found(count, &out))
}
