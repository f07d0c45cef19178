// What `ways` prints, part by part: the first part from a text, each other from the prepared book, the point and the lines that are left.
#![tactic(auto)]

ghost use Rattle.std.specs.Prelude.{◌≡◌, ◌+◌, ◌*◌, ◌<◌, ◌≤◌, length};
ghost use Rattle.std.proofs.lemmas.List.Edits.{sets};
ghost use Rattle.book.specs.Limits as limit;
ghost use Rattle.meaning.specs.Order.{start, at};
ghost use Rattle.answers.specs.Ways.{lines_of, most_lines, closing_line, failed as failed_of};
ghost use Rattle.line.specs.Parts.{line_bytes};
ghost use Rattle.page.specs.Pages.{pairs_in};
ghost use Rattle.prepare.specs.Packing.{Blank};
ghost use Rattle.listing.specs.Parts.{part_lines, closing_bytes, part_bytes, Prepared, Ready, Closes, Prints, Lists, Begins};

use book::{Book, Shape};
use engine::{Ranks, Words};
use sets::Pair;
use text::Refusal;

// The most lines that are printed, and the most that a part has.
pub const MOST: usize = 9999;

pub const PART: usize = 1024;

// The bytes of the longest line, and of the closing line.
pub const LONGEST: usize = 1 + (1 + Book::EXCEPTIONS) * Book::COLUMNS + Book::STATEMENTS + 1;

pub const CLOSING: usize = 10;

// Room for a part.
pub type Text = [u8; PART * LONGEST + CLOSING];

// The lines of the first k pairs of a page, with w fields for exceptions, in front of a buffer; how many bytes they have.
pub fn put_lines(out: &mut [u8], w: usize, n: usize, pairs: &[u64], k: usize) -> usize
    requires { (w ≤ limit.exceptions) × (n ≤ limit.statements) × (k * 3 ≤ length pairs.now) × (k * line_bytes w n ≤ length out.old) }
    ensures { (out.new ≡ sets out.old 0 (lines_of w n (pairs_in pairs.now 0 k))) × (result ≡ k * line_bytes w n) }
{
    let bytes = line::line_bytes(w, n);
    let mut at = 0;
    for i in 0..k {
        let p = page::pair_at(pairs, i);
        line::put_line(&mut out[at..], w, n, p);
        at += bytes;
    }
    at
}

// A closing line in front of a buffer: a letter, a count of at most four digits right-justified in eight columns, a line feed.
pub fn put_closing(out: &mut [u8], letter: u8, count: usize)
    requires { (closing_bytes ≤ length out.old) × (count ≤ most_lines) }
    ensures { out.new ≡ sets out.old 0 (closing_line letter count) }
{
    out[0] = letter;
    out[1..5].fill(b' ');
    fields::put_columns(out, 5, false, count as u32);
    out[9] = b'\n';
}

// A part: how many bytes it has, and its last pair if the listing goes on after it.
#[derive(Clone, Copy)]
pub struct Part {
    pub bytes: usize,
    pub next: Option<Pair>,
}

// The first k pairs of a page in lines, done lines having been printed before, and a closing line: no part follows.
pub fn close_part(
    out: &mut [u8],
    w: usize,
    n: usize,
    pairs: &[u64],
    k: usize,
    letter: u8,
    done: usize,
) -> Part
    requires { (w ≤ limit.exceptions) × (n ≤ limit.statements) × (k ≤ part_lines) × (k * 3 ≤ length pairs.now) × (length out.old ≡ part_bytes) × (done + k ≤ most_lines) }
    ensures { Closes w n pairs.now k letter done out.new result }
{
    let at = put_lines(out, w, n, pairs, k);
    put_closing(&mut out[at..], letter, done + k);
    Part {
        bytes: at + CLOSING,
        next: None,
    }
}

// The lines of a page of k pairs, where m lines are left to be printed: the closing line too, unless the page is full and more may come.
pub fn put_part(out: &mut [u8], w: usize, n: usize, pairs: &[u64], k: usize, m: usize) -> Part
    requires { (w ≤ limit.exceptions) × (n ≤ limit.statements) × (k ≤ part_lines) × (length pairs.now ≡ part_lines * 3) × (length out.old ≡ part_bytes) × (m ≤ most_lines) }
    ensures { Prints w n pairs.now k m out.new result }
{
    let done = MOST - m;
    if m < k {
        return close_part(out, w, n, pairs, m, b'M', done);
    }
    if k < PART {
        return close_part(out, w, n, pairs, k, b'E', done);
    }
    Part {
        bytes: put_lines(out, w, n, pairs, PART),
        next: Some(page::pair_at(pairs, PART - 1)),
    }
}

// The first part of a prepared book.
pub fn opening(words: &Words, ranks: &Ranks, s: Shape, out: &mut Text) -> Part
    requires { Prepared s words.now ranks.now }
    ensures { Lists s words.now ranks.now start most_lines out.new result }
{
    let w = line::line_fields(s.exceptions);
    let mut pairs = [0u64; PART * 3];
    let k = engine::first_in(words, ranks, s, &mut pairs);
    put_part(out, w, s.statements, &pairs, k, MOST)
}

// The part after a pair, where m lines are left to be printed.
pub fn go_on(words: &Words, ranks: &Ranks, s: Shape, p: Pair, m: usize, out: &mut Text) -> Part
    requires { Ready s words.now ranks.now p × (m ≤ most_lines) }
    ensures { Lists s words.now ranks.now (at p) m out.new result }
{
    let w = line::line_fields(s.exceptions);
    let mut pairs = [0u64; PART * 3];
    let k = engine::after_in(words, ranks, s, p, &mut pairs);
    put_part(out, w, s.statements, &pairs, k, m)
}

// The line of a refusal.
pub fn put_failed(out: &mut [u8], q: Refusal)
    requires { (q.number < 10000) × (q.line < 10000) × (10 ≤ length out.old) }
    ensures { out.new ≡ sets out.old 0 (failed_of q.number q.line) }
{
    out[0] = b'F';
    fields::put_columns(out, 1, false, q.number);
    fields::put_columns(out, 5, false, q.line as u32);
    out[9] = b'\n';
}

// The first part: how many bytes it has, and the book's shape and the last pair if the listing goes on after it.
#[derive(Clone, Copy)]
pub struct Begun {
    pub bytes: usize,
    pub next: Option<(Shape, Pair)>,
}

// The first part for a text: all of it, or as much as a part has. The words are lent as zeros.
pub fn begin(text: &[u8], words: &mut Words, ranks: &mut Ranks, out: &mut Text) -> Begun
    requires { Blank words.old 0 }
    ensures { Begins text.now words.new ranks.new out.new result }
{
    match operations::load(text, words, ranks) {
        Err(q) => {
            put_failed(out, q);
            Begun {
                bytes: 10,
                next: None,
            }
        }
        Ok(s) => {
            let part = opening(words, ranks, s, out);
            Begun {
                bytes: part.bytes,
                next: part.next.map(|p| (s, p)),
            }
        }
    }
}
