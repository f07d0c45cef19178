// ways: a book on standard input, its resolutions on standard output. All the work is in the library `listing`.
#![tactic(auto)]

mod streams;

ghost use Rattle.std.specs.Prelude.{◌≡◌, IfOk};
ghost use Rattle.answers.specs.Ways.{most_lines};
ghost use Rattle.listing.specs.Parts.{Midway};
ghost use Rattle.ways.specs.Stands.{Printed, Stood, stand_after};

use arrayvec::ArrayString;
use book::{Book, Shape};
use engine::{Ranks, Words};
use sets::Pair;
use std::fmt::Write;
use std::io;
use std::rt::Stdout;
use streams::Output;

// Where a listing stands after a part: the output, and the last pair printed if more is to be printed.
#[derive(Clone, Copy)]
pub struct Stand {
    pub to: Output,
    pub next: Option<Pair>,
}

// Where it stands after a part. If not all of the part was written, the listing is cut off: nothing more is printed, and the answer is what failed.
fn after(next: Option<Pair>, sent: io::Result<Output>) -> io::Result<Stand>
    ensures { result ≡ stand_after next sent }
{
    let to = sent?;
    Ok(Stand { to, next })
}

// Prints the part after the last pair printed, where m lines are left.
fn go_on(
    text: &[u8],
    words: &Words,
    ranks: &Ranks,
    s: Shape,
    to: Output,
    last: Pair,
    m: usize,
) -> io::Result<Stand>
    requires { Midway text.now words.now ranks.now to.taken s last m }
    ensures { IfOk result (Stood text.now words.now ranks.now s m) }
{
    let mut out: listing::Text = [0; listing::PART * listing::LONGEST + listing::CLOSING];
    let part = listing::go_on(words, ranks, s, last, m, &mut out);
    after(part.next, streams::send(text, to, &out[..part.bytes]))
}

// Prints what is left after the first part: part after part.
fn rest(text: &[u8], words: &Words, ranks: &Ranks, s: Shape, from: Stand) -> io::Result<Output>
    requires { Stood text.now words.now ranks.now s most_lines from }
    ensures { Printed text.now result }
{
    let mut stand = from;
    let mut left = listing::MOST;
    // Kept: a while, for each part tells whether another follows and from where.
    while let Some(last) = stand.next {
        left -= listing::PART;
        stand = go_on(text, words, ranks, s, stand.to, last, left)?;
    }
    Ok(stand.to)
}

// All that is printed for a text.
fn print(stdout: Stdout, text: &[u8]) -> io::Result<Output>
    ensures { Printed text.now result }
{
    let mut words = [0u64; (Book::RULES + Book::CONDITIONALS) * 8];
    let mut ranks = [0u64; Book::EXCEPTIONS];
    let mut out: listing::Text = [0; listing::PART * listing::LONGEST + listing::CLOSING];
    let b = listing::begin(text, &mut words, &mut ranks, &mut out);
    let sent = streams::send(text, streams::untouched(stdout), &out[..b.bytes]);
    let Some((s, last)) = b.next else {
        return sent;
    };
    let from = after(Some(last), sent)?;
    rest(text, &words, &ranks, s, from)
}

// Says in a line on standard error what failed, and why in the system's words, without the number that std adds to them in brackets. If standard
// error takes nothing either, nothing is left to be done.
fn fail(rt: &impl Eprint, what: &str, cause: io::Error) {
    let mut words = ArrayString::<128>::new();
    let _ = write!(words, "{cause}");
    let said = words.as_str();
    let why = match said.split_once(" (os error ") {
        Some((front, _)) => front,
        None => said,
    };
    let _ = eprintln!(rt; "ways: {what}: {why}");
}

// One byte more than a book may have is enough to know that a text is too long.
fn main(rt: HostRuntime) {
    let mut text = [0u8; Book::TEXT + 1];
    let bytes = match streams::receive(rt.stdin(), &mut text) {
        Ok(bytes) => bytes,
        Err(cause) => {
            fail(&rt, "the book cannot be read", cause);
            return;
        }
    };
    if let Err(cause) = print(rt.stdout(), &text[..bytes]) {
        fail(&rt, "the listing is cut off", cause);
    }
}
