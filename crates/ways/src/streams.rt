// Standard input and output. A call that a signal interrupted is made again, as long as there is patience; any other that fails is the last.
ghost use Rattle.std.specs.Prelude.{◌+◌, ◌<◌, ◌≤◌, ◌^◌, false, ◌≡◌, length, take, IfOk, IfErr, IsErrAnd};
ghost use Rattle.std.specs.Result.{result_unwrap_or};
ghost use Rattle.std.specs.IoError.{error_kind};
ghost use Rattle.listing.specs.Parts.{Next};

use std::io;
use std::io::{ErrorKind, Read, Write};
use std::rt::{Stdin, Stdout};

// How many interruptions are borne as the book is read, or as a part is written: at a million in a second they last more than an hour.
const PATIENCE: u64 = 4294967295;

// A call that moved no byte and answered this is the last, unless it was only interrupted and there is patience left.
fn is_last(got: io::Result<usize>, patience: u64) -> bool
    ensures patient { result ≡ false → 0 < patience }
    ensures interrupted { result ≡ false → IsErrAnd got (λ e. error_kind e ≡ ErrorKind.Interrupted) }
{
    let Err(e) = got else {
        return true;
    };
    if patience == 0 {
        return true;
    }
    e.kind() != ErrorKind::Interrupted
}

// Standard output, and how many bytes it has taken. Only the two functions below make or change one.
#[derive(Clone, Copy)]
pub struct Output {
    stdout: Stdout,
    taken: usize,
}

// Standard output before the first write.
pub fn untouched(stdout: Stdout) -> Output
    ensures { result.taken ≡ 0 }
{
    Output { stdout, taken: 0 }
}

// One write, and what it answers. The bytes are the next of those that are printed for the text; the text stands here for this alone.
fn write_next(text: &[u8], to: &mut Output, bytes: &[u8]) -> io::Result<usize>
    requires { Next text.now to.old.taken bytes.now × (to.old.taken + length bytes.now < 2 ^ 64) }
    ensures { (result_unwrap_or result 0 ≤ length bytes.now) × (to.new.taken ≡ to.old.taken + result_unwrap_or result 0) }
{
    let got = to.stdout.write(bytes);
    to.taken += got.unwrap_or(0);
    got
}

// Why a write that took no byte and answered this is the last.
fn why(got: io::Result<usize>) -> io::Error
    ensures { IfErr got (λ e. result ≡ e) }
{
    match got {
        Ok(_) => io::Error::new(ErrorKind::WriteZero, "no byte was taken"),
        Err(e) => e,
    }
}

// Writes the bytes, which are the next of those that are printed for the text; or stops at the first write that fails, when some of them may
// have been written. The output then.
pub fn send(text: &[u8], to: Output, bytes: &[u8]) -> io::Result<Output>
    requires { Next text.now to.taken bytes.now × (to.taken + length bytes.now < 2 ^ 64) }
    ensures { IfOk result (λ out. out.taken ≡ to.taken + length bytes.now) }
{
    let mut out = to;
    let mut done = 0;
    let mut patience = PATIENCE;
    // Kept: a while, for how far a write gets is the stream's to say.
    while done < bytes.len() {
        let got = write_next(text, &mut out, &bytes[done..]);
        let put = got.unwrap_or(0);
        if put == 0 {
            if is_last(got, patience) {
                return Err(why(got));
            }
            patience -= 1;
        }
        done += put;
    }
    Ok(out)
}

// Reads until the room is full or the input ends, and gives how many bytes were read; or stops at the first read that fails.
pub fn receive(stdin: Stdin, room: &mut [u8]) -> io::Result<usize>
    ensures { IfOk result (λ bytes. (bytes ≤ length room.new) × (bytes ≡ length (take bytes room.new))) }
{
    let mut from = stdin;
    let mut done = 0;
    let mut patience = PATIENCE;
    // Kept: a while, for how far a read gets is the stream's to say.
    while done < room.len() {
        let got = from.read(&mut room[done..]);
        let put = got.unwrap_or(0);
        if put == 0 {
            if is_last(got, patience) {
                return got.map(|_| done);
            }
            patience -= 1;
        }
        done += put;
    }
    Ok(done)
}
