// Parts filled from a reader and frames written to a writer. Every read and write of a run is made here, and what fails is said here, on standard error, while the error is at hand.
// A reader or a writer that is not ready is waited for, as one that blocks would have its caller wait.
#![tactic(auto)]

ghost use Rattle.std.specs.Prelude.{◌≤◌, length, IfOk};
ghost use Rattle.std.specs.Io.KnownBytes.{ReadConsumes, WriteAppends};
ghost use Rattle.descriptors.specs.Filled.{Fills, Brings, BringsSome, Writes, WritesSome};

use std::fmt::InlineText;
use std::io;
use std::io::{ErrorKind, Read, Write};
use std::rt::Clock;

// How often a reader or a writer that is not ready is tried again. A loop has to end: this one does so after a year and more of pauses.
const PATIENCE: u32 = 4294967295;

// A read failed. What failed has been said.
#[derive(Clone, Copy, Debug, PartialEq, Eq)]
pub struct Unread;

// A write failed, after so many of the bytes had been taken. What failed has been said.
#[derive(Clone, Copy, Debug, PartialEq, Eq)]
pub struct Unwritten {
    pub taken: usize,
}

// Whether a call that has just failed is to be made again: at once after a signal, after a pause where the reader or the writer is not ready.
fn is_to_be_tried_again(rt: &impl Clock, error: io::Error) -> bool {
    let kind = error.kind();
    if kind == ErrorKind::WouldBlock {
        pause::pause(rt);
        return true;
    }
    kind == ErrorKind::Interrupted
}

// A line on standard error: what failed, and the system's text for it, without the number that the library puts behind it. It is lost where nothing can be said.
fn say(rt: &impl Eprint, what: &str, error: io::Error) {
    let told = InlineText::<256>::of(error);
    let text = told.as_str();
    let words = text
        .split_once(" (os error ")
        .map_or(text, |(words, _)| words);
    let _ = eprintln!(rt; "{what}: {words}");
}

fn say_unread(rt: &impl Eprint, error: io::Error) -> Unread {
    say(rt, "kelafshir: reading the job", error);
    Unread
}

fn say_unwritten(rt: &impl Eprint, error: io::Error) {
    say(rt, "kelafshir: writing the answer", error);
}

// One read that does not fail for want of bytes: how many came, none at the input's end.
fn read_patiently<H: Clock, R: Read>(rt: &H, from: &mut R, part: &mut [u8]) -> io::Result<usize>
    ensures few { IfOk result (λ got. got ≤ length part.new) }
    ensures bytes { ReadConsumes (R.remaining from.old) (R.remaining from.new) result part.new }
{
    for _ in 1..PATIENCE {
        match from.read(part) {
            Ok(got) => return Ok(got),
            Err(error) => {
                if !is_to_be_tried_again(rt, error) {
                    return Err(error);
                }
            }
        }
    }
    from.read(part)
}

// Such a read, which says so where it fails.
fn read_some<H: Clock + Eprint, R: Read>(
    rt: &H,
    from: &mut R,
    part: &mut [u8],
) -> Result<usize, Unread>
    ensures few { Fills (length part.new) result }
    ensures bytes { BringsSome (R.remaining from.old) (R.remaining from.new) part.new result }
{
    read_patiently(rt, from, part).map_err(|error| say_unread(rt, error))
}

// Reads until the part is full or the input ends, and answers how many bytes stand at its front: fewer than it holds only where the input has ended. Says so where a read fails.
pub fn fill<H: Clock + Eprint, R: Read>(
    rt: &H,
    from: &mut R,
    part: &mut [u8],
) -> Result<usize, Unread>
    ensures few { Fills (length part.new) result }
    ensures bytes { Brings (R.remaining from.old) (R.remaining from.new) part.new result }
{
    // Not a `for`: each turn goes on by as many bytes as a read brought, and `got` is what is answered.
    let mut got = 0;
    while got < part.len() {
        let more = read_some(rt, from, &mut part[got..])?;
        if more == 0 {
            return Ok(got);
        }
        got += more;
    }
    Ok(got)
}

// One write that does not fail for want of room: how many bytes were taken.
fn write_patiently<H: Clock, W: Write>(rt: &H, to: &mut W, bytes: &[u8]) -> io::Result<usize>
    ensures few { IfOk result (λ taken. taken ≤ length bytes.now) }
    ensures bytes { WriteAppends (W.contents to.old) (W.contents to.new) result bytes.now }
{
    for _ in 1..PATIENCE {
        match to.write(bytes) {
            Ok(taken) => return Ok(taken),
            Err(error) => {
                if !is_to_be_tried_again(rt, error) {
                    return Err(error);
                }
            }
        }
    }
    to.write(bytes)
}

// Such a write, which says so where it fails or takes nothing: then none were taken.
fn write_some<H: Clock + Eprint, W: Write>(rt: &H, to: &mut W, bytes: &[u8]) -> Option<usize>
    ensures { WritesSome (W.contents to.old) (W.contents to.new) bytes.now result }
{
    match write_patiently(rt, to, bytes) {
        Ok(0) => {
            say_unwritten(rt, io::Error::from(ErrorKind::WriteZero));
            None
        }
        Ok(taken) => Some(taken),
        Err(error) => {
            say_unwritten(rt, error);
            None
        }
    }
}

// Writes all bytes; or a write failed, which it says, and fewer were taken.
pub fn write_whole<H: Clock + Eprint, W: Write>(
    rt: &H,
    to: &mut W,
    bytes: &[u8],
) -> Result<(), Unwritten>
    ensures { Writes (W.contents to.old) (W.contents to.new) bytes.now result }
{
    // Not a `for`: each turn goes on by as many bytes as a write took.
    let mut done = 0;
    while done < bytes.len() {
        let Some(taken) = write_some(rt, to, &bytes[done..]) else {
            return Err(Unwritten { taken: done });
        };
        done += taken;
    }
    Ok(())
}
