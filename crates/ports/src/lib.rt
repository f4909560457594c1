// The two streams of a run, and what went through them. Every read and write of a run goes through here, and is counted.
#![tactic(auto)]

ghost use Rattle.std.specs.Prelude.{◌≡◌, false, ◌≤◌, length, pos};
ghost use Rattle.std.specs.Fd.{file_raw_fd};
ghost use Rattle.ports.specs.Ports.{Latest, Due, Receives, Gave};
ghost use Rattle.ports.specs.Streams.{descriptor_of, descriptor_to};

use std::fs::File;
use std::io;
use std::io::{Read, Stdin, Stdout};
use std::os::fd::{AsRawFd, RawFd};
use std::rt::Clock;

// What bytes come from: standard input, or a file that was opened.
#[derive(Drop)]
enum Source {
    Standard(Stdin),
    Opened(File),
}

impl Read for Source {
    fn read(&mut self, part: &mut [u8]) -> io::Result<usize> {
        match self {
            Source::Standard(stdin) => stdin.read(part),
            Source::Opened(file) => file.read(part),
        }
    }
}

// Where a job is read from, and where its answer goes: two types, so that neither stands for the other.
// What they hold is seen in this crate alone.
#[derive(Drop)]
pub struct Input {
    source: Source,
}

#[derive(Drop)]
pub struct Output {
    stdout: Stdout,
}

// An open file, to read from.
pub fn input_of(file: File) -> Input
    ensures { descriptor_of result ≡ file_raw_fd file }
{
    Input {
        source: Source::Opened(file),
    }
}

// "reads a job from standard input": descriptor 0; its answer goes to standard output, descriptor 1.
pub fn standard_input(rt: &HostRuntime) -> Input
    ensures { descriptor_of result ≡ pos 0 }
{
    Input {
        source: Source::Standard(rt.stdin()),
    }
}

pub fn standard_output(rt: &HostRuntime) -> Output
    ensures { descriptor_to result ≡ pos 1 }
{
    Output {
        stdout: rt.stdout(),
    }
}

// The numbers that the library gives them: nothing but the contracts above is made of these.
impl Input {
    fn descriptor(&self) -> RawFd
        ensures { result ≡ descriptor_of self.now }
    {
        match &self.source {
            Source::Standard(stdin) => stdin.as_raw_fd(),
            Source::Opened(file) => file.as_raw_fd(),
        }
    }
}

impl Output {
    fn descriptor(&self) -> RawFd
        ensures { result ≡ descriptor_to self.now }
    {
        self.stdout.as_raw_fd()
    }
}

// What went through: how many bytes came, whether the input has ended behind them, and how many were given to be written. The fields are seen in this crate
// alone, so that nothing but a read brings bytes or ends the input, and nothing but a write gives any. Counts can be copied: so the total of both is lent to
// every read and write, which moves it on and asks that its counts add up to it: older counts are refused.
#[derive(Clone, Copy, Debug, PartialEq, Eq)]
pub struct Moved {
    read: usize,
    ended: bool,
    given: usize,
}

// A read or a write that failed, what was moved before it, and how many bytes of the write were taken all the same: nothing more can be told, and a job that cannot be read has not
// ended early. The fields are seen in this crate alone, so that nothing else fails.
#[derive(Clone, Copy, Debug, PartialEq, Eq)]
pub struct Loss {
    moved: Moved,
    taken: usize,
}

// What a read comes to that did not fail: what was moved with it, and how many bytes it brought.
#[derive(Clone, Copy, Debug, PartialEq, Eq)]
pub struct Received {
    pub moved: Moved,
    pub got: usize,
}

pub fn nothing() -> Moved
    ensures { result ≡ record { read = 0; ended = false; given = 0 } }
{
    Moved {
        read: 0,
        ended: false,
        given: 0,
    }
}

fn lose(moved: Moved, taken: usize) -> Loss
    ensures { result ≡ record { moved = moved; taken = taken } }
{
    Loss {
        moved: moved,
        taken: taken,
    }
}

// Reads until the part is full or the input ends; after its end nothing is read. A read that fails loses the run, and what came of the part before it is not counted.
pub fn receive<H: Clock + Eprint>(
    rt: &H,
    from: &mut Input,
    before: Moved,
    part: &mut [u8],
    total: &mut usize,
) -> Result<Received, Loss>
    requires { Latest before total.old }
    ensures { Receives before (length part.new) total.new result }
{
    if before.ended {
        return Ok(Received {
            moved: before,
            got: 0,
        });
    }
    let got = descriptors::fill(rt, &mut from.source, part).map_err(|_| lose(before, 0))?;
    *total += got;
    Ok(Received {
        moved: Moved {
            read: before.read + got,
            ended: got < part.len(),
            given: before.given,
        },
        got: got,
    })
}

// Gives the front of a frame to be written; where nothing is put the system is not called. What is given has to be what is due: the next bytes of the answer, for input whose
// last bytes are those at hand, which are lent so that the contract can speak of them. The frame is an array of a length that no other buffer of the run has.
// Counted is what was taken. Of the total nothing is known after a write that failed: no call can follow it.
pub fn give<H: Clock + Eprint>(
    rt: &H,
    to: &mut Output,
    before: Moved,
    hand: &[u8],
    frame: &[u8; 16385],
    put: usize,
    total: &mut usize,
) -> Result<Moved, Loss>
    requires { (put ≤ 16385) × Latest before total.old × Due before hand.now frame.now put }
    ensures { Gave before put total.new result }
{
    let whole = descriptors::write_whole(rt, &mut to.stdout, &frame[..put]);
    whole.map_err(|lost| lose(before, lost.taken))?;
    *total += put;
    Ok(Moved {
        read: before.read,
        ended: before.ended,
        given: before.given + put,
    })
}
