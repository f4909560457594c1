// Runs of pictures by commands, open and fixed, on one state and one set of memory: a line for each command. The commands stand in the files b000, b001, .. of data/, or come by
// standard input where there is no such file. tests/belts.py makes them, and says by document 01's and 02's definitions what the lines have to be.
#![tactic(auto)]

use belt::Belt;
use command::Command;
use show::Quiet;
use std::fmt::InlineText;
use std::fs::File;
use std::io;
use std::io::Read;
use std::rt::Files;

mod begin; // begin.rt: starts and stops
mod belt; // belt.rt: the state, the memory and what of it is lent
mod change; // change.rt: what is set from outside
mod command; // command.rt: how a command is read
mod steps; // steps.rt: calls on pictures of either kind
mod watch; // watch.rt: whether a call left alone what it has to

// A command, by its group; the line's end is left.
fn called(rt: &impl Print, belt: &mut Belt, c: Command, given: &[u8]) -> io::Result<()> {
    match c.op / 16 {
        1 => steps::grey(rt, belt, c, given),
        2 => steps::rate(rt, belt, c, given),
        3 => begin::call(rt, belt, c, given),
        _ => change::call(rt, belt, c, given),
    }
}

// Command after command, each with the bytes that follow it, to the end.
fn run(rt: &impl Print, from: &mut impl Read) -> io::Result<()> {
    let mut belt = belt::first();
    watch::count(&mut belt);
    for _ in 0..u32::MAX {
        let Some(c) = command::read(from) else {
            break;
        };
        let mut room = [0u8; 4096];
        let given = command::follow(from, c.size, &mut room);
        called(rt, &mut belt, c, given)?;
        watch::end(rt, &mut belt)?;
    }
    Ok(())
}

// Carries out file n, and says whether there is one.
fn one(rt: &impl Files, out: &impl Print, n: u8) -> io::Result<bool> {
    let name = InlineText::<4>::of(format_args!("b{n:03}"));
    let Ok(mut from) = File::open(rt, name.as_str()) else {
        return Ok(false);
    };
    run(out, &mut from)?;
    Ok(true)
}

fn all(rt: &HostRuntime, out: &impl Print) -> io::Result<()> {
    for n in 0..255 {
        if !one(rt, out, n)? {
            if n == 0 {
                run(out, &mut rt.stdin())?;
            }
            break;
        }
    }
    Ok(())
}

fn main(rt: HostRuntime) {
    let _ = all(&rt, &Quiet(&rt));
}
