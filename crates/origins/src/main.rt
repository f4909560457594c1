// Calls of the picture filter, with origins asked for and without: for each command of standard input a line that tells what the call answered, and all of the memory and the rows after it. A command has
// the state and the memory that the call is given, so that nothing is kept between two calls. tests/origins.py makes the commands, and says by document 01's and 02's definitions what the lines have to be.
//
// A command is a head of 188 bytes and what follows it. The head is a plan as its count and 80 numbers, the command's own number, the sample kind, the ending, and 13 numbers of 8 bytes each, low byte first:
// the width, the rows, the step and the cells, then the lengths of nine slices. These are the row; the output row, and its pixels' origins as a row of rows and a row of columns; the values, the positions and
// the columns that are lent; and the starts and the lengths of the records. What they hold follows in that order: a byte each, but 2 bytes a column, 4 bytes a float and 8 bytes a row number.
//
//     10 11 12 13    a grey row, a drain; a row and a drain that ask for origins
//     20 21 22 23    the same on floats
//     30 31 32 33    a start, by numbers or by a plan record; 32 and 33 are open
//     34 35 36 37    the same, asking for origins
//     40             a stop
//     50             words for the reader, in the place of the row
//
// These numbers are hexadecimal.
#![tactic(auto)]

use head::Head;
use show::Quiet;
use std::io;
use std::io::Read;

mod begin; // begin.rt: starts and stops
mod head; // head.rt: what a command's head says
mod input; // input.rt: what follows a head
mod kind; // kind.rt: the two kinds of sample
mod steps; // steps.rt: steps on pictures of either kind
mod told; // told.rt: what is told after a call

// A command, by its group.
fn called(rt: &impl Input, to: &impl Print, head: &Head) -> io::Result<()> {
    match head.command() / 16 {
        1 => steps::grey(rt, to, head),
        2 => steps::rate(rt, to, head),
        3 => begin::begin(rt, to, head),
        4 => begin::end(to, head),
        _ => told::words(rt, to, head),
    }
}

// Carries out the next command, and says whether there is one.
fn one(rt: &impl Input, to: &impl Print) -> io::Result<bool> {
    let mut head = [0; 188];
    if rt.reader().read_exact(&mut head).is_err() {
        return Ok(false);
    }
    called(rt, to, &Head(head))?;
    println!(to; "")?;
    Ok(true)
}

fn all(rt: &impl Input, to: &impl Print) -> io::Result<()> {
    for _ in 0..u32::MAX {
        if !one(rt, to)? {
            break;
        }
    }
    Ok(())
}

fn main(rt: HostRuntime) {
    let _ = all(&rt, &Quiet(&rt));
}
