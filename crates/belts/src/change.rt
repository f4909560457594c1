// What is set from outside, and what is told of the state: no calls of the filter.
use crate::belt::{Belt, Edge, Leaves, Lent};
use crate::command::Command;
use picture::{Ending, State};
use show::Told;
use std::{io, mem};

// The state.
fn tell(rt: &impl Print, belt: &mut Belt) -> io::Result<()> {
    belt.leaves = Leaves::All;
    print!(rt; "state{}", Told(belt.state))
}

// The state with its plan.
fn tell_whole(rt: &impl Print, belt: &mut Belt) -> io::Result<()> {
    tell(rt, belt)?;
    print!(rt; "{}", Told(belt.state.plan))
}

// Other fields of the state; the plan stays.
fn fields(rt: &impl Print, belt: &mut Belt, c: Command) -> io::Result<()> {
    belt.state = State {
        plan: belt.state.plan,
        sample: c.x,
        width: c.a,
        ending: match c.y {
            0 => Ending::Fixed,
            1 => Ending::Open,
            _ => Ending::Stopped,
        },
        rows: c.b,
        step: c.c,
    };
    tell(rt, belt)
}

// Another plan in the state.
fn planned(rt: &impl Print, belt: &mut Belt, given: &[u8]) -> io::Result<()> {
    belt.state.plan = script::record(given);
    tell_whole(rt, belt)
}

// So much of the memory is lent from now on.
fn lend(rt: &impl Print, belt: &mut Belt, c: Command) -> io::Result<()> {
    belt.lent = Lent {
        values: c.a,
        positions: c.b,
        starts: c.c,
        lengths: c.d,
    };
    belt.leaves = Leaves::All;
    print!(rt; "lend")
}

// Where what a plan needs ends.
fn part(rt: &impl Print, belt: &mut Belt, c: Command) -> io::Result<()> {
    belt.edge = Edge {
        cells: c.a,
        records: c.b,
    };
    belt.leaves = Leaves::Nothing;
    print!(rt; "edge")
}

// Puts a byte at a place, and gives what stood there.
fn exchange(bytes: &mut [u8], i: usize, new: u8) -> u8 {
    bytes.get_mut(i).map_or(0, |byte| mem::replace(byte, new))
}

// Another column record; what stood there is kept.
fn spoil(rt: &impl Print, belt: &mut Belt, at: usize, start: u8, length: u8) -> io::Result<()> {
    belt.start = exchange(&mut belt.starts, at, start);
    belt.length = exchange(&mut belt.lengths, at, length);
    belt.leaves = Leaves::Nothing;
    print!(rt; "record")
}

// Words for the reader of the lines.
fn title(rt: &impl Print, belt: &mut Belt, given: &[u8]) -> io::Result<()> {
    belt.leaves = Leaves::Nothing;
    rt.write_all(given)
}

pub fn call(rt: &impl Print, belt: &mut Belt, c: Command, given: &[u8]) -> io::Result<()> {
    match c.op % 16 {
        0 => fields(rt, belt, c),
        1 => planned(rt, belt, given),
        2 => tell_whole(rt, belt),
        3 => lend(rt, belt, c),
        4 => part(rt, belt, c),
        5 => spoil(rt, belt, c.a, c.x, c.y),
        6 => spoil(rt, belt, c.a, belt.start, belt.length),
        _ => title(rt, belt, given),
    }
}
