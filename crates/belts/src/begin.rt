// Starts, of counted and of open runs, by numbers and by plan records; and the stop.
use crate::belt::{Belt, Leaves};
use crate::command::Command;
use picture::{Started, start, start_numbers, start_open, start_open_numbers, stop};
use script::up_to_mut;
use show::Told;
use std::io;

// A start: 0 and 2 take the plan by numbers, 1 and 3 by its record; 2 and 3 are open.
fn started(c: Command, given: &[u8], starts: &mut [u8], lengths: &mut [u8]) -> Started {
    let count = script::byte_at(given, 0);
    let stages = script::stages(given);
    match c.op % 16 {
        0 => start_numbers(count, &stages, c.x, c.a, c.b, c.c, starts, lengths),
        1 => start(script::record(given), c.x, c.a, c.b, c.c, starts, lengths),
        2 => start_open_numbers(count, &stages, c.x, c.a, c.c, starts, lengths),
        _ => start_open(script::record(given), c.x, c.a, c.c, starts, lengths),
    }
}

fn begin(rt: &impl Print, belt: &mut Belt, c: Command, given: &[u8]) -> io::Result<()> {
    let starts = up_to_mut(belt.lent.starts, &mut belt.starts);
    let lengths = up_to_mut(belt.lent.lengths, &mut belt.lengths);
    let r = started(c, given, starts, lengths);
    belt.state = r.state;
    belt.leaves = if r.number == 0 {
        Leaves::Rest
    } else {
        Leaves::All
    };
    print!(rt; "start: {}{}", r.number, Told(r.state))
}

fn end(rt: &impl Print, belt: &mut Belt) -> io::Result<()> {
    let r = stop(belt.state);
    belt.state = r.state;
    belt.leaves = Leaves::All;
    print!(rt; "stop: {}{}", r.number, Told(r.state))
}

pub fn call(rt: &impl Print, belt: &mut Belt, c: Command, given: &[u8]) -> io::Result<()> {
    if c.op % 16 == 4 {
        return end(rt, belt);
    }
    begin(rt, belt, c, given)
}
