// Starts and stops.
use crate::head::Head;
use crate::input;
use crate::told::Whole;
use picture::{
    Started, start, start_numbers, start_open, start_open_numbers, start_open_origins,
    start_open_origins_numbers, start_origins, start_origins_numbers,
};
use show::Row;
use std::io;

// A start: of counted rows, 0 by numbers and 1 by a plan record; 2 and 3 of an open run; 4 to 7 ask for origins.
fn started(head: &Head, starts: &mut [u8], lengths: &mut [u8]) -> Started {
    let n = head.0[0];
    let stages = script::stages(&head.0);
    let plan = script::record(&head.0);
    let kind = head.sample();
    let w = head.number(0);
    let h = head.number(1);
    let cells = head.number(3);
    match head.command() % 8 {
        0 => start_numbers(n, &stages, kind, w, h, cells, starts, lengths),
        1 => start(plan, kind, w, h, cells, starts, lengths),
        2 => start_open_numbers(n, &stages, kind, w, cells, starts, lengths),
        3 => start_open(plan, kind, w, cells, starts, lengths),
        4 => start_origins_numbers(n, &stages, kind, w, h, cells, starts, lengths),
        5 => start_origins(plan, kind, w, h, cells, starts, lengths),
        6 => start_open_origins_numbers(n, &stages, kind, w, cells, starts, lengths),
        _ => start_open_origins(plan, kind, w, cells, starts, lengths),
    }
}

// A start, and its line.
pub fn begin(rt: &impl Input, to: &impl Print, head: &Head) -> io::Result<()> {
    let mut starts = [0u8; 4096];
    let mut lengths = [0u8; 4096];
    let starts = input::slice(rt, head.lent(7), &mut starts);
    let lengths = input::slice(rt, head.lent(8), &mut lengths);
    let r = started(head, starts, lengths);
    print!(to; "start: {}{}", r.number, Whole(r.state))?;
    print!(to; "; starts{}; lengths{}", Row(starts), Row(lengths))
}

pub fn end(to: &impl Print, head: &Head) -> io::Result<()> {
    let r = picture::stop(head.state());
    print!(to; "stop: {}{}", r.number, Whole(r.state))
}
