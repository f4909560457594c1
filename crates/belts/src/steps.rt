// Calls on pictures of either kind of sample.
use crate::belt::{Belt, Leaves};
use crate::command::Command;
use picture::{Lent, Stepped};
use sample::Sample;
use script::{bytes_at, up_to, up_to_mut};
use show::{One, Row, Shown, Told};
use std::io;

// A kind of samples, and its name.
trait Pixel: Sample + Shown {
    fn name() -> &'static str;
}

impl Pixel for u8 {
    fn name() -> &'static str {
        "grey"
    }
}

impl Pixel for f32 {
    fn name() -> &'static str {
        "rate"
    }
}

// Whether a step reads a row; else it drains.
fn is_row(c: Command) -> bool {
    c.op % 16 == 0
}

// A step's line: what it answered, the output row and the state after it.
fn tell<S: Pixel>(rt: &impl Print, c: Command, s: Stepped, out: &[S]) -> io::Result<()> {
    let call = if is_row(c) { "row" } else { "drain" };
    print!(rt; "{} {call}: {}", S::name(), Told(s.answer))?;
    print!(rt; "; out{}{}", Row(out), Told(s.state))
}

// Shows a place of a queue, and says whether it is there.
fn place<S: Pixel>(
    rt: &impl Print,
    belt: &Belt,
    c: Command,
    values: &[S],
    place: usize,
) -> io::Result<bool> {
    let positions = up_to(belt.lent.positions, &belt.positions);
    let starts = up_to(belt.lent.starts, &belt.starts);
    let lengths = up_to(belt.lent.lengths, &belt.lengths);
    match picture::read_out(
        belt.state, c.a, c.b, place, values, positions, starts, lengths,
    ) {
        Ok(e) => {
            print!(rt; " {}@{}", One(e.value), e.position)?;
            Ok(true)
        }
        Err(refusal) => {
            print!(rt; " -{}", refusal.number())?;
            Ok(false)
        }
    }
}

// The places of a queue from one on, up to the first that is not there, at most so many.
fn places<S: Pixel>(rt: &impl Print, belt: &Belt, c: Command, values: &[S]) -> io::Result<()> {
    let values = up_to(belt.lent.values, values);
    print!(rt; "{} queue:", S::name())?;
    for i in 0..c.x {
        if !place(rt, belt, c, values, c.c.saturating_add(usize::from(i)))? {
            break;
        }
    }
    Ok(())
}

pub fn grey(rt: &impl Print, belt: &mut Belt, c: Command, given: &[u8]) -> io::Result<()> {
    if 1 < c.op % 16 {
        belt.leaves = Leaves::All;
        return places(rt, belt, c, &belt.greys);
    }
    let state = belt.state;
    let out = up_to_mut(c.b, &mut belt.out);
    let values = up_to_mut(belt.lent.values, &mut belt.greys);
    let positions = up_to_mut(belt.lent.positions, &mut belt.positions);
    let starts = up_to_mut(belt.lent.starts, &mut belt.starts);
    let lengths = up_to_mut(belt.lent.lengths, &mut belt.lengths);
    let lent = Lent {
        values,
        positions,
        starts,
        lengths,
    };
    let s = if is_row(c) {
        picture::row(state, given, out, lent)
    } else {
        picture::drain(state, out, lent)
    };
    tell(rt, c, s, out)?;
    belt.step(s);
    Ok(())
}

// The same on floats: a row's pixels are of the bytes that are given.
pub fn rate(rt: &impl Print, belt: &mut Belt, c: Command, given: &[u8]) -> io::Result<()> {
    if 1 < c.op % 16 {
        belt.leaves = Leaves::All;
        return places(rt, belt, c, &belt.rates);
    }
    let mut pixels = [0.0f32; 1024];
    for (i, pixel) in pixels.iter_mut().enumerate() {
        *pixel = sample::rate::from_bytes(&bytes_at::<4>(given, i * 4), 0);
    }
    let state = belt.state;
    let out = up_to_mut(c.b, &mut belt.came);
    let values = up_to_mut(belt.lent.values, &mut belt.rates);
    let positions = up_to_mut(belt.lent.positions, &mut belt.positions);
    let starts = up_to_mut(belt.lent.starts, &mut belt.starts);
    let lengths = up_to_mut(belt.lent.lengths, &mut belt.lengths);
    let lent = Lent {
        values,
        positions,
        starts,
        lengths,
    };
    let s = if is_row(c) {
        picture::row(state, up_to(c.a, &pixels), out, lent)
    } else {
        picture::drain(state, out, lent)
    };
    tell(rt, c, s, out)?;
    belt.step(s);
    Ok(())
}
