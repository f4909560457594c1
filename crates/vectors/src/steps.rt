// Lines, step by step: which starts are accepted, line P and calls out of turn, case 12 for a line, and negative zero. A float is shown by its four bytes, high byte first.
use crate::kind::Pixel;
use line::{Answer, Line};
use show::{NotYet, One, Refused, Shown};
use std::{fmt, io};

fn start<S: Pixel>(
    rt: &impl Print,
    name: &str,
    kind: u8,
    left: u8,
    right: u8,
    pixels: usize,
) -> io::Result<()> {
    let s = line::start::<S>(kind, left, right, pixels);
    println!(rt; "{} start, {name}: {}", S::name(), s.number)
}

pub fn starts<S: Pixel>(rt: &impl Print) -> io::Result<()> {
    start::<S>(rt, "extents 31", 0, 31, 31, 1)?;
    start::<S>(rt, "left 32", 0, 32, 0, 1)?;
    start::<S>(rt, "right 32", 1, 0, 32, 1)?;
    start::<S>(rt, "65535 pixels", 1, 1, 2, 65535)?;
    start::<S>(rt, "65536 pixels", 1, 1, 2, 65536)?;
    start::<S>(rt, "no pixel", 1, 1, 2, 0)?;
    start::<S>(rt, "kind 2 before left 32", 2, 32, 0, 0)?;
    start::<S>(rt, "left 32 before no pixel", 0, 32, 0, 0)
}

// What a step answers.
#[derive(Clone, Copy)]
struct Said<S>(Answer<S>);

impl<S: Shown> fmt::Display for Said<S> {
    fn fmt<W: fmt::Write>(&self, f: &mut fmt::Formatter<W>) -> fmt::Result {
        match self.0 {
            Answer::Pixel {
                value,
                position,
                number,
                comparisons,
            } => {
                write!(f, "pixel {number} is {}@{position}", One(value))?;
                write!(f, ", comparisons {comparisons}")
            }
            Answer::NotYet { comparisons } => write!(f, "{}", NotYet(comparisons)),
            Answer::Refused { refusal, position } => {
                write!(f, "{}", Refused(refusal.number(), position))
            }
        }
    }
}

fn read<S: Pixel>(rt: &impl Print, l: &mut Line<S>, v: S) -> io::Result<()> {
    let s = line::read(*l, v);
    *l = s.line;
    print!(rt; "{} line, read {}: {}", S::name(), One(v), Said(s.answer))
}

fn drain<S: Pixel>(rt: &impl Print, l: &mut Line<S>) -> io::Result<()> {
    let s = line::drain(*l);
    *l = s.line;
    print!(rt; "{} line, drain: {}", S::name(), Said(s.answer))
}

// ---- grey bytes, with the queue after each step

fn places(rt: &impl Print, l: &Line<u8>) -> io::Result<()> {
    print!(rt; "; queue")?;
    for place in 0..3 {
        match line::read_out(*l, place) {
            Ok(e) => print!(rt; " {}@{}", e.value, e.position)?,
            Err(refusal) => print!(rt; " -{}", refusal.number())?,
        }
    }
    println!(rt; "")
}

fn reads(rt: &impl Print, l: &mut Line<u8>, pixels: &[u8]) -> io::Result<()> {
    for v in pixels {
        read(rt, l, *v)?;
        places(rt, l)?;
    }
    Ok(())
}

fn drains(rt: &impl Print, l: &mut Line<u8>) -> io::Result<()> {
    drain(rt, l)?;
    places(rt, l)
}

// Document 01's line P, dilated with left 1 and right 2, with a drain too early, a pixel too many and a drain too late.
pub fn line_p(rt: &impl Print) -> io::Result<()> {
    let mut l = line::start(1, 1, 2, 8).line;
    reads(rt, &mut l, &[3, 1, 4, 1])?;
    drains(rt, &mut l)?;
    reads(rt, &mut l, &[5, 9, 2, 6, 7])?;
    for _ in 0..2 {
        drains(rt, &mut l)?;
    }
    Ok(())
}

// A line that was refused at its start is no line: every call is refused 12.
pub fn out_of_turn(rt: &impl Print) -> io::Result<()> {
    let mut l = line::start(0, 32, 0, 1).line;
    reads(rt, &mut l, &[3])?;
    drains(rt, &mut l)
}

// ---- floats

fn read_rates(rt: &impl Print, l: &mut Line<f32>, pixels: &[f32]) -> io::Result<()> {
    for v in pixels {
        read(rt, l, *v)?;
        println!(rt; "")?;
    }
    Ok(())
}

fn drain_rates(rt: &impl Print, l: &mut Line<f32>) -> io::Result<()> {
    drain(rt, l)?;
    println!(rt; "")
}

// Case 12 for a line: a not-a-number and then the right pixel, and the right pixel alone.
pub fn case_12(rt: &impl Print) -> io::Result<()> {
    let mut l = line::start(0, 1, 1, 3).line;
    read_rates(rt, &mut l, &[2.5])?;
    let mut alone = l;
    println!(rt; "with a not-a-number first")?;
    read_rates(rt, &mut l, &[0.0 / 0.0, -1.0, 0.5])?;
    drain_rates(rt, &mut l)?;
    println!(rt; "alone")?;
    read_rates(rt, &mut alone, &[-1.0, 0.5])?;
    drain_rates(rt, &mut alone)
}

// A negative zero is read as positive zero; infinities are refused.
pub fn zeros(rt: &impl Print) -> io::Result<()> {
    let mut l = line::start(1, 0, 0, 2).line;
    read_rates(rt, &mut l, &[-0.0, 1.0 / 0.0, -1.0 / 0.0, -0.0])
}
