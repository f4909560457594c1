// How the test programs write: samples and rows of them, what a call answers, and a state. Each is a value that is printed with `{}`.
#![tactic(auto)]

ghost use Rattle.std.specs.Prelude.{IsOk};

use picture::{Answer, Ending, Started, State};
use plan_record::{Plan, Stage};
use std::{fmt, io};

// ---- where to

// Writes as far as that goes: what cannot be written is let go, and the program goes on to its end, whoever hears it.
#[derive(Clone, Copy)]
pub struct Quiet<'a, P>(pub &'a P);

impl<P: Print> Print for Quiet<'_, P> {
    fn print<D: fmt::Display + Drop>(&self, value: D) -> io::Result<()>
        ensures { IsOk result }
    {
        let _ = self.0.print(value);
        Ok(())
    }

    fn println<D: fmt::Display + Drop>(&self, value: D) -> io::Result<()>
        ensures { IsOk result }
    {
        let _ = self.0.println(value);
        Ok(())
    }

    fn write_all(&self, bytes: &[u8]) -> io::Result<()>
        ensures { IsOk result }
    {
        let _ = self.0.write_all(bytes);
        Ok(())
    }
}

// ---- what

// What is told of a sample, a position or a number.
pub trait Shown: Copy {
    fn tell<W: fmt::Write>(self, f: &mut fmt::Formatter<W>) -> fmt::Result;
}

impl Shown for u8 {
    fn tell<W: fmt::Write>(self, f: &mut fmt::Formatter<W>) -> fmt::Result {
        write!(f, "{self}")
    }
}

impl Shown for u16 {
    fn tell<W: fmt::Write>(self, f: &mut fmt::Formatter<W>) -> fmt::Result {
        write!(f, "{self}")
    }
}

impl Shown for usize {
    fn tell<W: fmt::Write>(self, f: &mut fmt::Formatter<W>) -> fmt::Result {
        write!(f, "{self}")
    }
}

// A float is told by its four bytes, high byte first.
impl Shown for f32 {
    fn tell<W: fmt::Write>(self, f: &mut fmt::Formatter<W>) -> fmt::Result {
        let mut bytes = [0u8; 4];
        sample::rate::to_bytes(self, &mut bytes, 0);
        write!(f, "{:08x}", u32::from_le_bytes(bytes))
    }
}

// One of them.
#[derive(Clone, Copy)]
pub struct One<T>(pub T);

impl<T: Shown> fmt::Display for One<T> {
    fn fmt<W: fmt::Write>(&self, f: &mut fmt::Formatter<W>) -> fmt::Result {
        self.0.tell(f)
    }
}

// A row of them, each behind a blank.
#[derive(Clone, Copy)]
pub struct Row<'a, T>(pub &'a [T]);

impl<T: Shown> fmt::Display for Row<'_, T> {
    fn fmt<W: fmt::Write>(&self, f: &mut fmt::Formatter<W>) -> fmt::Result {
        for each in self.0 {
            write!(f, " {}", One(*each))?;
        }
        Ok(())
    }
}

// What a step that gave no value says.
#[derive(Clone, Copy)]
pub struct NotYet(pub usize);

impl fmt::Display for NotYet {
    fn fmt<W: fmt::Write>(&self, f: &mut fmt::Formatter<W>) -> fmt::Result {
        write!(f, "not yet, comparisons {}", self.0)
    }
}

// A refusal by its number, and the column or the position that it names.
#[derive(Clone, Copy)]
pub struct Refused(pub u8, pub usize);

impl fmt::Display for Refused {
    fn fmt<W: fmt::Write>(&self, f: &mut fmt::Formatter<W>) -> fmt::Result {
        write!(f, "refused {} at {}", self.0, self.1)
    }
}

// A value of another crate, which says nothing of how it is printed.
#[derive(Clone, Copy)]
pub struct Told<T>(pub T);

// A picture's step.
impl fmt::Display for Told<Answer> {
    fn fmt<W: fmt::Write>(&self, f: &mut fmt::Formatter<W>) -> fmt::Result {
        match self.0 {
            Answer::Row {
                number,
                comparisons,
            } => write!(f, "row {number}, comparisons {comparisons}"),
            Answer::NotYet { comparisons } => write!(f, "{}", NotYet(comparisons)),
            Answer::Refused { number, column } => write!(f, "{}", Refused(number, column)),
        }
    }
}

// ---- a run's state

impl fmt::Display for Told<Ending> {
    fn fmt<W: fmt::Write>(&self, f: &mut fmt::Formatter<W>) -> fmt::Result {
        match self.0 {
            Ending::Fixed => write!(f, "fixed"),
            Ending::Open => write!(f, "open"),
            Ending::Stopped => write!(f, "stopped"),
        }
    }
}

// The state's fields but for the plan.
impl fmt::Display for Told<State> {
    fn fmt<W: fmt::Write>(&self, f: &mut fmt::Formatter<W>) -> fmt::Result {
        let s = self.0;
        write!(
            f,
            "; {}, sample {}, width {}, rows {}, step {}",
            Told(s.ending),
            s.sample,
            s.width,
            s.rows,
            s.step
        )
    }
}

impl fmt::Display for Told<Stage> {
    fn fmt<W: fmt::Write>(&self, f: &mut fmt::Formatter<W>) -> fmt::Result {
        let s = self.0;
        let kind = s.kind as u8;
        write!(f, " {kind} {} {} {} {}", s.left, s.right, s.up, s.down)
    }
}

// All 16 places of a plan, and how many of them are its stages.
impl fmt::Display for Told<Plan> {
    fn fmt<W: fmt::Write>(&self, f: &mut fmt::Formatter<W>) -> fmt::Result {
        write!(f, "; plan of {}:", self.0.count)?;
        for stage in &self.0.stages {
            write!(f, "{}", Told(*stage))?;
        }
        Ok(())
    }
}

// A picture's start: a line, under a name.
pub fn started(rt: &impl Print, name: &str, s: Started) -> std::io::Result<()> {
    println!(rt; "picture start, {name}: {}", s.number)
}
