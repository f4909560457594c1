// Steps, on pictures of either kind of sample.
use crate::head::Head;
use crate::input;
use crate::kind::Pixel;
use crate::told::Whole;
use picture::{Lent, OriginLent, OriginRows, State, Stepped};
use show::{Row, Told};
use std::{fmt, io};

// A row or a drain, and each asking for origins.
#[derive(Clone, Copy, Debug, PartialEq, Eq)]
enum Call {
    Row,
    Drain,
    OriginRow,
    OriginDrain,
}

impl From<u8> for Call {
    fn from(command: u8) -> Call {
        match command % 4 {
            0 => Call::Row,
            1 => Call::Drain,
            2 => Call::OriginRow,
            _ => Call::OriginDrain,
        }
    }
}

impl fmt::Display for Call {
    fn fmt<W: fmt::Write>(&self, f: &mut fmt::Formatter<W>) -> fmt::Result {
        match self {
            Call::Row => write!(f, "row"),
            Call::Drain => write!(f, "drain"),
            Call::OriginRow => write!(f, "origin row"),
            Call::OriginDrain => write!(f, "origin drain"),
        }
    }
}

// What a call is lent: a row, the rows that come out, and the memory.
#[derive(Drop)]
struct Loan<'a, S> {
    pixels: &'a [S],
    out: &'a mut [S],
    rows: &'a mut [usize],
    from: &'a mut [u16],
    values: &'a mut [S],
    positions: &'a mut [u8],
    columns: &'a mut [u16],
    starts: &'a mut [u8],
    lengths: &'a mut [u8],
}

impl<S: Pixel> Loan<'_, S> {
    // A row, or a drain.
    fn step(&mut self, call: Call, s: State) -> Stepped {
        let lent = Lent {
            values: &mut *self.values,
            positions: &mut *self.positions,
            starts: &mut *self.starts,
            lengths: &mut *self.lengths,
        };
        if call == Call::Row {
            return picture::row(s, self.pixels, self.out, lent);
        }
        picture::drain(s, self.out, lent)
    }

    // The same, asking for origins.
    fn origin_step(&mut self, call: Call, s: State) -> Stepped {
        let rows = OriginRows {
            pixels: &mut *self.out,
            rows: &mut *self.rows,
            columns: &mut *self.from,
        };
        let lent = OriginLent {
            values: &mut *self.values,
            positions: &mut *self.positions,
            columns: &mut *self.columns,
            starts: &mut *self.starts,
            lengths: &mut *self.lengths,
        };
        if call == Call::OriginRow {
            return picture::origin_row(s, self.pixels, rows, lent);
        }
        picture::origin_drain(s, rows, lent)
    }

    fn call(&mut self, call: Call, s: State) -> Stepped {
        match call {
            Call::Row | Call::Drain => self.step(call, s),
            Call::OriginRow | Call::OriginDrain => self.origin_step(call, s),
        }
    }

    fn tell(&self, rt: &impl Print) -> io::Result<()> {
        print!(rt; "; out{}; origin rows{}", Row(self.out), Row(self.rows))?;
        print!(rt;
            "; origin columns{}; values{}",
            Row(self.from),
            Row(self.values)
        )?;
        print!(rt;
            "; positions{}; columns{}",
            Row(self.positions),
            Row(self.columns)
        )?;
        print!(rt;
            "; starts{}; lengths{}",
            Row(self.starts),
            Row(self.lengths)
        )
    }
}

// A step, and its line. There is room for the row, the output row and the cells' values; what a step is lent is read, slice after slice.
fn step<S: Pixel>(
    rt: &impl Input,
    to: &impl Print,
    head: &Head,
    pixels: &mut [S],
    out: &mut [S],
    values: &mut [S],
) -> io::Result<()> {
    let mut rows = [0usize; 4096];
    let mut from = [0u16; 4096];
    let mut positions = [0u8; 4096];
    let mut columns = [0u16; 4096];
    let mut starts = [0u8; 4096];
    let mut lengths = [0u8; 4096];
    let mut loan = Loan {
        pixels: input::slice(rt, head.lent(0), pixels),
        out: input::slice(rt, head.lent(1), out),
        rows: input::slice(rt, head.lent(2), &mut rows),
        from: input::slice(rt, head.lent(3), &mut from),
        values: input::slice(rt, head.lent(4), values),
        positions: input::slice(rt, head.lent(5), &mut positions),
        columns: input::slice(rt, head.lent(6), &mut columns),
        starts: input::slice(rt, head.lent(7), &mut starts),
        lengths: input::slice(rt, head.lent(8), &mut lengths),
    };
    let call = Call::from(head.command());
    let s = loan.call(call, head.state());
    print!(to;
        "{} {call}: {}{}",
        S::name(),
        Told(s.answer),
        Whole(s.state)
    )?;
    loan.tell(to)
}

pub fn grey(rt: &impl Input, to: &impl Print, head: &Head) -> io::Result<()> {
    step(
        rt,
        to,
        head,
        &mut [0u8; 4096],
        &mut [0; 4096],
        &mut [0; 4096],
    )
}

pub fn rate(rt: &impl Input, to: &impl Print, head: &Head) -> io::Result<()> {
    step(
        rt,
        to,
        head,
        &mut [0.0f32; 4096],
        &mut [0.0; 4096],
        &mut [0.0; 4096],
    )
}
