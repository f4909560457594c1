// A plan of 3 stages over a picture of grey bytes, step by step with its queues, calls out of turn, and states and records that rule 12 refuses. The output row is shown after every call: it stays as it was where no row came.
#![tactic(auto)]

use picture::{Lent, State};
use show::{Quiet, Row, Told};
use std::io;

// A run over a picture of grey bytes, and its output row.
#[derive(Clone, Copy)]
struct Greys {
    state: State,
    out: [u8; 3],
    values: [u8; 21],
    positions: [u8; 21],
    starts: [u8; 9],
    lengths: [u8; 9],
}

// Erosion with right 1 and down 1, dilation with left 1, up 1 and down 1, dilation with right 1 and up 1: 6, 9 and 6 cells at width 3, and the look-ahead 3.
fn three() -> [u8; 80] {
    let mut n = [0u8; 80];
    n[2] = 1;
    n[4] = 1;
    n[5] = 1;
    n[6] = 1;
    n[8] = 1;
    n[9] = 1;
    n[10] = 1;
    n[12] = 1;
    n[13] = 1;
    n
}

fn begin(rt: &impl Print, name: &str, sample: u8, cells: usize) -> io::Result<Greys> {
    let numbers = three();
    let mut starts = [0u8; 9];
    let mut lengths = [0u8; 9];
    let s = picture::start_numbers(3, &numbers, sample, 3, 3, cells, &mut starts, &mut lengths);
    show::started(rt, name, s)?;
    Ok(Greys {
        state: s.state,
        out: [255; 3],
        values: [0; 21],
        positions: [0; 21],
        starts: starts,
        lengths: lengths,
    })
}

impl Greys {
    // Shows a place of a queue, and says whether it is there.
    fn place(
        &self,
        rt: &impl Print,
        stage: usize,
        column: usize,
        place: usize,
    ) -> io::Result<bool> {
        let shown = picture::read_out(
            self.state,
            stage,
            column,
            place,
            &self.values,
            &self.positions,
            &self.starts,
            &self.lengths,
        );
        match shown {
            Ok(e) => {
                print!(rt; " {}@{}", e.value, e.position)?;
                Ok(true)
            }
            Err(refusal) => {
                print!(rt; " -{}", refusal.number())?;
                Ok(false)
            }
        }
    }

    // The places of a queue of column 1 from the oldest on, up to the first that is not there.
    fn places(&self, rt: &impl Print, stage: usize) -> io::Result<()> {
        for place in 0..4 {
            if !self.place(rt, stage, 1, place)? {
                break;
            }
        }
        Ok(())
    }

    // The output row, and the queues of column 1.
    fn after(&self, rt: &impl Print) -> io::Result<()> {
        print!(rt; "; out{}; queues", Row(&self.out))?;
        self.places(rt, 0)?;
        print!(rt; ",")?;
        self.places(rt, 1)?;
        print!(rt; ",")?;
        self.places(rt, 2)?;
        println!(rt; "")
    }

    fn offer(&mut self, rt: &impl Print, row: &[u8]) -> io::Result<()> {
        let s = picture::row(
            self.state,
            row,
            &mut self.out,
            Lent {
                values: &mut self.values,
                positions: &mut self.positions,
                starts: &mut self.starts,
                lengths: &mut self.lengths,
            },
        );
        self.state = s.state;
        print!(rt; "{}", Told(s.answer))?;
        self.after(rt)
    }

    fn read(&mut self, rt: &impl Print, row: [u8; 3]) -> io::Result<()> {
        print!(rt; "grey picture, row{}: ", Row(&row))?;
        self.offer(rt, &row)
    }

    fn read_short(&mut self, rt: &impl Print) -> io::Result<()> {
        print!(rt; "grey picture, a row of 2: ")?;
        self.offer(rt, &[7, 2])
    }

    fn drain(&mut self, rt: &impl Print) -> io::Result<()> {
        print!(rt; "grey picture, drain: ")?;
        let s = picture::drain(
            self.state,
            &mut self.out,
            Lent {
                values: &mut self.values,
                positions: &mut self.positions,
                starts: &mut self.starts,
                lengths: &mut self.lengths,
            },
        );
        self.state = s.state;
        print!(rt; "{}", Told(s.answer))?;
        self.after(rt)
    }

    // A step on a cell less; the run stays.
    fn too_few(&self, rt: &impl Print) -> io::Result<()> {
        let mut r = *self;
        let mut values = [0u8; 20];
        print!(rt; "grey picture, a row on 20 cells: ")?;
        let s = picture::row(
            r.state,
            &[7, 2, 9],
            &mut r.out,
            Lent {
                values: &mut values,
                positions: &mut r.positions,
                starts: &mut r.starts,
                lengths: &mut r.lengths,
            },
        );
        println!(rt; "{}", Told(s.answer))
    }

    // Names of a stage, a column and a place that are not there.
    fn nowhere(&self, rt: &impl Print) -> io::Result<()> {
        print!(rt; "grey picture, stage 3, column 3, place 3:")?;
        self.place(rt, 3, 0, 0)?;
        self.place(rt, 0, 3, 0)?;
        self.place(rt, 0, 0, 3)?;
        println!(rt; "")
    }

    // The picture without calls out of turn.
    fn in_turn(&mut self, rt: &impl Print) -> io::Result<()> {
        for row in [[7, 2, 9], [8, 0, 6], [3, 5, 1]] {
            self.read(rt, row)?;
        }
        for _ in 0..3 {
            self.drain(rt)?;
        }
        Ok(())
    }
}

// A picture of 3 rows through the plan, with calls out of turn between them.
fn three_stages(rt: &impl Print) -> io::Result<()> {
    begin(rt, "three stages on 20 cells", 0, 20)?;
    let mut r = begin(rt, "three stages on 21 cells", 0, 21)?;
    r.too_few(rt)?;
    r.read(rt, [7, 2, 9])?;
    r.read_short(rt)?;
    r.drain(rt)?;
    r.read(rt, [8, 0, 6])?;
    r.drain(rt)?;
    r.read(rt, [3, 5, 1])?;
    r.read(rt, [3, 5, 1])?;
    r.read_short(rt)?;
    for _ in 0..3 {
        r.drain(rt)?;
    }
    r.read(rt, [3, 5, 1])?;
    r.drain(rt)?;
    r.nowhere(rt)
}

// A state of floats on the grey calls, and a state that was refused at its start.
fn other_states(rt: &impl Print) -> io::Result<()> {
    let mut floats = begin(rt, "three stages of floats", 1, 21)?;
    floats.read(rt, [1, 2, 3])?;
    floats.drain(rt)?;
    let mut none = begin(rt, "sample kind 2", 2, 21)?;
    none.read(rt, [1, 2, 3])?;
    none.drain(rt)
}

// Records of a state as it is handed out. Document 01 gives 12 where "a queue's start is not below its places, or its length over its window (c+d+1 for both in a column ..)":
// here 2 and 4, and not 1 and 3. The order of a step is "12 for the column records, then 9 or 10", so a drain before all rows are read is refused 12 with the first and 10
// with the second. "Every refusal returns .. the state as given, and writes nothing": what the refused calls hand back, with a start that is let in, gives the rows and
// queues of the picture above. Stage 1 reads no row in the plan's first step, so its queue of length 3 stays the three cells that were lent.
fn records(rt: &impl Print) -> io::Result<()> {
    let empty = begin(rt, "records of empty queues", 0, 21)?;
    println!(rt; "start 2 of 2 places")?;
    let mut r = empty;
    r.starts[1] = 2; // of stage 0's column 1, which has 2 places
    r.read(rt, [7, 2, 9])?;
    r.drain(rt)?;
    println!(rt; "start 1 of 2 places")?;
    r.starts[1] = 1;
    r.drain(rt)?;
    r.in_turn(rt)?;
    println!(rt; "length 4 in a window of 3")?;
    let mut r = empty;
    r.lengths[4] = 4; // of stage 1's column 1, whose window is 3
    r.read(rt, [7, 2, 9])?;
    r.drain(rt)?;
    println!(rt; "length 3 in a window of 3")?;
    r.lengths[4] = 3;
    r.drain(rt)?;
    r.read(rt, [7, 2, 9])
}

fn all(rt: &impl Print) -> io::Result<()> {
    three_stages(rt)?;
    other_states(rt)?;
    records(rt)
}

fn main(rt: HostRuntime) {
    let _ = all(&Quiet(&rt));
}
