// Case 12 on a picture of floats, through a window down and a look-ahead: what a refused row left in a column's queue would come out with the rows after it.
use picture::{Lent, State, Stepped};
use show::{Row, Told};
use std::io;

// A run over a picture of floats, and its output row.
#[derive(Clone, Copy)]
struct Rates {
    state: State,
    out: [f32; 3],
    values: [f32; 9],
    positions: [u8; 9],
    starts: [u8; 3],
    lengths: [u8; 3],
}

// A dilation with left 1, up 1 and down 1 over 4 rows: 3 cells to a column, and the look-ahead 1.
fn begin(rt: &impl Print) -> io::Result<Rates> {
    let mut starts = [0u8; 3];
    let mut lengths = [0u8; 3];
    let p = crate::single(1, 0, 1, 1);
    let s = picture::start(p, 1, 3, 4, 9, &mut starts, &mut lengths);
    show::started(rt, "case 12, floats", s)?;
    Ok(Rates {
        state: s.state,
        out: [0.0; 3],
        values: [0.0; 9],
        positions: [0; 9],
        starts: starts,
        lengths: lengths,
    })
}

impl Rates {
    // What a step answered, and the output row after it.
    fn told(&mut self, rt: &impl Print, s: Stepped) -> io::Result<()> {
        self.state = s.state;
        println!(rt; "{}; out{}", Told(s.answer), Row(&self.out))
    }

    fn read(&mut self, rt: &impl Print, row: [f32; 3]) -> io::Result<()> {
        print!(rt; "rate picture, row{}: ", Row(&row))?;
        let s = picture::row(
            self.state,
            &row,
            &mut self.out,
            Lent {
                values: &mut self.values,
                positions: &mut self.positions,
                starts: &mut self.starts,
                lengths: &mut self.lengths,
            },
        );
        self.told(rt, s)
    }

    fn drain(&mut self, rt: &impl Print) -> io::Result<()> {
        print!(rt; "rate picture, drain: ")?;
        let s = picture::drain(
            self.state,
            &mut self.out,
            Lent {
                values: &mut self.values,
                positions: &mut self.positions,
                starts: &mut self.starts,
                lengths: &mut self.lengths,
            },
        );
        self.told(rt, s)
    }
}

// A row with a not-a-number in its last column. Its other pixels are larger than all of the picture, so one that got into a queue would be in every output row after it.
const SPOILED: [f32; 3] = [64.0, 64.0, 0.0 / 0.0];

const PICTURE: [[f32; 3]; 4] = [
    [2.5, -1.0, 0.5],
    [-1.0, 0.5, 2.5],
    [0.25, -3.0, 3.0],
    [0.375, -2.0, 0.75],
];

// Before each row one with a not-a-number, and then the rows alone.
pub fn case_12(rt: &impl Print) -> io::Result<()> {
    let mut run = begin(rt)?;
    let mut alone = run;
    println!(rt; "with a not-a-number first")?;
    for row in PICTURE {
        run.read(rt, SPOILED)?;
        run.read(rt, row)?;
    }
    run.drain(rt)?;
    println!(rt; "alone")?;
    for row in PICTURE {
        alone.read(rt, row)?;
    }
    alone.drain(rt)
}
