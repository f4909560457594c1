// Pictures: case 11's starts, what to lend, and case 12 on a picture of floats. The output row is shown after every call: it stays as it was where no row came.
#![tactic(auto)]

use morph::Kind;
use plan::{Plan, Stage};
use show::Quiet;
use std::io;

mod rates; // rates.rt: case 12
mod starts; // starts.rt: case 11, and what to lend

// A plan of one dilation.
fn single(left: u8, right: u8, up: u8, down: u8) -> Plan {
    let mut p = plan::empty();
    p.count = 1;
    p.stages[0] = Stage {
        kind: Kind::Dilation,
        left: left,
        right: right,
        up: up,
        down: down,
    };
    p
}

fn all(rt: &impl Print) -> io::Result<()> {
    starts::of_extents(rt)?;
    starts::of_sizes(rt)?;
    starts::of_counts(rt)?;
    starts::of_needs(rt)?;
    rates::case_12(rt)
}

fn main(rt: HostRuntime) {
    let _ = all(&Quiet(&rt));
}
