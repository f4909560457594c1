// Whether a call left alone what it has to: sums over the memory, all of it and behind the edge.
use crate::belt::{Belt, Edge, Leaves};
use script::up_to;
use std::io;

// The number that a sample counts as.
trait Counted: Copy {
    fn pattern(self) -> u32;
}

impl Counted for u8 {
    fn pattern(self) -> u32 {
        u32::from(self)
    }
}

impl Counted for f32 {
    fn pattern(self) -> u32 {
        let mut bytes = [0; 4];
        sample::rate::to_bytes(self, &mut bytes, 0);
        u32::from_le_bytes(bytes)
    }
}

// The sum with one number more, which counts by its place.
fn mixed(sum: usize, n: u32) -> usize {
    sum % 4294967296 * 1000003 + n as usize + 1
}

// The sum with what is between two places.
fn between<T: Counted>(row: &[T], from: usize, to: usize, before: usize) -> usize {
    let mut sum = before;
    for each in up_to(to, row).iter().skip(from) {
        sum = mixed(sum, each.pattern());
    }
    sum
}

// The sum with the cells and the records between two edges.
fn sum(belt: &Belt, from: Edge, to: Edge, before: usize) -> usize {
    let greys = between(&belt.greys, from.cells, to.cells, before);
    let rates = between(&belt.rates, from.cells, to.cells, greys);
    let cells = between(&belt.positions, from.cells, to.cells, rates);
    let starts = between(&belt.starts, from.records, to.records, cells);
    between(&belt.lengths, from.records, to.records, starts)
}

fn edge_at(cells: usize, records: usize) -> Edge {
    Edge {
        cells: cells,
        records: records,
    }
}

// The sums of the memory as it is.
pub fn count(belt: &mut Belt) {
    belt.rest = sum(belt, belt.edge, edge_at(4096, 1024), 0);
    belt.all = sum(belt, edge_at(0, 0), belt.edge, belt.rest);
}

fn tell(rt: &impl Print, is_kept: bool) -> io::Result<()> {
    print!(rt; "; {}", if is_kept { "kept" } else { "CHANGED" })
}

// The line's end: whether what the last call has to leave alone is as it was; and the sums anew.
pub fn end(rt: &impl Print, belt: &mut Belt) -> io::Result<()> {
    let all = belt.all;
    let rest = belt.rest;
    count(belt);
    match belt.leaves {
        Leaves::Nothing => {}
        Leaves::All => tell(rt, belt.all == all)?,
        Leaves::Rest => tell(rt, belt.rest == rest)?,
    }
    println!(rt; "")
}
