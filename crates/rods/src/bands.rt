// Pictures of 7 columns and 5 rows, of which only a band is counted.
use crate::ways;
use crate::ways::{Pair, Rod};
use std::io;

// The residue 15 where columns 2 to 4 are counted, 25 where 1 to 5 are.
const ROW: Pair = (&[9; 7], &[1, 2, 3, 4, 5, 6, 7]);

// Lighter in columns 1 and 5.
const BESIDE: Pair = (&[9; 7], &[1, 10, 3, 4, 5, 10, 7]);

// Lighter in all columns but one.
const LIGHTER: Pair = (&[9; 7], &[10, 10, 10, 0, 10, 10, 10]);

const SHORT: Pair = (&[9; 7], &[1, 2, 3, 4, 5, 6]);

fn begin(rt: &impl Print, name: &str, limit: u64) -> io::Result<Rod> {
    ways::start(rt, name, 1, 1, 1, 0, 7, 5, limit)
}

// Columns 2 to 4 of rows 1 to 3 are counted.
pub fn rows(rt: &impl Print) -> io::Result<()> {
    let mut rod = begin(rt, "a band, limit 45", 45)?;
    rod.pairs(rt, &[SHORT, LIGHTER, SHORT, LIGHTER, ROW])?;
    rod.pairs(rt, &[BESIDE, ROW, SHORT, LIGHTER])?;
    let mut rod = begin(rt, "a band, limit 44", 44)?;
    rod.pairs(rt, &[ROW, ROW, ROW, ROW, ROW, SHORT])
}

// Extents that differ.
pub fn sides(rt: &impl Print) -> io::Result<()> {
    let five = [ROW; 5];
    ways::start(rt, "left 2, down 1", 2, 0, 0, 1, 7, 5, 45)?.pairs(rt, &five)?;
    ways::start(rt, "right 2, up 1", 0, 2, 1, 0, 7, 5, 44)?.pairs(rt, &five)?;
    ways::start(rt, "left 1, up 2", 1, 0, 2, 0, 7, 5, 25)?.pairs(rt, &five)?;
    ways::start(rt, "right 1, down 2", 0, 1, 0, 2, 7, 5, 24)?.pairs(rt, &five)
}
