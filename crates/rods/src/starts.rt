// Starts: a refused one hands back zeros, its limit too.
use crate::ways;
use std::io;

// With the limit 77, and a pair on what the start hands back.
fn start(
    rt: &impl Print,
    name: &str,
    left: u8,
    right: u8,
    up: u8,
    down: u8,
    width: usize,
    rows: usize,
) -> io::Result<()> {
    let mut rod = ways::start(rt, name, left, right, up, down, width, rows, 77)?;
    rod.pair(rt, &[4, 4], &[1, 1])
}

pub fn extents(rt: &impl Print) -> io::Result<()> {
    start(rt, "extents 31", 31, 31, 31, 31, 4096, 65535)?;
    start(rt, "left 32", 32, 0, 0, 0, 4096, 65535)?;
    start(rt, "right 32", 0, 32, 0, 0, 4096, 65535)?;
    start(rt, "up 32", 0, 0, 32, 0, 4096, 65535)?;
    start(rt, "down 32", 0, 0, 0, 32, 4096, 65535)?;
    start(rt, "left 255 and right 1", 255, 1, 0, 0, 4096, 65535)
}

pub fn sizes(rt: &impl Print) -> io::Result<()> {
    start(rt, "1 column and 1 row", 0, 0, 0, 0, 1, 1)?;
    start(rt, "no column", 0, 0, 0, 0, 0, 3)?;
    start(rt, "4097 columns", 0, 0, 0, 0, 4097, 3)?;
    start(rt, "4294967298 columns", 0, 0, 0, 0, 4294967298, 3)?;
    start(rt, "no row", 0, 0, 0, 0, 2, 0)?;
    start(rt, "65535 rows", 0, 0, 0, 0, 2, 65535)?;
    start(rt, "65536 rows", 0, 0, 0, 0, 2, 65536)?;
    start(rt, "4294967299 rows", 0, 0, 0, 0, 2, 4294967299)
}

pub fn empty_bands(rt: &impl Print) -> io::Result<()> {
    start(rt, "left 1 of 2 columns", 1, 0, 0, 0, 2, 3)?;
    start(rt, "right 1 of 2 columns", 0, 1, 0, 0, 2, 3)?;
    start(rt, "left 1 of 3 columns", 1, 0, 0, 0, 3, 3)?;
    start(rt, "up 1 of 2 rows", 0, 0, 1, 0, 2, 2)?;
    start(rt, "down 1 of 2 rows", 0, 0, 0, 1, 2, 2)?;
    start(rt, "up 1 of 3 rows", 0, 0, 1, 0, 2, 3)?;
    start(rt, "extents 31 of 124 columns", 31, 31, 31, 31, 124, 125)?;
    start(rt, "extents 31 of 124 rows", 31, 31, 31, 31, 125, 124)?;
    start(rt, "extents 31 of 125 of both", 31, 31, 31, 31, 125, 125)
}

// Two at once, and three.
pub fn orders(rt: &impl Print) -> io::Result<()> {
    start(rt, "left 32 before no column", 32, 0, 0, 0, 0, 3)?;
    start(rt, "down 32 before 65536 rows", 0, 0, 0, 32, 2, 65536)?;
    start(rt, "up 32 before an empty band", 0, 0, 32, 0, 2, 64)?;
    start(rt, "4097 columns before an empty band", 0, 0, 1, 0, 4097, 2)?;
    start(rt, "65536 rows before an empty band", 1, 0, 0, 0, 2, 65536)?;
    start(rt, "right 32 before both", 0, 32, 1, 0, 4097, 2)
}
