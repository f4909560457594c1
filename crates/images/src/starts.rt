// Which starts of a picture are accepted, and what to lend for it.
use std::io;

fn extents(rt: &impl Print, name: &str, left: u8, right: u8, up: u8, down: u8) -> io::Result<()> {
    let mut starts = [0u8; 1];
    let mut lengths = [0u8; 1];
    let p = crate::single(left, right, up, down);
    let s = picture::start(p, 0, 1, 1, 63, &mut starts, &mut lengths);
    show::started(rt, name, s)
}

fn size(
    rt: &impl Print,
    name: &str,
    sample: u8,
    width: usize,
    rows: usize,
    cells: usize,
) -> io::Result<()> {
    let mut starts = [0u8; 4096];
    let mut lengths = [0u8; 4096];
    let p = crate::single(1, 0, 0, 0);
    let s = picture::start(p, sample, width, rows, cells, &mut starts, &mut lengths);
    show::started(rt, name, s)
}

// A plan in numbers, of erosions whose extents are all 0.
fn stages(rt: &impl Print, name: &str, count: u8) -> io::Result<()> {
    let numbers = [0u8; 80];
    let mut starts = [0u8; 16];
    let mut lengths = [0u8; 16];
    let s = picture::start_numbers(count, &numbers, 0, 1, 1, 16, &mut starts, &mut lengths);
    show::started(rt, name, s)
}

// What to lend for a dilation whose extents are alike.
fn needs(rt: &impl Print, name: &str, extent: u8, width: usize) -> io::Result<()> {
    let n = plan::needs(crate::single(extent, extent, extent, extent), width);
    println!(rt;
        "plan needs, {name}: {}, cells {}, records {}, look-ahead {}",
        n.number, n.cells, n.records, n.ahead
    )
}

// Extents up to 31 are accepted.
pub fn of_extents(rt: &impl Print) -> io::Result<()> {
    extents(rt, "extents 31", 31, 31, 31, 31)?;
    extents(rt, "left 32", 32, 0, 0, 0)?;
    extents(rt, "right 32", 0, 32, 0, 0)?;
    extents(rt, "up 32", 0, 0, 32, 0)?;
    extents(rt, "down 32", 0, 0, 0, 32)
}

// Widths up to 4,096 and 65,535 rows; 5, 4, 6 in this order.
pub fn of_sizes(rt: &impl Print) -> io::Result<()> {
    size(rt, "width 4096", 0, 4096, 1, 4096)?;
    size(rt, "width 4097", 0, 4097, 1, 5000)?;
    size(rt, "width 0", 0, 0, 1, 5000)?;
    size(rt, "65535 rows", 0, 1, 65535, 1)?;
    size(rt, "65536 rows", 0, 1, 65536, 1)?;
    size(rt, "no row", 0, 1, 0, 1)?;
    size(rt, "sample kind 2 before width 4097", 2, 4097, 1, 4096)?;
    size(rt, "width 4097 before 4096 cells", 0, 4097, 1, 4096)?;
    size(rt, "width 4096 on 4095 cells", 0, 4096, 1, 4095)
}

// Up to 16 stages.
pub fn of_counts(rt: &impl Print) -> io::Result<()> {
    stages(rt, "16 stages", 16)?;
    stages(rt, "17 stages", 17)?;
    stages(rt, "no stage", 0)
}

// 3 before 4; a refusal tells zeros.
pub fn of_needs(rt: &impl Print) -> io::Result<()> {
    needs(rt, "extents 31, width 4096", 31, 4096)?;
    needs(rt, "extents 32 before width 0", 32, 0)?;
    needs(rt, "width 4097", 1, 4097)
}
