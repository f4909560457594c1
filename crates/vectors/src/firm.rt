// The firmware's one-row filter, called as the bench calls it: cases 1 and 2, and each refusal, which leaves the output row as it was.
use show::Row;
use std::io;

fn row(rt: &impl Print, name: &str, kind: u8, left: u8, right: u8, input: &[u8]) -> io::Result<()> {
    let mut out = [255u8; 8];
    let n = firmware::kelafshir_filter_row(kind, left, right, input, &mut out);
    println!(rt; "one row, {name}: {n}, row{}", Row(&out))
}

const PIXELS: [u8; 8] = [3, 1, 4, 1, 5, 9, 2, 6];

pub fn rows(rt: &impl Print) -> io::Result<()> {
    row(rt, "case 1, eroded", 0, 1, 2, &PIXELS)?;
    row(rt, "case 2, dilated", 1, 1, 2, &PIXELS)
}

pub fn refusals(rt: &impl Print) -> io::Result<()> {
    let long = [0u8; 65536];
    row(rt, "kind 2", 2, 1, 2, &PIXELS)?;
    row(rt, "left 32", 0, 32, 2, &PIXELS)?;
    row(rt, "right 32", 0, 1, 32, &PIXELS)?;
    row(rt, "no pixel", 0, 1, 2, &[])?;
    row(rt, "65536 pixels", 0, 1, 2, &long)?;
    row(rt, "3 pixels into 8", 0, 1, 2, &[3, 1, 4])?;
    row(rt, "kind 2 before left 32", 2, 32, 2, &[])?;
    row(rt, "left 32 before no pixel", 0, 32, 2, &[])?;
    row(rt, "65536 pixels before 8", 1, 31, 31, &long)
}
