// The dark residue of single rows, by the call and by the one that C programs link. A refused call from C leaves 77 where it stood.
#![tactic(auto)]

use residue::Residue;
use show::Quiet;
use std::{fmt, io};

// What the call answers.
#[derive(Clone, Copy)]
struct Said(Residue);

impl fmt::Display for Said {
    fn fmt<W: fmt::Write>(&self, f: &mut fmt::Formatter<W>) -> fmt::Result {
        match self.0 {
            Residue::Sum(sum) => write!(f, "sum {sum}"),
            Residue::Refused(number) => write!(f, "refused {number}"),
        }
    }
}

fn ask(
    rt: &impl Print,
    name: &str,
    left: u8,
    right: u8,
    up: u8,
    down: u8,
    row: usize,
    rows: usize,
    closed: &[u8],
    input: &[u8],
) -> io::Result<()> {
    let own = residue::dark(left, right, up, down, row, rows, closed, input);
    let mut sum = 77;
    let number = firmware::kelafshir_dark(
        left, right, up, down, row, rows, closed, input, &mut sum,
    );
    println!(rt; "{name}: {}; from C {number} and {sum}", Said(own))
}

// With up 1 and down 0.
fn dark(
    rt: &impl Print,
    name: &str,
    left: u8,
    right: u8,
    row: usize,
    rows: usize,
    closed: &[u8],
    input: &[u8],
) -> io::Result<()> {
    ask(rt, name, left, right, 1, 0, row, rows, closed, input)
}

// Rows of the picture of 5 rows of 7 columns, and where there is no such row.
fn rows(rt: &impl Print) -> io::Result<()> {
    let closed = [9u8; 7];
    let input = [1u8, 2, 3, 4, 5, 6, 7];
    dark(rt, "row 0 of 5", 1, 1, 0, 5, &closed, &input)?;
    dark(rt, "row 1 of 5", 1, 1, 1, 5, &closed, &input)?;
    dark(rt, "row 2 of 5", 1, 1, 2, 5, &closed, &input)?;
    dark(rt, "row 3 of 5", 1, 1, 3, 5, &closed, &input)?;
    dark(rt, "row 4 of 5", 1, 1, 4, 5, &closed, &input)?;
    dark(rt, "row 5 of 5", 1, 1, 5, 5, &closed, &input)?;
    dark(rt, "row 0 of 0", 1, 1, 0, 0, &closed, &input)?;
    dark(rt, "row 0 of 65536", 1, 1, 0, 65536, &closed, &input)?;
    dark(rt, "row 0 of 2", 1, 1, 0, 2, &closed, &input)?;
    dark(rt, "row 1 of 2", 1, 1, 1, 2, &closed, &input)?;
    dark(rt, "row 1 of 3", 1, 1, 1, 3, &closed, &input)?;
    dark(
        rt,
        "row 65533 of 65535",
        1,
        1,
        65533,
        65535,
        &closed,
        &input,
    )?;
    dark(
        rt,
        "row 65534 of 65535",
        1,
        1,
        65534,
        65535,
        &closed,
        &input,
    )
}

// A pixel of the input that is lighter than the closed one.
fn lighter(rt: &impl Print) -> io::Result<()> {
    let closed = [9u8; 7];
    let first = [10u8, 2, 3, 4, 5, 6, 7];
    let middle = [1u8, 2, 3, 10, 5, 6, 7];
    let last = [1u8, 2, 3, 4, 10, 6, 7];
    let next = [1u8, 2, 3, 4, 5, 10, 7];
    dark(rt, "column 0 lighter", 1, 1, 2, 5, &closed, &first)?;
    dark(rt, "column 3 lighter", 1, 1, 2, 5, &closed, &middle)?;
    dark(rt, "column 4 lighter", 1, 1, 2, 5, &closed, &last)?;
    dark(rt, "column 5 lighter", 1, 1, 2, 5, &closed, &next)?;
    dark(
        rt,
        "column 3 of row 0 lighter",
        1,
        1,
        0,
        5,
        &closed,
        &middle,
    )
}

fn widths(rt: &impl Print) -> io::Result<()> {
    let closed = [9u8; 7];
    let input = [1u8, 2, 3, 4, 5, 6, 7];
    dark(rt, "4 columns", 1, 1, 2, 5, &closed[..4], &input[..4])?;
    dark(rt, "5 columns", 1, 1, 2, 5, &closed[..5], &input[..5])?;
    dark(rt, "no column", 0, 0, 2, 5, &closed[..0], &input[..0])?;
    dark(
        rt,
        "1 column, all of it",
        0,
        0,
        2,
        5,
        &closed[..1],
        &input[..1],
    )?;
    let wide = [9u8; 4097];
    let dim = [0u8; 4097];
    dark(rt, "124 columns", 31, 31, 1, 3, &wide[..124], &dim[..124])?;
    dark(rt, "125 columns", 31, 31, 1, 3, &wide[..125], &dim[..125])?;
    dark(
        rt,
        "4096 columns",
        31,
        31,
        1,
        3,
        &wide[..4096],
        &dim[..4096],
    )?;
    dark(rt, "4097 columns", 31, 31, 1, 3, &wide, &dim)?;
    let light = [255u8; 4096];
    dark(
        rt,
        "4096 columns, all of them",
        0,
        0,
        1,
        3,
        &light,
        &dim[..4096],
    )
}

// Four extents that differ: columns 2 to 4, and rows 2 and 3 of 6.
fn sides(rt: &impl Print) -> io::Result<()> {
    let closed = [9u8; 7];
    let input = [1u8, 2, 3, 4, 5, 6, 7];
    ask(rt, "row 1 of 6, down 2", 0, 2, 0, 2, 1, 6, &closed, &input)?;
    ask(rt, "row 2 of 6, down 2", 0, 2, 0, 2, 2, 6, &closed, &input)?;
    ask(rt, "row 3 of 6, up 2", 2, 0, 2, 0, 3, 6, &closed, &input)?;
    ask(rt, "row 4 of 6, up 2", 2, 0, 2, 0, 4, 6, &closed, &input)?;
    ask(rt, "right 32", 0, 32, 0, 0, 0, 5, &closed, &input)?;
    ask(rt, "up 32", 0, 0, 32, 0, 0, 5, &closed, &input)?;
    ask(rt, "down 32", 0, 0, 0, 32, 0, 5, &closed, &input)
}

// Two at once.
fn orders(rt: &impl Print) -> io::Result<()> {
    let closed = [9u8; 7];
    let input = [1u8, 2, 10, 4, 5, 6, 7];
    dark(rt, "left 32 before no rows", 32, 1, 0, 0, &closed, &input)?;
    dark(
        rt,
        "right 32 before no columns",
        1,
        32,
        0,
        5,
        &closed[..0],
        &input[..0],
    )?;
    dark(
        rt,
        "row 5 of 5 before 6 columns",
        1,
        1,
        5,
        5,
        &closed,
        &input[..6],
    )?;
    dark(
        rt,
        "3 columns before an empty band",
        1,
        1,
        2,
        5,
        &closed[..4],
        &input[..3],
    )?;
    dark(
        rt,
        "an empty band before a lighter column",
        1,
        1,
        2,
        5,
        &closed[..4],
        &input[..4],
    )?;
    dark(
        rt,
        "6 columns before a lighter one",
        1,
        1,
        2,
        5,
        &closed,
        &input[..6],
    )
}

fn all(rt: &impl Print) -> io::Result<()> {
    rows(rt)?;
    lighter(rt)?;
    widths(rt)?;
    sides(rt)?;
    orders(rt)
}

fn main(rt: HostRuntime) {
    let _ = all(&Quiet(&rt));
}
