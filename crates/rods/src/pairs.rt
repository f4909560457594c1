// Pictures of 2 columns and 3 rows, all of which is counted.
use crate::ways;
use crate::ways::{Pair, Rod};
use std::io;

// The residues 7, 6 and 0.
const FIRST: Pair = (&[5, 5], &[1, 2]);

const SECOND: Pair = (&[4, 4], &[1, 1]);

const THIRD: Pair = (&[3, 3], &[3, 3]);

// The second pair with a pixel of the input that is lighter than the closed one.
const LIGHTER: Pair = (&[4, 4], &[5, 1]);

// Rows of other lengths, one of them lighter too.
const LENGTHS: [Pair; 6] = [
    (&[4, 4, 4], &[4, 4]),
    (&[4, 4], &[4, 4, 4]),
    (&[4, 4], &[9]),
    (&[], &[4, 4]),
    (&[4, 4, 4], &[4, 4, 4]),
    (&[], &[]),
];

fn begin(rt: &impl Print, name: &str, limit: u64) -> io::Result<Rod> {
    ways::start(rt, name, 0, 0, 0, 0, 2, 3, limit)
}

fn all(rt: &impl Print, name: &str, limit: u64) -> io::Result<()> {
    begin(rt, name, limit)?.pairs(rt, &[FIRST, SECOND, THIRD])
}

// Around the sums 7 and 13, and the least and the greatest limit.
pub fn limits(rt: &impl Print) -> io::Result<()> {
    all(rt, "limit 6", 6)?;
    all(rt, "limit 7", 7)?;
    all(rt, "limit 12", 12)?;
    all(rt, "limit 13", 13)?;
    all(rt, "limit 0", 0)?;
    all(rt, "limit 18446744073709551615", 18446744073709551615)?;
    begin(rt, "limit 0 and nothing worn", 0)?.pairs(rt, &[THIRD, THIRD, THIRD])
}

// Rows of other lengths, a lighter one, and more pairs than rows: the yes stays.
pub fn after_yes(rt: &impl Print) -> io::Result<()> {
    let none: Pair = (&[], &[]);
    let mut rod = begin(rt, "limit 10, and pairs after the yes", 10)?;
    rod.pairs(rt, &[FIRST, SECOND, none, LIGHTER, THIRD])?;
    rod.pairs(rt, &[(&[4, 4, 4], &[1]), (&[], &[4, 4, 4]), THIRD])?;
    let mut rod = begin(rt, "a yes with the last row", 10)?;
    rod.pairs(rt, &[THIRD, SECOND, FIRST, none, SECOND])
}

// Between the pairs of a yes and of a no, and once all rows are read.
pub fn refusals(rt: &impl Print) -> io::Result<()> {
    begin(rt, "refused before the yes", 10)?.pairs(rt, &[FIRST, LIGHTER, SECOND])?;
    let mut rod = begin(rt, "refused before the no", 13)?;
    rod.pairs(rt, &LENGTHS)?;
    rod.pairs(rt, &[FIRST])?;
    rod.pairs(rt, &LENGTHS)?;
    rod.pairs(rt, &[LIGHTER, SECOND])?;
    rod.pairs(rt, &LENGTHS)?;
    rod.pairs(rt, &[THIRD, LIGHTER])?;
    rod.pairs(rt, &LENGTHS)?;
    rod.pairs(rt, &[THIRD])
}
