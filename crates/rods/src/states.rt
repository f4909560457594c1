// Questions that no call made: 12 where one breaks the rules, and what a pair gives where it breaks none.
use crate::ways;
use crate::ways::Rod;
use std::io;
use worn::Question;

// About 2 columns and 3 rows, all of which is counted.
fn question(limit: u64, row: usize, sum: u64) -> Question {
    Question {
        left: 0,
        right: 0,
        up: 0,
        down: 0,
        width: 2,
        rows: 3,
        limit: limit,
        row: row,
        sum: sum,
    }
}

// With a pair whose residue is 6.
fn state(rt: &impl Print, name: &str, q: Question) -> io::Result<()> {
    ways::state(rt, name, q, &[4, 4], &[1, 1])
}

pub fn rows(rt: &impl Print) -> io::Result<()> {
    state(rt, "row 2 of 3", question(13, 2, 0))?;
    state(rt, "row 3 of 3", question(13, 3, 0))?;
    state(rt, "row 4 of 3", question(13, 4, 0))?;
    state(rt, "row 65537 of 3", question(13, 65537, 0))?;
    state(rt, "row 4294967297 of 3", question(13, 4294967297, 0))?;
    state(
        rt,
        "the greatest row",
        question(13, 18446744073709551615, 0),
    )
}

// 255 x width x row is the most.
pub fn sums(rt: &impl Print) -> io::Result<()> {
    state(rt, "row 1, sum 510", question(1000, 1, 510))?;
    state(rt, "row 1, sum 511", question(1000, 1, 511))?;
    state(rt, "row 0, sum 0", question(1000, 0, 0))?;
    state(rt, "row 0, sum 1", question(1000, 0, 1))?;
    state(rt, "row 2, sum 1020", question(1026, 2, 1020))?;
    state(rt, "row 2, sum 1020", question(1025, 2, 1020))?;
    state(rt, "row 2, sum 1021", question(1026, 2, 1021))?;
    state(rt, "row 3, sum 1530", question(1530, 3, 1530))?;
    state(rt, "row 3, sum 1530", question(1529, 3, 1530))?;
    state(rt, "row 3, sum 1531", question(1530, 3, 1531))?;
    state(rt, "a limit of 2^32", question(4294967296, 1, 7))?;
    state(rt, "a sum of 2^32", question(10, 1, 4294967296))?;
    state(
        rt,
        "the greatest sum",
        question(10, 1, 18446744073709551615),
    )
}

fn closing(
    rt: &impl Print,
    name: &str,
    left: u8,
    right: u8,
    up: u8,
    down: u8,
    width: usize,
    rows: usize,
) -> io::Result<()> {
    let mut q = question(13, 0, 0);
    q.left = left;
    q.right = right;
    q.up = up;
    q.down = down;
    q.width = width;
    q.rows = rows;
    state(rt, name, q)
}

fn sized(rt: &impl Print, name: &str, width: usize, rows: usize) -> io::Result<()> {
    closing(rt, name, 0, 0, 0, 0, width, rows)
}

// Where only the pair's lengths are wrong it is 7.
pub fn sizes(rt: &impl Print) -> io::Result<()> {
    sized(rt, "width 0", 0, 3)?;
    sized(rt, "width 1", 1, 3)?;
    sized(rt, "width 4096", 4096, 3)?;
    sized(rt, "width 4097", 4097, 3)?;
    sized(rt, "width 2^32 + 2", 4294967298, 3)?;
    sized(rt, "no row", 2, 0)?;
    sized(rt, "1 row", 2, 1)?;
    sized(rt, "65535 rows", 2, 65535)?;
    sized(rt, "65536 rows", 2, 65536)?;
    sized(rt, "2^32 + 3 rows", 2, 4294967299)
}

pub fn extents(rt: &impl Print) -> io::Result<()> {
    closing(rt, "extents 31", 31, 31, 31, 31, 4096, 65535)?;
    closing(rt, "left 32", 32, 0, 0, 0, 4096, 65535)?;
    closing(rt, "right 32", 0, 32, 0, 0, 4096, 65535)?;
    closing(rt, "up 32", 0, 0, 32, 0, 4096, 65535)?;
    closing(rt, "down 32", 0, 0, 0, 32, 4096, 65535)?;
    closing(rt, "left 1 of 2 columns", 1, 0, 0, 0, 2, 3)?;
    closing(rt, "right 1 of 2 columns", 0, 1, 0, 0, 2, 3)?;
    closing(rt, "left 1 of 3 columns", 1, 0, 0, 0, 3, 3)?;
    closing(rt, "up 1 of 2 rows", 0, 0, 1, 0, 2, 2)?;
    closing(rt, "down 1 of 2 rows", 0, 0, 0, 1, 2, 2)?;
    closing(rt, "up 1 of 3 rows", 0, 0, 1, 0, 2, 3)
}

// With rows of 3 columns, one of them lighter.
fn longer(rt: &impl Print, name: &str, q: Question) -> io::Result<()> {
    ways::state(rt, name, q, &[4, 4, 4], &[5, 1, 1])
}

// With a column that is lighter.
fn lighter(rt: &impl Print, name: &str, q: Question) -> io::Result<()> {
    ways::state(rt, name, q, &[4, 4], &[5, 1])
}

// Two at once; after a yes only 12 is said.
pub fn orders(rt: &impl Print) -> io::Result<()> {
    state(rt, "over the limit and row 4 of 3", question(10, 4, 13))?;
    state(rt, "over the limit and sum 511", question(10, 1, 511))?;
    state(rt, "over the limit and all rows read", question(10, 3, 13))?;
    longer(rt, "over the limit and 3 columns", question(10, 2, 13))?;
    lighter(rt, "over the limit and lighter", question(10, 2, 13))?;
    longer(rt, "row 4 of 3 before 3 columns", question(13, 4, 0))?;
    lighter(rt, "sum 511 before lighter", question(1000, 1, 511))?;
    state(rt, "sum 1531 before all rows read", question(2000, 3, 1531))?;
    longer(rt, "all rows read before 3 columns", question(13, 3, 0))?;
    lighter(rt, "all rows read before lighter", question(13, 3, 0))?;
    longer(rt, "3 columns before lighter", question(13, 1, 0))?;
    lighter(rt, "lighter", question(13, 1, 0))
}

// The last of 65,535 rows of 4,096 columns, 255 against 0; and a row more.
fn last(rt: &impl Print, name: &str, limit: u64, sum: u64) -> io::Result<()> {
    let mut q = question(limit, 65534, sum);
    q.width = 4096;
    q.rows = 65535;
    let mut rod = Rod::of(q);
    rod.named_pair(rt, name, &[255; 4096], &[0; 4096])?;
    rod.named_pair(rt, "a row more", &[255; 4096], &[0; 4096])
}

pub fn largest(rt: &impl Print) -> io::Result<()> {
    let read: u64 = 255 * 4096 * 65534;
    let most: u64 = 255 * 4096 * 65535;
    last(rt, "the largest sum, limit as much", most, read)?;
    last(rt, "the largest sum, limit 1 less", most - 1, read)?;
    last(rt, "the largest sum and limit", 18446744073709551615, read)?;
    last(rt, "a sum 1 over the most", most, read + 1)
}
