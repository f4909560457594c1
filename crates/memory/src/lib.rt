// What lent memory is and what it holds: the definitions that a reader has to believe are specs/Memory.antt and specs/Lent.antt.
#![tactic(auto)]

// The queue memory that a caller lends: the cells, a value and a position each, and the column records, a start and a length each. The cells lent are the shorter of the
// first two, the records the shorter of the other two.
#[derive(Drop)]
pub struct Lent<'v, 'p, 's, 'l, S> {
    pub values: &'v mut [S],
    pub positions: &'p mut [u8],
    pub starts: &'s mut [u8],
    pub lengths: &'l mut [u8],
}
