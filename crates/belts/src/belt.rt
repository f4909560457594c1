// A run: its state, its memory and how much of that is lent.
use picture::{Answer, Ending, State, Stepped};

// What a command has to leave alone: nothing, all of the memory, or what is behind the edge.
#[derive(Clone, Copy, Debug, PartialEq, Eq)]
pub enum Leaves {
    Nothing,
    All,
    Rest,
}

// How many of the values, positions, starts and lengths are lent.
#[derive(Clone, Copy, Debug, PartialEq, Eq)]
pub struct Lent {
    pub values: usize,
    pub positions: usize,
    pub starts: usize,
    pub lengths: usize,
}

// So many cells and so many records, from the first on.
#[derive(Clone, Copy, Debug, PartialEq, Eq)]
pub struct Edge {
    pub cells: usize,
    pub records: usize,
}

// A run, with its memory: the cells' values of both kinds, their positions, the column records, and an output row of each kind. The edge parts what the plan needs from what is behind it; the sums are of all of the memory and of what is behind the edge.
// The start and the length are those that a record had before it was set.
#[derive(Clone, Copy)]
pub struct Belt {
    pub state: State,
    pub greys: [u8; 4096],
    pub rates: [f32; 4096],
    pub positions: [u8; 4096],
    pub starts: [u8; 1024],
    pub lengths: [u8; 1024],
    pub out: [u8; 1024],
    pub came: [f32; 1024],
    pub lent: Lent,
    pub edge: Edge,
    pub start: u8,
    pub length: u8,
    pub leaves: Leaves,
    pub all: usize,
    pub rest: usize,
}

fn no_state() -> State {
    State {
        plan: plan_record::empty(),
        sample: 0,
        width: 0,
        ending: Ending::Fixed,
        rows: 0,
        step: 0,
    }
}

// No run yet, and all of the memory lent. Before the first start it holds no zeros: 171 is no remainder of a row number, and no start or length of a queue.
pub fn first() -> Belt {
    Belt {
        state: no_state(),
        greys: [171; 4096],
        rates: [171.0; 4096],
        positions: [171; 4096],
        starts: [171; 1024],
        lengths: [171; 1024],
        out: [171; 1024],
        came: [171.0; 1024],
        lent: Lent {
            values: 4096,
            positions: 4096,
            starts: 1024,
            lengths: 1024,
        },
        edge: Edge {
            cells: 0,
            records: 0,
        },
        start: 0,
        length: 0,
        leaves: Leaves::Nothing,
        all: 0,
        rest: 0,
    }
}

impl Belt {
    // After a step: one that is refused has to leave all alone.
    pub fn step(&mut self, s: Stepped) {
        self.state = s.state;
        self.leaves = match s.answer {
            Answer::Row { .. } | Answer::NotYet { .. } => Leaves::Rest,
            Answer::Refused { .. } => Leaves::All,
        };
    }
}
