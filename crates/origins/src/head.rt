// What a command's head says.
use picture::{Ending, State};

#[derive(Clone, Copy)]
pub struct Head(pub [u8; 188]);

impl Head {
    // The command's own number.
    pub fn command(&self) -> u8 {
        self.0[81]
    }

    pub fn sample(&self) -> u8 {
        self.0[82]
    }

    // Number i of those after the plan: the width, the rows, the step, the cells.
    pub fn number(&self, i: u8) -> usize {
        script::number(&self.0, usize::from(i) * 8 + 84)
    }

    // The length of slice i.
    pub fn lent(&self, i: u8) -> usize {
        script::number(&self.0, usize::from(i) * 8 + 116)
    }

    pub fn state(&self) -> State {
        State {
            plan: script::record(&self.0),
            sample: self.sample(),
            width: self.number(0),
            ending: match self.0[83] {
                0 => Ending::Fixed,
                1 => Ending::Open,
                _ => Ending::Stopped,
            },
            rows: self.number(1),
            step: self.number(2),
        }
    }
}
