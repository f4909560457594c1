// What is told of a call: the state after it; and words for the reader.
use crate::head::Head;
use crate::input;
use picture::State;
use show::Told;
use std::{fmt, io};

// The state with its plan.
#[derive(Clone, Copy)]
pub struct Whole(pub State);

impl fmt::Display for Whole {
    fn fmt<W: fmt::Write>(&self, f: &mut fmt::Formatter<W>) -> fmt::Result {
        write!(f, "{}{}", Told(self.0), Told(self.0.plan))
    }
}

// Words for the reader.
pub fn words(rt: &impl Input, to: &impl Print, head: &Head) -> io::Result<()> {
    let mut room = [0u8; 4096];
    to.write_all(input::slice(rt, head.lent(0), &mut room))
}
