// How a run of a plan over a picture starts and stops: the state before the first step, with the queues empty, of a picture whose rows are counted or of one that is open;
// and the state of an open run once its stop is said. Crate picture hands on what a caller uses.
// The sample kind comes as a number, and no enum: one that is neither 0 nor 1 is refused 5 (document 01, `sample_number`), so callers may give any.
#![tactic(auto)]

use picture_state::State;

mod begin; // begin.rt: starting a run
mod open; // open.rt: starting an open run
mod end; // end.rt: the stop of an open run

pub use begin::{not_started, start, start_numbers};
pub use end::stop;
pub use open::{start_open, start_open_numbers};

// What a start gives: 0 and the state before the first step, or a refusal's number and all zeros. It stays a record, and no Result:
// document 01 says that "a refused start .. hands back all zeros, kind erosion" (`PictureStart.refusal`).
#[derive(Clone, Copy, Debug, PartialEq, Eq)]
pub struct Started {
    pub number: u8,
    pub state: State,
}

// What a stop gives: 0 and the state after it, or a refusal's number and the state as given (`PictureStop.refusal`), so that no Result holds it.
#[derive(Clone, Copy, Debug, PartialEq, Eq)]
pub struct Stopping {
    pub number: u8,
    pub state: State,
}
