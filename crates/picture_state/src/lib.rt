// A run of a plan over a picture: its state, which calls on it are refused, and where a read-out's queue lies and how it is read. The steps of grey and of float pictures
// share it; crate picture_start starts and stops a run, and crate picture hands on what a caller uses.
#![tactic(auto)]

ghost use Rattle.std.specs.Prelude.{◌≡◌, ◌≤◌, length};
ghost use Rattle.picture_state.specs.Numbers.{height_of};
ghost use Rattle.picture_state.specs.Step.{row_said_of, row, is_not_yet, refused, next_state};

use plan_record::Plan;

pub mod judging; // judging.rt: which calls are refused
pub mod place; // place.rt: where a read-out's queue lies, and by how many steps it is read

// How a run ends: after rows that are counted at its start, or where its stop is said, which is still to come or was.
#[derive(Clone, Copy, Debug, PartialEq, Eq)]
pub enum Ending {
    Fixed,
    Open,
    Stopped,
}

// A run of a plan over a picture: the plan, the sample kind's number, the width, how it ends, the rows, and the steps done.
// The rows are the count given; 0 while the run is open; and the rows read once it has stopped.
// The sample kind is a number, and no enum: a state of another one is one that is asked about, and refused 12 (document 01; `state_number`).
#[derive(Clone, Copy, Debug, PartialEq, Eq)]
pub struct State {
    pub plan: Plan,
    pub sample: u8,
    pub width: usize,
    pub ending: Ending,
    pub rows: usize,
    pub step: usize,
}

// What a step answers. It is no Result: "a step answers with an enum: a row .., not yet .., or a refusal" (document 01, `RowSaid`).
#[derive(Clone, Copy, Debug, PartialEq, Eq)]
pub enum Answer {
    Row { number: usize, comparisons: usize },
    NotYet { comparisons: usize },
    Refused { number: u8, column: usize },
}

// A step's answer, and the state after it: a refused step hands the state back as it was given (document 01), so that no Result holds it.
#[derive(Clone, Copy, Debug, PartialEq, Eq)]
pub struct Stepped {
    pub answer: Answer,
    pub state: State,
}

// A plan as it is: a record of 16 stages.
pub fn whole(plan: Plan) -> Plan
    ensures { (result ≡ plan) × (length plan.stages ≡ 16) }
{
    plan
}

// The rows that a step on this state knows of: while the run is open, the rows read and the one that is offered.
pub fn height(state: State) -> usize
    requires { state.step ≤ 4294967792 }
    ensures { result ≡ height_of state }
{
    match state.ending {
        Ending::Fixed => state.rows,
        Ending::Open => state.step + 1,
        Ending::Stopped => state.rows,
    }
}

// The state with one step more.
pub fn moved(state: State) -> State
    requires { state.step ≤ 4294967792 }
    ensures { result ≡ next_state state }
{
    State {
        step: state.step + 1,
        ..state
    }
}

pub fn came(state: State, number: usize, comparisons: usize) -> Stepped
    ensures { (row_said_of result.answer ≡ row number comparisons) × (result.state ≡ state) }
{
    Stepped {
        answer: Answer::Row {
            number,
            comparisons,
        },
        state,
    }
}

pub fn waits(state: State, comparisons: usize) -> Stepped
    ensures { (row_said_of result.answer ≡ is_not_yet comparisons) × (result.state ≡ state) }
{
    Stepped {
        answer: Answer::NotYet { comparisons },
        state,
    }
}

pub fn refuses(state: State, number: u8, column: usize) -> Stepped
    ensures { (row_said_of result.answer ≡ refused number column) × (result.state ≡ state) }
{
    Stepped {
        answer: Answer::Refused { number, column },
        state,
    }
}
