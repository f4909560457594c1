// The machine that runs a job by turns: where it stands, how many bytes it wants at hand, and the picture's state. Nothing here reads or writes a descriptor.
#![tactic(auto)]

ghost use Rattle.std.specs.Prelude.{◌≡◌, true, false, ◌≤◌, length};
ghost use Rattle.picture_start.specs.Start.{state_of_none};
ghost use Rattle.picture_state.specs.Step.{row_said_of};
ghost use Rattle.turns.specs.Inner.{row_size_of, wants_of, is_over, at_rows_of, EndsWith, ComesOf};

use picture_state::{Answer, Ending, State};

// Reading the plan and the head; at the rows, the drains and the byte after them; or done.
#[derive(Clone, Copy)]
pub enum Phase {
    Head,
    Rows,
    Over,
}

#[derive(Clone, Copy)]
pub struct Machine {
    pub phase: Phase,
    pub wants: usize,
    pub state: State,
}

// What a turn comes to: the next machine, how many of the bytes at hand it has used, and how many bytes at the front of the frame are to be written.
#[derive(Clone, Copy)]
pub struct Turned {
    pub machine: Machine,
    pub used: usize,
    pub put: usize,
}

fn none() -> State
    ensures { result ≡ state_of_none }
{
    State {
        plan: plan_record::empty(),
        sample: 0,
        width: 0,
        ending: Ending::Fixed,
        rows: 0,
        step: 0,
    }
}

// The machine before a job's first byte, or as it waits for more of the head.
pub fn at_head(wants: usize) -> Machine
    ensures { result ≡ record { phase = Phase.Head; wants = wants; state = state_of_none } }
{
    Machine {
        phase: Phase::Head,
        wants: wants,
        state: none(),
    }
}

// Whether there are turns to take.
pub fn is_on(machine: Machine) -> bool
    ensures { (result ≡ true → is_over machine.phase ≡ false) × (result ≡ false → is_over machine.phase ≡ true) }
{
    let phase = machine.phase;
    match phase {
        Phase::Head => true,
        Phase::Rows => true,
        Phase::Over => false,
    }
}

// The bytes of a row.
pub fn row_size(state: State) -> usize
    requires { state.width ≤ 4096 }
    ensures { (result ≡ row_size_of state) × (result ≤ 16384) }
{
    state.width * job_read::sample_bytes(state.sample)
}

fn wants(state: State) -> usize
    requires { (state.plan.count ≤ 16) × (state.width ≤ 4096) }
    ensures { result ≡ wants_of state }
{
    if state.step < state.rows {
        return row_size(state);
    }
    let plan = state.plan;
    if state.step - state.rows < plan_record::look_ahead(plan) {
        return 0;
    }
    1
}

// The machine at the rows, in that state.
pub fn at_rows(state: State) -> Machine
    requires { (state.plan.count ≤ 16) × (state.width ≤ 4096) }
    ensures { result ≡ at_rows_of state }
{
    Machine {
        phase: Phase::Rows,
        wants: wants(state),
        state: state,
    }
}

// The end: byte 0 and the number.
pub fn ended(state: State, number: u8, frame: &mut [u8]) -> Turned
    requires { 2 ≤ length frame.old }
    ensures { EndsWith number state frame.new result }
{
    frame[0] = 0;
    frame[1] = number;
    Turned {
        machine: Machine {
            phase: Phase::Over,
            wants: 0,
            state: state,
        },
        used: 0,
        put: 2,
    }
}

// What a step's answer comes to.
pub fn after(answer: Answer, before: State, next: State, used: usize, frame: &mut [u8]) -> Turned
    requires { (2 ≤ length frame.old) × (next.plan.count ≤ 16) × (next.width ≤ 4096) }
    ensures { ComesOf (row_said_of answer) before next used frame.old frame.new result }
{
    match answer {
        Answer::Row {
            number: _,
            comparisons: _,
        } => Turned {
            machine: at_rows(next),
            used: used,
            put: 1 + row_size(next),
        },
        Answer::NotYet { comparisons: _ } => Turned {
            machine: at_rows(next),
            used: used,
            put: 0,
        },
        Answer::Refused { number, column: _ } => ended(before, number, frame),
    }
}
