// A turn at the rows of a picture: a row, a drain, or what comes after the last step. Grey and float differ in the step alone.
#![tactic(auto)]

ghost use Rattle.std.specs.Prelude.{◌≡◌, ◌≤◌, ◌<◌, length, ltb};
ghost use Rattle.turns.specs.declared.Phase.TheVariants.{Rows};
ghost use Rattle.morph.specs.Numbers.{given};
ghost use Rattle.turns.specs.Inner.{machine_memory, row_size_of, Stands, Turns, FramedBoth};

use picture_state::{State, Stepped};
use turns::{Machine, Turned};

// 0, or 14: so many bytes are there after the last row.
fn judge_tail(got: usize) -> u8
    ensures { result ≡ given 14 (ltb 0 got) }
{
    if 0 < got {
        return 14;
    }
    0
}

// The picture's step on the bytes of a row, for the samples that the state has.
fn step(
    state: State,
    bytes: &[u8],
    frame: &mut [u8],
    row: &mut [f32],
    came: &mut [f32],
    greys: &mut [u8],
    rates: &mut [f32],
    positions: &mut [u8],
    starts: &mut [u8],
    lengths: &mut [u8],
) -> Stepped
    requires { (state.sample ≤ 1) × (state.width ≤ 4096) × (16385 ≤ length frame.old) × (4096 ≤ length row.old) × (4096 ≤ length came.old) × (state.step < state.rows → row_size_of state ≤ length bytes.now) }
    ensures { FramedBoth state (machine_memory greys.old rates.old positions.old starts.old lengths.old) bytes.now (machine_memory greys.new rates.new positions.new starts.new lengths.new) frame.new result.answer result.state }
{
    if state.sample == 0 {
        return step_grey::take(state, bytes, frame, greys, positions, starts, lengths);
    }
    step_rate::take(
        state, bytes, frame, row, came, rates, positions, starts, lengths,
    )
}

// A turn of a machine at the rows.
pub fn turn(
    machine: Machine,
    bytes: &[u8],
    frame: &mut [u8],
    row: &mut [f32],
    came: &mut [f32],
    greys: &mut [u8],
    rates: &mut [f32],
    positions: &mut [u8],
    starts: &mut [u8],
    lengths: &mut [u8],
) -> Turned
    requires { (machine.phase ≡ Rows) × Stands machine (machine_memory greys.old rates.old positions.old starts.old lengths.old) × (16385 ≤ length frame.old) × (4096 ≤ length row.old) × (4096 ≤ length came.old) }
    ensures { Turns machine bytes.now (machine_memory greys.old rates.old positions.old starts.old lengths.old) (machine_memory greys.new rates.new positions.new starts.new lengths.new) frame.new result }
{
    let state = machine.state;
    let plan = state.plan;
    if state.rows + plan_record::look_ahead(plan) <= state.step {
        return turns::ended(state, judge_tail(bytes.len()), frame);
    }
    let wants = machine.wants;
    if bytes.len() < wants {
        return turns::ended(state, 13, frame);
    }
    let stepped = step(
        state, bytes, frame, row, came, greys, rates, positions, starts, lengths,
    );
    let answer = stepped.answer;
    let next = stepped.state;
    turns::after(answer, state, next, wants, frame)
}
