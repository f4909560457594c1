// A step on the bytes of a row of floats: a row where there are rows, a drain after them. The row that comes out stands in the frame, behind its marker.
#![tactic(auto)]

ghost use Rattle.std.specs.Prelude.{◌≡◌, ◌+◌, ◌*◌, ◌≤◌, ◌<◌, length};
ghost use Rattle.memory.specs.Memory.{memory};
ghost use Rattle.answer.specs.Answer.{rate_rows};
ghost use Rattle.turns.specs.Inner.{Framed};
ghost use Rattle.step_rate.specs.Inner.{FloatStep, InFrame};

use picture::{Answer, Lent, State, Stepped};

// The picture's own step, on rows of its width.
fn step(
    state: State,
    bytes: &[u8],
    row: &mut [f32],
    came: &mut [f32],
    values: &mut [f32],
    positions: &mut [u8],
    starts: &mut [u8],
    lengths: &mut [u8],
) -> Stepped
    requires { (state.width ≤ 4096) × (length row.old ≡ state.width) × (state.step < state.rows → state.width * 4 ≤ length bytes.now) }
    ensures { FloatStep state (memory values.old positions.old starts.old lengths.old) bytes.now came.old (memory values.new positions.new starts.new lengths.new) came.new result.answer result.state }
{
    let size = state.width * 4;
    if state.step < state.rows {
        floats::take_in(&bytes[..size], row);
        let lent = Lent {
            values: &mut values[..],
            positions: &mut positions[..],
            starts: &mut starts[..],
            lengths: &mut lengths[..],
        };
        return picture::row(state, &row[..], came, lent);
    }
    let lent = Lent {
        values: &mut values[..],
        positions: &mut positions[..],
        starts: &mut starts[..],
        lengths: &mut lengths[..],
    };
    picture::drain(state, came, lent)
}

// Puts the row that came out into its frame, if one is due.
fn give(answer: Answer, came: &[f32], frame: &mut [u8])
    requires { length frame.old ≡ 1 + length came.now * 4 }
    ensures { InFrame answer came.now frame.new }
{
    match answer {
        Answer::Row {
            number: _,
            comparisons: _,
        } => floats::give_out(came, frame),
        Answer::NotYet { comparisons: _ } => (),
        Answer::Refused {
            number: _,
            column: _,
        } => (),
    }
}

// The two rows of floats are lent to work on: what stands in them before does not matter.
pub fn take(
    state: State,
    bytes: &[u8],
    frame: &mut [u8],
    row: &mut [f32],
    came: &mut [f32],
    values: &mut [f32],
    positions: &mut [u8],
    starts: &mut [u8],
    lengths: &mut [u8],
) -> Stepped
    requires { (state.width ≤ 4096) × (16385 ≤ length frame.old) × (4096 ≤ length row.old) × (4096 ≤ length came.old) × (state.step < state.rows → state.width * 4 ≤ length bytes.now) }
    ensures { Framed rate_rows 1 state (memory values.old positions.old starts.old lengths.old) bytes.now (memory values.new positions.new starts.new lengths.new) frame.new result.answer result.state }
{
    let width = state.width;
    let stepped = step(
        state,
        bytes,
        &mut row[..width],
        &mut came[..width],
        values,
        positions,
        starts,
        lengths,
    );
    let end = 1 + width * 4;
    let answer = stepped.answer;
    give(answer, &came[..width], &mut frame[..end]);
    stepped
}
