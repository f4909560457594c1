// A step on the bytes of a grey row: a row where there are rows, a drain after them. The row that comes out stands in the frame, behind its marker.
// It is no twin of step_rate: a grey row stands in the bytes and in the frame as it is, while a row of floats is made of its bytes. One code for both would copy each grey row twice more, and want
// two rows more of memory.
#![tactic(auto)]

ghost use Rattle.std.specs.Prelude.{◌≤◌, ◌<◌, length};
ghost use Rattle.memory.specs.Memory.{memory};
ghost use Rattle.answer.specs.Answer.{grey_rows};
ghost use Rattle.turns.specs.Inner.{Framed};

use picture::{Lent, State, Stepped};

pub fn take(
    state: State,
    bytes: &[u8],
    frame: &mut [u8],
    values: &mut [u8],
    positions: &mut [u8],
    starts: &mut [u8],
    lengths: &mut [u8],
) -> Stepped
    requires { (state.width ≤ 4096) × (16385 ≤ length frame.old) × (state.step < state.rows → state.width ≤ length bytes.now) }
    ensures { Framed grey_rows 0 state (memory values.old positions.old starts.old lengths.old) bytes.now (memory values.new positions.new starts.new lengths.new) frame.new result.answer result.state }
{
    let width = state.width;
    let end = 1 + width;
    frame[0] = 1;
    if state.step < state.rows {
        let lent = Lent {
            values: &mut values[..],
            positions: &mut positions[..],
            starts: &mut starts[..],
            lengths: &mut lengths[..],
        };
        return picture::row(state, &bytes[..width], &mut frame[1..end], lent);
    }
    let lent = Lent {
        values: &mut values[..],
        positions: &mut positions[..],
        starts: &mut starts[..],
        lengths: &mut lengths[..],
    };
    picture::drain(state, &mut frame[1..end], lent)
}
