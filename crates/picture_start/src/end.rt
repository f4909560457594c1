// The stop of an open run: the rows read are all its rows, and drains may be asked.

ghost use Rattle.std.specs.Prelude.{◌≡◌};
ghost use Rattle.morph.specs.Refusals.{said};
ghost use Rattle.picture_start.specs.Stop.{PictureStop, stop_number};

use crate::Stopping;
use morph::Refusal;
use picture_state::{Ending, State};

// A stop is refused 12 for the state's own fields, 9, 4.
#[tactic(auto, unfolding(crate::specs::Stop::stop_number))]
fn judge_stop(state: State) -> Result<(), Refusal>
    ensures { said result ≡ stop_number state }
{
    picture_state::judging::judge_state(state)?;
    if picture_state::judging::not_open(state) {
        return Err(Refusal::AllRead);
    }
    if state.step == 0 {
        return Err(Refusal::Size);
    }
    Ok(())
}

// The same state, stopped after the rows read. It needs no memory: all queues stay as they are.
pub fn stop(state: State) -> Stopping
    ensures { PictureStop state result }
{
    match judge_stop(state) {
        Ok(()) => Stopping {
            number: 0,
            state: State {
                ending: Ending::Stopped,
                rows: state.step,
                ..state
            },
        },
        Err(refusal) => Stopping {
            number: refusal.number(),
            state,
        },
    }
}
