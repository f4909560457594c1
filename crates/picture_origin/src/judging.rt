// Judging: whether a step that asks for origins is refused, and why.

ghost use Rattle.std.specs.Prelude.{◌≡◌, [], ◌∷◌, min};
ghost use Rattle.morph.specs.Numbers.{first_of};
ghost use Rattle.morph.specs.Refusals.{said};
ghost use Rattle.picture_state.specs.Numbers.{offer_number, drain_number};
ghost use Rattle.picture_origin.specs.Numbers.{asked_number};
ghost use Rattle.picture_origin.specs.Inner.{alike_of};

use morph::Refusal;
use picture_state::State;
use picture_state::judging::{Lending, judge_drain, judge_row};

// The lengths of the three rows out: of the pixels, and of the rows and the columns that they came from.
#[derive(Clone, Copy, Debug, PartialEq, Eq)]
pub struct Outs {
    pub out: usize,
    pub rows: usize,
    pub columns: usize,
}

// Their length where they are as long as each other, and else 0.
#[tactic(auto, unfolding(crate::specs::Inner::alike_of))]
fn alike(outs: Outs) -> usize
    ensures { result ≡ alike_of outs.out outs.rows outs.columns }
{
    if outs.out == outs.rows && outs.out == outs.columns {
        outs.out
    } else {
        0
    }
}

// Refused 12 for the state's own fields, or 20.
#[tactic(auto, unfolding(crate::specs::Numbers::asked_number))]
fn judge_asked(state: State) -> Result<(), Refusal>
    ensures { said result ≡ asked_number state }
{
    picture_state::judging::judge_state(state)?;
    if 1 < state.plan.count {
        return Err(Refusal::OverOneStage);
    }
    Ok(())
}

// Whether a row call is refused, but for 8: a row and three rows out of these lengths, and so many columns beside the cells.
pub fn judge_origin_row(
    kind: u8,
    state: State,
    row: usize,
    outs: Outs,
    columns: usize,
    lent: Lending<'_>,
) -> Result<(), Refusal>
    ensures { said result ≡ first_of (asked_number state ∷ offer_number kind state row (alike_of outs.out outs.rows outs.columns) lent.entry.values (min lent.entry.positions columns) lent.entry.starts.now lent.entry.lengths.now ∷ []) }
{
    judge_asked(state)?;
    let lent = Lending {
        positions: lent.positions.min(columns),
        ..lent
    };
    judge_row(kind, state, row, alike(outs), lent)
}

// Whether a drain is refused.
pub fn judge_origin_drain(
    kind: u8,
    state: State,
    outs: Outs,
    columns: usize,
    lent: Lending<'_>,
) -> Result<(), Refusal>
    ensures { said result ≡ first_of (asked_number state ∷ drain_number kind state (alike_of outs.out outs.rows outs.columns) lent.entry.values (min lent.entry.positions columns) lent.entry.starts.now lent.entry.lengths.now ∷ []) }
{
    judge_asked(state)?;
    let lent = Lending {
        positions: lent.positions.min(columns),
        ..lent
    };
    judge_drain(kind, state, alike(outs), lent)
}
