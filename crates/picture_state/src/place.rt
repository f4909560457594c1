// Where a read-out's queue lies, and by how many steps it is read.

ghost use Rattle.std.specs.Prelude.{◌≡◌, ◌≤◌, ◌<◌, get_or, take};
ghost use Rattle.morph.specs.Refusals.{said};
ghost use Rattle.plan_record.specs.Plan.{unused, size_of, cells_of, total};
ghost use Rattle.memory.specs.Memory.{stage_steps};
ghost use Rattle.picture_state.specs.Inner.{Accepted, placed_number};

use crate::State;
use crate::judging::{Lending, judge_lent};
use morph::Refusal;
use plan_record::Plan;

// Whether a read-out is refused, but for the queue's place.
#[tactic(auto, unfolding(crate::specs::Inner::placed_number))]
pub fn judge_place(
    kind: u8,
    state: State,
    stage: usize,
    column: usize,
    lent: Lending<'_>,
) -> Result<(), Refusal>
    ensures { said result ≡ placed_number kind state stage column lent.entry.values lent.entry.positions lent.entry.starts.now lent.entry.lengths.now }
{
    judge_lent(kind, state, lent)?;
    if state.plan.count <= stage || state.width <= column {
        return Err(Refusal::NotThere);
    }
    Ok(())
}

// Where a stage's cells begin, and the places of its columns.
#[derive(Clone, Copy, Debug, PartialEq, Eq)]
pub struct Part {
    pub cells: usize,
    pub places: usize,
}

// The part of a stage of the plan.
pub fn part_of(plan: Plan, stage: usize, width: usize) -> Part
    requires { Accepted plan × (stage < plan.count) × (width ≤ 4096) }
    ensures { (result.cells ≡ total (cells_of width) (take stage plan.stages)) × (result.places ≡ size_of (get_or plan.stages stage unused)) }
{
    let own = plan.stages[stage];
    let before = Plan {
        count: stage,
        ..plan
    };
    Part {
        cells: plan_record::cells(before, width),
        places: plan_record::size_of(own),
    }
}

// The steps that a stage of the plan has done of its own, after t steps over so many rows.
pub fn own_steps(plan: Plan, stage: usize, rows: usize, t: usize) -> usize
    requires { Accepted plan × (stage < plan.count) × (rows ≤ 4294967297) }
    ensures { (result ≡ stage_steps plan.stages rows t stage) × (result ≤ 4294967800) }
{
    let own = plan.stages[stage];
    let last = rows + plan_record::below(own);
    let before = Plan {
        count: stage,
        ..plan
    };
    let ahead = plan_record::look_ahead(before);
    t.saturating_sub(ahead).min(last)
}
