// The stages of a plan, chained: a step of the plan goes through them one after another on the memory lent. A stage owns the front of the memory and the rest of the
// plan the rest of it, so that the stages are a recursion; a row comes out of the last stage when the look-ahead of all of them is done.
#![tactic(auto)]

ghost use Rattle.std.specs.Prelude.{◌≡◌, ◌≤◌, length};
ghost use Rattle.plan_record.specs.Plan.{below_of, cells_of};
ghost use Rattle.plan_record.specs.Inner.{Small};
ghost use Rattle.memory.specs.Memory.{memory};
ghost use Rattle.chain.specs.Inner.{Ready, Begins, Leaves, Fronted, PlanStep};

use plan_record::Stage;
use sample::Sample;

// What the stages of a plan made of a step: the comparisons, and whether the last stage's row stands in the row's place. No Option: where no row is due there are comparisons too.
#[derive(Clone, Copy, Debug, PartialEq, Eq)]
pub struct Ran {
    pub comparisons: usize,
    pub due: bool,
}

// What a stage's own step made, and where the memory and the steps of the stages behind it begin.
#[derive(Clone, Copy, Debug, PartialEq, Eq)]
struct Front {
    comparisons: usize,
    cells: usize,
    ahead: usize,
}

// The cells of one stage.
pub fn cells_of(stage: Stage, width: usize) -> usize
    requires { Small stage × (width ≤ 4096) }
    ensures { result ≡ cells_of width stage }
{
    width * plan_record::size_of(stage)
}

// A stage's own step on the front part of the memory, which is its own.
fn run_front<S: Sample>(
    stage: Stage,
    rows: usize,
    t: usize,
    values: &mut [S],
    positions: &mut [u8],
    starts: &mut [u8],
    lengths: &mut [u8],
    row: &mut [S],
) -> Front
    requires { Begins stage (length row.old) (memory values.old positions.old starts.old lengths.old) × (rows ≤ 4294967297) }
    ensures { Fronted S.samples stage rows t (memory values.old positions.old starts.old lengths.old) row.old (memory values.new positions.new starts.new lengths.new) row.new result.comparisons × (result.cells ≡ cells_of (length row.old) stage) × (result.ahead ≡ below_of stage) × Leaves (length row.old) result.cells result.comparisons (length values.new) (length positions.new) (length starts.new) (length lengths.new) }
{
    let width = row.len();
    let cells = cells_of(stage, width);
    let comparisons = stage::step(
        stage,
        rows,
        t,
        &mut values[..cells],
        &mut positions[..cells],
        &mut starts[..width],
        &mut lengths[..width],
        row,
    );
    Front {
        comparisons,
        cells,
        ahead: plan_record::below(stage),
    }
}

// The stages of a plan, at step t of the plan that they are.
pub fn run<S: Sample>(
    stages: &[Stage],
    rows: usize,
    t: usize,
    values: &mut [S],
    positions: &mut [u8],
    starts: &mut [u8],
    lengths: &mut [u8],
    row: &mut [S],
) -> Ran
    requires { Ready stages.now (length row.old) (memory values.old positions.old starts.old lengths.old) × (rows ≤ 4294967297) }
    ensures { PlanStep S.samples stages.now rows t (memory values.old positions.old starts.old lengths.old) row.old (memory values.new positions.new starts.new lengths.new) row.new result.comparisons result.due }
{
    let Some((stage, behind)) = stages.split_first() else {
        return Ran {
            comparisons: 0,
            due: true,
        };
    };
    let width = row.len();
    let f = run_front(*stage, rows, t, values, positions, starts, lengths, row);
    let ahead = f.ahead;
    let cells = f.cells;
    if t < ahead {
        return Ran {
            comparisons: f.comparisons,
            due: false,
        };
    }
    let rest = run(
        behind,
        rows,
        t - ahead,
        &mut values[cells..],
        &mut positions[cells..],
        &mut starts[width..],
        &mut lengths[width..],
        row,
    );
    Ran {
        comparisons: f.comparisons + rest.comparisons,
        due: rest.due,
    }
}
