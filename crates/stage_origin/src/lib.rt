// One stage's own step in lent memory that also tells where each value came from.
#![tactic(auto)]

ghost use Rattle.std.specs.Prelude.{◌≡◌, ◌+◌, ◌*◌, ◌≤◌, ◌<◌, length};
ghost use Rattle.columns.specs.Inner.{Lent};
ghost use Rattle.plan_record.specs.Plan.{size_of, below_of};
ghost use Rattle.plan_record.specs.Inner.{Small};
ghost use Rattle.memory.specs.Memory.{memory};
ghost use Rattle.origin.specs.Inner.{OriginsTaken, OriginsMoved};

use plan_record::{Stage, size_of};
use sample::Sample;

mod told; // told.rt: the fronts and their origins

pub use told::fronts;

// The stage's row t goes across, down into the columns, and the columns that it came from into their place.
fn take_row<S: Sample>(
    stage: Stage,
    t: usize,
    values: &mut [S],
    positions: &mut [u8],
    columns: &mut [u16],
    starts: &mut [u8],
    lengths: &mut [u8],
    row: &mut [S],
) -> usize
    requires { Small stage × (t < 4294967297) × Lent (size_of stage) (length row.old) positions.old starts.old lengths.old × (length values.old ≡ length positions.old) × (length columns.old ≡ length positions.old) }
    ensures { OriginsTaken S.samples stage t (memory values.old positions.old starts.old lengths.old) columns.old row.old (memory values.new positions.new starts.new lengths.new) columns.new row.new result }
{
    let kind = stage.kind;
    let places = size_of(stage);
    let width = row.len();
    let lo = (t % places) * width;
    let hi = lo + width;
    let a = row_origin::across(
        kind,
        plan_record::back_across(stage),
        plan_record::ahead_across(stage),
        row,
        &mut columns[lo..hi],
    );
    let c = stage::read_columns(
        kind,
        places,
        values,
        positions,
        starts,
        lengths,
        &row[..],
        t,
    );
    a + c
}

// The stage's queues go on by a step: they read the row, or age once all rows are read. For a step that is not past the stage's last.
pub fn move_on<S: Sample>(
    stage: Stage,
    rows: usize,
    t: usize,
    values: &mut [S],
    positions: &mut [u8],
    columns: &mut [u16],
    starts: &mut [u8],
    lengths: &mut [u8],
    row: &mut [S],
) -> usize
    requires { Small stage × (rows ≤ 4294967297) × Lent (size_of stage) (length row.old) positions.old starts.old lengths.old × (length values.old ≡ length positions.old) × (length columns.old ≡ length positions.old) × (t < rows + below_of stage) }
    ensures { OriginsMoved S.samples stage rows t (memory values.old positions.old starts.old lengths.old) columns.old row.old (memory values.new positions.new starts.new lengths.new) columns.new row.new result }
{
    if t < rows {
        return take_row(stage, t, values, positions, columns, starts, lengths, row);
    }
    columns::drain::<S>(size_of(stage), &positions[..], starts, lengths, t);
    0
}
