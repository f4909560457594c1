// One stage's own step in lent memory: a row goes across, in place, and down into the columns; the stage's row that is due comes out in its place.
// The four slices are the stage's part of the memory and no more. Before the stage's step 0 nothing is called; after its last, H-1+F, nothing changes.
#![tactic(auto)]

ghost use Rattle.std.specs.Prelude.{◌≡◌, ◌+◌, ◌≤◌, ◌<◌, length};
ghost use Rattle.columns.specs.Inner.{Lent, RowRead};
ghost use Rattle.plan_record.specs.Plan.{size_of, below_of};
ghost use Rattle.plan_record.specs.Inner.{Small};
ghost use Rattle.stage.specs.Inner.{RowTaken, StageMoved, StageStep};
ghost use Rattle.memory.specs.Memory.{memory};

use morph::Kind;
use plan_record::{Stage, size_of};
use sample::Sample;

// The columns read the row. The kind is chosen here once, by a literal, so that no loop has to ask for it: a rule of speed (docs/DECISIONS.md, "Code shapes").
pub fn read_columns<S: Sample>(
    kind: Kind,
    places: usize,
    values: &mut [S],
    positions: &mut [u8],
    starts: &mut [u8],
    lengths: &mut [u8],
    row: &[S],
    t: usize,
) -> usize
    requires { Lent places (length row.now) positions.old starts.old lengths.old × (length values.old ≡ length positions.old) × (t ≤ 4294967800) }
    ensures { RowRead S.samples kind places t row.now values.old positions.old starts.old lengths.old values.new positions.new starts.new lengths.new result }
{
    match kind {
        Kind::Erosion => columns::read(
            Kind::Erosion,
            places,
            values,
            positions,
            starts,
            lengths,
            row,
            t,
        ),
        Kind::Dilation => columns::read(
            Kind::Dilation,
            places,
            values,
            positions,
            starts,
            lengths,
            row,
            t,
        ),
    }
}

// The stage's row t goes across and down into the columns.
fn take_row<S: Sample>(
    stage: Stage,
    t: usize,
    values: &mut [S],
    positions: &mut [u8],
    starts: &mut [u8],
    lengths: &mut [u8],
    row: &mut [S],
) -> usize
    requires { Small stage × (t < 4294967297) × Lent (size_of stage) (length row.old) positions.old starts.old lengths.old × (length values.old ≡ length positions.old) }
    ensures { RowTaken S.samples stage t (memory values.old positions.old starts.old lengths.old) row.old (memory values.new positions.new starts.new lengths.new) row.new result }
{
    let kind = stage.kind;
    let a = row::across(
        kind,
        plan_record::back_across(stage),
        plan_record::ahead_across(stage),
        row,
    );
    let c = read_columns(
        kind,
        size_of(stage),
        values,
        positions,
        starts,
        lengths,
        &row[..],
        t,
    );
    a + c
}

// The stage's queues go on by a step: they read the row, or age once all rows are read. For a step that is not past the stage's last.
fn move_on<S: Sample>(
    stage: Stage,
    rows: usize,
    t: usize,
    values: &mut [S],
    positions: &mut [u8],
    starts: &mut [u8],
    lengths: &mut [u8],
    row: &mut [S],
) -> usize
    requires { Small stage × (rows ≤ 4294967297) × Lent (size_of stage) (length row.old) positions.old starts.old lengths.old × (length values.old ≡ length positions.old) × (t < rows + below_of stage) }
    ensures { StageMoved S.samples stage rows t (memory values.old positions.old starts.old lengths.old) row.old (memory values.new positions.new starts.new lengths.new) row.new result }
{
    if t < rows {
        return take_row(stage, t, values, positions, starts, lengths, row);
    }
    columns::drain::<S>(size_of(stage), &positions[..], starts, lengths, t);
    0
}

// The stage's own step t: its comparisons. The row that is due comes out in the row's place.
pub fn step<S: Sample>(
    stage: Stage,
    rows: usize,
    t: usize,
    values: &mut [S],
    positions: &mut [u8],
    starts: &mut [u8],
    lengths: &mut [u8],
    row: &mut [S],
) -> usize
    requires { Small stage × (rows ≤ 4294967297) × Lent (size_of stage) (length row.old) positions.old starts.old lengths.old × (length values.old ≡ length positions.old) }
    ensures { StageStep S.samples stage rows t (memory values.old positions.old starts.old lengths.old) row.old (memory values.new positions.new starts.new lengths.new) row.new result }
{
    let ahead = plan_record::below(stage);
    if rows + ahead <= t {
        return 0;
    }
    let c = move_on(stage, rows, t, values, positions, starts, lengths, row);
    if t < ahead {
        return c;
    }
    columns::fronts(
        size_of(stage),
        &values[..],
        &positions[..],
        &starts[..],
        t + 1,
        row,
    );
    c
}
