// The steps of a picture run that asks for origins: for each pixel that comes out, the row and the column that it came from.
#![tactic(auto)]

ghost use Rattle.std.specs.Prelude.{◌≡◌, map, ◌+◌, ◌≤◌, ◌<◌, length};
ghost use Rattle.plan_record.specs.Plan.{cells_needed, plan_ahead};
ghost use Rattle.memory.specs.Memory.{memory};
ghost use Rattle.picture_state.specs.Numbers.{height_of};
ghost use Rattle.picture_state.specs.Inner.{Fit};
ghost use Rattle.picture_origin.specs.Step.{OriginsAdvanced, OriginRowStep, OriginDrainStep};
ghost use Rattle.picture_origin.specs.Inner.{FrontsReady, OriginsFronted, FrontsBrought};
ghost use Rattle.picture_origin.specs.Numbers.{five_slices, three_rows};
ghost use Rattle.picture_origin_step.specs.Lent.{given, left, given_rows, left_rows};

use picture_origin::judging::{Outs, judge_origin_drain, judge_origin_row};
use picture_state::judging::Lending;
use picture_state::{State, Stepped};
use sample::Sample;

// The queue memory of such a run: that of any run, and for each cell the column that its value came from.
#[derive(Drop)]
pub struct OriginLent<'v, 'p, 'c, 's, 'l, S> {
    pub values: &'v mut [S],
    pub positions: &'p mut [u8],
    pub columns: &'c mut [u16],
    pub starts: &'s mut [u8],
    pub lengths: &'l mut [u8],
}

// The three rows of a step: the pixels that come out, and the row and the column that each came from.
#[derive(Drop)]
pub struct OriginRows<'p, 'r, 'c, S> {
    pub pixels: &'p mut [S],
    pub rows: &'r mut [usize],
    pub columns: &'c mut [u16],
}

// The stage's queues go on by a step, on what is needed of the memory: the comparisons.
fn move_on<S: Sample>(
    state: State,
    work: &mut [S],
    values: &mut [S],
    positions: &mut [u8],
    columns: &mut [u16],
    starts: &mut [u8],
    lengths: &mut [u8],
) -> usize
    requires { Fit state (memory values.old positions.old starts.old lengths.old) × (cells_needed state.plan state.width ≤ length columns.old) × (length work.old ≡ state.width) × (state.step < height_of state + plan_ahead state.plan) × (state.plan.count ≡ 1) }
    ensures { OriginsFronted S.samples state (five_slices values.old positions.old columns.old starts.old lengths.old) work.old (five_slices values.new positions.new columns.new starts.new lengths.new) work.new result }
{
    let stage = picture_origin::only::stage(state);
    let width = state.width;
    let rows = picture_state::height(state);
    let cells = chain::cells_of(stage, width);
    stage_origin::move_on(
        stage,
        rows,
        state.step,
        &mut values[..cells],
        &mut positions[..cells],
        &mut columns[..cells],
        &mut starts[..width],
        &mut lengths[..width],
        work,
    )
}

// The rows that are due: the fronts of the stage's columns.
fn bring<'a, S: Sample>(
    state: State,
    values: &'a [S],
    positions: &'a [u8],
    columns: &'a [u16],
    starts: &'a [u8],
    out: &mut [S],
    origin_rows: &mut [usize],
    origin_columns: &mut [u16],
)
    requires { FrontsReady state values.now positions.now columns.now starts.now × (length out.old ≡ state.width) × (length origin_rows.old ≡ state.width) × (length origin_columns.old ≡ state.width) }
    ensures { FrontsBrought S.samples state values.now positions.now columns.now starts.now (three_rows out.new origin_rows.new origin_columns.new) }
{
    let stage = picture_origin::only::stage(state);
    let width = state.width;
    let cells = chain::cells_of(stage, width);
    stage_origin::fronts(
        plan_record::size_of(stage),
        &values[..cells],
        &positions[..cells],
        &columns[..cells],
        &starts[..width],
        state.step + 1,
        out,
        origin_rows,
        origin_columns,
    );
}

// A step that is accepted, over a row of the width that the stage may write on.
fn advance<S: Sample>(
    state: State,
    work: &mut [S],
    out: &mut [S],
    origin_rows: &mut [usize],
    origin_columns: &mut [u16],
    values: &mut [S],
    positions: &mut [u8],
    columns: &mut [u16],
    starts: &mut [u8],
    lengths: &mut [u8],
) -> Stepped
    requires { Fit state (memory values.old positions.old starts.old lengths.old) × (cells_needed state.plan state.width ≤ length columns.old) × (length work.old ≡ state.width) × (length out.old ≡ state.width) × (length origin_rows.old ≡ state.width) × (length origin_columns.old ≡ state.width) × (state.step < height_of state + plan_ahead state.plan) × (state.plan.count ≡ 1) }
    ensures { OriginsAdvanced S.samples state (five_slices values.old positions.old columns.old starts.old lengths.old) work.old (three_rows out.old origin_rows.old origin_columns.old) (five_slices values.new positions.new columns.new starts.new lengths.new) (three_rows out.new origin_rows.new origin_columns.new) result.answer result.state }
{
    let plan = state.plan;
    let t = state.step;
    let comparisons = move_on(state, work, values, positions, columns, starts, lengths);
    let next = picture_state::moved(state);
    let ahead = plan_record::look_ahead(plan);
    if t < ahead {
        return picture_state::waits(next, comparisons);
    }
    bring(
        state,
        &values[..],
        &positions[..],
        &columns[..],
        &starts[..],
        out,
        origin_rows,
        origin_columns,
    );
    picture_state::came(next, t - ahead, comparisons)
}

// A row of zeros to work on.
fn blank<S: Sample>() -> [S; 4096]
    ensures { 4096 ≡ length result }
{
    [S::zero(); 4096]
}

// A row of the picture: its step's answer. The output row and the rows of origins are written where a row is due.
pub fn origin_row<S: Sample>(
    state: State,
    row: &[S],
    rows: OriginRows<S>,
    lent: OriginLent<S>,
) -> Stepped
    ensures { OriginRowStep S.samples S.NUMBER state (given lent.entry) row.now (given_rows rows.entry) (left lent.exit) (left_rows rows.exit) result.answer result.state }
{
    let OriginRows {
        pixels,
        rows: origin_rows,
        columns: origin_columns,
    } = rows;
    let outs = Outs {
        out: pixels.len(),
        rows: origin_rows.len(),
        columns: origin_columns.len(),
    };
    let OriginLent {
        values,
        positions,
        columns,
        starts,
        lengths,
    } = lent;
    let lending = Lending {
        values: values.len(),
        positions: positions.len(),
        starts: &starts[..],
        lengths: &lengths[..],
    };
    if let Err(refusal) = judge_origin_row(
        S::NUMBER,
        state,
        row.len(),
        outs,
        columns.len(),
        lending,
    ) {
        return picture_state::refuses(state, refusal.number(), 0);
    }
    let bad = S::first_bad(row);
    if bad < row.len() {
        return picture_state::refuses(state, 8, bad);
    }
    let width = row.len();
    let mut room = blank::<S>();
    S::take_in(row, &mut room[..width]);
    advance(
        state,
        &mut room[..width],
        pixels,
        origin_rows,
        origin_columns,
        values,
        positions,
        columns,
        starts,
        lengths,
    )
}

// A step without a row, once all are read.
pub fn origin_drain<S: Sample>(state: State, rows: OriginRows<S>, lent: OriginLent<S>) -> Stepped
    ensures { OriginDrainStep S.samples S.NUMBER state (given lent.entry) (given_rows rows.entry) (left lent.exit) (left_rows rows.exit) result.answer result.state }
{
    let OriginRows {
        pixels,
        rows: origin_rows,
        columns: origin_columns,
    } = rows;
    let outs = Outs {
        out: pixels.len(),
        rows: origin_rows.len(),
        columns: origin_columns.len(),
    };
    let OriginLent {
        values,
        positions,
        columns,
        starts,
        lengths,
    } = lent;
    let lending = Lending {
        values: values.len(),
        positions: positions.len(),
        starts: &starts[..],
        lengths: &lengths[..],
    };
    if let Err(refusal) = judge_origin_drain(S::NUMBER, state, outs, columns.len(), lending) {
        return picture_state::refuses(state, refusal.number(), 0);
    }
    let width = pixels.len();
    let mut room = blank::<S>();
    advance(
        state,
        &mut room[..width],
        pixels,
        origin_rows,
        origin_columns,
        values,
        positions,
        columns,
        starts,
        lengths,
    )
}
