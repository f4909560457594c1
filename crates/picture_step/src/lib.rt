// The steps of a picture run, for every kind of sample, and the read-out of its queues.
#![tactic(auto)]

ghost use Rattle.std.specs.Prelude.{◌≡◌, map, ◌+◌, ◌≤◌, ◌<◌, length};
ghost use Rattle.morph.specs.Line.{found, refused};
ghost use Rattle.morph.specs.Cell.{read_at};
ghost use Rattle.plan_record.specs.Plan.{plan_ahead};
ghost use Rattle.columns.specs.Inner.{Lent as LentColumns};
ghost use Rattle.memory.specs.Memory.{memory, column_at};
ghost use Rattle.memory.specs.Lent.{given, left};
ghost use Rattle.picture_state.specs.Numbers.{height_of};
ghost use Rattle.picture_state.specs.Inner.{Fit, place_shown};
ghost use Rattle.picture_state.specs.Step.{Advanced, RowStep, DrainStep};
ghost use Rattle.picture_state.specs.ReadOut.{Shows};
ghost use Rattle.picture_step.specs.Shown.{shown};

use memory::Lent;
use morph::Refusal;
use picture_state::judging::{Lending, judge_drain, judge_row};
use picture_state::{State, Stepped};
use queue::RowEntry;
use sample::Sample;

// A step that is accepted, over a row of the width that the stages may write on.
fn advance<S: Sample>(
    state: State,
    work: &mut [S],
    out: &mut [S],
    values: &mut [S],
    positions: &mut [u8],
    starts: &mut [u8],
    lengths: &mut [u8],
) -> Stepped
    requires { Fit state (memory values.old positions.old starts.old lengths.old) × (length work.old ≡ state.width) × (length out.old ≡ state.width) × (state.step < height_of state + plan_ahead state.plan) }
    ensures { Advanced S.samples state (memory values.old positions.old starts.old lengths.old) work.old out.old (memory values.new positions.new starts.new lengths.new) out.new result.answer result.state }
{
    let own = state.plan;
    let plan = picture_state::whole(own);
    let width = state.width;
    let rows = picture_state::height(state);
    let t = state.step;
    let cells = plan_record::cells(plan, width);
    let records = plan_record::records(plan, width);
    let stages = &plan.stages[..plan.count];
    let ran = chain::run(
        stages,
        rows,
        t,
        &mut values[..cells],
        &mut positions[..cells],
        &mut starts[..records],
        &mut lengths[..records],
        work,
    );
    let next = picture_state::moved(state);
    if ran.due {
        out.copy_from_slice(&work[..]);
        return picture_state::came(next, t - plan_record::look_ahead(plan), ran.comparisons);
    }
    picture_state::waits(next, ran.comparisons)
}

// A row of zeros to work on.
fn blank<S: Sample>() -> [S; 4096]
    ensures { 4096 ≡ length result }
{
    [S::zero(); 4096]
}

// A row of the picture: its step's answer. The output row is written where a row is due.
pub fn row<S: Sample>(state: State, row: &[S], out: &mut [S], lent: Lent<S>) -> Stepped
    ensures { RowStep S.samples S.NUMBER state (given lent.entry) row.now out.old (left lent.exit) out.new result.answer result.state }
{
    let Lent {
        values,
        positions,
        starts,
        lengths,
    } = lent;
    let lending = Lending {
        values: values.len(),
        positions: positions.len(),
        starts: &starts[..],
        lengths: &lengths[..],
    };
    if let Err(refusal) = judge_row(S::NUMBER, state, row.len(), out.len(), lending) {
        return picture_state::refuses(state, refusal.number(), 0);
    }
    let bad = S::first_bad(row);
    if bad < row.len() {
        return picture_state::refuses(state, 8, bad);
    }
    let width = row.len();
    let mut room = blank::<S>();
    S::take_in(row, &mut room[..width]);
    advance(
        state,
        &mut room[..width],
        out,
        values,
        positions,
        starts,
        lengths,
    )
}

// A step without a row, once all are read.
pub fn drain<S: Sample>(state: State, out: &mut [S], lent: Lent<S>) -> Stepped
    ensures { DrainStep S.samples S.NUMBER state (given lent.entry) out.old (left lent.exit) out.new result.answer result.state }
{
    let Lent {
        values,
        positions,
        starts,
        lengths,
    } = lent;
    let lending = Lending {
        values: values.len(),
        positions: positions.len(),
        starts: &starts[..],
        lengths: &lengths[..],
    };
    if let Err(refusal) = judge_drain(S::NUMBER, state, out.len(), lending) {
        return picture_state::refuses(state, refusal.number(), 0);
    }
    let width = out.len();
    let mut room = blank::<S>();
    advance(
        state,
        &mut room[..width],
        out,
        values,
        positions,
        starts,
        lengths,
    )
}

// Place k of column x's queue, in a stage's part of the memory, s being the stage's own steps done.
fn show<'a, S: Sample>(
    places: usize,
    values: &'a [S],
    positions: &'a [u8],
    starts: &'a [u8],
    lengths: &'a [u8],
    x: usize,
    k: usize,
    s: usize,
) -> Result<RowEntry<S>, Refusal>
    requires { LentColumns places (length starts.now) positions.now starts.now lengths.now × (length values.now ≡ length positions.now) × (x < length starts.now) × (s ≤ 4294967800) }
    ensures { shown result ≡ place_shown S.samples (map (read_at s) (column_at S.samples places values.now positions.now starts.now lengths.now x)) k }
{
    if usize::from(lengths[x]) <= k {
        return Err(Refusal::NotThere);
    }
    Ok(columns::entry(places, values, positions, starts, x, k, s))
}

// The entry at a place of the queue of a stage's column: places count from the oldest.
pub fn read_out<'a, S: Sample>(
    state: State,
    stage: usize,
    column: usize,
    place: usize,
    values: &'a [S],
    positions: &'a [u8],
    starts: &'a [u8],
    lengths: &'a [u8],
) -> Result<RowEntry<S>, Refusal>
    ensures { Shows S.samples S.NUMBER state (memory values.now positions.now starts.now lengths.now) stage column place (shown result) }
{
    let lending = Lending {
        values: values.len(),
        positions: positions.len(),
        starts: starts,
        lengths: lengths,
    };
    picture_state::place::judge_place(S::NUMBER, state, stage, column, lending)?;
    let own = state.plan;
    let plan = picture_state::whole(own);
    let width = state.width;
    let rows = picture_state::height(state);
    let steps = picture_state::place::own_steps(plan, stage, rows, state.step);
    let part = picture_state::place::part_of(plan, stage, width);
    let places = part.places;
    let lo = part.cells;
    let hi = lo + width * places;
    let from = stage * width;
    let to = from + width;
    show(
        places,
        &values[lo..hi],
        &positions[lo..hi],
        &starts[from..to],
        &lengths[from..to],
        column,
        place,
        steps,
    )
}
