// Judging: whether each call on a state is refused, and why.

ghost use Rattle.std.specs.Prelude.{◌≡◌, true, ◌≤◌, length};
ghost use Rattle.morph.specs.Refusals.{said};
ghost use Rattle.plan_record.specs.Plan.{used, record_number, records_needed};
ghost use Rattle.memory.specs.Memory.{all_sound};
ghost use Rattle.picture_state.specs.Numbers.{size_in, is_step_off, is_all_read, is_past_last, has_no_drain, is_not_open, memory_number, state_number, shared_number, lent_number, offer_number, drain_number};

use crate::{Ending, State};
use morph::Refusal;
use plan_record::Plan;

// What of the lent memory a judge looks at: how many values and positions there are, and the column records as they stand.
#[derive(Clone, Copy)]
pub struct Lending<'a> {
    pub values: usize,
    pub positions: usize,
    pub starts: &'a [u8],
    pub lengths: &'a [u8],
}

// Refused 6: for the cells and the records that are lent.
#[tactic(auto, unfolding(crate::specs::Numbers::memory_number))]
pub fn judge_memory(plan: Plan, width: usize, cells: usize, records: usize) -> Result<(), Refusal>
    requires { (plan.count ≤ 16) × (width ≤ 4096) }
    ensures { said result ≡ memory_number plan width cells records }
{
    if cells < plan_record::cells(plan, width) || records < plan_record::records(plan, width) {
        return Err(Refusal::Memory);
    }
    Ok(())
}

// ---- the state's own fields

// Refused 4: for the width, and the rows read when the stop was said.
fn judge_read(width: usize, rows: usize) -> Result<(), Refusal>
    ensures { said result ≡ size_in Ending.Stopped width rows }
{
    plan_record::judge_size(width, 1)?;
    if rows == 0 || 4294967296 < rows {
        return Err(Refusal::Size);
    }
    Ok(())
}

// Refused 4: for the width, and for the rows where they count.
fn judge_size(state: State) -> Result<(), Refusal>
    ensures { said result ≡ size_in state.ending state.width state.rows }
{
    match state.ending {
        Ending::Fixed => plan_record::judge_size(state.width, state.rows),
        Ending::Open => plan_record::judge_size(state.width, 1),
        Ending::Stopped => judge_read(state.width, state.rows),
    }
}

// Whether the step count is none that a run has, of a plan with that look-ahead.
fn step_off(state: State, ahead: usize) -> bool
    requires { (is_not_open state.ending ≡ true → state.rows ≤ 4294967296) × (ahead ≤ 496) }
    ensures { result ≡ is_step_off state.ending state.rows ahead state.step }
{
    match state.ending {
        Ending::Fixed => state.rows + ahead < state.step,
        Ending::Open => 4294967296 < state.step,
        Ending::Stopped => state.step < state.rows || state.rows + ahead < state.step,
    }
}

// Whether the run is not open: its rows are counted, or its stop was said.
pub fn not_open(state: State) -> bool
    ensures { result ≡ is_not_open state.ending }
{
    state.ending != Ending::Open
}

// Refused 12: for the state's own fields.
#[tactic(auto, unfolding(crate::specs::Numbers::state_number))]
pub fn judge_state(state: State) -> Result<(), Refusal>
    ensures { said result ≡ state_number state }
{
    if plan_record::judge(state.plan).is_err()
        || plan_record::judge_sample(state.sample).is_err()
        || judge_size(state).is_err()
        || step_off(state, plan_record::look_ahead(state.plan))
    {
        return Err(Refusal::State);
    }
    Ok(())
}

// ---- what every call judges

// Whether all column records of all stages are sound.
fn records_sound<'a>(plan: Plan, width: usize, starts: &'a [u8], lengths: &'a [u8]) -> bool
    requires { (record_number plan ≡ 0) × (width ≤ 4096) × (records_needed plan width ≤ length starts.now) × (records_needed plan width ≤ length lengths.now) }
    ensures { result ≡ all_sound width (used plan) starts.now lengths.now }
{
    let mut good = true;
    let mut lo = 0;
    for stage in &plan.stages[..plan.count] {
        let hi = lo + width;
        let places = plan_record::size_of(*stage);
        good &= columns::sound(places, &starts[lo..hi], &lengths[lo..hi]);
        lo = hi;
    }
    good
}

// Refused where something is wrong with the state, its sample kind, the memory or the column records: 12, 5, 6, 12.
#[tactic(auto, unfolding(crate::specs::Numbers::shared_number))]
pub fn judge<'a>(
    kind: u8,
    state: State,
    cells: usize,
    records: usize,
    starts: &'a [u8],
    lengths: &'a [u8],
) -> Result<(), Refusal>
    requires { (records ≤ length starts.now) × (records ≤ length lengths.now) }
    ensures { said result ≡ shared_number kind state cells records starts.now lengths.now }
{
    judge_state(state)?;
    if state.sample != kind {
        return Err(Refusal::SampleKind);
    }
    judge_memory(state.plan, state.width, cells, records)?;
    if !records_sound(state.plan, state.width, starts, lengths) {
        return Err(Refusal::State);
    }
    Ok(())
}

// The same with the cells and the records that are lent: the shorter of the values and the positions, and of the starts and the lengths.
pub fn judge_lent(kind: u8, state: State, lent: Lending<'_>) -> Result<(), Refusal>
    ensures { said result ≡ lent_number kind state lent.entry.values lent.entry.positions lent.entry.starts.now lent.entry.lengths.now }
{
    judge(
        kind,
        state,
        lent.values.min(lent.positions),
        lent.starts.len().min(lent.lengths.len()),
        lent.starts,
        lent.lengths,
    )
}

// ---- a row and a drain

// Whether all rows have been read.
fn all_read(state: State) -> bool
    ensures { result ≡ is_all_read state.ending state.rows state.step }
{
    match state.ending {
        Ending::Fixed => state.rows <= state.step,
        Ending::Open => false,
        Ending::Stopped => true,
    }
}

// Whether an open run has read the last row that has a number.
fn past_last(state: State) -> bool
    ensures { result ≡ is_past_last state.ending state.step }
{
    match state.ending {
        Ending::Fixed => false,
        Ending::Open => 4294967296 <= state.step,
        Ending::Stopped => false,
    }
}

// Whether no output is left to drain, of a plan with that look-ahead, or not all rows are read: while a run is open they never are.
fn no_drain(state: State, ahead: usize) -> bool
    requires { (is_not_open state.ending ≡ true → state.rows ≤ 4294967296) × (ahead ≤ 496) }
    ensures { result ≡ has_no_drain state.ending state.rows ahead state.step }
{
    match state.ending {
        Ending::Fixed => state.step < state.rows || state.rows + ahead <= state.step,
        Ending::Open => true,
        Ending::Stopped => state.step < state.rows || state.rows + ahead <= state.step,
    }
}

// Whether a row call is refused, but for 8: a row and an output row of these lengths.
#[tactic(auto, unfolding(crate::specs::Numbers::offer_number))]
pub fn judge_row(
    kind: u8,
    state: State,
    row: usize,
    out: usize,
    lent: Lending<'_>,
) -> Result<(), Refusal>
    ensures { said result ≡ offer_number kind state row out lent.entry.values lent.entry.positions lent.entry.starts.now lent.entry.lengths.now }
{
    judge_lent(kind, state, lent)?;
    if all_read(state) {
        return Err(Refusal::AllRead);
    }
    if past_last(state) {
        return Err(Refusal::LastNumber);
    }
    if row != state.width || out != state.width {
        return Err(Refusal::RowLength);
    }
    Ok(())
}

// Whether a drain is refused.
#[tactic(auto, unfolding(crate::specs::Numbers::drain_number))]
pub fn judge_drain(kind: u8, state: State, out: usize, lent: Lending<'_>) -> Result<(), Refusal>
    ensures { said result ≡ drain_number kind state out lent.entry.values lent.entry.positions lent.entry.starts.now lent.entry.lengths.now }
{
    judge_lent(kind, state, lent)?;
    if no_drain(state, plan_record::look_ahead(state.plan)) {
        return Err(Refusal::NoDrain);
    }
    if out != state.width {
        return Err(Refusal::RowLength);
    }
    Ok(())
}
