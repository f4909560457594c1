// Starting a run: the state before the first step, and the column records of empty queues. What open runs share with it stands here too.

ghost use Rattle.std.specs.Prelude.{◌≡◌, ◌≤◌, min, length};
ghost use Rattle.morph.specs.Refusals.{refusal_number, said};
ghost use Rattle.plan_record.specs.Plan.{plan_of, stages_from, records_needed};
ghost use Rattle.picture_start.specs.Start.{PictureStart, state_from, first_state_of, state_of_none, cleared, start_number, numbers_number};
ghost use Rattle.picture_start.specs.Inner.{Emptied};

use crate::Started;
use morph::Refusal;
use picture_state::judging::judge_memory;
use picture_state::{Ending, State};
use plan_record::Plan;

// A start is refused 1, or stage by stage 3; 5, 4, 6.
#[tactic(auto, unfolding(crate::specs::Start::start_number))]
fn judge_start(
    plan: Plan,
    sample: u8,
    width: usize,
    rows: usize,
    cells: usize,
    records: usize,
) -> Result<(), Refusal>
    ensures { said result ≡ start_number plan sample width rows cells records }
{
    plan_record::judge(plan)?;
    plan_record::judge_sample(sample)?;
    plan_record::judge_size(width, rows)?;
    judge_memory(plan, width, cells, records)
}

// The first n bytes become 0.
fn clear(n: usize, bytes: &mut [u8])
    requires { n ≤ length bytes.old }
    ensures { bytes.new ≡ cleared n bytes.old }
{
    bytes[..n].fill(0);
}

// The state before the first step. It keeps the plan's stages alone: what the other places of the record held is not handed on.
pub fn first_state(plan: Plan, sample: u8, width: usize, ending: Ending, rows: usize) -> State
    requires { plan.count ≤ 16 }
    ensures { result ≡ state_from plan sample width ending rows }
{
    State {
        plan: plan_record::trimmed(plan),
        sample,
        width,
        ending,
        rows,
        step: 0,
    }
}

// A refused start hands back all zeros.
pub fn not_started(number: u8) -> Started
    ensures { (result.number ≡ number) × (result.state ≡ state_of_none) }
{
    Started {
        number,
        state: first_state(plan_record::empty(), 0, 0, Ending::Fixed, 0),
    }
}

impl From<Refusal> for Started {
    ghost from_gives = { λ refusal r. (r.number ≡ refusal_number refusal) × (r.state ≡ state_of_none) };

    fn from(refusal: Refusal) -> Started {
        not_started(refusal.number())
    }
}

// A start but for its state: all queues empty, where nothing is refused.
pub fn empties(
    plan: Plan,
    sample: u8,
    width: usize,
    rows: usize,
    cells: usize,
    starts: &mut [u8],
    lengths: &mut [u8],
) -> Result<(), Refusal>
    ensures { Emptied (start_number plan sample width rows cells (min (length starts.old) (length lengths.old))) (records_needed plan width) starts.old lengths.old starts.new lengths.new (said result) }
{
    let lent = starts.len().min(lengths.len());
    judge_start(plan, sample, width, rows, cells, lent)?;
    let records = plan_record::records(plan, width);
    clear(records, starts);
    clear(records, lengths);
    Ok(())
}

// A run of a plan over a picture of that size, with so many cells lent: the state before the first step, and all queues empty.
pub fn start(
    plan: Plan,
    sample: u8,
    width: usize,
    rows: usize,
    cells: usize,
    starts: &mut [u8],
    lengths: &mut [u8],
) -> Started
    ensures { PictureStart (start_number plan sample width rows cells (min (length starts.old) (length lengths.old))) (first_state_of plan sample width rows) (records_needed plan width) starts.old lengths.old starts.new lengths.new result }
{
    match empties(plan, sample, width, rows, cells, starts, lengths) {
        Ok(()) => Started {
            number: 0,
            state: first_state(plan, sample, width, Ending::Fixed, rows),
        },
        Err(refusal) => Started::from(refusal),
    }
}

// The same of a plan in numbers: a count and five bytes a stage, of which those after the last stage's are not looked at. Refused 1; then stage by stage 2, 3; then 5, 4, 6.
pub fn start_numbers(
    count: u8,
    stages: &[u8; 80],
    sample: u8,
    width: usize,
    rows: usize,
    cells: usize,
    starts: &mut [u8],
    lengths: &mut [u8],
) -> Started
    ensures { PictureStart (numbers_number count stages.now sample width rows cells (min (length starts.old) (length lengths.old))) (first_state_of (plan_of (stages_from count stages.now)) sample width rows) (records_needed (plan_of (stages_from count stages.now)) width) starts.old lengths.old starts.new lengths.new result }
{
    match plan_read::read_plan(count, stages) {
        Ok(plan) => start(plan, sample, width, rows, cells, starts, lengths),
        Err(refusal) => Started::from(refusal),
    }
}
