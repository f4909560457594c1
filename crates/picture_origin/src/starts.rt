// Starting a run that asks for origins: a start, which also refuses 20.

ghost use Rattle.std.specs.Prelude.{◌≡◌, [], ◌∷◌, min, length};
ghost use Rattle.morph.specs.Numbers.{first_of};
ghost use Rattle.morph.specs.Refusals.{said};
ghost use Rattle.plan_record.specs.Plan.{plan_of, stages_from, record_number, records_needed};
ghost use Rattle.picture_start.specs.Start.{PictureStart, first_state_of, open_state};
ghost use Rattle.picture_origin.specs.Numbers.{several_number, origins_number, origins_numbers_number, open_origins_number, open_origins_numbers_number};

use morph::Refusal;
use picture_start::Started;
use plan_record::Plan;

// A plan that origins are asked of is refused 1, or stage by stage 3; 20.
fn judge_plan(plan: Plan) -> Result<(), Refusal>
    ensures { said result ≡ first_of (record_number plan ∷ several_number plan.count ∷ []) }
{
    plan_record::judge(plan)?;
    if 1 < plan.count {
        return Err(Refusal::OverOneStage);
    }
    Ok(())
}

// A run of a plan of one stage over a picture of that size, with so many cells lent: the state before the first step, and all queues empty.
pub fn start_origins(
    plan: Plan,
    sample: u8,
    width: usize,
    rows: usize,
    cells: usize,
    starts: &mut [u8],
    lengths: &mut [u8],
) -> Started
    ensures { PictureStart (origins_number plan sample width rows cells (min (length starts.old) (length lengths.old))) (first_state_of plan sample width rows) (records_needed plan width) starts.old lengths.old starts.new lengths.new result }
{
    match judge_plan(plan) {
        Ok(()) => picture_start::start(plan, sample, width, rows, cells, starts, lengths),
        Err(refusal) => Started::from(refusal),
    }
}

// The same of a plan in numbers: a count and five bytes a stage, of which those after the last stage's are not looked at. Refused 1; then stage by stage 2, 3; then 20, 5, 4, 6.
pub fn start_origins_numbers(
    count: u8,
    stages: &[u8; 80],
    sample: u8,
    width: usize,
    rows: usize,
    cells: usize,
    starts: &mut [u8],
    lengths: &mut [u8],
) -> Started
    ensures { PictureStart (origins_numbers_number count stages.now sample width rows cells (min (length starts.old) (length lengths.old))) (first_state_of (plan_of (stages_from count stages.now)) sample width rows) (records_needed (plan_of (stages_from count stages.now)) width) starts.old lengths.old starts.new lengths.new result }
{
    match plan_read::read_plan(count, stages) {
        Ok(plan) => start_origins(plan, sample, width, rows, cells, starts, lengths),
        Err(refusal) => Started::from(refusal),
    }
}

// A run of a plan of one stage over rows of that width, with so many cells lent, until its stop is said: the state before the first step, and all queues empty.
pub fn start_open_origins(
    plan: Plan,
    sample: u8,
    width: usize,
    cells: usize,
    starts: &mut [u8],
    lengths: &mut [u8],
) -> Started
    ensures { PictureStart (open_origins_number plan sample width cells (min (length starts.old) (length lengths.old))) (open_state plan sample width) (records_needed plan width) starts.old lengths.old starts.new lengths.new result }
{
    match judge_plan(plan) {
        Ok(()) => picture_start::start_open(plan, sample, width, cells, starts, lengths),
        Err(refusal) => Started::from(refusal),
    }
}

// The same of a plan in numbers, as `start_origins_numbers` takes them.
pub fn start_open_origins_numbers(
    count: u8,
    stages: &[u8; 80],
    sample: u8,
    width: usize,
    cells: usize,
    starts: &mut [u8],
    lengths: &mut [u8],
) -> Started
    ensures { PictureStart (open_origins_numbers_number count stages.now sample width cells (min (length starts.old) (length lengths.old))) (open_state (plan_of (stages_from count stages.now)) sample width) (records_needed (plan_of (stages_from count stages.now)) width) starts.old lengths.old starts.new lengths.new result }
{
    match plan_read::read_plan(count, stages) {
        Ok(plan) => start_open_origins(plan, sample, width, cells, starts, lengths),
        Err(refusal) => Started::from(refusal),
    }
}
