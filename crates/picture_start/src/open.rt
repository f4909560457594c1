// Starting an open run: its rows are not counted, and end where its stop is said.

ghost use Rattle.std.specs.Prelude.{min, length};
ghost use Rattle.plan_record.specs.Plan.{plan_of, stages_from, records_needed};
ghost use Rattle.picture_start.specs.Start.{PictureStart, open_state, open_number, open_numbers_number};

use crate::Started;
use crate::begin::{empties, first_state};
use picture_state::Ending;
use plan_record::Plan;

// A run of a plan over rows of that width, with so many cells lent, until its stop is said: the state before the first step, and all queues empty.
pub fn start_open(
    plan: Plan,
    sample: u8,
    width: usize,
    cells: usize,
    starts: &mut [u8],
    lengths: &mut [u8],
) -> Started
    ensures { PictureStart (open_number plan sample width cells (min (length starts.old) (length lengths.old))) (open_state plan sample width) (records_needed plan width) starts.old lengths.old starts.new lengths.new result }
{
    match empties(plan, sample, width, 1, cells, starts, lengths) {
        Ok(()) => Started {
            number: 0,
            state: first_state(plan, sample, width, Ending::Open, 0),
        },
        Err(refusal) => Started::from(refusal),
    }
}

// The same of a plan in numbers, as `start_numbers` takes them.
pub fn start_open_numbers(
    count: u8,
    stages: &[u8; 80],
    sample: u8,
    width: usize,
    cells: usize,
    starts: &mut [u8],
    lengths: &mut [u8],
) -> Started
    ensures { PictureStart (open_numbers_number count stages.now sample width cells (min (length starts.old) (length lengths.old))) (open_state (plan_of (stages_from count stages.now)) sample width) (records_needed (plan_of (stages_from count stages.now)) width) starts.old lengths.old starts.new lengths.new result }
{
    match plan_read::read_plan(count, stages) {
        Ok(plan) => start_open(plan, sample, width, cells, starts, lengths),
        Err(refusal) => Started::from(refusal),
    }
}
