// What the scanner bench's firmware links: plain C-callable functions, as firmware/kelafshir.h declares them. Each is the function of the same name of the crate `firmware`, and states its clauses again.
// From C a row, a job, a picture or an output is a pointer and then a length. Those of a call may not overlap; nothing past any is read or written.
#![tactic(auto)]

ghost use Rattle.std.specs.Prelude.{◌≡◌};
ghost use Rattle.sample.specs.Samples.{greys, rates};
ghost use Rattle.job_run.specs.Run.{RunsJob};
ghost use Rattle.worn.specs.Worn.{WornStart};
ghost use Rattle.firmware.specs.Dark.{TellsDark};
ghost use Rattle.firmware.specs.Picture.{FiltersStages};
ghost use Rattle.firmware.specs.Row.{FiltersRow, FiltersRowPositions};
ghost use Rattle.firmware.specs.Worn.{TellsWorn};

use firmware::WornTold;
use job_run::JobRun;
use whole_judge::Filtered;
use worn::{Begun, Question};

// Filters the row `input` into the row `output`, and answers 0; or answers the number of a refusal, and writes nothing.
#[unsafe(no_mangle)]
pub extern "C" fn kelafshir_filter_row(
    kind: u8,
    left: u8,
    right: u8,
    input: &[u8],
    output: &mut [u8],
) -> u8
    ensures { FiltersRow kind left right input.now output.old output.new result }
{
    firmware::kelafshir_filter_row(kind, left, right, input, output)
}

// Filters the row `input` into the row `output`, writes to `positions` where each pixel of it came from, the latest position where several have its value, and answers 0; or answers the number of
// a refusal, and writes nothing.
#[unsafe(no_mangle)]
pub extern "C" fn kelafshir_filter_row_positions(
    kind: u8,
    left: u8,
    right: u8,
    input: &[u8],
    output: &mut [u8],
    positions: &mut [u16],
) -> u8
    ensures { FiltersRowPositions kind left right input.now output.old positions.old output.new positions.new result }
{
    firmware::kelafshir_filter_row_positions(kind, left, right, input, output, positions)
}

// Runs the job into the output, and answers the number at its answer's end and how many bytes that has; or 6 and none where the output is too short, and writes nothing.
#[unsafe(no_mangle)]
pub extern "C" fn kelafshir_run_job(job: &[u8], out: &mut [u8]) -> JobRun
    ensures { RunsJob job.now out.old out.new result }
{
    firmware::kelafshir_run_job(job, out)
}

// Applies the stages, five bytes each, to the picture of grey bytes in its place, and answers 0; or answers the number of a refusal, and changes nothing.
#[unsafe(no_mangle)]
pub extern "C" fn kelafshir_filter_picture(
    stages: &[[u8; 5]],
    width: usize,
    rows: usize,
    picture: &mut [u8],
    row: &mut [u8],
) -> Filtered
    ensures { FiltersStages greys stages.now width rows picture.old row.old picture.new row.new result }
{
    firmware::kelafshir_filter_picture(stages, width, rows, picture, row)
}

// Applies the stages, five bytes each, to the picture of floats in its place, and answers 0; or answers the number of a refusal, and for 8 the pixel, and changes nothing.
#[unsafe(no_mangle)]
pub extern "C" fn kelafshir_filter_rates(
    stages: &[[u8; 5]],
    width: usize,
    rows: usize,
    picture: &mut [f32],
    row: &mut [f32],
) -> Filtered
    ensures { FiltersStages rates stages.now width rows picture.old row.old picture.new row.new result }
{
    firmware::kelafshir_filter_rates(stages, width, rows, picture, row)
}

// The dark residue of row number `row` of a picture of `rows` rows, counted in the band of the closing's extents: puts it at `sum` and answers 0; or answers the number of a refusal, and writes nothing.
#[unsafe(no_mangle)]
pub extern "C" fn kelafshir_dark(
    left: u8,
    right: u8,
    up: u8,
    down: u8,
    row: usize,
    rows: usize,
    closed: &[u8],
    input: &[u8],
    sum: &mut u64,
) -> u8
    ensures { TellsDark left right up down row rows closed.now input.now sum.old sum.new result }
{
    firmware::kelafshir_dark(left, right, up, down, row, rows, closed, input, sum)
}

// Starts the question whether a picture's residue is over a limit, and answers 0 and the question, for the caller to keep; or the number of a refusal, and all zeros.
#[unsafe(no_mangle)]
pub extern "C" fn kelafshir_worn_start(
    left: u8,
    right: u8,
    up: u8,
    down: u8,
    width: usize,
    rows: usize,
    limit: u64,
) -> Begun
    ensures { WornStart left right up down width rows limit result }
{
    firmware::kelafshir_worn_start(left, right, up, down, width, rows, limit)
}

// Hands in the next row of the closed picture and of the input. Once yes was said no row is read.
#[unsafe(no_mangle)]
pub extern "C" fn kelafshir_worn_pair(question: Question, closed: &[u8], input: &[u8]) -> WornTold
    ensures { TellsWorn question closed.now input.now result }
{
    firmware::kelafshir_worn_pair(question, closed, input)
}
