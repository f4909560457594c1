// What the scanner bench's firmware calls, each function on numbers and rows as C has them: the one-row filter on numbers and two rows of grey bytes, the same with positions, a whole job in memory, plans applied to whole pictures, the dark residue of a row, and the question whether a whole picture's residue is over a limit.
// The crate `firmware_c` hands each to C under the same name.
#![tactic(auto)]

ghost use Rattle.std.specs.Prelude.{◌≡◌, IfOk};
ghost use Rattle.morph.specs.Order.{kind_of};
ghost use Rattle.morph.specs.Refusals.{said};
ghost use Rattle.sample.specs.Samples.{greys, rates};
ghost use Rattle.job_run.specs.Run.{RunsJob};
ghost use Rattle.firmware.specs.Dark.{TellsDark};
ghost use Rattle.firmware.specs.Picture.{FiltersStages};
ghost use Rattle.worn.specs.Worn.{WornStart, worn_said};
ghost use Rattle.firmware.specs.Worn.{worn_byte_of, TellsWorn};
ghost use Rattle.firmware.specs.Row.{filter_row_number, FiltersRow, filter_positions_number, FiltersRowPositions};

use job_run::JobRun;
use morph::{Kind, Refusal};
use residue::Residue;
use whole::{Filtered, InPlace};
use worn::{Begun, Question, Worn};

// Judges a call on rows of these two lengths: the kind of its filter.
fn judge(kind: u8, left: u8, right: u8, pixels: usize, places: usize) -> Result<Kind, Refusal>
    ensures number { said result ≡ filter_row_number kind left right pixels places }
    ensures kind { IfOk result (λ k. k ≡ kind_of kind) }
{
    let which = line_judge::start(kind, left, right, pixels)?;
    if pixels != places {
        return Err(Refusal::RowLength);
    }
    Ok(which)
}

fn filter_row(kind: u8, left: u8, right: u8, input: &[u8], output: &mut [u8]) -> Result<(), Refusal>
    ensures { FiltersRow kind left right input.now output.old output.new (said result) }
{
    let which = judge(kind, left, right, input.len(), output.len())?;
    let back = line_judge::back(which, left, right);
    let ahead = line_judge::ahead(which, left, right);
    output.copy_from_slice(input);
    row::across(which, back, ahead, output);
    Ok(())
}

// Filters the row `input` into the row `output`, and answers 0; or answers the number of a refusal, and writes nothing.
pub fn kelafshir_filter_row(kind: u8, left: u8, right: u8, input: &[u8], output: &mut [u8]) -> u8
    ensures { FiltersRow kind left right input.now output.old output.new result }
{
    morph::said(filter_row(kind, left, right, input, output))
}

// Judges a call with positions, on rows of these three lengths: the row of positions is judged as the output row is.
fn judge_both(
    kind: u8,
    left: u8,
    right: u8,
    pixels: usize,
    places: usize,
    columns: usize,
) -> Result<Kind, Refusal>
    ensures number { said result ≡ filter_positions_number kind left right pixels places columns }
    ensures kind { IfOk result (λ k. k ≡ kind_of kind) }
{
    judge(kind, left, right, pixels, places)?;
    judge(kind, left, right, pixels, columns)
}

fn filter_row_positions(
    kind: u8,
    left: u8,
    right: u8,
    input: &[u8],
    output: &mut [u8],
    positions: &mut [u16],
) -> Result<(), Refusal>
    ensures { FiltersRowPositions kind left right input.now output.old positions.old output.new positions.new (said result) }
{
    let which = judge_both(
        kind,
        left,
        right,
        input.len(),
        output.len(),
        positions.len(),
    )?;
    let back = line_judge::back(which, left, right);
    let ahead = line_judge::ahead(which, left, right);
    output.copy_from_slice(input);
    row_origin::across(which, back, ahead, output, positions);
    Ok(())
}

// Filters the row `input` into the row `output`, writes to `positions` where each pixel of it came from, the latest position where several have its value, and answers 0; or answers the number of
// a refusal, and writes nothing.
pub fn kelafshir_filter_row_positions(
    kind: u8,
    left: u8,
    right: u8,
    input: &[u8],
    output: &mut [u8],
    positions: &mut [u16],
) -> u8
    ensures { FiltersRowPositions kind left right input.now output.old positions.old output.new positions.new result }
{
    morph::said(filter_row_positions(kind, left, right, input, output, positions))
}

// Runs the job into the output, and answers the number at its answer's end and how many bytes that has; or 6 and none where the output is too short, and writes nothing.
pub fn kelafshir_run_job(job: &[u8], out: &mut [u8]) -> JobRun
    ensures { RunsJob job.now out.old out.new result }
{
    job_run::run(job, out)
}

// The stages are read, and the plan that they say is applied to the picture.
fn filter<S: InPlace>(
    stages: &[[u8; 5]],
    width: usize,
    rows: usize,
    picture: &mut [S],
    row: &mut [S],
) -> Filtered
    ensures { FiltersStages S.samples stages.now width rows picture.old row.old picture.new row.new result }
{
    let reading = plan_read::read_stages(stages);
    let number = reading.number;
    if number != 0 {
        return whole_judge::say(number);
    }
    whole::apply(reading.plan, width, rows, picture, row)
}

// Applies the stages, five bytes each, to the picture of grey bytes in its place, and answers 0; or answers the number of a refusal, and changes nothing.
pub fn kelafshir_filter_picture(
    stages: &[[u8; 5]],
    width: usize,
    rows: usize,
    picture: &mut [u8],
    row: &mut [u8],
) -> Filtered
    ensures { FiltersStages greys stages.now width rows picture.old row.old picture.new row.new result }
{
    filter(stages, width, rows, picture, row)
}

// Applies the stages, five bytes each, to the picture of floats in its place, and answers 0; or answers the number of a refusal, and for 8 the pixel, and changes nothing.
pub fn kelafshir_filter_rates(
    stages: &[[u8; 5]],
    width: usize,
    rows: usize,
    picture: &mut [f32],
    row: &mut [f32],
) -> Filtered
    ensures { FiltersStages rates stages.now width rows picture.old row.old picture.new row.new result }
{
    filter(stages, width, rows, picture, row)
}

// The dark residue of row number `row` of a picture of `rows` rows, counted in the band of the closing's extents: puts it at `sum` and answers 0; or answers the number of a refusal, and writes nothing.
pub fn kelafshir_dark(
    left: u8,
    right: u8,
    up: u8,
    down: u8,
    row: usize,
    rows: usize,
    closed: &[u8],
    input: &[u8],
    sum: &mut u64,
) -> u8
    ensures { TellsDark left right up down row rows closed.now input.now sum.old sum.new result }
{
    match residue::dark(left, right, up, down, row, rows, closed, input) {
        Residue::Sum(found) => {
            *sum = found as u64;
            0
        }
        Residue::Refused(number) => number,
    }
}

// Starts the question whether a picture's residue is over a limit, and answers 0 and the question, for the caller to keep; or the number of a refusal, and all zeros.
pub fn kelafshir_worn_start(
    left: u8,
    right: u8,
    up: u8,
    down: u8,
    width: usize,
    rows: usize,
    limit: u64,
) -> Begun
    ensures { WornStart left right up down width rows limit result }
{
    worn::start(left, right, up, down, width, rows, limit)
}

// What a pair of rows comes to: 0 or the number of a refusal; the answer, 1 for yes, 2 for no, 0 for not yet and with a refusal; and the question after it.
#[repr(C)]
#[derive(Clone, Copy, Debug, PartialEq, Eq)]
pub struct WornTold {
    pub number: u8,
    pub answer: u8,
    pub question: Question,
}

fn worn_number(answer: Worn) -> u8
    ensures { result ≡ worn_said answer }
{
    match answer {
        Worn::Yes | Worn::No | Worn::NotYet => 0,
        Worn::Refused(number) => number,
    }
}

fn worn_byte(answer: Worn) -> u8
    ensures { result ≡ worn_byte_of answer }
{
    match answer {
        Worn::Yes => 1,
        Worn::No => 2,
        Worn::NotYet => 0,
        Worn::Refused(_) => 0,
    }
}

// Hands in the next row of the closed picture and of the input. Once yes was said no row is read.
pub fn kelafshir_worn_pair(question: Question, closed: &[u8], input: &[u8]) -> WornTold
    ensures { TellsWorn question closed.now input.now result }
{
    let asked = worn::pair(question, closed, input);
    WornTold {
        number: worn_number(asked.answer),
        answer: worn_byte(asked.answer),
        question: asked.question,
    }
}
