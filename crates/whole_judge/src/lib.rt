// Which calls on a whole picture are refused, on plain numbers, and what such a call answers: every kind of samples shares it.
#![tactic(auto)]

ghost use Rattle.std.specs.Prelude.{◌≡◌, ◌<◌, ◌/◌, ◌%◌};
ghost use Rattle.morph.specs.Refusals.{said};
ghost use Rattle.whole_judge.specs.Whole.{lent_judged};

use morph::Refusal;

// What a call on a whole picture answers: 0, or a refusal's number; for 8 the row and the column of the first pixel that is not finite, else zeros.
// It stays a record of numbers: C reads it.
#[repr(C)]
#[derive(Clone, Copy, Debug, PartialEq, Eq)]
pub struct Filtered {
    pub number: u8,
    pub row: usize,
    pub column: usize,
}

// Whether a plan that was judged may be applied to what is lent beside it. Refused as the plan is; then 4; 7 for the picture; 6 for the row.
pub fn judge(
    judged: Result<(), Refusal>,
    width: usize,
    rows: usize,
    pixels: usize,
    places: usize,
) -> Result<(), Refusal>
    ensures { said result ≡ lent_judged (said judged) width rows pixels places }
{
    judged?;
    plan_record::judge_size(width, rows)?;
    if pixels != rows * width {
        return Err(Refusal::RowLength);
    }
    if places < width {
        return Err(Refusal::Memory);
    }
    Ok(())
}

// The answer of a call that names no pixel.
pub fn say(number: u8) -> Filtered
    ensures { result ≡ record { number = number; row = 0; column = 0 } }
{
    Filtered {
        number,
        row: 0,
        column: 0,
    }
}

// The refusal of a pixel at a place of the picture.
pub fn say_not_finite(width: usize, place: usize) -> Filtered
    requires { 0 < width }
    ensures { result ≡ record { number = 8; row = place / width; column = place % width } }
{
    Filtered {
        number: 8,
        row: place / width,
        column: place % width,
    }
}
