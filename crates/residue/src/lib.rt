// The dark residue of a row: how much lighter a closing made it, added over the columns that the closing's windows do not reach past the picture's edge from.
#![tactic(auto)]

ghost use Rattle.std.specs.Prelude.{◌≡◌, false, ◌||◌, ◌+◌, ◌-◌, ◌≤◌, ◌<◌, ltb, length};
ghost use Rattle.morph.specs.Numbers.{given};
ghost use Rattle.residue.specs.Residue.{closing_number, residue_of, Answered};
ghost use Rattle.morph.specs.Refusals.{said};
ghost use Rattle.residue.specs.Inner.{band_number, part_residue, part_negative, residue_as};

use morph::Refusal;

// The sum, or a refusal's number. It stays an enum of its own: the definition that the promises cite, `residue_of`, makes it of numbers.
#[derive(Clone, Copy, Debug, PartialEq, Eq)]
pub enum Residue {
    Sum(usize),
    Refused(u8),
}

// ---- the columns that are counted

// The flag, set where the closed value is below the input's.
fn marked(flag: bool, closed: u8, input: u8) -> bool
    ensures { result ≡ (ltb closed input || flag) }
{
    if closed < input {
        return true;
    }
    flag
}

// Whether some closed value is below the input's. The flag runs over all columns, so that the loop has no way out in the middle.
#[tactic(auto, unfolding(crate::specs::Inner::part_negative))]
fn some_negative(closed: &[u8], input: &[u8]) -> bool
    requires { length input.now ≡ length closed.now }
    ensures { result ≡ part_negative closed.now input.now }
{
    let mut flag = false;
    for x in 0..closed.len() {
        flag = marked(flag, closed[x], input[x]);
    }
    flag
}

fn difference(closed: u8, input: u8) -> u32
    requires { input ≤ closed }
    ensures { (result ≡ closed - input) × (result < 256) }
{
    u32::from(closed - input)
}

// The sum over the columns given of closed value minus input value. It is added up in 32 bits, as a vector holds twice as many of these as of 64.
fn sum_of(closed: &[u8], input: &[u8]) -> usize
    requires { (length closed.now ≤ 4096) × (length input.now ≡ length closed.now) × (part_negative closed.now input.now ≡ false) }
    ensures { result ≡ part_residue closed.now input.now }
{
    let mut sum = 0u32;
    for x in 0..closed.len() {
        sum += difference(closed[x], input[x]);
    }
    sum as usize
}

// The sum of the columns that are counted, of the closed row and of the input row. Refused 16.
fn part(closed: &[u8], input: &[u8]) -> Result<usize, Refusal>
    requires { (length closed.now ≤ 4096) × (length input.now ≡ length closed.now) }
    ensures { residue_as result ≡ residue_of (given 16 (part_negative closed.now input.now)) (part_residue closed.now input.now) }
{
    if some_negative(closed, input) {
        return Err(Refusal::Negative);
    }
    Ok(sum_of(closed, input))
}

// ---- the band

// How far the windows of a closing reach from a pixel, to either side: its extents to both sides added.
fn reach(before: u8, behind: u8) -> usize
    ensures { (result ≡ before + behind) × (result < 511) }
{
    usize::from(before) + usize::from(behind)
}

// Refused 3, 4, 7, 21. The closed row has this width and the input row this length.
fn judge(
    left: u8,
    right: u8,
    up: u8,
    down: u8,
    row: usize,
    rows: usize,
    width: usize,
    length: usize,
) -> Result<(), Refusal>
    ensures { said result ≡ band_number left right up down row rows width length }
{
    plan_record::judge_extents(left, right, up, down)?;
    plan_record::judge_size(width, rows)?;
    if rows <= row {
        return Err(Refusal::Size);
    }
    if length != width {
        return Err(Refusal::RowLength);
    }
    if width <= 2 * reach(left, right) || rows <= 2 * reach(up, down) {
        return Err(Refusal::EmptyBand);
    }
    Ok(())
}

// Whether a closing of these extents leaves a band of a picture of this size. Refused 3, 4, 21: they are row 0's, if it has that width, as 4 for the row number and 7 do not come up there.
pub fn judge_closing(
    left: u8,
    right: u8,
    up: u8,
    down: u8,
    width: usize,
    rows: usize,
) -> Result<(), Refusal>
    ensures { said result ≡ closing_number left right up down width rows }
{
    judge(left, right, up, down, 0, rows, width, width)
}

impl From<Result<usize, Refusal>> for Residue {
    ghost from_gives = { λ counted r. r ≡ residue_as counted };

    fn from(counted: Result<usize, Refusal>) -> Residue {
        match counted {
            Ok(sum) => Residue::Sum(sum),
            Err(refusal) => Residue::Refused(refusal.number()),
        }
    }
}

// The dark residue of a row that is not refused.
pub fn counted(
    left: u8,
    right: u8,
    up: u8,
    down: u8,
    row: usize,
    rows: usize,
    closed: &[u8],
    input: &[u8],
) -> Result<usize, Refusal>
    ensures { Answered left right up down row rows closed.now input.now (residue_as result) }
{
    let width = closed.len();
    judge(left, right, up, down, row, rows, width, input.len())?;
    let high = reach(up, down);
    if row < high {
        return Ok(0);
    }
    if rows <= row + high {
        return Ok(0);
    }
    let lo = reach(left, right);
    let hi = width - lo;
    part(&closed[lo..hi], &input[lo..hi])
}

// The dark residue of row number `row` of a picture of `rows` rows, from the closed row and the input row; the extents are those of the closing. Refused 3, 4, 7, 21, 16.
pub fn dark(
    left: u8,
    right: u8,
    up: u8,
    down: u8,
    row: usize,
    rows: usize,
    closed: &[u8],
    input: &[u8],
) -> Residue
    ensures { Answered left right up down row rows closed.now input.now result }
{
    Residue::from(counted(left, right, up, down, row, rows, closed, input))
}
