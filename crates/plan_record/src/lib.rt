// Stage and plan records: judging them, and the memory and the look-ahead that a plan needs.
#![tactic(auto)]

ghost use Rattle.std.specs.Prelude.{◌≡◌, [], ◌∷◌, ◌+◌, ◌≤◌, ◌<◌};
ghost use Rattle.morph.specs.Order.{reach_back, ahead_of};
ghost use Rattle.morph.specs.Numbers.{extent_number};
ghost use Rattle.morph.specs.Refusals.{said};
ghost use Rattle.plan_record.specs.Plan.{plan_of, used, size_of, below_of, cells_needed, records_needed, plan_ahead, count_number, record_number, needs_of_none, needs_of};
ghost use Rattle.plan_record.specs.Inner.{added, reading_as, need_as};

use morph::{Kind, Refusal};

mod image; // image.rt: the rules of an image's head

pub use image::{judge_sample, judge_size};

// A rectangle of four extents, and what is done with it.
#[derive(Clone, Copy, Debug, PartialEq, Eq)]
pub struct Stage {
    pub kind: Kind,
    pub left: u8,
    pub right: u8,
    pub up: u8,
    pub down: u8,
}

// The first `count` places are the plan's stages, and the others hold zeros and the kind erosion.
// That the count is at most 16 is no ghost field: `judge` answers 1 on a record that breaks it (document 01; `record_number`).
#[derive(Clone, Copy, Debug, PartialEq, Eq)]
pub struct Plan {
    pub count: usize,
    pub stages: [Stage; 16],
}

// What reading or naming a plan gives: 0 and the plan, or a refusal's number and all zeros. It stays a record, and no Result:
// document 01 says that "a refused .. named plan or reading hands back all zeros, kind erosion" (`reading_of`).
#[derive(Clone, Copy, Debug, PartialEq, Eq)]
pub struct Reading {
    pub number: u8,
    pub plan: Plan,
}

// The plan of no stages: all zeros, kind erosion.
pub fn empty() -> Plan
    ensures { (result ≡ plan_of []) × (result.count ≡ 0) }
{
    let unused = Stage {
        kind: Kind::Erosion,
        left: 0,
        right: 0,
        up: 0,
        down: 0,
    };
    Plan {
        count: 0,
        stages: [unused; 16],
    }
}

// The plan with one stage more.
pub fn add(plan: Plan, stage: Stage) -> Plan
    requires { plan.count < 16 }
    ensures { (result ≡ added plan stage) × (result.count ≡ plan.count + 1) }
{
    let count = plan.count;
    let mut longer = plan;
    longer.stages[count] = stage;
    longer.count = count + 1;
    longer
}

// The plan of the same stages: the places after them hold zeros and the kind erosion, whatever they held.
pub fn trimmed(plan: Plan) -> Plan
    requires { plan.count ≤ 16 }
    ensures { result ≡ plan_of (used plan) }
{
    let mut kept = empty();
    for stage in &plan.stages[..plan.count] {
        kept = add(kept, *stage);
    }
    kept
}

impl From<Result<Plan, Refusal>> for Reading {
    ghost from_gives = { λ read r. r ≡ reading_as read };

    fn from(read: Result<Plan, Refusal>) -> Reading {
        match read {
            Ok(plan) => Reading { number: 0, plan },
            Err(refusal) => Reading {
                number: refusal.number(),
                plan: empty(),
            },
        }
    }
}

// ---- what a stage and a plan need

// The places of a column's queue.
pub fn size_of(stage: Stage) -> usize
    ensures { (result ≡ size_of stage) × (result ≤ 511) }
{
    usize::from(stage.up) + usize::from(stage.down) + 1
}

// How far a window of two extents reaches back, and how far ahead.
fn back_of(kind: Kind, a: u8, b: u8) -> usize
    ensures { (result ≡ reach_back kind a b) × (result < 256) }
{
    match kind {
        Kind::Erosion => usize::from(a),
        Kind::Dilation => usize::from(b),
    }
}

fn ahead_of(kind: Kind, a: u8, b: u8) -> usize
    ensures { (result ≡ ahead_of kind a b) × (result < 256) }
{
    match kind {
        Kind::Erosion => usize::from(b),
        Kind::Dilation => usize::from(a),
    }
}

// B across.
pub fn back_across(stage: Stage) -> usize
    ensures { (result ≡ reach_back stage.kind stage.left stage.right) × (result < 256) }
{
    back_of(stage.kind, stage.left, stage.right)
}

// F across.
pub fn ahead_across(stage: Stage) -> usize
    ensures { (result ≡ ahead_of stage.kind stage.left stage.right) × (result < 256) }
{
    ahead_of(stage.kind, stage.left, stage.right)
}

// B down.
pub fn above(stage: Stage) -> usize
    ensures { (result ≡ reach_back stage.kind stage.up stage.down) × (result < 256) }
{
    back_of(stage.kind, stage.up, stage.down)
}

// F down.
pub fn below(stage: Stage) -> usize
    ensures { (result ≡ below_of stage) × (result < 256) }
{
    ahead_of(stage.kind, stage.up, stage.down)
}

// The queue cells that the plan's stages need over a picture of that width.
pub fn cells(plan: Plan, width: usize) -> usize
    requires { (plan.count ≤ 16) × (width ≤ 4096) }
    ensures { result ≡ cells_needed plan width }
{
    let mut needed = 0;
    for stage in &plan.stages[..plan.count] {
        needed += width * size_of(*stage);
    }
    needed
}

// The column records that they need.
pub fn records(plan: Plan, width: usize) -> usize
    requires { (plan.count ≤ 16) × (width ≤ 4096) }
    ensures { result ≡ records_needed plan width }
{
    plan.count * width
}

// The sum of the stages' F down.
pub fn look_ahead(plan: Plan) -> usize
    requires { plan.count ≤ 16 }
    ensures { result ≡ plan_ahead plan }
{
    let mut ahead = 0;
    for stage in &plan.stages[..plan.count] {
        ahead += below(*stage);
    }
    ahead
}

// ---- judging

// Refused 1, or nothing is wrong.
pub fn judge_count(count: usize) -> Result<(), Refusal>
    ensures { said result ≡ count_number count }
{
    if count == 0 || 16 < count {
        return Err(Refusal::StageCount);
    }
    Ok(())
}

// Refused 3.
pub fn judge_extents(left: u8, right: u8, up: u8, down: u8) -> Result<(), Refusal>
    ensures { said result ≡ extent_number (left ∷ right ∷ up ∷ down ∷ []) }
{
    if 31 < left || 31 < right || 31 < up || 31 < down {
        return Err(Refusal::Extent);
    }
    Ok(())
}

// A plan record is refused 1, or stage by stage 3.
#[tactic(auto, unfolding(crate::specs::Plan::record_number))]
pub fn judge(plan: Plan) -> Result<(), Refusal>
    ensures { said result ≡ record_number plan }
{
    judge_count(plan.count)?;
    for stage in &plan.stages[..plan.count] {
        judge_extents(stage.left, stage.right, stage.up, stage.down)?;
    }
    Ok(())
}

// ---- what to lend

// What a plan needs over a picture of a width: 0, the cells, the records and the look-ahead, or a refusal's number and zeros.
// It stays a record: the zeros that go with a refusal are promised (`needs_of_none`).
#[derive(Clone, Copy, Debug, PartialEq, Eq)]
pub struct Need {
    pub number: u8,
    pub cells: usize,
    pub records: usize,
    pub ahead: usize,
}

fn no_needs(number: u8) -> Need
    ensures { result ≡ needs_of_none number }
{
    Need {
        number,
        cells: 0,
        records: 0,
        ahead: 0,
    }
}

impl From<Result<Need, Refusal>> for Need {
    ghost from_gives = { λ needed r. r ≡ need_as needed };

    fn from(needed: Result<Need, Refusal>) -> Need {
        match needed {
            Ok(need) => need,
            Err(refusal) => no_needs(refusal.number()),
        }
    }
}

#[tactic(auto, unfolding(crate::specs::Plan::needs_of, crate::specs::Plan::needs_number))]
fn needed(plan: Plan, width: usize) -> Result<Need, Refusal>
    ensures { need_as result ≡ needs_of plan width }
{
    judge(plan)?;
    judge_size(width, 1)?;
    Ok(Need {
        number: 0,
        cells: cells(plan, width),
        records: records(plan, width),
        ahead: look_ahead(plan),
    })
}

// Refused 1, or stage by stage 3; then 4, which is the width's.
pub fn needs(plan: Plan, width: usize) -> Need
    ensures { result ≡ needs_of plan width }
{
    Need::from(needed(plan, width))
}
