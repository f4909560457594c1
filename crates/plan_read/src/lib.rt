// Reading a plan from numbers: a count and five bytes a stage, or stages of five bytes each.
#![tactic(auto)]

ghost use Rattle.std.specs.Prelude.{◌≡◌, ◌≤◌, length, take, MatchResult};
ghost use Rattle.morph.specs.Refusals.{refusal_number};
ghost use Rattle.plan_record.specs.Plan.{stage_out_of, stage_number, plan_read, plan_given};
ghost use Rattle.plan_record.specs.Inner.{reading_as};

use morph::{Kind, Refusal};
use plan_record::{Plan, Reading, Stage, add, empty, judge_count, judge_extents};

// The stage of five bytes: refused 2, 3.
fn stage_from(bytes: &[u8; 5]) -> Result<Stage, Refusal>
    ensures { MatchResult result (λ stage. (stage ≡ stage_out_of bytes.now 0) × (stage_number bytes.now 0 ≡ 0)) (λ refusal. refusal_number refusal ≡ stage_number bytes.now 0) }
{
    let [kind, left, right, up, down] = *bytes;
    let kind = Kind::try_from(kind)?;
    judge_extents(left, right, up, down)?;
    Ok(Stage {
        kind,
        left,
        right,
        up,
        down,
    })
}

// The plan of stages of five bytes each: refused 1, of how many there are; then stage by stage 2, 3.
#[tactic(auto, unfolding(plan_record::specs::Plan::plan_given, plan_record::specs::Plan::given_number))]
pub fn plan_from(stages: &[[u8; 5]]) -> Result<Plan, Refusal>
    ensures { reading_as result ≡ plan_given stages.now }
{
    judge_count(stages.len())?;
    let mut plan = empty();
    for stage in stages {
        plan = add(plan, stage_from(stage)?);
    }
    Ok(plan)
}

// The plan that a count and five bytes a stage say; bytes after the last stage's are not looked at. Refused 1; then stage by stage 2, 3.
#[tactic(auto, unfolding(plan_record::specs::Plan::plan_read, plan_record::specs::Plan::plan_number))]
pub fn read_plan(count: u8, bytes: &[u8; 80]) -> Result<Plan, Refusal>
    ensures { reading_as result ≡ plan_read count bytes.now }
{
    let n = usize::from(count);
    judge_count(n)?;
    let (stages, _) = bytes.as_chunks::<5>();
    plan_from(&stages[..n])
}

// The same as a record.
pub fn read(count: u8, bytes: &[u8; 80]) -> Reading
    ensures { result ≡ plan_read count bytes.now }
{
    Reading::from(read_plan(count, bytes))
}

// The plan that stages which stand apart say. Refused 1, of how many there are; then stage by stage 2, 3.
pub fn read_stages(stages: &[[u8; 5]]) -> Reading
    ensures { result ≡ plan_given stages.now }
{
    Reading::from(plan_from(stages))
}
