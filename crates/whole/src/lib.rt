// Plans applied to whole lent pictures, in place, with one lent row to work in: `apply`. For whoever has all of a picture in memory; the picture filter of `picture` takes it row by row.
// No call asks anything of its caller: what it cannot do it refuses, with a number, and changes nothing.
#![tactic(auto)]

ghost use Rattle.std.specs.Prelude.{◌≡◌, ◌*◌, ◌≤◌, length};
ghost use Rattle.morph.specs.Lists.{Each};
ghost use Rattle.morph.specs.Picture.{apply_stage, apply_plan};
ghost use Rattle.plan_record.specs.Plan.{filter_of, stages_of, record_number};
ghost use Rattle.whole_judge.specs.Inner.{Applied};
ghost use Rattle.whole_judge.specs.Whole.{FiltersWhole};

use passes::{Choice, Grid};
use plan_record::{Plan, Stage};

mod in_place; // in_place.rt: pictures that are read where they stand

pub use in_place::InPlace;
// meaning: whole_judge/specs/Whole.antt `whole_said`
pub use whole_judge::Filtered;

// A stage: across each row, and then down the columns, ahead and back.
fn stage<S: Choice>(stage: Stage, grid: Grid, picture: &mut [S], row: &mut [S])
    requires { (length picture.old ≡ grid.rows * grid.width) × (grid.width ≤ length row.old) × Each S.Fair picture.old }
    ensures { Applied S.Fair (apply_stage (filter_of S.samples.order stage)) grid.width grid.rows picture.old row.old picture.new row.new }
{
    let kind = stage.kind;
    let back = plan_record::back_across(stage);
    let ahead = plan_record::ahead_across(stage);
    passes::across(kind, back, ahead, grid, picture, row);
    let above = plan_record::above(stage);
    let below = plan_record::below(stage);
    sweep::down_ahead(kind, below, grid, picture);
    sweep::down_back(kind, below, above, grid, picture);
}

// A plan, stage by stage.
fn run<S: Choice>(plan: Plan, grid: Grid, picture: &mut [S], row: &mut [S])
    requires { (plan.count ≤ 16) × (length picture.old ≡ grid.rows * grid.width) × (grid.width ≤ length row.old) × Each S.Fair picture.old }
    ensures { Applied S.Fair (apply_plan (stages_of S.samples.order plan)) grid.width grid.rows picture.old row.old picture.new row.new }
{
    for next in &plan.stages[..plan.count] {
        stage(*next, grid, picture, row);
    }
}

// Applies the plan to the picture, in its place. Refused 1, or stage by stage 3; then 4; 7, 6; of floats 8. A refused call changes nothing.
// Its answer is the record that C reads, so that both have one promise.
pub fn apply<S: InPlace>(
    plan: Plan,
    width: usize,
    rows: usize,
    picture: &mut [S],
    row: &mut [S],
) -> Filtered
    ensures { FiltersWhole S.samples (stages_of S.samples.order plan) width rows picture.old row.old picture.new row.new (record_number plan) result }
{
    let judged = plan_record::judge(plan);
    if let Err(refusal) = whole_judge::judge(judged, width, rows, picture.len(), row.len()) {
        return whole_judge::say(refusal.number());
    }
    if let Some(place) = S::take(picture) {
        return whole_judge::say_not_finite(width, place);
    }
    run(plan, Grid { width, rows }, picture, row);
    whole_judge::say(0)
}
