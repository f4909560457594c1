// The one stage of a plan that origins are asked of.

ghost use Rattle.std.specs.Prelude.{◌≡◌, [], ◌∷◌};
ghost use Rattle.plan_record.specs.Plan.{used};
ghost use Rattle.picture_origin.specs.Step.{only_stage};

use picture_state::State;
use plan_record::Stage;

pub fn stage(state: State) -> Stage
    requires { state.plan.count ≡ 1 }
    ensures { (result ≡ only_stage state) × (used state.plan ≡ only_stage state ∷ []) }
{
    state.plan.stages[0]
}
