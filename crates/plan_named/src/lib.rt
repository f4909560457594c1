// The named plans: opening, closing, and the alternate sequential filter.
#![tactic(auto)]

ghost use Rattle.std.specs.Prelude.{◌≡◌, [], ◌∷◌, ◌≤◌};
ghost use Rattle.morph.specs.Numbers.{extent_number};
ghost use Rattle.plan_record.specs.Plan.{plan_of, sequence_stages, order_number, reading_of, pair_stages, opening_stages, closing_stages, extended, alternating_stages};
ghost use Rattle.plan_record.specs.Inner.{added_all, reading_as};

use morph::{Kind, Refusal};
use plan_record::{Plan, Reading, Stage, add, empty, judge_extents};

fn with_extents(kind: Kind, left: u8, right: u8, up: u8, down: u8) -> Stage
    ensures { result ≡ extended kind left right up down }
{
    Stage {
        kind,
        left,
        right,
        up,
        down,
    }
}

// The plan of two stages of one rectangle: refused 3.
fn pair(first: Kind, second: Kind, left: u8, right: u8, up: u8, down: u8) -> Result<Plan, Refusal>
    ensures { reading_as result ≡ reading_of (extent_number (left ∷ right ∷ up ∷ down ∷ [])) (plan_of (pair_stages first second left right up down)) }
{
    judge_extents(left, right, up, down)?;
    let one = add(empty(), with_extents(first, left, right, up, down));
    Ok(add(one, with_extents(second, left, right, up, down)))
}

// The plan of an opening: refused 3.
pub fn opening(left: u8, right: u8, up: u8, down: u8) -> Reading
    ensures { result ≡ reading_of (extent_number (left ∷ right ∷ up ∷ down ∷ [])) (plan_of (opening_stages left right up down)) }
{
    Reading::from(pair(Kind::Erosion, Kind::Dilation, left, right, up, down))
}

// The plan of a closing: refused 3.
pub fn closing(left: u8, right: u8, up: u8, down: u8) -> Reading
    ensures { result ≡ reading_of (extent_number (left ∷ right ∷ up ∷ down ∷ [])) (plan_of (closing_stages left right up down)) }
{
    Reading::from(pair(Kind::Dilation, Kind::Erosion, left, right, up, down))
}

// The plan with an opening and a closing more, all extents alike.
fn add_sequence(plan: Plan, extent: u8) -> Plan
    requires { plan.count ≤ 12 }
    ensures { result ≡ added_all plan (sequence_stages extent) }
{
    let erosion = with_extents(Kind::Erosion, extent, extent, extent, extent);
    let dilation = with_extents(Kind::Dilation, extent, extent, extent, extent);
    add(add(add(add(plan, erosion), dilation), dilation), erosion)
}

// The plan of the sequences of extents 1 to the order: refused 17.
fn sequences(order: u8) -> Result<Plan, Refusal>
    ensures { reading_as result ≡ reading_of (order_number order) (plan_of (alternating_stages order)) }
{
    if order == 0 || 4 < order {
        return Err(Refusal::FilterOrder);
    }
    let mut plan = empty();
    for extent in 1..=order {
        plan = add_sequence(plan, extent);
    }
    Ok(plan)
}

// The plan of the alternate sequential filter of that order: refused 17.
pub fn alternating(order: u8) -> Reading
    ensures { result ≡ reading_of (order_number order) (plan_of (alternating_stages order)) }
{
    Reading::from(sequences(order))
}
