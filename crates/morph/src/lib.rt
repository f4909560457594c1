// What the code of all layers shares: which of the two filters a stage is, and a byte as a number.
// Everything else of this crate is definitions (specs/) and their laws (proofs/).
#![tactic(auto)]

ghost use Rattle.std.specs.Prelude.{◌≡◌, ◌<◌};
ghost use Rattle.morph.specs.Refusals.{KindOf};

mod refusal; // refusal.rt: the rules that a call can break, and their numbers

pub use refusal::{Refusal, said};

// Erosion keeps the smallest value under the window, dilation the largest.
#[derive(Clone, Copy, Debug, PartialEq, Eq)]
pub enum Kind {
    Erosion,
    Dilation,
}

// A byte as a number to reckon with.
pub fn wide(x: u8) -> usize
    ensures { (result ≡ x) × (result < 256) }
{
    x as usize
}

// "0 (erosion) or 1 (dilation)", and no other number.
impl TryFrom<u8> for Kind {
    type Error = Refusal;

    ghost try_from_gives = { KindOf };

    fn try_from(number: u8) -> Result<Kind, Refusal> {
        match number {
            0 => Ok(Kind::Erosion),
            1 => Ok(Kind::Dilation),
            _ => Err(Refusal::StageKind),
        }
    }
}
