// Which of two values a pass keeps: for each kind of samples, and for a kind of filter that is fixed as a type.
ghost use Rattle.std.specs.Prelude.{◌≡◌};
ghost use Rattle.morph.specs.declared.Kind.{Kind};
ghost use Rattle.morph.specs.declared.Kind.TheVariants.{Erosion, Dilation};
ghost use Rattle.morph.specs.Order.{order_of};
ghost use Rattle.morph.specs.Grey.{grey};
ghost use Rattle.morph.specs.Line.{greater};
ghost use Rattle.laws.specs.Laws.{Told, Taken};
ghost use Rattle.laws.proofs.Alike.{grey_told, rate_told};
ghost use Rattle.passes.specs.Inner.{Any, Picks, pick_rate};
ghost use Rattle.passes.specs.Picks.{greater_picks, rate_picks};

use morph::Kind;
use sample::Sample;

// A kind of samples of which the code takes the better of two: the larger for dilation, the smaller for erosion. Among `Fair` values, those of a picture
// as it is read, the choice is the order's, and the order tells the values apart.
pub trait Choice: Sample {
    ghost pick: { Kind → Self → Self → Self };

    ghost Fair: { Self → Type 0 };

    fn better(kind: Kind, a: Self, b: Self) -> Self
        ensures { result ≡ pick kind a b };

    ghost picks: { (kind : Kind) → Picks (order_of kind Self.samples.order) Fair (pick kind) };

    ghost told: { Told Self.samples.order Fair };
}

// Every byte is fair.
impl Choice for u8 {
    ghost pick = { λ kind. greater (order_of kind grey) };

    ghost Fair = { Any };

    ghost picks = { λ kind. greater_picks (order_of kind grey) };

    ghost told = { grey_told };

    fn better(kind: Kind, a: u8, b: u8) -> u8 {
        match kind {
            Kind::Erosion => if b <= a { b } else { a },
            Kind::Dilation => if a <= b { b } else { a },
        }
    }
}

// A float is fair that is finite and no negative zero. The second is taken only where it is strictly better, which is one instruction.
impl Choice for f32 {
    ghost pick = { pick_rate };

    ghost Fair = { Taken };

    ghost picks = { rate_picks };

    ghost told = { rate_told };

    fn better(kind: Kind, a: f32, b: f32) -> f32 {
        match kind {
            Kind::Erosion => if b < a { b } else { a },
            Kind::Dilation => if a < b { b } else { a },
        }
    }
}

// A kind of filter as a type: an inner loop over it is compiled for each of the two, so that neither asks for the kind at every pixel.
pub trait Way {
    ghost KIND: { Kind };

    const KIND: Kind;
}

#[derive(Clone, Copy, Debug, PartialEq, Eq)]
pub struct Smallest;

impl Way for Smallest {
    ghost KIND = { Erosion };

    const KIND: Kind = Kind::Erosion;
}

#[derive(Clone, Copy, Debug, PartialEq, Eq)]
pub struct Largest;

impl Way for Largest {
    ghost KIND = { Dilation };

    const KIND: Kind = Kind::Dilation;
}
