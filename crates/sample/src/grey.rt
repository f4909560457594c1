// Grey samples: bytes, in the order of their numbers.
ghost use Rattle.std.specs.Prelude.{◌≡◌, length};
ghost use Rattle.std.proofs.Common.{rules};
ghost use Rattle.sample.specs.Samples.{greys};

use crate::Sample;
use morph::Kind;

impl Sample for u8 {
    ghost samples = { greys };

    ghost NUMBER = { 0 };

    const NUMBER: u8 = 0;

    fn zero() -> u8 {
        0
    }

    fn passes(kind: Kind, new: u8, old: u8) -> bool {
        match kind {
            Kind::Erosion => new <= old,
            Kind::Dilation => old <= new,
        }
    }

    // Every byte is accepted, as itself.
    fn is_good(self) -> bool {
        true
    }

    fn taken(self) -> u8 {
        self
    }

    fn first_bad(row: &[u8]) -> usize {
        row.len()
    }

    fn take_in(row: &[u8], to: &mut [u8]) {
        to.copy_from_slice(row);
    }

    ghost small = { Prim.search rules };
}
