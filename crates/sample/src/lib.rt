// The two kinds of sample that a picture can have: grey bytes, and 32-bit floats, called rates.
// `Sample` is what the layers above ask of a kind; whatever they do is written once over it. Its laws are those of the record `Samples`.
#![tactic(auto)]

ghost use Rattle.std.specs.Prelude.{◌≡◌, ℕ, ◌≤◌, map, length};
ghost use Rattle.std.specs.Mem.{type_size};
ghost use Rattle.std.specs.Align.{type_align};
ghost use Rattle.sample.specs.Samples.{Samples, first_bad};

use morph::Kind;

pub mod grey; // grey.rt: bytes, in the order of their numbers
pub mod rate; // rate.rt: floats, in the order of their own comparison; which are finite, and how one stands in four bytes

// A kind of samples: `samples` is its order, how two of it compare, which are accepted, what an accepted one is read as, and its zero.
pub trait Sample: Copy {
    ghost samples: { Samples Self };

    // "sample kind is 0 (grey) or 1 (float)"
    ghost NUMBER: { ℕ };

    const NUMBER: u8;

    fn zero() -> Self
        ensures { result ≡ samples.zero };

    // Whether the new value equals or passes the old one: for dilation by being as large, for erosion by being as small.
    fn passes(kind: Kind, new: Self, old: Self) -> bool
        ensures { result ≡ samples.passes kind new old };

    // Whether the value is accepted.
    fn is_good(self) -> bool
        ensures { result ≡ samples.good self };

    // What an accepted value is read as.
    fn taken(self) -> Self
        ensures { result ≡ samples.taken self };

    // The first column that is not accepted; the length if there is none.
    fn first_bad(row: &[Self]) -> usize
        ensures { result ≡ first_bad samples row.now };

    // A row as it is read, into another of its length.
    fn take_in(row: &[Self], to: &mut [Self])
        requires { length row.now ≡ length to.old }
        ensures { to.new ≡ map samples.taken row.now };

    // A sample takes at most four bytes, so that an array of them fits in memory.
    ghost small: { (type_size Self.row ≤ 4) × (type_align Self.row ≤ 4) };
}
