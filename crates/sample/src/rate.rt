// Rates: 32-bit floats, in the order of their own comparison.
ghost use Rattle.std.specs.Prelude.{◌≡◌, ◌++◌, map, ◌+◌, ◌≤◌, length, take, drop};
ghost use Rattle.std.proofs.Common.{rules};
ghost use Rattle.std.specs.Float.{binary32};
ghost use Rattle.std.specs.Float.Ieee.{of_bits, to_bits};
ghost use Rattle.std.specs.Float.Ieee.Scale.{finite};
ghost use Rattle.morph.specs.Lists.{all};
ghost use Rattle.morph.specs.Rate.{plus_zero_of};
ghost use Rattle.sample.specs.Rate.{passes_of, accepted};
ghost use Rattle.sample.specs.Bytes.{float_of, float_at, bytes_of};
ghost use Rattle.sample.specs.Samples.{first_bad, rates};

use crate::Sample;
use morph::Kind;

// ---- one float

// IEEE 754's binary32 is a sign bit, eight exponent bits and 23 fraction bits. A float is finite exactly when its exponent bits are not all ones.
pub fn is_finite(x: f32) -> bool
    ensures { result ≡ finite x }
{
    let bits = to_pattern(x);
    let exponent = (bits >> 23) & 0xff;
    exponent != 0xff
}

// Whether a float is read as itself: it is finite, and no negative zero, whose sign bit stands alone.
fn is_accepted(x: f32) -> bool
    ensures { result ≡ accepted x }
{
    let bits = to_pattern(x);
    is_finite(x) & (bits != 0x8000_0000)
}

// A negative zero is read as positive zero, and every other value as itself.
pub fn plus_zero(x: f32) -> f32
    ensures { result ≡ plus_zero_of x }
{
    if x == 0.0 { 0.0 } else { x }
}

// ---- a float and its four bytes

// The float of a bit pattern. The patterns above an infinity's, the sign put aside, are those of a NaN, and each gives one.
fn from_pattern(n: u32) -> f32
    ensures { result ≡ of_bits binary32 n }
{
    if 0x7f80_0000 < n % 0x8000_0000 {
        return 0.0 / 0.0;
    }
    f32::from_bits(n)
}

// The float of four bytes, low byte first.
fn float_of(a: u8, b: u8, c: u8, d: u8) -> f32
    ensures { result ≡ float_of a b c d }
{
    from_pattern((a as u32) + (b as u32) * 256 + (c as u32) * 65536 + (d as u32) * 16777216)
}

// The bit pattern of a float; for a NaN, which has many, always the same one.
fn to_pattern(x: f32) -> u32
    ensures { result ≡ to_bits binary32 x }
{
    if x != x {
        return 0x7fc0_0000;
    }
    f32::to_bits(x)
}

// The float whose four bytes stand at a place.
pub fn from_bytes(bytes: &[u8], at: usize) -> f32
    requires { at + 4 ≤ length bytes.now }
    ensures { result ≡ float_at bytes.now at }
{
    float_of(bytes[at], bytes[at + 1], bytes[at + 2], bytes[at + 3])
}

// Puts the four bytes of a float at a place, and leaves all others.
pub fn to_bytes(x: f32, bytes: &mut [u8], at: usize)
    requires { at + 4 ≤ length bytes.old }
    ensures { bytes.new ≡ take at bytes.old ++ bytes_of x ++ drop (at + 4) bytes.old }
{
    let n = to_pattern(x);
    bytes[at] = (n % 256) as u8;
    bytes[at + 1] = (n / 256 % 256) as u8;
    bytes[at + 2] = (n / 65536 % 256) as u8;
    bytes[at + 3] = (n / 16777216) as u8;
}

// ---- a row

// Whether a whole row is finite. It looks at every column and stops at none: that is many times cheaper than to leave early.
fn all_finite(row: &[f32]) -> bool
    ensures { result ≡ all finite row.now }
{
    let mut good = true;
    for &x in row {
        good = good & is_finite(x);
    }
    good
}

// Whether a whole row is finite and free of negative zeros, so that it is read as it stands. It stops at no column either.
pub fn all_accepted(row: &[f32]) -> bool
    ensures { result ≡ all accepted row.now }
{
    let mut good = true;
    for &x in row {
        good = good & is_accepted(x);
    }
    good
}

// The first column that is not finite, found by looking at one after another; the length if there is none.
fn search(row: &[f32]) -> usize
    ensures { result ≡ first_bad rates row.now }
{
    for (i, &x) in row.iter().enumerate() {
        if !is_finite(x) {
            return i;
        }
    }
    row.len()
}

// The first column that is not finite; the length if there is none. It searches only a row that is known to have one.
pub fn first_not_finite(row: &[f32]) -> usize
    ensures { result ≡ first_bad rates row.now }
{
    if all_finite(row) {
        return row.len();
    }
    search(row)
}

// Each negative zero of a row becomes a positive one.
pub fn clean(row: &mut [f32])
    ensures { row.new ≡ map plus_zero_of row.old }
{
    for x in row.iter_mut() {
        *x = plus_zero(*x);
    }
}

// ---- the kind of samples

impl Sample for f32 {
    ghost samples = { rates };

    ghost NUMBER = { 1 };

    const NUMBER: u8 = 1;

    fn zero() -> f32 {
        0.0
    }

    // Exact for every float; a NaN passes nothing and nothing passes it.
    fn passes(kind: Kind, new: f32, old: f32) -> bool {
        match kind {
            Kind::Erosion => new <= old,
            Kind::Dilation => old <= new,
        }
    }

    fn is_good(self) -> bool {
        is_finite(self)
    }

    fn taken(self) -> f32 {
        plus_zero(self)
    }

    fn first_bad(row: &[f32]) -> usize {
        first_not_finite(row)
    }

    fn take_in(row: &[f32], to: &mut [f32]) {
        for i in 0..to.len() {
            to[i] = plus_zero(row[i]);
        }
    }

    ghost small = { Prim.search rules };
}
