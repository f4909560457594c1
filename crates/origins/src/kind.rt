// The two kinds of sample, and their names.
use crate::input::Piece;
use sample::Sample;
use show::Shown;

pub trait Pixel: Piece + Sample + Shown {
    fn name() -> &'static str;
}

impl Pixel for u8 {
    fn name() -> &'static str {
        "grey"
    }
}

impl Pixel for f32 {
    fn name() -> &'static str {
        "rate"
    }
}
