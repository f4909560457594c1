// The two kinds of sample: their names, their files' letters, and how a pixel stands in a file.
use crate::files;
use sample::Sample;
use show::Shown;
use std::io::Read;

pub trait Pixel: Sample + Shown {
    fn name() -> &'static str;

    fn letter() -> char;

    fn next(from: &mut impl Read) -> Self;
}

impl Pixel for u8 {
    fn name() -> &'static str {
        "grey"
    }

    fn letter() -> char {
        'g'
    }

    fn next(from: &mut impl Read) -> u8 {
        let [byte] = files::bytes::<1>(from);
        byte
    }
}

impl Pixel for f32 {
    fn name() -> &'static str {
        "rate"
    }

    fn letter() -> char {
        'r'
    }

    fn next(from: &mut impl Read) -> f32 {
        sample::rate::from_bytes(&files::bytes::<4>(from), 0)
    }
}
