// Pictures that are read where they stand.
ghost use Rattle.whole_judge.specs.Inner.{Read};

use passes::Choice;

// A kind of samples whose pictures are read in their place: each value becomes what it is read as. The place of the first pixel that is not accepted,
// and then the picture stays; none where each is.
pub trait InPlace: Choice {
    fn take(picture: &mut [Self]) -> Option<usize>
        ensures { Read Self.samples Self.Fair picture.old picture.new result };
}

// Every byte is read as itself.
impl InPlace for u8 {
    fn take(picture: &mut [u8]) -> Option<usize> {
        None
    }
}

// Each negative zero becomes a positive one.
impl InPlace for f32 {
    fn take(picture: &mut [f32]) -> Option<usize> {
        if sample::rate::all_accepted(&picture[..]) {
            return None;
        }
        let first = sample::rate::first_not_finite(&picture[..]);
        if first < picture.len() {
            return Some(first);
        }
        sample::rate::clean(picture);
        None
    }
}
