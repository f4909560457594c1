// What follows a head: the slices that a call is lent, one after the other.
ghost use Rattle.std.specs.Prelude.{◌≤◌, length};

use script::up_to_mut;
use std::io::Read;

// What a slice is of: each reads a part of the input as it stands there.
pub trait Piece: Copy {
    fn fill(rt: &impl Input, part: &mut [Self]);
}

// So many bytes that stand next in the input.
fn next<const N: usize>(rt: &impl Input) -> [u8; N] {
    let mut bytes = [0; N];
    let _ = rt.reader().read_exact(&mut bytes);
    bytes
}

impl Piece for u8 {
    fn fill(rt: &impl Input, part: &mut [u8]) {
        let _ = rt.reader().read_exact(part);
    }
}

impl Piece for u16 {
    fn fill(rt: &impl Input, part: &mut [u16]) {
        for each in part.iter_mut() {
            *each = u16::from_le_bytes(next(rt));
        }
    }
}

impl Piece for usize {
    fn fill(rt: &impl Input, part: &mut [usize]) {
        for each in part.iter_mut() {
            *each = usize::from_le_bytes(next(rt));
        }
    }
}

impl Piece for f32 {
    fn fill(rt: &impl Input, part: &mut [f32]) {
        for each in part.iter_mut() {
            *each = sample::rate::from_bytes(&next::<4>(rt), 0);
        }
    }
}

// The next slice. It comes to the start of its room, as far as there is room, and is what is lent.
pub fn slice<'a, T: Piece>(rt: &impl Input, count: usize, room: &'a mut [T]) -> &'a mut [T]
    ensures { length result.now ≤ length room.old }
{
    let part = up_to_mut(count, room);
    T::fill(rt, part);
    part
}
