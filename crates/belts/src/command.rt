// How a command is read: its number, two bytes x and y, and five numbers of 8 bytes each, low byte first. The fifth is how many bytes follow that are the command's.
//
//     10 11 12       a grey row of the bytes that follow, a drain, both on an output row of b; of stage a and column b the places from c on, at most x of them
//     20 21 22       the same on floats, a row being of a pixels
//     30 31 32 33    a start: sample kind x, width a, rows b, cells c; a plan follows. By numbers or by its record; 32 and 33 are open
//     34             a stop
//     40 41 42       the state gets the sample kind x, the ending y, the width a, the rows b and the step c; it gets the plan that follows; it is told
//     43 44          so much is lent of values, positions, starts and lengths; the cells and the records that a plan needs
//     45 46          record a gets the start x and the length y; record a gets what the last such one had
//     47             words for the reader follow
//
// These numbers are hexadecimal. A plan is its count and 80 numbers.
ghost use Rattle.std.specs.Prelude.{◌≤◌, length};

use script::{number, up_to_mut};
use std::io::Read;

#[derive(Clone, Copy, Debug, PartialEq, Eq)]
pub struct Command {
    pub op: u8,
    pub x: u8,
    pub y: u8,
    pub a: usize,
    pub b: usize,
    pub c: usize,
    pub d: usize,
    pub size: usize,
}

// The next command. There is none behind one whose number is 0.
pub fn read(from: &mut impl Read) -> Option<Command> {
    let mut bytes = [0u8; 43];
    from.read_exact(&mut bytes).ok()?;
    if bytes[0] == 0 {
        return None;
    }
    Some(Command {
        op: bytes[0],
        x: bytes[1],
        y: bytes[2],
        a: number(&bytes, 3),
        b: number(&bytes, 11),
        c: number(&bytes, 19),
        d: number(&bytes, 27),
        size: number(&bytes, 35),
    })
}

// The bytes that follow a command, as many as there is room for.
pub fn follow<'a>(from: &mut impl Read, size: usize, room: &'a mut [u8]) -> &'a [u8]
    ensures { length result.now ≤ length room.old }
{
    let part = up_to_mut(size, room);
    let _ = from.read_exact(part);
    part
}
