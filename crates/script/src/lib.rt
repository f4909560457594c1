// How the test programs read their scripts: numbers, low byte first, and plans; and how much of an array is lent.
#![tactic(auto)]

ghost use Rattle.std.specs.Prelude.{◌≡◌, ◌≤◌, length, take};

use morph::Kind;
use plan_record::{Plan, Stage};

// So many bytes from a place on, with 0 for each that is not there.
pub fn bytes_at<const N: usize>(given: &[u8], at: usize) -> [u8; N] {
    let mut bytes = [0; N];
    for (byte, there) in bytes.iter_mut().zip(given.iter().skip(at)) {
        *byte = *there;
    }
    bytes
}

// The byte at a place, or 0.
pub fn byte_at(given: &[u8], i: usize) -> u8 {
    given.get(i).copied().unwrap_or(0)
}

// The number of eight bytes at a place, low byte first.
pub fn number(given: &[u8], at: usize) -> usize {
    usize::from_le_bytes(bytes_at(given, at))
}

// ---- plans: a count and 80 numbers

// The numbers of the stages.
pub fn stages(given: &[u8]) -> [u8; 80] {
    bytes_at(given, 1)
}

fn stage_of(numbers: [u8; 5]) -> Stage {
    let [kind, left, right, up, down] = numbers;
    Stage {
        kind: Kind::try_from(kind).unwrap_or(Kind::Dilation),
        left: left,
        right: right,
        up: up,
        down: down,
    }
}

// The plan record of the numbers, whatever they are: the count, and all 16 places.
pub fn record(given: &[u8]) -> Plan {
    let mut plan = plan_record::empty();
    plan.count = usize::from(byte_at(given, 0));
    for (i, stage) in plan.stages.iter_mut().enumerate() {
        *stage = stage_of(bytes_at(given, i * 5 + 1));
    }
    plan
}

// ---- how much is lent

// So many of a row, or all.
pub fn up_to<T>(n: usize, row: &[T]) -> &[T]
    ensures { (length result.now ≤ length row.now) × (result.now ≡ take n row.now) }
{
    &row[..n.min(row.len())]
}

// The same of a row that is written.
pub fn up_to_mut<T>(n: usize, row: &mut [T]) -> &mut [T]
    ensures { (length result.now ≤ length row.old) × (result.now ≡ take n row.old) }
{
    let most = row.len();
    &mut row[..n.min(most)]
}
