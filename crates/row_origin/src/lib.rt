// Rows with their origins: a row filtered in place, as crate row does it, and beside each answer the column that gave it, the latest where several did.
// It is the position of the queue's front, so that it takes one more store for each pixel and no comparison.
#![tactic(auto)]

ghost use Rattle.std.specs.Prelude.{◌≡◌, ◌+◌, ◌≤◌, ◌<◌, length};
ghost use Rattle.row.specs.Inner.{ReadOrigins, AcrossOrigins, DrainedOrigins};

use morph::Kind;
use queue::{Ends, Entry};
use row::{RowQueue, answer};
use sample::Sample;

// The steps that read, as in row: the queue's start and count stand in locals until all are read, and the length goes by way of a position.
fn read_row<S: Sample>(
    kind: Kind,
    values: &mut [S; 63],
    positions: &mut [u16; 63],
    back: usize,
    ahead: usize,
    row: &mut [S],
    columns: &mut [u16],
) -> Ends
    requires { (back ≤ 31) × (ahead ≤ 31) × (length row.old ≤ 65535) × (length columns.old ≡ length row.old) × (length values.old ≡ 63) × (length positions.old ≡ 63) }
    ensures { ReadOrigins S.samples kind back ahead row.old columns.old (length row.old) row.new columns.new values.new positions.new result.start result.count result.comparisons }
{
    let window = back + ahead + 1;
    let n = usize::from(row::position(row.len()));
    let mut start = 0;
    let mut count = 0;
    let mut behind = 0;
    let mut comparisons = 0;
    for t in 0..n {
        let e = Entry {
            value: row[t],
            position: row::position(t),
        };
        let r = queue::push_within(kind, window, values, positions, start, count, behind, e);
        start = r.start;
        count = r.count + 1;
        behind = queue::next(r.at, 63);
        comparisons += r.comparisons;
        let front = queue::front(&values[..], &positions[..], start);
        answer(row, ahead, t, front.value);
        answer(columns, ahead, t, front.position);
    }
    Ends {
        start,
        count,
        comparisons,
    }
}

// The steps that drain, whatever row the queue and the answers so far are from.
fn drain_row<S: Sample>(
    q: RowQueue<S>,
    back: usize,
    ahead: usize,
    row: &mut [S],
    columns: &mut [u16],
)
    requires { (back ≤ 31) × (ahead ≤ 31) × (length row.old ≤ 65535) × (length columns.old ≡ length row.old) × (q.start < 63) × (q.count ≤ back + ahead + 1) }
    ensures { DrainedOrigins S.samples back ahead row.old columns.old q.values q.positions q.start q.count row.new columns.new }
{
    let window = back + ahead + 1;
    let n = row.len();
    let end = n + ahead;
    let mut start = q.start;
    let mut count = q.count;
    for t in n..end {
        let gone = queue::goes(&q.positions, start, count, window, t);
        start = queue::slot(start, gone, 63);
        count -= gone;
        let oldest = queue::front(&q.values, &q.positions, start);
        answer(row, ahead, t, oldest.value);
        answer(columns, ahead, t, oldest.position);
    }
}

// All pixels are read. The kind is chosen here once, by a literal, so that no loop has to ask for it.
fn read_all<S: Sample>(
    kind: Kind,
    values: &mut [S; 63],
    positions: &mut [u16; 63],
    back: usize,
    ahead: usize,
    row: &mut [S],
    columns: &mut [u16],
) -> Ends
    requires { (back ≤ 31) × (ahead ≤ 31) × (length row.old ≤ 65535) × (length columns.old ≡ length row.old) × (length values.old ≡ 63) × (length positions.old ≡ 63) }
    ensures { ReadOrigins S.samples kind back ahead row.old columns.old (length row.old) row.new columns.new values.new positions.new result.start result.count result.comparisons }
{
    match kind {
        Kind::Erosion => read_row(Kind::Erosion, values, positions, back, ahead, row, columns),
        Kind::Dilation => read_row(Kind::Dilation, values, positions, back, ahead, row, columns),
    }
}

// A row filtered in place, and where its answers came from; the comparisons made.
pub fn across<S: Sample>(
    kind: Kind,
    back: usize,
    ahead: usize,
    row: &mut [S],
    columns: &mut [u16],
) -> usize
    requires { (back ≤ 31) × (ahead ≤ 31) × (length row.old ≤ 65535) × (length columns.old ≡ length row.old) }
    ensures { AcrossOrigins S.samples kind back ahead row.old columns.old row.new columns.new result }
{
    let room = row::empty();
    let mut values = room.values;
    let mut positions = room.positions;
    let passed = read_all(kind, &mut values, &mut positions, back, ahead, row, columns);
    let q = RowQueue {
        values,
        positions,
        start: passed.start,
        count: passed.count,
    };
    drain_row(q, back, ahead, row, columns);
    passed.comparisons
}
