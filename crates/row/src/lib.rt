// A whole row filtered in place (`across`), and the queue of 63 places that it and a line's steps keep (`RowQueue`).
// The method keeps a queue of the values that can still be an answer; a row of N pixels takes at most 2N - 2 comparisons, whatever the window.
// At the edges the window is cut: positions off the row take no part.
#![tactic(auto)]

ghost use Rattle.std.specs.Prelude.{◌≡◌, ◌+◌, ◌≤◌, ◌<◌, length, replicate, get_or, set};
ghost use Rattle.queue.specs.Inner.{Roomed};
ghost use Rattle.row.specs.Inner.{answer_put, Read, Across, Drained};

use morph::Kind;
use queue::{Ends, Entry, Room};
use sample::Sample;

// A step as a position.
pub fn position(t: usize) -> u16
    requires { t < 65536 }
    ensures { result ≡ t }
{
    t as u16
}

// The row queue: its own 63 places, where it starts, and how many entries it has.
#[derive(Clone, Copy, Debug, PartialEq, Eq)]
pub struct RowQueue<S> {
    pub values: [S; 63],
    pub positions: [u16; 63],
    pub start: usize,
    pub count: usize,
}

// What a push leaves: the queue, and the room that the entry was given.
#[derive(Clone, Copy, Debug, PartialEq, Eq)]
pub struct Pushed<S> {
    pub queue: RowQueue<S>,
    pub room: Room,
}

// An empty queue.
pub fn empty<S: Sample>() -> RowQueue<S>
    ensures { (result.values ≡ replicate 63 S.samples.zero) × (result.positions ≡ replicate 63 0) × (result.start ≡ 0) × (result.count ≡ 0) }
{
    RowQueue {
        values: [S::zero(); 63],
        positions: [0; 63],
        start: 0,
        count: 0,
    }
}

// The queue reads an entry, at the step of its position.
pub fn push<S: Sample>(q: RowQueue<S>, kind: Kind, window: usize, e: Entry<S>) -> Pushed<S>
    requires { (q.start < 63) × (q.count ≤ window) × (0 < window) × (window ≤ 63) }
    ensures { Roomed S.samples kind window e.position e.value q.values q.positions q.start q.count result.room
        × (result.queue.values ≡ set q.values result.room.at e.value) × (result.queue.positions ≡ set q.positions result.room.at e.position) × (result.queue.start ≡ result.room.start) × (result.queue.count ≡ result.room.count + 1)
        × (length q.values ≡ 63) × (length q.positions ≡ 63) }
{
    let start = q.start;
    let count = q.count;
    let mut values = q.values;
    let mut positions = q.positions;
    let behind = queue::slot(start, count, 63);
    let r = queue::push_within(
        kind,
        window,
        &mut values,
        &mut positions,
        start,
        count,
        behind,
        e,
    );
    Pushed {
        queue: RowQueue {
            values,
            positions,
            start: r.start,
            count: r.count + 1,
        },
        room: r,
    }
}

// The oldest entry of a queue.
pub fn front<S: Sample>(q: RowQueue<S>) -> Entry<S>
    requires { q.start < 63 }
    ensures { (result.value ≡ get_or q.values q.start S.samples.order.blank) × (result.position ≡ get_or q.positions q.start 0) }
{
    let start = q.start;
    queue::front(&q.values, &q.positions, start)
}

// The answer v of step t, or the column that gave it, is put in its place, if step t has one.
pub fn answer<T: Copy>(row: &mut [T], ahead: usize, t: usize, v: T)
    requires { t < length row.old + ahead }
    ensures { row.new ≡ answer_put ahead t v row.old }
{
    if ahead <= t {
        row[t - ahead] = v;
    }
}

// The steps that read, into a queue that starts empty in the arrays lent; a row's answers go where its pixels have been read. The queue's start and count stand in locals
// until all are read: `push` on the queue itself copies its 63 places, here for every pixel. The length goes by way of a position, so that the compiler knows
// how small a step is.
fn read_row<S: Sample>(
    kind: Kind,
    values: &mut [S; 63],
    positions: &mut [u16; 63],
    back: usize,
    ahead: usize,
    row: &mut [S],
) -> Ends
    requires { (back ≤ 31) × (ahead ≤ 31) × (length row.old ≤ 65535) × (length values.old ≡ 63) × (length positions.old ≡ 63) }
    ensures { Read S.samples kind back ahead row.old (length row.old) row.new values.new positions.new result.start result.count result.comparisons }
{
    let window = back + ahead + 1;
    let n = usize::from(position(row.len()));
    let mut start = 0;
    let mut count = 0;
    let mut behind = 0;
    let mut comparisons = 0;
    for t in 0..n {
        let e = Entry {
            value: row[t],
            position: position(t),
        };
        let r = queue::push_within(kind, window, values, positions, start, count, behind, e);
        start = r.start;
        count = r.count + 1;
        behind = queue::next(r.at, 63);
        comparisons += r.comparisons;
        let front = queue::front(&values[..], &positions[..], start);
        answer(row, ahead, t, front.value);
    }
    Ends {
        start,
        count,
        comparisons,
    }
}

// The steps that drain, whatever row the queue and the answers so far are from.
fn drain_row<S: Sample>(q: RowQueue<S>, back: usize, ahead: usize, row: &mut [S])
    requires { (back ≤ 31) × (ahead ≤ 31) × (length row.old ≤ 65535) × (q.start < 63) × (q.count ≤ back + ahead + 1) }
    ensures { Drained S.samples back ahead row.old q.values q.positions q.start q.count row.new }
{
    let window = back + ahead + 1;
    let n = row.len();
    let end = n + ahead;
    let mut start = q.start;
    let mut count = q.count;
    for t in n..end {
        let gone = queue::goes(&q.positions, start, count, window, t);
        start = queue::slot(start, gone, 63);
        count -= gone;
        let front = queue::front(&q.values, &q.positions, start);
        answer(row, ahead, t, front.value);
    }
}

// All pixels are read. The kind is chosen here once, by a literal, so that no loop has to ask for it.
fn read_all<S: Sample>(
    kind: Kind,
    values: &mut [S; 63],
    positions: &mut [u16; 63],
    back: usize,
    ahead: usize,
    row: &mut [S],
) -> Ends
    requires { (back ≤ 31) × (ahead ≤ 31) × (length row.old ≤ 65535) × (length values.old ≡ 63) × (length positions.old ≡ 63) }
    ensures { Read S.samples kind back ahead row.old (length row.old) row.new values.new positions.new result.start result.count result.comparisons }
{
    match kind {
        Kind::Erosion => read_row(Kind::Erosion, values, positions, back, ahead, row),
        Kind::Dilation => read_row(Kind::Dilation, values, positions, back, ahead, row),
    }
}

// A row filtered in place; the comparisons made.
pub fn across<S: Sample>(kind: Kind, back: usize, ahead: usize, row: &mut [S]) -> usize
    requires { (back ≤ 31) × (ahead ≤ 31) × (length row.old ≤ 65535) }
    ensures { Across S.samples kind back ahead row.old row.new result }
{
    let room = empty();
    let mut values = room.values;
    let mut positions = room.positions;
    let passed = read_all(kind, &mut values, &mut positions, back, ahead, row);
    let q = RowQueue {
        values,
        positions,
        start: passed.start,
        count: passed.count,
    };
    drain_row(q, back, ahead, row);
    passed.comparisons
}
