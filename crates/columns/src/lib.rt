// The columns of one stage in lent memory: every column is a queue of its own, and a step moves them all on.
// The slices are the stage's part and no more: with P places a column, column x has the P cells from x * P on, and record x, a start and a length.
// They come one by one, here and in `stage` and `chain`, and not as one `memory::Lent`: a part of them is lent on at each call, so a struct would be taken apart and made again each time.
// A column's step costs the same whatever the window; the cells of a column lie together, and a step goes over them from left to right.
#![tactic(auto)]

ghost use Rattle.std.specs.Prelude.{◌≡◌, ◌&&◌, ℕ, ◌+◌, ◌*◌, ◌≤◌, ◌<◌, ltb, leb, length, get_or};
ghost use Rattle.morph.specs.Lists.{tabulate};
ghost use Rattle.morph.specs.Cell.{row_of};
ghost use Rattle.morph.specs.Inner.{cells_roomed, step_cost};
ghost use Rattle.columns.specs.Inner.{Lent, only, Moved, RecordsMoved, reads, RowRead, front_at, EntryAt};
ghost use Rattle.sample.specs.Samples.{greys, rates};
ghost use Rattle.memory.specs.Memory.{sound_records, column_at};

use morph::Kind;
use queue::RowEntry;
use sample::Sample;

// A number as a record keeps it. `u8::try_from` would answer a refusal that no caller meets.
pub fn narrow(x: usize) -> u8
    requires { x < 256 }
    ensures { result ≡ x }
{
    x as u8
}

// Column x, whose cells begin at lo, ages at step t; the others stay.
fn drain_column<S: Sample>(
    places: usize,
    positions: &[u8],
    starts: &mut [u8],
    lengths: &mut [u8],
    lo: usize,
    x: usize,
    t: usize,
)
    requires { Lent places (length starts.old) positions.now starts.old lengths.old × (lo ≡ x * places) × (x < length starts.old) × (t ≤ 4294967800) }
    ensures { RecordsMoved S.samples places (length starts.old) (only x (cells_roomed places t)) positions.now starts.old lengths.old starts.new lengths.new
        × RecordsMoved greys places (length starts.old) (only x (cells_roomed places t)) positions.now starts.old lengths.old starts.new lengths.new
        × RecordsMoved rates places (length starts.old) (only x (cells_roomed places t)) positions.now starts.old lengths.old starts.new lengths.new }
{
    let hi = lo + places;
    let start = usize::from(starts[x]);
    let count = usize::from(lengths[x]);
    let gone = queue::cell_goes(&positions[lo..hi], start, count, places, t);
    starts[x] = narrow(queue::slot(start, gone, places));
    lengths[x] = narrow(count - gone);
}

// Every column ages at step t. By x, for it finds a column's cells as well as its record. No sample is looked at: what is so of cells of S is so of bytes and of floats.
pub fn drain<S: Sample>(
    places: usize,
    positions: &[u8],
    starts: &mut [u8],
    lengths: &mut [u8],
    t: usize,
)
    requires { Lent places (length starts.old) positions.now starts.old lengths.old × (t ≤ 4294967800) }
    ensures { RecordsMoved S.samples places (length starts.old) (λ _. cells_roomed places t) positions.now starts.old lengths.old starts.new lengths.new
        × RecordsMoved greys places (length starts.old) (λ _. cells_roomed places t) positions.now starts.old lengths.old starts.new lengths.new
        × RecordsMoved rates places (length starts.old) (λ _. cells_roomed places t) positions.now starts.old lengths.old starts.new lengths.new }
{
    let mut lo = 0;
    for x in 0..starts.len() {
        drain_column::<S>(places, positions, starts, lengths, lo, x, t);
        lo += places;
    }
}

// Whether one record is sound.
fn sound_record(places: u8, start: u8, count: u8) -> bool
    ensures { result ≡ (ltb start places && leb count places) }
{
    (start < places) & (count <= places)
}

// Whether all records are sound. It looks at every column and stops at none: that is many times cheaper than to leave early.
pub fn sound(places: usize, starts: &[u8], lengths: &[u8]) -> bool
    requires { (places ≤ 63) × (length starts.now ≡ length lengths.now) }
    ensures { result ≡ sound_records places starts.now lengths.now }
{
    let p = narrow(places);
    let mut good = true;
    for (&start, &count) in starts.iter().zip(lengths) {
        good &= sound_record(p, start, count);
    }
    good
}

// ---- the samples

// Column x, whose cells begin at lo, reads v at step t, and the others stay: the comparisons.
// The entry is made where it is pushed: handed down from `read` the compiler carries its float as four bytes, and moves it before it compares.
fn read_column<S: Sample>(
    kind: Kind,
    places: usize,
    values: &mut [S],
    positions: &mut [u8],
    starts: &mut [u8],
    lengths: &mut [u8],
    lo: usize,
    x: usize,
    v: S,
    t: usize,
) -> usize
    requires { Lent places (length starts.old) positions.old starts.old lengths.old × (lo ≡ x * places) × (x < length starts.old) × (length values.old ≡ length positions.old) × (t ≤ 4294967800) }
    ensures { Moved S.samples places (length starts.old) (only x (reads S.samples kind places t v)) values.old positions.old starts.old lengths.old values.new positions.new starts.new lengths.new
        × (result ≡ step_cost (S.samples.passes kind v) (column_at S.samples places values.old positions.old starts.old lengths.old x)) × (result ≤ 63) }
{
    let hi = lo + places;
    let start = usize::from(starts[x]);
    let count = usize::from(lengths[x]);
    let e = RowEntry {
        value: v,
        position: t,
    };
    let ends = queue::push(
        kind,
        &mut values[lo..hi],
        &mut positions[lo..hi],
        start,
        count,
        e,
    );
    starts[x] = narrow(ends.start);
    lengths[x] = narrow(ends.count);
    ends.comparisons
}

// Every column reads its value of the row at step t: the comparisons.
pub fn read<S: Sample>(
    kind: Kind,
    places: usize,
    values: &mut [S],
    positions: &mut [u8],
    starts: &mut [u8],
    lengths: &mut [u8],
    row: &[S],
    t: usize,
) -> usize
    requires { Lent places (length row.now) positions.old starts.old lengths.old × (length values.old ≡ length positions.old) × (t ≤ 4294967800) }
    ensures { RowRead S.samples kind places t row.now values.old positions.old starts.old lengths.old values.new positions.new starts.new lengths.new result }
{
    let mut comparisons = 0;
    let mut lo = 0;
    for (x, &v) in row.iter().enumerate() {
        comparisons += read_column(
            kind, places, values, positions, starts, lengths, lo, x, v, t,
        );
        lo += places;
    }
    comparisons
}

// The entry in the cell of column x's start, s being the steps done; the column's cells begin at lo.
fn front_of<S: Sample>(
    values: &[S],
    positions: &[u8],
    starts: &[u8],
    lo: usize,
    x: usize,
    s: usize,
) -> RowEntry<S>
    requires { (x < length starts.now) × (lo + get_or starts.now x 0 < length values.now) × (length positions.now ≡ length values.now) × (s ≤ 4294967800) }
    ensures { (result.value ≡ get_or values.now (lo + get_or starts.now x 0) S.samples.order.blank) × (result.position ≡ row_of s (get_or positions.now (lo + get_or starts.now x 0) 0)) }
{
    let at = lo + usize::from(starts[x]);
    queue::lent(values, positions, at, s)
}

// The value at the front of every column goes into the row, s being the steps done. By x, as in `drain`.
pub fn fronts<S: Sample>(
    places: usize,
    values: &[S],
    positions: &[u8],
    starts: &[u8],
    s: usize,
    row: &mut [S],
)
    requires { (length values.now ≡ length row.old * places) × (length positions.now ≡ length values.now) × (length starts.now ≡ length row.old) × ((x : ℕ) → x < length row.old → get_or starts.now x 0 < places) × (s ≤ 4294967800) }
    ensures { row.new ≡ tabulate (length row.old) (front_at S.samples places values.now starts.now) }
{
    let mut lo = 0;
    for x in 0..row.len() {
        let front = front_of(values, positions, starts, lo, x, s);
        row[x] = front.value;
        lo += places;
    }
}

// The entry at place k of column x's queue, s being the steps done.
pub fn entry<S: Sample>(
    places: usize,
    values: &[S],
    positions: &[u8],
    starts: &[u8],
    x: usize,
    k: usize,
    s: usize,
) -> RowEntry<S>
    requires { (places ≤ 63) × (x < length starts.now) × (length values.now ≡ length starts.now * places) × (length positions.now ≡ length values.now) × (get_or starts.now x 0 < places) × (k < places) × (s ≤ 4294967800) }
    ensures { EntryAt S.samples places values.now positions.now starts.now x k s result.value result.position }
{
    let start = usize::from(starts[x]);
    let at = x * places + queue::slot(start, k, places);
    queue::lent(values, positions, at, s)
}
