// A queue in a ring of places, on slices: rows and columns share it. Entry i stands at the place start + i, past the end from the start again.
// A step pops from the tail what the new value equals or passes, lets the oldest go if it is too old, and pushes: each entry is pushed once and goes once,
// so a step costs the same whatever the window.
#![tactic(auto)]

ghost use Rattle.std.specs.Prelude.{◌≡◌, ℕ, ◌+◌, ◌-◌, ◌%◌, ◌≤◌, ◌<◌, List, min, length, get_or, set};
ghost use Rattle.morph.specs.Inner.{popped};
ghost use Rattle.morph.specs.Ring.{wrap, entries};
ghost use Rattle.morph.specs.Cell.{age_of, row_of};
ghost use Rattle.queue.specs.Inner.{goes_of, cell_goes_of, Roomed, CellPushed};

use morph::Kind;
use sample::Sample;

// How many entries a new value leaves unpassed, and the place behind them.
#[derive(Clone, Copy, Debug, PartialEq, Eq)]
pub struct Kept {
    pub count: usize,
    pub behind: usize,
}

// Where a new entry goes, what stays before it, and the comparisons made.
#[derive(Clone, Copy, Debug, PartialEq, Eq)]
pub struct Room {
    pub start: usize,
    pub count: usize,
    pub at: usize,
    pub comparisons: usize,
}

// Where a queue starts and how many entries it has after a step, and the comparisons made.
#[derive(Clone, Copy, Debug, PartialEq, Eq)]
pub struct Ends {
    pub start: usize,
    pub count: usize,
    pub comparisons: usize,
}

// The place of entry k.
pub fn slot(start: usize, k: usize, places: usize) -> usize
    requires { (start < places) × (k ≤ places) × (places ≤ 63) }
    ensures { (result ≡ wrap places (start + k)) × (result < places) }
{
    let i = start + k;
    if i < places { i } else { i - places }
}

// The place after place i.
pub fn next(i: usize, places: usize) -> usize
    requires { (i < places) × (places ≤ 63) }
    ensures { (result ≡ wrap places (i + 1)) × (result < places) }
{
    let j = i + 1;
    if j == places { 0 } else { j }
}

// The place before place i.
pub fn previous(i: usize, places: usize) -> usize
    requires { (i < places) × (places ≤ 63) }
    ensures { (result < places) × (wrap places (result + 1) ≡ i) }
{
    if i == 0 { places - 1 } else { i - 1 }
}

// A position as a number to reckon with.
pub fn wide(x: u16) -> usize
    ensures { (result ≡ x) × (result < 65536) }
{
    x as usize
}

// How many of the oldest entries go at step t, none or one, so that there is room for one more.
pub fn goes(positions: &[u16], start: usize, count: usize, window: usize, t: usize) -> usize
    requires { (start < length positions.now) × (0 < window) × (window ≤ 63) × (count ≤ window) }
    ensures { (result ≡ goes_of window t count (get_or positions.now start 0)) × (result ≤ 1) × (result ≤ count) × (count - result < window) }
{
    if count == 0 {
        return 0;
    }
    if window <= count {
        return 1;
    }
    if wide(positions[start]) + window <= t {
        return 1;
    }
    0
}

// 1 if there is any.
pub fn any(n: usize) -> usize
    ensures { result ≡ min 1 n }
{
    if 0 < n { 1 } else { 0 }
}

// ---- rows in lent cells

// What a cell keeps of a row's number.
pub fn remainder(t: usize) -> u8
    ensures { result ≡ t % 128 }
{
    (t % 128) as u8
}

// How far before row s the nearest row stands of which a cell keeps r: 1 to 128.
pub fn age(s: usize, r: u8) -> usize
    requires { s ≤ 4294967800 }
    ensures { (result ≡ age_of s r) × (result ≤ 128) × (0 < result) }
{
    (s + 255 - morph::wide(r) % 128) % 128 + 1
}

// The number of that row, s being the steps done.
pub fn row_of(s: usize, r: u8) -> usize
    requires { s ≤ 4294967800 }
    ensures { result ≡ row_of s r }
{
    if 128 <= r {
        return s;
    }
    let a = age(s, r);
    if a <= s { s - a } else { s }
}

// How many of the oldest entries go at step t, none or one, so that there is room for one more.
pub fn cell_goes(positions: &[u8], start: usize, count: usize, window: usize, t: usize) -> usize
    requires { (start < length positions.now) × (0 < window) × (window ≤ 63) × (count ≤ window) × (t ≤ 4294967800) }
    ensures { (result ≡ cell_goes_of window t count (get_or positions.now start 0)) × (result ≤ 1) × (result ≤ count) × (count - result < window) }
{
    if count == 0 {
        return 0;
    }
    if window <= count {
        return 1;
    }
    let leaves = remainder(t + 128 - window);
    if positions[start] == leaves {
        return 1;
    }
    0
}

// ---- queues, of any kind of sample

// A queued value with its position.
#[derive(Clone, Copy, Debug, PartialEq, Eq)]
pub struct Entry<S> {
    pub value: S,
    pub position: u16,
}

// The entries from the tail that v equals or passes go; `behind` is the place behind the last. The place is carried along, and not reckoned from the start
// for every entry: a step's time is mostly the wait for the value to compare with.
pub fn pop<S: Sample>(
    kind: Kind,
    values: &[S],
    start: usize,
    count: usize,
    behind: usize,
    v: S,
) -> Kept
    requires { (start < length values.now) × (count ≤ length values.now) × (length values.now ≤ 63) × (behind ≡ wrap (length values.now) (start + count)) }
    ensures { ((ps : List ℕ) → count - result.count ≡ popped (S.samples.passes kind v) (entries S.samples.order.blank (length values.now) start count values.now ps)) × (result.count ≤ count) × (result.behind ≡ wrap (length values.now) (start + result.count)) × (result.behind < length values.now) }
{
    let places = values.len();
    let mut left = count;
    let mut at = behind;
    // Not a `for`: it goes on as long as entries are passed, and what is left is what is answered.
    while 0 < left {
        let i = previous(at, places);
        if !S::passes(kind, v, values[i]) {
            return Kept {
                count: left,
                behind: at,
            };
        }
        at = i;
        left -= 1;
    }
    Kept {
        count: left,
        behind: at,
    }
}

// Room for the value v at step t; `behind` is the place behind the last.
fn make_room<'a, S: Sample>(
    kind: Kind,
    window: usize,
    values: &'a [S],
    positions: &'a [u16],
    start: usize,
    count: usize,
    behind: usize,
    v: S,
    t: u16,
) -> Room
    requires { (start < length values.now) × (count ≤ window) × (0 < window) × (window ≤ length values.now) × (length values.now ≤ 63) × (length positions.now ≡ length values.now) × (behind ≡ wrap (length values.now) (start + count)) }
    ensures { Roomed S.samples kind window t v values.now positions.now start count result }
{
    let places = values.len();
    let kept = pop(kind, values, start, count, behind, v);
    let left = kept.count;
    let comparisons = count - left + any(left);
    let gone = goes(positions, start, left, window, wide(t));
    if gone == 0 {
        return Room {
            start: start,
            count: left,
            at: kept.behind,
            comparisons: comparisons,
        };
    }
    Room {
        start: next(start, places),
        count: left - 1,
        at: kept.behind,
        comparisons: comparisons,
    }
}

// The queue reads an entry, at the step of its position, and stores it where there is room. The window may have fewer places than there are;
// `behind` is the place behind the last.
pub fn push_within<S: Sample>(
    kind: Kind,
    window: usize,
    values: &mut [S],
    positions: &mut [u16],
    start: usize,
    count: usize,
    behind: usize,
    e: Entry<S>,
) -> Room
    requires { (start < length values.old) × (count ≤ window) × (0 < window) × (window ≤ length values.old) × (length values.old ≤ 63) × (length positions.old ≡ length values.old) × (behind ≡ wrap (length values.old) (start + count)) }
    ensures { Roomed S.samples kind window e.position e.value values.old positions.old start count result × (values.new ≡ set values.old result.at e.value) × (positions.new ≡ set positions.old result.at e.position) }
{
    let r = make_room(
        kind,
        window,
        &values[..],
        &positions[..],
        start,
        count,
        behind,
        e.value,
        e.position,
    );
    let at = r.at;
    values[at] = e.value;
    positions[at] = e.position;
    r
}

// The entry in a cell.
pub fn cell<'a, S: Sample>(values: &'a [S], positions: &'a [u16], at: usize) -> Entry<S>
    requires { (at < length values.now) × (at < length positions.now) }
    ensures { (result.value ≡ get_or values.now at S.samples.order.blank) × (result.position ≡ get_or positions.now at 0) }
{
    Entry {
        value: values[at],
        position: positions[at],
    }
}

// The oldest entry: it stands in the cell of the queue's start.
pub fn front<'a, S: Sample>(values: &'a [S], positions: &'a [u16], start: usize) -> Entry<S>
    requires { (start < length values.now) × (start < length positions.now) }
    ensures { (result.value ≡ get_or values.now start S.samples.order.blank) × (result.position ≡ get_or positions.now start 0) }
{
    cell(values, positions, start)
}

// ---- queues in lent cells, which keep the remainders of row numbers

// A queued value with the number of its row.
#[derive(Clone, Copy, Debug, PartialEq, Eq)]
pub struct RowEntry<S> {
    pub value: S,
    pub position: usize,
}

// The queue in lent cells reads an entry, at the step of its row; the window has as many places as there are cells.
pub fn push<S: Sample>(
    kind: Kind,
    values: &mut [S],
    positions: &mut [u8],
    start: usize,
    count: usize,
    e: RowEntry<S>,
) -> Ends
    requires { (start < length values.old) × (count ≤ length values.old) × (length values.old ≤ 63) × (length positions.old ≡ length values.old) × (e.position ≤ 4294967800) }
    ensures { CellPushed S.samples kind e.position e.value values.old positions.old start count values.new positions.new result }
{
    let window = values.len();
    let behind = slot(start, count, window);
    let kept = pop(kind, &values[..], start, count, behind, e.value);
    let left = kept.count;
    let at = kept.behind;
    let comparisons = count - left + any(left);
    let gone = cell_goes(&positions[..], start, left, window, e.position);
    values[at] = e.value;
    positions[at] = remainder(e.position);
    if gone == 0 {
        return Ends {
            start: start,
            count: left + 1,
            comparisons: comparisons,
        };
    }
    Ends {
        start: next(start, window),
        count: left,
        comparisons: comparisons,
    }
}

// The entry in a lent cell, s being the steps done.
pub fn lent<'a, S: Sample>(values: &'a [S], positions: &'a [u8], at: usize, s: usize) -> RowEntry<S>
    requires { (at < length values.now) × (at < length positions.now) × (s ≤ 4294967800) }
    ensures { (result.value ≡ get_or values.now at S.samples.order.blank) × (result.position ≡ row_of s (get_or positions.now at 0)) }
{
    RowEntry {
        value: values[at],
        position: row_of(s, positions[at]),
    }
}
