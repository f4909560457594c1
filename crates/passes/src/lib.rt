// Passes by doubling over a line, and over the rows of a whole picture, of any kind of samples. The laws are in proofs/.
#![tactic(auto)]

ghost use Rattle.std.specs.Prelude.{◌≡◌, not, ◌-◌, ◌*◌, ◌≤◌, length};
ghost use Rattle.morph.specs.Lists.{Each};
ghost use Rattle.morph.specs.Order.{order_of};
ghost use Rattle.morph.specs.Line.{filter_line};
ghost use Rattle.passes.specs.Flat.{UsedUpTo};
ghost use Rattle.passes.specs.Inner.{pairs, ahead_by, Runs, Back, held, Reached, ThenBack, Crossed};

use morph::Kind;

mod choice; // choice.rt: which of two values a pass keeps

pub use choice::{Choice, Largest, Smallest, Way};

// Each place takes the better of the row's value there and the one s places on.
fn pair_of<W: Way, S: Choice>(s: usize, row: &[S], out: &mut [S])
    requires { length out.old ≤ length row.now - s }
    ensures { out.new ≡ pairs S.samples.order.blank (S.pick W.KIND) s (length out.old) row.now }
{
    for i in 0..out.len() {
        out[i] = S::better(W::KIND, row[i], row[i + s]);
    }
}

// The same for a kind that is known only now.
fn pair<S: Choice>(kind: Kind, s: usize, row: &[S], out: &mut [S])
    requires { length out.old ≤ length row.now - s }
    ensures { out.new ≡ pairs S.samples.order.blank (S.pick kind) s (length out.old) row.now }
{
    match kind {
        Kind::Erosion => pair_of::<Smallest, S>(s, row, out),
        Kind::Dilation => pair_of::<Largest, S>(s, row, out),
    }
}

// Each place takes the better of itself and the one s places on, where there is one.
fn ahead<S: Choice>(kind: Kind, s: usize, row: &[S], out: &mut [S])
    requires { length row.now ≡ length out.old }
    ensures { out.new ≡ ahead_by S.samples.order.blank (S.pick kind) s row.now }
{
    let end = row.len().saturating_sub(s);
    pair(kind, s, row, &mut out[..end]);
    out[end..].copy_from_slice(&row[end..]);
}

// Along the front: each place takes the better of the place before it, as it has become, and of the row's value there.
fn running<S: Choice>(kind: Kind, row: &[S], out: &mut [S])
    requires { length row.now ≡ length out.old }
    ensures { Runs S.samples.order.blank (S.pick kind) row.now out.new }
{
    if out.len() == 0 {
        return;
    }
    out[0] = row[0];
    for i in 1..out.len() {
        out[i] = S::better(kind, out[i - 1], row[i]);
    }
}

// Each place takes the better of the one s places back and of itself; the first s, which have none, go along the front.
fn back<S: Choice>(kind: Kind, s: usize, row: &[S], out: &mut [S])
    requires { length row.now ≡ length out.old }
    ensures { Back S.samples.order.blank (S.pick kind) 1 s row.now out.new }
{
    let n = row.len();
    let start = n - n.saturating_sub(s);
    running(kind, &row[..start], &mut out[..start]);
    pair(kind, s, row, &mut out[start..]);
}

// ---- a line by doubling, between two slices in turn

// A pass ahead from the slice that holds the line to the other.
fn turn_ahead<S: Choice>(kind: Kind, s: usize, flip: bool, a: &mut [S], t: &mut [S])
    requires { length a.old ≡ length t.old }
    ensures { held (not flip) a.new t.new ≡ ahead_by S.samples.order.blank (S.pick kind) s (held flip a.old t.old) }
{
    if flip {
        ahead(kind, s, &t[..], a);
        return;
    }
    ahead(kind, s, &a[..], t);
}

// A pass back.
fn turn_back<S: Choice>(kind: Kind, s: usize, flip: bool, a: &mut [S], t: &mut [S])
    requires { length a.old ≡ length t.old }
    ensures { Back S.samples.order.blank (S.pick kind) 1 s (held flip a.old t.old) (held (not flip) a.new t.new) }
{
    if flip {
        back(kind, s, &t[..], a);
        return;
    }
    back(kind, s, &a[..], t);
}

// The line reaches as far ahead as it is to; whether the other slice holds it.
fn line_ahead<S: Choice>(kind: Kind, far: usize, a: &mut [S], t: &mut [S]) -> bool
    requires { (length a.old ≡ length t.old) × (far ≤ 255) × Each S.Fair a.old }
    ensures { Reached (order_of kind S.samples.order) 1 0 far a.old (held result a.new t.new) }
{
    let mut r = 0;
    let mut flip = false;
    // Not a `for`: each pass reaches as far again as all before it.
    while r < far {
        let s = (r + 1).min(far - r);
        turn_ahead(kind, s, flip, a, t);
        flip = !flip;
        r += s;
    }
    flip
}

// A line that reaches `ahead` ahead reaches back too. A step is as long as all that is reached already, so that one is enough where the line reaches as far ahead as it is to reach back.
fn line_back<S: Choice>(
    kind: Kind,
    ahead: usize,
    far: usize,
    turn: bool,
    a: &mut [S],
    t: &mut [S],
) -> bool
    requires { (length a.old ≡ length t.old) × (ahead ≤ 255) × (far ≤ 255) }
    ensures { ThenBack (order_of kind S.samples.order) S.Fair 1 far ahead (held turn a.old t.old) (held result a.new t.new) }
{
    let mut r = 0;
    let mut flip = turn;
    // Not a `for`: each pass reaches as far again as all before it.
    while r < far {
        let s = (ahead + r + 1).min(far - r);
        turn_back(kind, s, flip, a, t);
        flip = !flip;
        r += s;
    }
    flip
}

// A line filtered in place, with another slice of its length to work in.
fn line<S: Choice>(kind: Kind, back: usize, ahead: usize, a: &mut [S], t: &mut [S])
    requires { (length a.old ≡ length t.old) × (back ≤ 255) × (ahead ≤ 255) × Each S.Fair a.old }
    ensures { a.new ≡ filter_line (order_of kind S.samples.order) back ahead a.old }
{
    let there = line_ahead(kind, ahead, a, t);
    let flip = line_back(kind, ahead, back, there, a, t);
    if flip {
        a.copy_from_slice(&t[..]);
    }
}

// ---- rows

// The columns and the rows of a whole picture in one slice, row after row.
#[derive(Clone, Copy, Debug, PartialEq, Eq)]
pub struct Grid {
    pub width: usize,
    pub rows: usize,
    ghost rows_fit: { rows ≤ 65535 },
}

// Each row filtered as a line.
pub fn across<S: Choice>(
    kind: Kind,
    back: usize,
    ahead: usize,
    grid: Grid,
    picture: &mut [S],
    row: &mut [S],
)
    requires { (length picture.old ≡ grid.rows * grid.width) × (grid.width ≤ length row.old) × (back ≤ 255) × (ahead ≤ 255) × Each S.Fair picture.old }
    ensures { Crossed (order_of kind S.samples.order) grid.width grid.rows back ahead picture.old picture.new × UsedUpTo grid.width row.old row.new }
{
    let width = grid.width;
    for y in 0..grid.rows {
        let lo = y * width;
        let hi = lo + width;
        line(kind, back, ahead, &mut picture[lo..hi], &mut row[..width]);
    }
}
