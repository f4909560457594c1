// Down the columns of a whole picture, in place, of any kind of samples: ahead in one sweep, and then back. The laws are in proofs/.
#![tactic(auto)]

ghost use Rattle.std.specs.Prelude.{◌≡◌, ◌+◌, ◌*◌, ◌≤◌, ◌<◌, length};
ghost use Rattle.morph.specs.Lists.{Each};
ghost use Rattle.morph.specs.Order.{order_of};
ghost use Rattle.passes.specs.Inner.{Reached, ThenBack};
ghost use Rattle.sweep.specs.Inner.{met, Climbed, Ticked, Lowered, Fronted};

use morph::Kind;
use passes::{Choice, Grid, Largest, Smallest, Way};

// Rows take, pixel by pixel, the better of themselves and of other rows.
fn over_of<W: Way, S: Choice>(rows: &mut [S], others: &[S])
    requires { length rows.old ≡ length others.now }
    ensures { rows.new ≡ met S.samples.order.blank (S.pick W.KIND) rows.old others.now }
{
    for i in 0..rows.len() {
        rows[i] = S::better(W::KIND, rows[i], others[i]);
    }
}

// The same for a kind that is known only now.
fn over<S: Choice>(kind: Kind, rows: &mut [S], others: &[S])
    requires { length rows.old ≡ length others.now }
    ensures { rows.new ≡ met S.samples.order.blank (S.pick kind) rows.old others.now }
{
    match kind {
        Kind::Erosion => over_of::<Smallest, S>(rows, others),
        Kind::Dilation => over_of::<Largest, S>(rows, others),
    }
}

// ---- ahead

// The step from reach r to r + s at tick t.
fn climb<S: Choice>(kind: Kind, r: usize, s: usize, grid: Grid, t: usize, picture: &mut [S])
    requires { (length picture.old ≡ grid.rows * grid.width) × (0 < s) × (r + s ≤ 255) }
    ensures { Climbed S.samples.order.blank (S.pick kind) grid.width grid.rows r s t picture.old picture.new }
{
    if t < r + s {
        return;
    }
    if grid.rows <= t - r {
        return;
    }
    let width = grid.width;
    let at = (t - r - s) * width;
    let (above, below) = picture.split_at_mut((t - r) * width);
    over(kind, &mut above[at..at + width], &below[..width]);
}

// All steps of tick t.
fn tick<S: Choice>(kind: Kind, far: usize, grid: Grid, t: usize, picture: &mut [S])
    requires { (length picture.old ≡ grid.rows * grid.width) × (far ≤ 255) }
    ensures { Ticked (order_of kind S.samples.order) S.Fair grid.width grid.rows far t picture.old picture.new }
{
    let mut r = 0;
    // Not a `for`: each step reaches as far again as all before it.
    while r < far {
        let s = (r + 1).min(far - r);
        climb(kind, r, s, grid, t, picture);
        r += s;
    }
}

// The sweep: each place has the best of itself and of the `far` places below it.
pub fn down_ahead<S: Choice>(kind: Kind, far: usize, grid: Grid, picture: &mut [S])
    requires { (length picture.old ≡ grid.rows * grid.width) × (far ≤ 255) × Each S.Fair picture.old }
    ensures { Reached (order_of kind S.samples.order) grid.width 0 far picture.old picture.new }
{
    for t in 0..grid.rows + far {
        tick(kind, far, grid, t, picture);
    }
}

// ---- back

// Each row from row s on takes the better of itself and of the row s rows above it: from the bottom, so that the row above is as it was, and up to s of them at a time.
fn lower<S: Choice>(kind: Kind, s: usize, grid: Grid, picture: &mut [S])
    requires { (length picture.old ≡ grid.rows * grid.width) × (0 < s) }
    ensures { Lowered S.samples.order.blank (S.pick kind) grid.width s picture.old picture.new }
{
    let width = grid.width;
    let mut z = grid.rows;
    // Not a `for`: the rows are gone over from the last upwards, as long as there is one s rows above.
    while s < z {
        let k = (z - s).min(s);
        z -= k;
        let from = (z - s) * width;
        let wide = k * width;
        let (above, below) = picture.split_at_mut(z * width);
        over(kind, &mut below[..wide], &above[from..from + wide]);
    }
}

// Each row before row s, but for the first, takes the better of itself and of the row above it, as that has become.
fn front<S: Choice>(kind: Kind, s: usize, grid: Grid, picture: &mut [S])
    requires { (length picture.old ≡ grid.rows * grid.width) × (0 < s) }
    ensures { Fronted S.samples.order.blank (S.pick kind) grid.width s picture.old picture.new }
{
    let width = grid.width;
    let end = s.min(grid.rows);
    for z in 1..end {
        let from = (z - 1) * width;
        let (above, below) = picture.split_at_mut(z * width);
        over(kind, &mut below[..width], &above[from..]);
    }
}

// A picture whose columns reach `ahead` ahead reaches back too. A step is as long as all that is reached already, so that one is enough where the columns reach as far ahead as they are to reach back.
pub fn down_back<S: Choice>(kind: Kind, ahead: usize, far: usize, grid: Grid, picture: &mut [S])
    requires { (length picture.old ≡ grid.rows * grid.width) × (ahead ≤ 255) × (far ≤ 255) }
    ensures { ThenBack (order_of kind S.samples.order) S.Fair grid.width far ahead picture.old picture.new }
{
    let mut r = 0;
    // Not a `for`: each step reaches as far again as all before it.
    while r < far {
        let s = (ahead + r + 1).min(far - r);
        lower(kind, s, grid, picture);
        front(kind, s, grid, picture);
        r += s;
    }
}
