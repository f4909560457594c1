// Where the columns of origins are kept in lent memory, and the laws of keeping them and of telling origins. The code is what grey bytes and floats share: an origin is told by
// positions and columns alone, whatever the values are.
#![tactic(auto)]

ghost use Rattle.std.specs.Prelude.{◌≡◌, ℕ, ◌*◌, ◌%◌, ◌≤◌, ◌<◌, min, length, get_or, set};
ghost use Rattle.morph.specs.Lists.{tabulate};
ghost use Rattle.origin.specs.Inner.{told_row, told_column, front_kept};

// The origin of column x's front, whose cell keeps r, goes into the two rows; `last` is where the next row's columns go, and `most` of how many rows they are kept.
fn tell_one(
    columns: &[u16],
    places: usize,
    s: usize,
    last: usize,
    most: usize,
    r: u8,
    x: usize,
    origin_rows: &mut [usize],
    origin_columns: &mut [u16],
)
    requires { (0 < places) × (places ≤ 63) × (s ≤ 4294967800) × (last ≡ s % places) × (most ≡ min places s) × (x < length origin_columns.old) × (length origin_columns.old ≤ 4096) × (length origin_rows.old ≡ length origin_columns.old) × (length columns.now ≡ length origin_columns.old * places) }
    ensures { (origin_rows.new ≡ set origin_rows.old x (told_row places s r)) × (origin_columns.new ≡ set origin_columns.old x (told_column places (length origin_columns.old) s columns.now x r)) }
{
    let width = origin_columns.len();
    let a = queue::age(s, r);
    if most < a {
        origin_rows[x] = s;
        origin_columns[x] = 0;
        return;
    }
    origin_rows[x] = s - a;
    if a <= last {
        origin_columns[x] = columns[(last - a) * width + x];
        return;
    }
    origin_columns[x] = columns[(last + places - a) * width + x];
}

// The origin of every column's front goes into two rows, s being the steps done: the row and the column that it came from. By x, for it finds a column's cells as well as its record.
pub fn tell(
    places: usize,
    positions: &[u8],
    columns: &[u16],
    starts: &[u8],
    s: usize,
    origin_rows: &mut [usize],
    origin_columns: &mut [u16],
)
    requires { (0 < places) × (places ≤ 63) × (s ≤ 4294967800) × (length origin_columns.old ≤ 4096) × (length origin_rows.old ≡ length origin_columns.old) × (length positions.now ≡ length origin_columns.old * places) × (length columns.now ≡ length positions.now) × (length starts.now ≡ length origin_columns.old) × ((x : ℕ) → x < length origin_columns.old → get_or starts.now x 0 < places) }
    ensures { (origin_rows.new ≡ tabulate (length origin_columns.old) (λ x. told_row places s (front_kept places positions.now starts.now x))) × (origin_columns.new ≡ tabulate (length origin_columns.old) (λ x. told_column places (length origin_columns.old) s columns.now x (front_kept places positions.now starts.now x))) }
{
    let last = s % places;
    let most = places.min(s);
    let mut lo = 0;
    for x in 0..origin_columns.len() {
        let at = lo + usize::from(starts[x]);
        let r = positions[at];
        tell_one(
            columns,
            places,
            s,
            last,
            most,
            r,
            x,
            origin_rows,
            origin_columns,
        );
        lo += places;
    }
}
