// The fronts of a stage's columns, each with the row and the column that it came from.

ghost use Rattle.std.specs.Prelude.{◌≡◌, ℕ, ◌*◌, ◌≤◌, ◌<◌, length, get_or};
ghost use Rattle.origin.specs.Inner.{FrontsTold};

use sample::Sample;

// The front of every column goes into three rows, s being the steps done: its value, and the row and the column that it came from.
pub fn fronts<S: Sample>(
    places: usize,
    values: &[S],
    positions: &[u8],
    columns: &[u16],
    starts: &[u8],
    s: usize,
    out: &mut [S],
    origin_rows: &mut [usize],
    origin_columns: &mut [u16],
)
    requires { (0 < places) × (places ≤ 63) × (length out.old ≤ 4096) × (length values.now ≡ length out.old * places) × (length positions.now ≡ length values.now) × (length columns.now ≡ length values.now) × (length starts.now ≡ length out.old) × (length origin_rows.old ≡ length out.old) × (length origin_columns.old ≡ length out.old) × ((x : ℕ) → x < length out.old → get_or starts.now x 0 < places) × (s ≤ 4294967800) }
    ensures { FrontsTold S.samples places (length out.old) s values.now positions.now columns.now starts.now out.new origin_rows.new origin_columns.new }
{
    columns::fronts(places, values, positions, starts, s, out);
    origin::tell(
        places,
        positions,
        columns,
        starts,
        s,
        origin_rows,
        origin_columns,
    );
}
