// A row of floats and its bytes.
#![tactic(auto)]

ghost use Rattle.std.specs.Prelude.{◌≡◌, ◌∷◌, ◌+◌, ◌*◌, length};
ghost use Rattle.sample.specs.Bytes.{floats_of, bytes_of_row};

// The floats whose bytes a row has.
pub fn take_in(bytes: &[u8], row: &mut [f32])
    requires { length bytes.now ≡ length row.old * 4 }
    ensures { row.new ≡ floats_of (length row.old) bytes.now }
{
    for i in 0..row.len() {
        row[i] = sample::rate::from_bytes(bytes, i * 4);
    }
}

// A row's frame: the marker byte 1 and the bytes of its floats.
pub fn give_out(row: &[f32], frame: &mut [u8])
    requires { length frame.old ≡ 1 + length row.now * 4 }
    ensures { frame.new ≡ 1 ∷ bytes_of_row row.now }
{
    frame[0] = 1;
    for i in 0..row.len() {
        sample::rate::to_bytes(row[i], frame, 1 + i * 4);
    }
}
