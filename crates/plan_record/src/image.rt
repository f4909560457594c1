// The rules of an image's head.

ghost use Rattle.std.specs.Prelude.{◌≡◌};
ghost use Rattle.morph.specs.Refusals.{said};
ghost use Rattle.plan_record.specs.Numbers.{sample_number, size_number};

use morph::Refusal;

// Refused 5, or nothing is wrong.
pub fn judge_sample(sample: u8) -> Result<(), Refusal>
    ensures { said result ≡ sample_number sample }
{
    if 1 < sample {
        return Err(Refusal::SampleKind);
    }
    Ok(())
}

// Refused 4.
pub fn judge_size(width: usize, rows: usize) -> Result<(), Refusal>
    ensures { said result ≡ size_number width rows }
{
    if width == 0 || 4096 < width || rows == 0 || 65535 < rows {
        return Err(Refusal::Size);
    }
    Ok(())
}
