// The view of a job's rows, as a part of the lent bytes.
#![tactic(auto)]

ghost use Rattle.std.specs.Prelude.{◌≡◌, ◌<◌, SomeIff};
ghost use Rattle.morph.specs.Refusals.{said};
ghost use Rattle.job_view.specs.View.{row_begins, is_there_to, view_number, viewed};

use job_read::{Job, sample_bytes};
use morph::Refusal;

// Where row i begins, or none where that is past any number.
fn row_at(job: Job, i: usize) -> Option<usize>
    ensures { SomeIff result (row_begins job i < 18446744073709551616) (row_begins job i) }
{
    let samples = i.checked_mul(job.width)?;
    let size = samples.checked_mul(sample_bytes(job.sample))?;
    job.at.checked_add(size)
}

// Whether the rows before row j are wholly in the bytes.
fn there_to(bytes: &[u8], job: Job, j: usize) -> bool
    ensures { result ≡ is_there_to bytes.now job j }
{
    if 1 < job.sample {
        return false;
    }
    match row_at(job, j) {
        Some(end) => end <= bytes.len(),
        None => false,
    }
}

// Whether rows i up to, not including, j can be shown. Refused 11.
#[tactic(auto, using(std::proofs::lemmas::Bool::Decides::nat_tests), unfolding(crate::specs::View::view_number))]
pub fn judge_rows(bytes: &[u8], job: Job, i: usize, j: usize) -> Result<(), Refusal>
    ensures { said result ≡ view_number bytes.now job i j }
{
    if j < i {
        return Err(Refusal::NotThere);
    }
    if job.rows < j {
        return Err(Refusal::NotThere);
    }
    if i == j {
        return Ok(());
    }
    if there_to(bytes, job, j) {
        return Ok(());
    }
    Err(Refusal::NotThere)
}

// Rows i up to, not including, j, as the part of the lent bytes that they are; empty where they cannot be shown.
pub fn rows(bytes: &[u8], job: Job, i: usize, j: usize) -> &[u8]
    ensures { result.now ≡ viewed bytes.now job i j }
{
    let Ok(()) = judge_rows(bytes, job, i, j) else {
        return &bytes[..0];
    };
    if i == j {
        return &bytes[..0];
    }
    let size = job.width * sample_bytes(job.sample);
    let start = job.at + i * size;
    let end = job.at + j * size;
    &bytes[start..end]
}
