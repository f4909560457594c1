// Writing what stands before a job's rows: the plan section and the image head.
#![tactic(auto)]

ghost use Rattle.std.specs.Prelude.{◌≡◌, [], ◌∷◌, ◌+◌, ◌≤◌, ◌<◌, length};
ghost use Rattle.std.proofs.lemmas.List.Edits.{sets};
ghost use Rattle.plan_record.specs.Plan.{used};
ghost use Rattle.job_read.specs.Layout.{kind_byte_of, stage_bytes, stages_bytes, head_bytes_of, head_begins};
ghost use Rattle.job_write.specs.Write.{Wrote};
ghost use Rattle.job_write.specs.Inner.{written_as};

use job_read::Job;
use morph::{Kind, Refusal};
use plan_record::{Plan, Stage};

// The bytes that were written, or a refusal's number. It stays an enum of its own: the definition that the promise cites, `written_of`, makes it of numbers.
#[derive(Clone, Copy, Debug, PartialEq, Eq)]
pub enum Written {
    Bytes(usize),
    Refused(u8),
}

fn kind_byte(kind: Kind) -> u8
    ensures { result ≡ kind_byte_of kind }
{
    match kind {
        Kind::Erosion => 0,
        Kind::Dilation => 1,
    }
}

// The five bytes of a stage.
fn stage_five(stage: Stage) -> [u8; 5]
    ensures { result ≡ stage_bytes stage }
{
    [
        kind_byte(stage.kind),
        stage.left,
        stage.right,
        stage.up,
        stage.down,
    ]
}

// The five bytes of an image head.
fn head_five(sample: u8, width: usize, rows: usize) -> [u8; 5]
    requires { (width ≤ 65535) × (rows ≤ 65535) }
    ensures { result ≡ head_bytes_of sample width rows }
{
    let [a, b] = (width as u16).to_le_bytes();
    let [c, d] = (rows as u16).to_le_bytes();
    [sample, a, b, c, d]
}

// Five bytes from `at` on.
fn put(five: [u8; 5], out: &mut [u8], at: usize)
    requires { at + 5 ≤ length out.old }
    ensures { out.new ≡ sets out.old at five }
{
    out[at..at + 5].copy_from_slice(&five);
}

// The plan's stages, after the count's byte.
fn put_stages(plan: Plan, out: &mut [u8])
    requires { (plan.count ≤ 16) × (head_begins plan.count ≤ length out.old) }
    ensures { out.new ≡ sets out.old 1 (stages_bytes (used plan)) }
{
    for i in 0..plan.count {
        put(stage_five(plan.stages[i]), out, 1 + i * 5);
    }
}

impl From<Result<usize, Refusal>> for Written {
    ghost from_gives = { λ put w. w ≡ written_as put };

    fn from(put: Result<usize, Refusal>) -> Written {
        match put {
            Ok(count) => Written::Bytes(count),
            Err(refusal) => Written::Refused(refusal.number()),
        }
    }
}

fn put_head(job: Job, out: &mut [u8]) -> Result<usize, Refusal>
    ensures { Wrote job out.old out.new (written_as result) }
{
    plan_record::judge(job.plan)?;
    plan_record::judge_sample(job.sample)?;
    plan_record::judge_size(job.width, job.rows)?;
    let at = 1 + job.plan.count * 5;
    if out.len() < at + 5 {
        return Err(Refusal::Memory);
    }
    out[0] = job.plan.count as u8;
    put_stages(job.plan, out);
    put(head_five(job.sample, job.width, job.rows), out, at);
    Ok(at + 5)
}

// What stands before the job's rows, at the front of the output. Refused 1; stage by stage 3; 5; 4; 6 for too short an output.
pub fn write_head(job: Job, out: &mut [u8]) -> Written
    ensures { Wrote job out.old out.new result }
{
    Written::from(put_head(job, out))
}
