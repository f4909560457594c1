// Readers of the job layout, group by group and whole.
#![tactic(auto)]

ghost use Rattle.std.specs.Prelude.{◌≡◌, ◌≤◌, ◌++◌, ◌+◌, ◌-◌, length, drop, replicate};
ghost use Rattle.morph.specs.Refusals.{said};
ghost use Rattle.plan_record.specs.Inner.{reading_as};
ghost use Rattle.job_read.specs.Layout.{sample_bytes_of, job_from};
ghost use Rattle.job_read.specs.Job.{plan_section_of, head_number, head_answered, head_section_number, rows_number, no_job, job_answered, job_read_of};
ghost use Rattle.job_read.specs.Inner.{head_as, read_as, front_number};

use morph::Refusal;
use plan_record::{Plan, Reading};

// A job that was read: its plan, its image head, and where its rows begin.
#[derive(Clone, Copy, Debug, PartialEq, Eq)]
pub struct Job {
    pub plan: Plan,
    pub sample: u8,
    pub width: usize,
    pub rows: usize,
    pub at: usize,
}

// What an accepted image head says.
#[derive(Clone, Copy, Debug, PartialEq, Eq)]
pub struct Image {
    pub sample: u8,
    pub width: usize,
    pub rows: usize,
}

// What reading an image head gives: 0 and its fields, or a refusal's number and zeros. It and `JobRead` stay records, and no Results:
// document 01 says that a refused reading "hands back all zeros, kind erosion" (`head_answered`, `job_answered`).
#[derive(Clone, Copy, Debug, PartialEq, Eq)]
pub struct Head {
    pub number: u8,
    pub sample: u8,
    pub width: usize,
    pub rows: usize,
}

impl From<Result<Image, Refusal>> for Head {
    ghost from_gives = { λ read h. h ≡ head_as read };

    fn from(read: Result<Image, Refusal>) -> Head {
        match read {
            Ok(image) => Head {
                number: 0,
                sample: image.sample,
                width: image.width,
                rows: image.rows,
            },
            Err(refusal) => Head {
                number: refusal.number(),
                sample: 0,
                width: 0,
                rows: 0,
            },
        }
    }
}

// What reading a whole job gives: 0 and the job, or a refusal's number and all zeros.
#[derive(Clone, Copy, Debug, PartialEq, Eq)]
pub struct JobRead {
    pub number: u8,
    pub job: Job,
}

impl From<Result<Job, Refusal>> for JobRead {
    ghost from_gives = { λ read r. r ≡ read_as read };

    fn from(read: Result<Job, Refusal>) -> JobRead {
        match read {
            Ok(job) => JobRead { number: 0, job },
            Err(refusal) => refused(refusal.number()),
        }
    }
}

// What a refused job is read as.
pub fn refused(number: u8) -> JobRead
    ensures { result ≡ record { number = number; job = no_job } }
{
    JobRead {
        number,
        job: Job {
            plan: plan_record::empty(),
            sample: 0,
            width: 0,
            rows: 0,
            at: 0,
        },
    }
}

// The bytes of one sample of a known kind.
pub fn sample_bytes(sample: u8) -> usize
    ensures { (result ≡ sample_bytes_of sample) × (1 ≤ result) × (result ≤ 4) }
{
    if sample == 0 {
        return 1;
    }
    4
}

// ---- the plan section

// The bytes at the front of as many as 16 stages take, zeros after them.
fn padded(part: &[u8]) -> [u8; 80]
    requires { length part.now ≤ 80 }
    ensures { result ≡ part.now ++ replicate (80 - length part.now) 0 }
{
    let mut whole = [0; 80];
    whole[..part.len()].copy_from_slice(part);
    whole
}

// The plan of the section that the bytes open with.
fn plan_of(bytes: &[u8]) -> Result<Plan, Refusal>
    ensures { reading_as result ≡ plan_section_of bytes.now }
{
    let Some((&count, rest)) = bytes.split_first() else {
        return Err(Refusal::EndsEarly);
    };
    let n = usize::from(count);
    plan_record::judge_count(n)?;
    if rest.len() < n * 5 {
        return Err(Refusal::EndsEarly);
    }
    plan_read::read_plan(count, &padded(&rest[..n * 5]))
}

// The plan section that the bytes open with. Refused 13 without a count; 1; 13 without all stages; stage by stage 2, 3.
pub fn plan_section(bytes: &[u8]) -> Reading
    ensures { result ≡ plan_section_of bytes.now }
{
    Reading::from(plan_of(bytes))
}

// ---- the image head

// What five bytes say. Refused 5, 4.
fn image_of(bytes: &[u8; 5]) -> Result<Image, Refusal>
    ensures { head_as result ≡ head_answered (head_number bytes.now) bytes.now }
{
    let [sample, a, b, c, d] = *bytes;
    let width = usize::from(u16::from_le_bytes([a, b]));
    let rows = usize::from(u16::from_le_bytes([c, d]));
    plan_record::judge_sample(sample)?;
    plan_record::judge_size(width, rows)?;
    Ok(Image {
        sample,
        width,
        rows,
    })
}

// The image head of five bytes. Refused 5, 4.
pub fn read_head(bytes: &[u8; 5]) -> Head
    ensures { result ≡ head_answered (head_number bytes.now) bytes.now }
{
    Head::from(image_of(bytes))
}

// What the five bytes at `at` say. Refused 13, 5, 4.
fn image_at(bytes: &[u8], at: usize) -> Result<Image, Refusal>
    requires { at ≤ length bytes.now }
    ensures { head_as result ≡ head_answered (head_section_number bytes.now at) (drop at bytes.now) }
{
    let Some(five) = bytes[at..].first_chunk::<5>() else {
        return Err(Refusal::EndsEarly);
    };
    image_of(five)
}

// The image head that stands at `at`. Refused 13, 5, 4.
pub fn head_section(bytes: &[u8], at: usize) -> Head
    requires { at ≤ length bytes.now }
    ensures { result ≡ head_answered (head_section_number bytes.now at) (drop at bytes.now) }
{
    Head::from(image_at(bytes, at))
}

// ---- the whole job

// What stands before the rows: the plan section, and then the image head.
pub fn front(bytes: &[u8]) -> Result<Job, Refusal>
    ensures { read_as result ≡ job_answered (front_number bytes.now) (job_from bytes.now) }
{
    let plan = plan_of(bytes)?;
    let end = 1 + plan.count * 5;
    let image = image_at(bytes, end)?;
    Ok(Job {
        plan,
        sample: image.sample,
        width: image.width,
        rows: image.rows,
        at: end + 5,
    })
}

// Refused 13 where the rows are not all there, 14 where bytes follow them.
fn judge_length(bytes: &[u8], job: Job) -> Result<(), Refusal>
    requires { (job.at ≤ length bytes.now) × (job.width ≤ 4096) × (job.rows ≤ 65535) }
    ensures { said result ≡ rows_number bytes.now job }
{
    let need = job.rows * (job.width * sample_bytes(job.sample));
    let there = bytes.len() - job.at;
    if there < need {
        return Err(Refusal::EndsEarly);
    }
    if need < there {
        return Err(Refusal::BytesAfter);
    }
    Ok(())
}

fn job_of(bytes: &[u8]) -> Result<Job, Refusal>
    ensures { read_as result ≡ job_read_of bytes.now }
{
    let job = front(bytes)?;
    judge_length(bytes, job)?;
    Ok(job)
}

// A whole lent job: its plan section, its image head, and then exactly its rows.
pub fn read(bytes: &[u8]) -> JobRead
    ensures { result ≡ job_read_of bytes.now }
{
    JobRead::from(job_of(bytes))
}
