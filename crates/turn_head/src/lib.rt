// The turn at a job's head: the bytes stay at hand until the plan and the image head are judged, and then the picture is begun. Nothing here reads or writes a descriptor.
#![tactic(auto)]

ghost use Rattle.std.specs.Prelude.{◌≡◌, true, false, ◌⊎◌, ◌∷◌, ◌+◌, ◌≤◌, ◌<◌, length, take, drop};
ghost use Rattle.job_read.specs.Layout.{job_from};
ghost use Rattle.job_read.specs.Job.{job_answered};
ghost use Rattle.job_read.specs.Inner.{read_as};
ghost use Rattle.answer.specs.Answer.{opening_number};
ghost use Rattle.answer.specs.Inner.{head_wants_of};
ghost use Rattle.turn_head.specs.Inner.{HeadTurns, Begins};

use job_read::Job;
use morph::Refusal;
use turns::{Machine, Turned};

// ---- what is judged

// The plan and the head of a job. Refused 13, 1; 13, stage by stage 2, 3; 13, 5, 4; 15.
pub fn open(bytes: &[u8]) -> Result<Job, Refusal>
    ensures { read_as result ≡ job_answered (opening_number bytes.now) (job_from bytes.now) }
{
    let job = job_read::front(bytes)?;
    if 4096 < plan_record::cells(job.plan, job.width) {
        return Err(Refusal::Cells);
    }
    Ok(job)
}

// How many bytes have to be at hand before the head is judged further: the count; with it the stages, once it is accepted; with them the image head, once they are.
fn head_wants(bytes: &[u8]) -> usize
    ensures { (result ≡ head_wants_of bytes.now) × (result ≤ 86) }
{
    let Some(&count) = bytes.first() else {
        return 1;
    };
    let count = usize::from(count);
    let Ok(()) = plan_record::judge_count(count) else {
        return 1;
    };
    let end = 1 + count * 5;
    if job_read::plan_section(bytes).number != 0 {
        return end;
    }
    end + 5
}

// ---- what is begun

// Byte 2 and the head's five bytes, which stand at `from`.
fn put_head(bytes: &[u8], from: usize, frame: &mut [u8])
    requires { (from + 5 ≤ length bytes.now) × (6 ≤ length frame.old) }
    ensures { take 6 frame.new ≡ 2 ∷ take 5 (drop from bytes.now) }
{
    frame[0] = 2;
    frame[1..6].copy_from_slice(&bytes[from..from + 5]);
}

// The first turn of an accepted job: its picture is started, and its head is written. A start on 4,096 cells and records is never refused.
fn begin(job: Job, bytes: &[u8], frame: &mut [u8], starts: &mut [u8], lengths: &mut [u8]) -> Turned
    requires { (opening_number bytes.now ≡ 0) × (job ≡ job_from bytes.now) × (6 ≤ length frame.old) × (4096 ≤ length starts.old) × (4096 ≤ length lengths.old) }
    ensures { Begins bytes.now starts.old lengths.old starts.new lengths.new frame.new result }
{
    let started = picture_start::start(
        job.plan, job.sample, job.width, job.rows, 4096, starts, lengths,
    );
    put_head(bytes, job.at - 5, frame);
    Turned {
        machine: turns::at_rows(started.state),
        used: job.at,
        put: 6,
    }
}

// ---- a turn

// Whether more of the head is to come: as many bytes are at hand as were wanted, and the head wants more.
fn is_short(wants: usize, there: usize, wanted: usize) -> bool
    ensures { (result ≡ true → (wants ≤ there) × (there < wanted)) × (result ≡ false → there < wants ⊎ wanted ≤ there) }
{
    wants <= there && there < wanted
}

// A turn at the head. It waits for the bytes that the head wants; the bytes at hand are judged once they are there, or once the input has ended.
pub fn turn(
    machine: Machine,
    bytes: &[u8],
    frame: &mut [u8],
    starts: &mut [u8],
    lengths: &mut [u8],
) -> Turned
    requires { (machine.wants ≤ 86) × (16385 ≤ length frame.old) × (4096 ≤ length starts.old) × (4096 ≤ length lengths.old) }
    ensures { HeadTurns machine bytes.now starts.old lengths.old starts.new lengths.new frame.new result }
{
    let wanted = head_wants(bytes);
    if is_short(machine.wants, bytes.len(), wanted) {
        return Turned {
            machine: turns::at_head(wanted),
            used: 0,
            put: 0,
        };
    }
    match open(bytes) {
        Ok(job) => begin(job, bytes, frame, starts, lengths),
        Err(refusal) => turns::ended(machine.state, refusal.number(), frame),
    }
}
