// A job in memory: the turns of the machine, from a lent job to a lent output.
#![tactic(auto)]

ghost use Rattle.std.specs.Prelude.{◌≡◌, ◌++◌, ◌+◌, ◌*◌, ◌≤◌, ◌<◌, length, drop};
ghost use Rattle.job_read.specs.Layout.{row_bytes};
ghost use Rattle.answer.specs.Answer.{answer_of, room_of};
ghost use Rattle.job_run.specs.Run.{RunsJob};

use job_read::Job;

// What a run comes to: the number at the answer's end and how many bytes the answer has; or 6 and none, where there is too little room. C reads it (`RunsJob`).
#[repr(C)]
#[derive(Clone, Copy, Debug, PartialEq, Eq)]
pub struct JobRun {
    pub number: u8,
    pub written: usize,
}

// ---- the room

// The bytes of a full run: the opening, for each row its marker and its bytes, and the end.
fn full_room(job: Job) -> usize
    requires { (job.width ≤ 4096) × (job.rows ≤ 65535) }
    ensures { result ≡ 6 + job.rows * (1 + row_bytes job) + 2 }
{
    let row = 1 + job.width * job_read::sample_bytes(job.sample);
    6 + job.rows * row + 2
}

// The bytes that an output must have for that job.
fn room(job: &[u8]) -> usize
    ensures { result ≡ room_of job.now }
{
    match turn_head::open(job) {
        Ok(opened) => full_room(opened),
        Err(_) => 2,
    }
}

// ---- memory

// 4,096 bytes: grey cells, or one part of as many column records.
fn bytes() -> [u8; 4096]
    ensures { 4096 ≡ length result }
{
    [0; 4096]
}

// 4,096 floats: cells, or a row.
fn floats() -> [f32; 4096]
    ensures { 4096 ≡ length result }
{
    [0.0; 4096]
}

// The positions of 4,096 cells.
fn positions() -> [u8; 4096]
    ensures { 4096 ≡ length result }
{
    [0; 4096]
}

// A marker byte and the longest row.
fn frame() -> [u8; 16385]
    ensures { 16385 ≡ length result }
{
    [0; 16385]
}

// Writes the answer to an output that has room for it, with memory of its own, and tells its length.
fn answer_to(job: &[u8], out: &mut [u8]) -> usize
    requires { length (answer_of job.now) ≤ length out.old }
    ensures { (result ≡ length (answer_of job.now)) × (out.new ≡ answer_of job.now ++ drop result out.old) }
{
    let mut frame = frame();
    let mut row = floats();
    let mut came = floats();
    let mut greys = bytes();
    let mut rates = floats();
    let mut positions = positions();
    let mut starts = bytes();
    let mut lengths = bytes();
    job_loop::go(
        job,
        out,
        &mut frame,
        &mut row,
        &mut came,
        &mut greys,
        &mut rates,
        &mut positions,
        &mut starts,
        &mut lengths,
    )
}

// Runs the job, of any bytes, into the output: its answer, as the program would write it. 6, and nothing written, where the output is shorter than a full run needs.
pub fn run(job: &[u8], out: &mut [u8]) -> JobRun
    ensures { RunsJob job.now out.old out.new result }
{
    if out.len() < room(job) {
        return JobRun {
            number: 6,
            written: 0,
        };
    }
    let written = answer_to(job, out);
    JobRun {
        number: out[written - 1],
        written,
    }
}
