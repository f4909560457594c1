// The turns of a job from memory to memory, on memory that is lent: the loop of crate job_run.
#![tactic(auto)]

ghost use Rattle.std.specs.Prelude.{◌≡◌, ◌++◌, ◌≤◌, length, drop};
ghost use Rattle.answer.specs.Answer.{answer_of};
ghost use Rattle.turns.specs.Inner.{machine_memory, MemoryRoom};
ghost use Rattle.job_loop.specs.Inner.{Fits, Puts};

use turns::{Machine, Turned};

// One turn: what it puts is copied to the front of the output.
fn put_turn(
    machine: Machine,
    bytes: &[u8],
    out: &mut [u8],
    frame: &mut [u8],
    row: &mut [f32],
    came: &mut [f32],
    greys: &mut [u8],
    rates: &mut [f32],
    positions: &mut [u8],
    starts: &mut [u8],
    lengths: &mut [u8],
) -> Turned
    requires { Fits machine (machine_memory greys.old rates.old positions.old starts.old lengths.old) bytes.now out.old × (16385 ≤ length frame.old) × (4096 ≤ length row.old) × (4096 ≤ length came.old) }
    ensures { Puts machine bytes.now (machine_memory greys.old rates.old positions.old starts.old lengths.old) (machine_memory greys.new rates.new positions.new starts.new lengths.new) frame.new out.old out.new result }
{
    let turned = turn::turn(
        machine, bytes, frame, row, came, greys, rates, positions, starts, lengths,
    );
    let put = turned.put;
    out[..put].copy_from_slice(&frame[..put]);
    turned
}

// Turn after turn, on an output that has room for the answer: it then holds the answer, what lies behind is as it was, and the answer's length is told.
pub fn go(
    job: &[u8],
    out: &mut [u8],
    frame: &mut [u8],
    row: &mut [f32],
    came: &mut [f32],
    greys: &mut [u8],
    rates: &mut [f32],
    positions: &mut [u8],
    starts: &mut [u8],
    lengths: &mut [u8],
) -> usize
    requires { (length (answer_of job.now) ≤ length out.old) × (16385 ≤ length frame.old) × (4096 ≤ length row.old) × (4096 ≤ length came.old) × MemoryRoom (machine_memory greys.old rates.old positions.old starts.old lengths.old) }
    ensures { (result ≡ length (answer_of job.now)) × (out.new ≡ answer_of job.now ++ drop result out.old) }
{
    let mut machine = turns::at_head(1);
    let mut at = 0;
    let mut done = 0;
    // Not a `for`: a turn says how many bytes it used, and the machine when it is over.
    while turns::is_on(machine) {
        let turned = put_turn(
            machine,
            &job[at..],
            &mut out[done..],
            frame,
            row,
            came,
            greys,
            rates,
            positions,
            starts,
            lengths,
        );
        at += turned.used;
        done += turned.put;
        let next = turned.machine;
        machine = next;
    }
    done
}
