// One turn of the machine that runs a job: from where it stands and the bytes at hand to the next machine, the bytes that are done with and the bytes to be written.
// It knows nothing of descriptors: a job in memory (job_run) and the program (program) are loops over it.
#![tactic(auto)]

ghost use Rattle.std.specs.Prelude.{◌≡◌, ◌≤◌, length};
ghost use Rattle.turns.specs.Inner.{machine_memory, Stands, Turns};

use turns::{Machine, Phase, Turned};

// A machine that is over stays so.
fn stays(machine: Machine) -> Turned
    ensures { result ≡ record { machine = machine; used = 0; put = 0 } }
{
    Turned {
        machine: machine,
        used: 0,
        put: 0,
    }
}

// Takes a turn. The bytes at hand are at least as many as the machine wants, or all that there are. What is to be written stands at the front of the frame; `row` and `came` are
// for a row of floats as it is read and as it comes out; the others are the picture's memory.
pub fn turn(
    machine: Machine,
    bytes: &[u8],
    frame: &mut [u8],
    row: &mut [f32],
    came: &mut [f32],
    greys: &mut [u8],
    rates: &mut [f32],
    positions: &mut [u8],
    starts: &mut [u8],
    lengths: &mut [u8],
) -> Turned
    requires { Stands machine (machine_memory greys.old rates.old positions.old starts.old lengths.old) × (16385 ≤ length frame.old) × (4096 ≤ length row.old) × (4096 ≤ length came.old) }
    ensures { Turns machine bytes.now (machine_memory greys.old rates.old positions.old starts.old lengths.old) (machine_memory greys.new rates.new positions.new starts.new lengths.new) frame.new result }
{
    let phase = machine.phase;
    match phase {
        Phase::Head => turn_head::turn(machine, bytes, frame, starts, lengths),
        Phase::Rows => turn_rows::turn(
            machine, bytes, frame, row, came, greys, rates, positions, starts, lengths,
        ),
        Phase::Over => stays(machine),
    }
}
