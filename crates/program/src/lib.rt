// The program that runs a job, on two streams: the turns of the machine, with a read before each and a write after it.
// What a turn wants, uses and puts is decided by crate turn; what is here moves bytes. A read or a write that fails ends the run: nothing can be told any more, and a job that
// cannot be read gets no number.
#![tactic(auto)]

ghost use Rattle.std.specs.Prelude.{◌≡◌, ◌-◌, ◌≤◌, length, take, drop};
ghost use Rattle.turns.specs.Inner.{machine_memory, MemoryRoom};
ghost use Rattle.program.specs.Ran.{ProgramRan};
ghost use Rattle.ports.specs.Ports.{Latest, Due, Gave};
ghost use Rattle.program.specs.Inner.{Fetches, Settled};

pub use ports::{Input, Loss, Moved, Output, input_of, standard_input, standard_output};
use std::rt::Clock;

// The bytes at hand, at the front of a buffer: how many there are, and what was moved so far.
#[derive(Clone, Copy)]
struct Hand {
    moved: Moved,
    have: usize,
}

// Reads until so many bytes are at hand or the input ends. The bytes that were at hand stay. The total is of all that went through.
fn fetch<H: Clock + Eprint>(
    rt: &H,
    from: &mut Input,
    bytes: &mut [u8],
    hand: Hand,
    wants: usize,
    total: &mut usize,
) -> Result<Hand, Loss>
    requires { (hand.have ≤ length bytes.old) × (wants ≤ length bytes.old) × Latest hand.moved total.old }
    ensures { Fetches bytes.old bytes.new hand wants total.new result }
{
    let have = hand.have;
    if wants <= have {
        return Ok(hand);
    }
    let came = ports::receive(rt, from, hand.moved, &mut bytes[have..wants], total)?;
    Ok(Hand {
        moved: came.moved,
        have: have + came.got,
    })
}

// Gives what a turn put, which has to be due, and counts it on from what was moved so far.
fn send<H: Clock + Eprint>(
    rt: &H,
    to: &mut Output,
    before: Moved,
    bytes: &[u8],
    frame: &[u8; 16385],
    put: usize,
    total: &mut usize,
) -> Result<Moved, Loss>
    requires { (put ≤ 16385) × Latest before total.old × Due before bytes.now frame.now put }
    ensures { Gave before put total.new result }
{
    ports::give(rt, to, before, bytes, frame, put, total)
}

// Moves the bytes that are not used to the front, and says how many they are.
fn keep(bytes: &mut [u8], used: usize, have: usize) -> usize
    requires { (used ≤ have) × (have ≤ length bytes.old) }
    ensures { (result ≡ have - used) × (take result bytes.new ≡ drop used (take have bytes.old)) }
{
    bytes.copy_within(used..have, 0);
    have - used
}

// Turn after turn, until the machine is over, or a read or a write fails. What is lent behind the frame is the turn's: two rows to work with, and the memory of the stages.
fn go<H: Clock + Eprint>(
    rt: &H,
    from: &mut Input,
    to: &mut Output,
    bytes: &mut [u8],
    frame: &mut [u8; 16385],
    row: &mut [f32],
    came: &mut [f32],
    greys: &mut [u8],
    rates: &mut [f32],
    positions: &mut [u8],
    starts: &mut [u8],
    lengths: &mut [u8],
    total: &mut usize,
) -> Result<Moved, Loss>
    requires { (total.old ≡ 0) × (length bytes.old ≡ 16384) × (length frame.old ≡ 16385) × (4096 ≤ length row.old) × (4096 ≤ length came.old) × MemoryRoom (machine_memory greys.old rates.old positions.old starts.old lengths.old) }
    ensures { ProgramRan result × Settled result total.new }
{
    let mut machine = turns::at_head(1);
    let mut hand = Hand {
        moved: ports::nothing(),
        have: 0,
    };
    // Not a `for`: a turn says how many bytes it used, and the machine when it is over.
    while turns::is_on(machine) {
        let fetched = fetch(rt, from, bytes, hand, machine.wants, total)?;
        let have = fetched.have;
        let turned = turn::turn(
            machine,
            &bytes[..have],
            frame,
            row,
            came,
            greys,
            rates,
            positions,
            starts,
            lengths,
        );
        let moved = send(
            rt,
            to,
            fetched.moved,
            &bytes[..have],
            frame,
            turned.put,
            total,
        )?;
        let left = keep(bytes, turned.used, have);
        hand = Hand {
            moved: moved,
            have: left,
        };
        machine = turned.machine;
    }
    Ok(hand.moved)
}

// Runs the job that is read from the input, and gives its answer to the output. Its memory is local: some 100 KB.
pub fn run<H: Clock + Eprint>(rt: &H, mut from: Input, mut to: Output) -> Result<Moved, Loss>
    ensures { ProgramRan result }
{
    let mut bytes = [0; 16384]; // a row of 4,096 floats, the most that a machine wants at hand
    let mut frame = [0; 16385]; // a marker and such a row
    let mut row = [0.0; 4096];
    let mut came = [0.0; 4096];
    let mut greys = [0; 4096];
    let mut rates = [0.0; 4096];
    let mut positions = [0; 4096];
    let mut starts = [0; 4096];
    let mut lengths = [0; 4096];
    let mut total = 0;
    go(
        rt,
        &mut from,
        &mut to,
        &mut bytes,
        &mut frame,
        &mut row,
        &mut came,
        &mut greys,
        &mut rates,
        &mut positions,
        &mut starts,
        &mut lengths,
        &mut total,
    )
}
