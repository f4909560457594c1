// The line filter, one dimension, step by step: `start`, `read`, `drain`, and `read_out` of its queue.
// A line of N pixels takes N steps that read and F that drain, F being how far its window reaches ahead; output x comes at step x + F,
// with the position that gave its value, the latest in the window where several are equal.
// No call asks anything of its caller: what it cannot do it refuses, with a number, and hands the line back as it was given.
// promise: specs/Runs.antt `LineRan`, `LatestTold`, of whole runs
#![tactic(auto)]

ghost use Rattle.std.specs.Prelude.{◌≡◌, ℕ, ◌+◌, ◌≤◌, ◌<◌, length, get_or};
ghost use Rattle.morph.specs.Order.{ahead_of, kind_of};
ghost use Rattle.morph.specs.Refusals.{refusal_number};
ghost use Rattle.morph.specs.Ring.{cell_at};
ghost use Rattle.line_judge.specs.Inner.{LineSound, onward};
ghost use Rattle.line_judge.specs.Steps.{say_at, first_line, LineStart, Refuses, Accepts, Reads, Drains, line_shown};
ghost use Rattle.line.specs.Line.{line_state, shape_of, pixel_said, entry_shown};

use line_judge::Shape;
use morph::{Kind, Refusal};
use queue::Entry;
use row::RowQueue;
use sample::Sample;

// A line between two steps.
// meaning: specs/Line.antt `line_state`
#[derive(Clone, Copy, Debug, PartialEq, Eq)]
pub struct Line<S> {
    pub kind: Kind,
    pub left: u8,
    pub right: u8,
    pub pixels: usize,
    pub step: usize,
    pub queue: RowQueue<S>,
}

impl<S: Sample> Line<S> {
    // What its calls are judged by.
    fn shape(&self) -> Shape
        ensures { result ≡ shape_of self.now }
    {
        Shape {
            kind: self.kind,
            left: self.left,
            right: self.right,
            pixels: self.pixels,
            step: self.step,
            start: self.queue.start,
            count: self.queue.count,
        }
    }
}

// What a step says: a pixel with the position that gave its value, its number and the comparisons made; not yet, with the comparisons made; or a refusal, with the position
// that number 8 names.
// meaning: specs/Line.antt `pixel_said`
#[derive(Clone, Copy, Debug, PartialEq, Eq)]
pub enum Answer<S> {
    Pixel {
        value: S,
        position: usize,
        number: usize,
        comparisons: usize,
    },
    NotYet {
        comparisons: usize,
    },
    Refused {
        refusal: Refusal,
        position: usize,
    },
}

// What a step hands back: its answer, and the line after it. A refusal hands back the line too, as it was given (document 01; `Refuses`), so it is no Result.
#[derive(Clone, Copy, Debug, PartialEq, Eq)]
pub struct Stepped<S> {
    pub answer: Answer<S>,
    pub line: Line<S>,
}

// What a start hands back: 0 or the number of its refusal, and the line. A refusal hands back a line of zeros too (document 01; `LineStart`), so it is no Result.
#[derive(Clone, Copy, Debug, PartialEq, Eq)]
pub struct Started<S> {
    pub number: u8,
    pub line: Line<S>,
}

// A line that has not begun.
fn first<S: Sample>(kind: Kind, left: u8, right: u8, pixels: usize) -> Line<S>
    ensures { (number : ℕ) → kind ≡ kind_of number → line_state result ≡ first_line S.samples number left right pixels }
{
    Line {
        kind,
        left,
        right,
        pixels,
        step: 0,
        queue: row::empty(),
    }
}

// A line before its first step, or a refusal and a line that no step takes.
pub fn start<S: Sample>(kind: u8, left: u8, right: u8, pixels: usize) -> Started<S>
    ensures { LineStart S.samples kind left right pixels result.number (line_state result.line) }
{
    match line_judge::start(kind, left, right, pixels) {
        Ok(kind) => Started {
            number: 0,
            line: first(kind, left, right, pixels),
        },
        Err(refusal) => Started {
            number: refusal.number(),
            line: first(Kind::Erosion, 0, 0, 0),
        },
    }
}

// A refusal: the line as it was given.
fn refused<S: Sample>(line: Line<S>, refusal: Refusal) -> Stepped<S>
    ensures { Refuses S.samples (line_state line) (pixel_said result.answer) (line_state result.line) (refusal_number refusal) }
{
    Stepped {
        answer: Answer::Refused {
            refusal,
            position: line.shape().place(refusal),
        },
        line,
    }
}

// The line one step on, with the queue that the step left. Its oldest entry is the answer, once the window has come so far.
fn step_on<S: Sample>(line: Line<S>, q: RowQueue<S>, comparisons: usize) -> Stepped<S>
    requires { (q.start < 63) × (line.step < 65566) }
    ensures { (line_state result.line ≡ onward S.samples (line_state line) q.values q.positions q.start q.count) × (pixel_said result.answer ≡ say_at (ahead_of line.kind line.left line.right) line.step (cell_at S.samples.order.blank q.values q.positions q.start) comparisons) × (length q.values ≡ 63) }
{
    let t = line.step;
    let ahead = line.shape().ahead();
    let front = row::front(q);
    let mut next = line;
    next.step = t + 1;
    next.queue = q;
    if t < ahead {
        return Stepped {
            answer: Answer::NotYet { comparisons },
            line: next,
        };
    }
    let position = usize::from(front.position);
    Stepped {
        answer: Answer::Pixel {
            value: front.value,
            position,
            number: t - ahead,
            comparisons,
        },
        line: next,
    }
}

// An accepted step that reads v.
fn read_on<S: Sample>(line: Line<S>, v: S) -> Stepped<S>
    requires { LineSound line.kind line.left line.right line.pixels line.step line.queue.start line.queue.count × (line.step < line.pixels) }
    ensures { Accepts S.samples (line_state line) (pixel_said result.answer) (line_state result.line) (λ xs. get_or xs line.step S.samples.order.blank ≡ v) }
{
    let window = line.shape().window();
    let e = Entry {
        value: v,
        position: row::position(line.step),
    };
    let pushed = row::push(line.queue, line.kind, window, e);
    let next = pushed.queue;
    step_on(line, next, pushed.room.comparisons)
}

// A step that reads: the pixel v is offered.
// promise: line_judge/specs/Steps.antt `Reads`
pub fn read<S: Sample>(line: Line<S>, v: S) -> Stepped<S>
    ensures { Reads S.samples (line_state line) (pixel_said result.answer) (line_state result.line) v }
{
    match line.shape().judge_read(v.is_good()) {
        Ok(()) => read_on(line, v.taken()),
        Err(refusal) => refused(line, refusal),
    }
}

// An accepted step that drains.
fn drain_on<S: Sample>(line: Line<S>) -> Stepped<S>
    requires { LineSound line.kind line.left line.right line.pixels line.step line.queue.start line.queue.count × (line.pixels ≤ line.step) × (line.step < line.pixels + ahead_of line.kind line.left line.right) }
    ensures { Accepts S.samples (line_state line) (pixel_said result.answer) (line_state result.line) (λ xs. Unit {0}) }
{
    let t = line.step;
    let mut q = line.queue;
    let start = q.start;
    let count = q.count;
    let window = line.shape().window();
    let gone = queue::goes(&q.positions, start, count, window, t);
    q.start = queue::slot(start, gone, 63);
    q.count = count - gone;
    step_on(line, q, 0)
}

// A step that drains: a drain is asked.
// promise: line_judge/specs/Steps.antt `Drains`
pub fn drain<S: Sample>(line: Line<S>) -> Stepped<S>
    ensures { Drains S.samples (line_state line) (pixel_said result.answer) (line_state result.line) }
{
    match line.shape().judge_drain() {
        Ok(()) => drain_on(line),
        Err(refusal) => refused(line, refusal),
    }
}

// The entry of a queue place, the oldest at place 0.
// promise: line_judge/specs/Steps.antt `line_shown`
pub fn read_out<S: Sample>(line: Line<S>, place: usize) -> Result<Entry<S>, Refusal>
    ensures { entry_shown result ≡ line_shown S.samples (line_state line) place }
{
    line.shape().judge_read_out(place)?;
    let q = line.queue;
    let at = queue::slot(q.start, place, 63);
    Ok(queue::cell(&q.values, &q.positions, at))
}
