// A sorting bench asks, row by row: is this picture's dark residue over a limit? It hands in the rows of the closed picture and of the input in pairs, from the top, and hears yes as soon as no row to come can change that; no once it has handed in all of them.
#![tactic(auto)]

ghost use Rattle.std.specs.Prelude.{◌≡◌, ◌+◌, ◌<◌, length};
ghost use Rattle.worn.specs.Worn.{first_question, over_limit, say_of, is_broken_of, question_with, WornStart, WornPair};
ghost use Rattle.worn.specs.Inner.{asked_as};

use morph::Refusal;
use residue::Residue;

// What the caller keeps between two pairs: the closing's extents, the picture's size, the limit, how many rows are read, and what their residues add up to. Whether yes was said can be seen from the last and the limit.
#[repr(C)]
#[derive(Clone, Copy, Debug, PartialEq, Eq)]
pub struct Question {
    pub left: u8,
    pub right: u8,
    pub up: u8,
    pub down: u8,
    pub width: usize,
    pub rows: usize,
    pub limit: u64,
    pub row: usize,
    pub sum: u64,
}

// The answer to a pair. A refusal stays a number here: the definition that the promises cite, `asked_of`, makes it of one.
#[derive(Clone, Copy, Debug, PartialEq, Eq)]
pub enum Worn {
    Yes,
    No,
    NotYet,
    Refused(u8),
}

// What a start gives: 0 and the question before the first pair, or a refusal's number and all zeros. C reads it, and document 01 says "a refused start .. hands back all zeros" (`begun_of`).
#[repr(C)]
#[derive(Clone, Copy, Debug, PartialEq, Eq)]
pub struct Begun {
    pub number: u8,
    pub question: Question,
}

// What a pair gives: the answer, and the question after it.
#[derive(Clone, Copy, Debug, PartialEq, Eq)]
pub struct Asked {
    pub answer: Worn,
    pub question: Question,
}

// ---- the start

// A question with no row read, about a picture of this size.
fn first(left: u8, right: u8, up: u8, down: u8, width: usize, rows: usize, limit: u64) -> Question
    ensures { result ≡ first_question left right up down width rows limit }
{
    Question {
        left,
        right,
        up,
        down,
        width,
        rows,
        limit,
        row: 0,
        sum: 0,
    }
}

// Starts a question. Refused 3, 4, 21.
pub fn start(left: u8, right: u8, up: u8, down: u8, width: usize, rows: usize, limit: u64) -> Begun
    ensures { WornStart left right up down width rows limit result }
{
    match residue::judge_closing(left, right, up, down, width, rows) {
        Ok(()) => Begun {
            number: 0,
            question: first(left, right, up, down, width, rows, limit),
        },
        Err(refusal) => Begun {
            number: refusal.number(),
            question: first(0, 0, 0, 0, 0, 0, 0),
        },
    }
}

// ---- a pair

// 12: whether a question that is handed in breaks its rules.
fn is_broken(given: Question) -> bool
    ensures { result ≡ is_broken_of given }
{
    if residue::judge_closing(
        given.left,
        given.right,
        given.up,
        given.down,
        given.width,
        given.rows,
    )
    .is_err()
    {
        return true;
    }
    if given.rows < given.row {
        return true;
    }
    let most = 255 * given.width * given.row;
    (most as u64) < given.sum
}

// Whether yes is certain, and so was given.
fn is_over(question: Question) -> bool
    ensures { result ≡ over_limit question }
{
    question.limit < question.sum
}

// The question with one row more, of that residue.
fn with_row(question: Question, residue: usize) -> Question
    requires { (question.row < 65535) × (question.sum + residue < 18446744073709551616) }
    ensures { result ≡ question_with question residue }
{
    Question {
        row: question.row + 1,
        sum: question.sum + residue as u64,
        ..question
    }
}

// What is said after a pair: yes where it is certain, no where all rows are read, else not yet.
#[tactic(auto, using(std::proofs::lemmas::Bool::Decides::nat_tests), unfolding(crate::specs::Worn::say_of))]
fn say(after: Question) -> Worn
    ensures { result ≡ say_of after }
{
    if is_over(after) {
        return Worn::Yes;
    }
    if after.row < after.rows {
        return Worn::NotYet;
    }
    Worn::No
}

// The question after a pair that is not refused. 12 is looked for first; 9, 7 and 16, in this order, only while yes has not been said, as from then on no row is read.
fn next(question: Question, closed: &[u8], input: &[u8]) -> Result<Question, Refusal>
    ensures { WornPair question closed.now input.now (asked_as question result) }
{
    if is_broken(question) {
        return Err(Refusal::State);
    }
    if is_over(question) {
        return Ok(question);
    }
    if question.rows <= question.row {
        return Err(Refusal::AllRead);
    }
    if closed.len() != question.width || input.len() != question.width {
        return Err(Refusal::RowLength);
    }
    match residue::dark(
        question.left,
        question.right,
        question.up,
        question.down,
        question.row,
        question.rows,
        closed,
        input,
    ) {
        Residue::Sum(sum) => Ok(with_row(question, sum)),
        // 16: the start has judged all else that `dark` refuses, and 12 and 7 have here.
        Residue::Refused(_) => Err(Refusal::Negative),
    }
}

// The next pair of rows. Refused 12, 9, 7, 16, with the question as it was.
pub fn pair(question: Question, closed: &[u8], input: &[u8]) -> Asked
    ensures { WornPair question closed.now input.now result }
{
    match next(question, closed, input) {
        Ok(after) => Asked {
            answer: say(after),
            question: after,
        },
        Err(refusal) => Asked {
            answer: Worn::Refused(refusal.number()),
            question,
        },
    }
}
