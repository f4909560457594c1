// Why a call is refused: the rules that it can break, each with its number.

ghost use Rattle.std.specs.Prelude.{◌≡◌, ◌<◌};
ghost use Rattle.morph.specs.Refusals.{refusal_number, said};

use std::error::Error;
use std::fmt;

#[derive(Clone, Copy, Debug, PartialEq, Eq)]
pub enum Refusal {
    StageCount, // 1: the stage count is 0 or over 16
    StageKind, // 2: a stage kind is not 0 or 1
    Extent, // 3: an extent is over 31
    Size, // 4: a width, a row count or a line's length is 0 or too large, or a row number is not below the row count
    SampleKind, // 5: the sample kind is not 0 or 1, or not the state's
    Memory, // 6: too few cells, column records, bytes of output or places of a row are lent
    RowLength, // 7: a row is not as long as the width, two rows differ in length, or a picture is not width times rows
    NotFinite, // 8: a pixel is not finite
    AllRead, // 9: a row or a pixel is offered when all have been read, or a stop is said twice or in a run that counts its rows
    NoDrain, // 10: a drain is asked before all are read, or after the last output
    NotThere, // 11: a read-out or a view names what is not there
    State, // 12: the state or the question breaks its rules
    EndsEarly, // 13: a job ends early
    BytesAfter, // 14: a job has bytes after its last row
    Cells, // 15: a job needs over 4,096 cells
    Negative, // 16: a counted residue pixel would be negative
    FilterOrder, // 17: the filter order is 0 or over 4
    OverOneStage, // 20: origins are asked of a plan of over one stage
    EmptyBand, // 21: no pixel of the picture is counted
    LastNumber, // 28: the row of an open run is past the last number
}

impl Refusal {
    // The number that says it, which is never 0.
    pub fn number(self) -> u8
        ensures { (result ≡ refusal_number self) × (0 < result) }
    {
        match self {
            Refusal::StageCount => 1,
            Refusal::StageKind => 2,
            Refusal::Extent => 3,
            Refusal::Size => 4,
            Refusal::SampleKind => 5,
            Refusal::Memory => 6,
            Refusal::RowLength => 7,
            Refusal::NotFinite => 8,
            Refusal::AllRead => 9,
            Refusal::NoDrain => 10,
            Refusal::NotThere => 11,
            Refusal::State => 12,
            Refusal::EndsEarly => 13,
            Refusal::BytesAfter => 14,
            Refusal::Cells => 15,
            Refusal::Negative => 16,
            Refusal::FilterOrder => 17,
            Refusal::OverOneStage => 20,
            Refusal::EmptyBand => 21,
            Refusal::LastNumber => 28,
        }
    }
}

impl From<Refusal> for u8 {
    ghost from_gives = { λ refusal n. n ≡ refusal_number refusal };

    fn from(refusal: Refusal) -> u8 {
        refusal.number()
    }
}

impl fmt::Display for Refusal {
    fn fmt<W: fmt::Write>(&self, f: &mut fmt::Formatter<W>) -> fmt::Result {
        write!(f, "refused {}", self.number())
    }
}

impl Error for Refusal {}

// The number of a judgement: 0 where nothing is refused.
pub fn said(judged: Result<(), Refusal>) -> u8
    ensures { result ≡ said judged }
{
    match judged {
        Ok(()) => 0,
        Err(refusal) => refusal.number(),
    }
}
