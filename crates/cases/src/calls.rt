// The calls by the numbers that they have in files of cases: 1 to 5 on coloured blocks, 6 and 7 for coloured clues, 8 to 13 the same of binary
// ones, which have no ranges, 14 and 15 for a coloured and a binary line, 16 and 17 for the full run and the point run of coloured cells, 18
// and 19 of binary ones, and 20 and 21 to read and to write a picture as plain PBM.
ghost use Rattle.cases.specs.Calls.{Names};

use crate::blocks::BlockCall;
use crate::clues::ClueCall;
use crate::lines::LineCall;
use crate::pictures::PictureCall;
use crate::runs::RunCall;
use std::error::Error;
use std::fmt;

// Whether a call's cells have colours or are black and white.
#[derive(Clone, Copy, Debug, PartialEq, Eq)]
pub enum Cells {
    Coloured,
    Binary,
}

// A call of the device.
#[derive(Clone, Copy, Debug, PartialEq, Eq)]
pub enum Call {
    Blocks(BlockCall),
    Clues(ClueCall),
    Line(LineCall),
    Run(RunCall),
    Picture(PictureCall),
}

// A number that no call has.
#[derive(Clone, Copy, Debug, PartialEq, Eq)]
pub struct UnknownCall(pub u64);

impl TryFrom<u64> for Call {
    type Error = UnknownCall;

    ghost try_from_gives = { Names };

    fn try_from(number: u64) -> Result<Call, UnknownCall> {
        match number {
            1 => Ok(Call::Blocks(BlockCall::PartialSums(Cells::Coloured))),
            2 => Ok(Call::Blocks(BlockCall::BlockStarts(Cells::Coloured))),
            3 => Ok(Call::Blocks(BlockCall::PositionsNumber(Cells::Coloured))),
            4 => Ok(Call::Blocks(BlockCall::ColorRanges)),
            5 => Ok(Call::Blocks(BlockCall::Description(Cells::Coloured))),
            6 => Ok(Call::Clues(ClueCall::Line(Cells::Coloured))),
            7 => Ok(Call::Clues(ClueCall::Picture(Cells::Coloured))),
            8 => Ok(Call::Blocks(BlockCall::PartialSums(Cells::Binary))),
            9 => Ok(Call::Blocks(BlockCall::BlockStarts(Cells::Binary))),
            10 => Ok(Call::Blocks(BlockCall::PositionsNumber(Cells::Binary))),
            11 => Ok(Call::Blocks(BlockCall::Description(Cells::Binary))),
            12 => Ok(Call::Clues(ClueCall::Line(Cells::Binary))),
            13 => Ok(Call::Clues(ClueCall::Picture(Cells::Binary))),
            14 => Ok(Call::Line(LineCall(Cells::Coloured))),
            15 => Ok(Call::Line(LineCall(Cells::Binary))),
            16 => Ok(Call::Run(RunCall::Full(Cells::Coloured))),
            17 => Ok(Call::Run(RunCall::Point(Cells::Coloured))),
            18 => Ok(Call::Run(RunCall::Full(Cells::Binary))),
            19 => Ok(Call::Run(RunCall::Point(Cells::Binary))),
            20 => Ok(Call::Picture(PictureCall::Read)),
            21 => Ok(Call::Picture(PictureCall::Write)),
            _ => Err(UnknownCall(number)),
        }
    }
}

impl fmt::Display for Call {
    fn fmt<W: fmt::Write>(&self, f: &mut fmt::Formatter<W>) -> fmt::Result {
        match self {
            Call::Blocks(call) => write!(f, "{call}"),
            Call::Clues(call) => write!(f, "{call}"),
            Call::Line(call) => write!(f, "{call}"),
            Call::Run(call) => write!(f, "{call}"),
            Call::Picture(call) => write!(f, "{call}"),
        }
    }
}

impl fmt::Display for UnknownCall {
    fn fmt<W: fmt::Write>(&self, f: &mut fmt::Formatter<W>) -> fmt::Result {
        let number = self.0;
        write!(f, "no call has the number {number}")
    }
}

impl Error for UnknownCall {}
