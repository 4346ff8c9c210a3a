// What can be wrong with a card. In brackets stands document 01's number, where it has one.
use thiserror::Error;

#[derive(Clone, Copy, Debug, PartialEq, Eq, Error)]
pub enum Fault {
    #[error("this text is not understood")]
    UnknownText,
    #[error("a number is missing")]
    MissingNumber,
    #[error("a number is too large")]
    LargeNumber,
    #[error("a side is from 1 to 64 (1)")]
    BadSide,
    #[error("this side was given before")]
    SideAgain,
    #[error("height must stand before rows, and width before columns")]
    NoSideYet,
    #[error("this list was given before")]
    ListAgain,
    #[error("sizes stand outside the lists: a line too many")]
    ExtraLine,
    #[error("a list has too few lines")]
    MissingLine,
    #[error("a size is missing")]
    MissingSize,
    #[error("a block has size 0 (4)")]
    EmptyBlock,
    #[error("a comma is missing")]
    MissingComma,
    #[error("a colour is missing after a colon")]
    MissingColour,
    #[error("a colour has more than 8 letters and digits")]
    LongColour,
    #[error("the card has more than 31 colours")]
    ManyColours,
    #[error("the line has more than 64 blocks (3)")]
    ManyBlocks,
    #[error("the line is too long")]
    LongLine,
    #[error("there is no width")]
    NoWidth,
    #[error("there is no height")]
    NoHeight,
    #[error("there are no rows")]
    NoRows,
    #[error("there are no columns")]
    NoColumns,
    // The line is that of the word which should have begun a list.
    #[error("this line begins no list, and sizes follow it")]
    NoList { line: u32 },
}

// Why a file holds no card: a fault in a line of it; or one that shows at its end, after that line; or nothing can be read.
#[derive(Clone, Copy, Debug, PartialEq, Eq, Error)]
pub enum NoCard {
    #[error("line {line}: {fault}")]
    Line { line: u32, fault: Fault },
    #[error("end of the file after line {line}: {fault}")]
    End { line: u32, fault: Fault },
    #[error("the file cannot be read")]
    Unreadable,
}
