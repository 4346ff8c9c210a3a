// The calls for clues: of a line's codes, and of a picture's rows and columns.
use crate::calls::Cells;
use device::clues::{sp_binary_clue, sp_binary_clues, sp_clue, sp_clues};
use replies::clues::CluesReply;
use replies::count::CountReply;
use std::fmt;
use vectors::lists::Picture;

// A call for clues.
#[derive(Clone, Copy, Debug, PartialEq, Eq)]
pub enum ClueCall {
    Line(Cells),
    Picture(Cells),
}

impl fmt::Display for ClueCall {
    fn fmt<W: fmt::Write>(&self, f: &mut fmt::Formatter<W>) -> fmt::Result {
        f.write_str(match self {
            ClueCall::Line(Cells::Coloured) => "sp_clue",
            ClueCall::Picture(Cells::Coloured) => "sp_clues",
            ClueCall::Line(Cells::Binary) => "sp_binary_clue",
            ClueCall::Picture(Cells::Binary) => "sp_binary_clues",
        })
    }
}

// The lists that a direction's clues are written to. Binary clues have no colours.
#[derive(Drop)]
pub struct Written<'a> {
    pub counts: &'a mut [u32],
    pub sizes: &'a mut [u32],
    pub colours: &'a mut [u32],
}

// The clue of a picture that is one line.
pub fn take_line(
    cells: Cells,
    picture: &Picture,
    sizes: &mut [u32],
    colours: &mut [u32],
) -> CountReply {
    match cells {
        Cells::Coloured => sp_clue(picture.codes, picture.blank, sizes, colours),
        Cells::Binary => sp_binary_clue(picture.codes, picture.blank, sizes),
    }
}

// The clues of a picture.
pub fn take_clues(
    cells: Cells,
    picture: &Picture,
    rows: &mut Written,
    columns: &mut Written,
) -> CluesReply {
    match cells {
        Cells::Coloured => sp_clues(
            picture.width,
            picture.height,
            picture.codes,
            picture.blank,
            rows.counts,
            rows.sizes,
            rows.colours,
            columns.counts,
            columns.sizes,
            columns.colours,
        ),
        Cells::Binary => sp_binary_clues(
            picture.width,
            picture.height,
            picture.codes,
            picture.blank,
            rows.counts,
            rows.sizes,
            columns.counts,
            columns.sizes,
        ),
    }
}
