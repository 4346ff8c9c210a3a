// The clue of a binary line: sizes alone. Every code but the blank one is black, whatever its ink. The call is not that of multicolor.rt, which is
// lent a list of colours, too, as C has it, and judges the codes.
ghost use Rattle.clue.specs.Calls.{BinaryClue};

use crate::judge::judge_room;
use crate::line::write_clue;
use crate::{Field, Ink, Part, Reading};
use rules::Refusal;
use rules::judge::judge_length;

// The clue of a line of codes: the sizes of its maximal stretches of codes that are not blank.
pub fn from_line(codes: &[u32], blank: u32, sizes: &mut [u32]) -> Result<usize, Refusal>
    ensures { BinaryClue blank codes.now sizes.old result sizes.new }
{
    judge_length(codes.len())?;
    judge_room(codes.len() <= sizes.len())?;
    let reading = Reading {
        ink: Ink::Black,
        blank,
    };
    Ok(write_clue(codes, reading, Part::Each(Field::Size), sizes, 0))
}
