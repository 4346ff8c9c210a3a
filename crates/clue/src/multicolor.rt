// The clue of a coloured line: sizes and colours.
ghost use Rattle.clue.specs.Calls.{ColouredClue};

use crate::judge::{bad_code, judge_codes};
use crate::line::write_clue;
use crate::{Field, Ink, Part, Reading};
use rules::Refusal;
use rules::judge::{both_room, judge_length};

// The clue of a line of codes: its maximal runs of equal codes that are not blank.
pub fn from_line(
    codes: &[u32],
    blank: u32,
    sizes: &mut [u32],
    colours: &mut [u32],
) -> Result<usize, Refusal>
    ensures { ColouredClue blank codes.now sizes.old colours.old result sizes.new colours.new }
{
    judge_length(codes.len())?;
    judge_codes(
        both_room(codes.len(), sizes.len(), colours.len()),
        bad_code(codes, blank),
    )?;
    let reading = Reading {
        ink: Ink::Coloured,
        blank,
    };
    let blocks = write_clue(codes, reading, Part::Each(Field::Size), sizes, 0);
    write_clue(codes, reading, Part::Each(Field::Colour), colours, 0);
    Ok(blocks)
}
