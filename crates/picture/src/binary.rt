// The clues of a binary picture: sizes alone. Every code but the blank one is black, whatever its ink. The call is not that of multicolor.rt,
// which is lent six lists for these four, as C has it, and judges the codes.
ghost use Rattle.picture.specs.Calls.{BinaryClues};

use crate::Totals;
use crate::directions::write_clues;
use crate::judge::judge_grid;
use crate::view::Picture;
use clue::{Ink, Reading};
use rules::Refusal;

// The clues of a picture of width × height codes.
pub fn clues_from_solution(
    width: usize,
    height: usize,
    codes: &[u32],
    blank: u32,
    row_counts: &mut [u32],
    row_sizes: &mut [u32],
    column_counts: &mut [u32],
    column_sizes: &mut [u32],
) -> Result<Totals, Refusal>
    ensures { BinaryClues blank width height codes.now row_counts.old row_sizes.old column_counts.old column_sizes.old result row_counts.new row_sizes.new column_counts.new column_sizes.new }
{
    judge_grid(
        width,
        height,
        codes.len(),
        row_counts.len(),
        row_sizes.len(),
        column_counts.len(),
        column_sizes.len(),
    )?;
    let reading = Reading {
        ink: Ink::Black,
        blank,
    };
    let picture = Picture {
        width,
        height,
        codes,
        reading,
    };
    Ok(write_clues(picture, row_counts, row_sizes, column_counts, column_sizes))
}
