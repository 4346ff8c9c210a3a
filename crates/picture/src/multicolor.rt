// The clues of a coloured picture: sizes and colours.
ghost use Rattle.std.specs.Prelude.{◌*◌, ◌≤◌, length};
ghost use Rattle.picture.specs.Calls.{ColouredClues};
ghost use Rattle.picture.specs.Steps.{row_clues, column_clues, ColoursPut};

use crate::Totals;
use crate::directions::{write_clues, write_columns, write_rows};
use crate::judge::judge_grid;
use crate::view::Picture;
use clue::judge::{bad_code, judge_codes};
use clue::{Field, Ink, Part, Reading};
use rules::Refusal;
use rules::judge::both_room;

// The colours of both directions.
fn write_colours(picture: Picture, row_colours: &mut [u32], column_colours: &mut [u32])
    requires { (picture.width * picture.height ≤ length row_colours.old) × (picture.width * picture.height ≤ length column_colours.old) }
    ensures { ColoursPut (row_clues picture.entry) (column_clues picture.entry) row_colours.old column_colours.old row_colours.new column_colours.new }
{
    write_rows(picture, Part::Each(Field::Colour), row_colours);
    write_columns(picture, Part::Each(Field::Colour), column_colours);
}

// The clues of a picture of width × height codes.
pub fn clues_from_solution(
    width: usize,
    height: usize,
    codes: &[u32],
    blank: u32,
    row_counts: &mut [u32],
    row_sizes: &mut [u32],
    row_colours: &mut [u32],
    column_counts: &mut [u32],
    column_sizes: &mut [u32],
    column_colours: &mut [u32],
) -> Result<Totals, Refusal>
    ensures { ColouredClues blank width height codes.now row_counts.old row_sizes.old row_colours.old column_counts.old column_sizes.old column_colours.old result row_counts.new row_sizes.new row_colours.new column_counts.new column_sizes.new column_colours.new }
{
    judge_grid(
        width,
        height,
        codes.len(),
        row_counts.len(),
        row_sizes.len(),
        column_counts.len(),
        column_sizes.len(),
    )?;
    judge_codes(
        both_room(width * height, row_colours.len(), column_colours.len()),
        bad_code(codes, blank),
    )?;
    let reading = Reading {
        ink: Ink::Coloured,
        blank,
    };
    let picture = Picture {
        width,
        height,
        codes,
        reading,
    };
    let totals = write_clues(picture, row_counts, row_sizes, column_counts, column_sizes);
    write_colours(picture, row_colours, column_colours);
    Ok(totals)
}
