// The clues of a grid, one list after the other. A row is a part of the lent grid; a column is copied.
ghost use Rattle.std.specs.Prelude.{◌*◌, ◌≤◌, length};
ghost use Rattle.rules.specs.Card.{gathered};
ghost use Rattle.loops.specs.Put.{Put};
ghost use Rattle.clue.specs.Steps.{per, entries};
ghost use Rattle.picture.specs.Steps.{row_clues, column_clues, GridRoom, CluesPut};

use crate::Totals;
use crate::view::Picture;
use clue::line::write_clue;
use clue::{Field, Part};
use grid::lines::{copy_column, row};
use rules::{ColumnIndex, RowIndex};

// One list of the rows' clues.
pub(crate) fn write_rows(picture: Picture, part: Part, out: &mut [u32]) -> usize
    requires { picture.height * per part picture.width ≤ length out.old }
    ensures { Put out.old 0 (gathered (entries part) (row_clues picture.entry)) result out.new }
{
    let mut at = 0;
    for y in 0..picture.height {
        let line = row(picture.codes, picture.width, RowIndex(y));
        at = write_clue(line, picture.reading, part, out, at);
    }
    at
}

// One list of the columns' clues.
pub(crate) fn write_columns(picture: Picture, part: Part, out: &mut [u32]) -> usize
    requires { picture.width * per part picture.height ≤ length out.old }
    ensures { Put out.old 0 (gathered (entries part) (column_clues picture.entry)) result out.new }
{
    let mut line = [0u32; 64];
    let mut at = 0;
    for x in 0..picture.width {
        copy_column(
            picture.codes,
            picture.width,
            picture.height,
            ColumnIndex(x),
            &mut line,
        );
        at = write_clue(&line[..picture.height], picture.reading, part, out, at);
    }
    at
}

// Counts and sizes of both directions. The lists come one by one, as the public calls are lent them: nothing else takes them together.
pub(crate) fn write_clues(
    picture: Picture,
    row_counts: &mut [u32],
    row_sizes: &mut [u32],
    column_counts: &mut [u32],
    column_sizes: &mut [u32],
) -> Totals
    requires { GridRoom picture.width picture.height row_counts.old row_sizes.old column_counts.old column_sizes.old }
    ensures { CluesPut (row_clues picture.entry) (column_clues picture.entry) row_counts.old row_sizes.old column_counts.old column_sizes.old result.rows result.columns row_counts.new row_sizes.new column_counts.new column_sizes.new }
{
    write_rows(picture, Part::Count, row_counts);
    let rows = write_rows(picture, Part::Each(Field::Size), row_sizes);
    write_columns(picture, Part::Count, column_counts);
    let columns = write_columns(picture, Part::Each(Field::Size), column_sizes);
    Totals { rows, columns }
}
