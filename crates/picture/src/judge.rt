// The rules on the lists of a grid.
ghost use Rattle.std.specs.Prelude.{◌≡◌, ◌++◌, ◌≤◌};
ghost use Rattle.rules.specs.Refusal.{verdict, side_rules};
ghost use Rattle.clue.specs.Calls.{room_rules};
ghost use Rattle.picture.specs.Calls.{grid_fits};

use clue::judge::judge_room;
use rules::Refusal;
use rules::judge::judge_sides;

// Rule 2 for a grid: whether the picture and the lists have the lengths that the sides ask. These stay apart, as the definition has them: no
// other function takes them together.
fn grid_fits(
    width: usize,
    height: usize,
    codes: usize,
    row_counts: usize,
    row_sizes: usize,
    column_counts: usize,
    column_sizes: usize,
) -> bool
    requires { (width ≤ 64) × (height ≤ 64) }
    ensures { result ≡ grid_fits width height codes row_counts row_sizes column_counts column_sizes }
{
    let cells = width * height;
    codes == cells
        && height <= row_counts
        && cells <= row_sizes
        && width <= column_counts
        && cells <= column_sizes
}

// Rules 1 and 2 for a grid, by the lists' lengths: what coloured and binary clues ask alike.
pub(crate) fn judge_grid(
    width: usize,
    height: usize,
    codes: usize,
    row_counts: usize,
    row_sizes: usize,
    column_counts: usize,
    column_sizes: usize,
) -> Result<(), Refusal>
    ensures { result ≡ verdict (side_rules width height ++ room_rules (grid_fits width height codes row_counts row_sizes column_counts column_sizes)) }
{
    judge_sides(width, height)?;
    judge_room(grid_fits(
        width,
        height,
        codes,
        row_counts,
        row_sizes,
        column_counts,
        column_sizes,
    ))
}
