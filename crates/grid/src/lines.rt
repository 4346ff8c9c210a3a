// Reads a line of the grid: a row where it lies, a column in a copy.
ghost use Rattle.std.specs.Prelude.{◌≡◌, ◌+◌, ◌*◌, ◌≤◌, ◌<◌, length, take, drop};
ghost use Rattle.rules.specs.Board.{column, line_of};
ghost use Rattle.loops.specs.Put.{Put};
ghost use Rattle.grid.specs.Grid.{Grid};

use rules::{ColumnIndex, RowIndex};

// A row is handed out as a part of the grid.
pub fn row(grid: &[u32], width: usize, y: RowIndex) -> &[u32]
    requires { y.0 * width + width ≤ length grid.now }
    ensures { result.now ≡ take width (drop (y.0 * width) grid.now) }
{
    let from = y.0 * width;
    &grid[from..from + width]
}

// A column is copied to the front of a list.
pub fn copy_column(grid: &[u32], width: usize, height: usize, x: ColumnIndex, line: &mut [u32])
    requires { Grid width height grid.now × (x.0 < width) × (height ≤ length line.old) }
    ensures { Put line.old 0 (line_of width height grid.now (column x.0)) height line.new }
{
    for (y, cell) in line[..height].iter_mut().enumerate() {
        *cell = grid[y * width + x.0];
    }
}
