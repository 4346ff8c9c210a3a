// Stores a line's answer in the grid, and reports what changed. Width and height stay two numbers, as the words of the contracts take them.
ghost use Rattle.std.specs.Prelude.{◌≡◌, ◌≤◌, ◌<◌};
ghost use Rattle.rules.specs.Board.{On, place};
ghost use Rattle.grid.specs.Grid.{Storable, Stored};

use crate::report::Report;
use rules::LinePosition;

// The number of the cell at index j of a line.
fn cell_of(width: usize, line: LinePosition, j: usize) -> usize
    requires { (width ≤ 64) × On width 64 line × (j < 64) }
    ensures { result ≡ place width line j }
{
    match line {
        LinePosition::Row(y) => y.0 * width + j,
        LinePosition::Column(x) => j * width + x.0,
    }
}

// Stores the answer; the changed cells' numbers go to the report.
pub fn store_line(
    width: usize,
    height: usize,
    line: LinePosition,
    answer: &[u32],
    grid: &mut [u32],
    report: &mut Report,
)
    requires { Storable width height line answer.now grid.old report.old }
    ensures { Stored width height line answer.now grid.old report.old grid.new report.new }
{
    for (j, &colours) in answer.iter().enumerate() {
        let cell = cell_of(width, line, j);
        if grid[cell] != colours {
            grid[cell] = colours;
            report.push(cell as u32);
        }
    }
}
