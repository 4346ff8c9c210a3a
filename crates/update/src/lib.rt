// One line of a run: solved as the grid has it, its changes pushed, stored and reported. Width and height stay two numbers, as the words of the
// contracts take them; memo, column and answer stay three lists, which are only handed on.
#![tactic(auto)]

ghost use Rattle.std.specs.Prelude.{length};
ghost use Rattle.rules.specs.Block.{blocks, coloured};
ghost use Rattle.rules.specs.Board.{line_of};
ghost use Rattle.line.specs.Steps.{JudgedLine};
ghost use Rattle.stack.specs.Stack.{Kept};
ghost use Rattle.card.specs.Steps.{lent_card};
ghost use Rattle.update.specs.Steps.{Roomy, Triable, Attempted, Ready, Updated};

use block::multicolor::Coloured;
use card::parts::Card;
use grid::lines::{copy_column, row};
use grid::report::Report;
use grid::store::store_line;
use line::multicolor::solve_legal;
use rules::LinePosition;
use stack::Stack;

// Solves a line; where some placement agrees, the crossing lines of what changes are pushed.
fn solve_cells(
    cells: &[u32],
    clue: &Coloured,
    memo: &mut [u8],
    answer: &mut [u32],
    line: LinePosition,
    stack: &mut Stack,
) -> bool
    requires { JudgedLine cells.now (coloured clue.now.sizes.now clue.now.colours.now) memo.old answer.old × Roomy (length cells.now) line stack.old }
    ensures kept { Kept stack.old stack.new }
    ensures attempted { Attempted (blocks clue.now.sizes.now clue.now.colours.now) line cells.now stack.old result answer.new stack.new }
{
    let solved = solve_legal(cells, clue, memo, answer);
    if solved {
        stack.push_changed(cells, &answer[..], line);
    }
    solved
}

// The same of a line of the grid: a row is read where it lies, a column in a copy.
fn solve_at(
    width: usize,
    height: usize,
    grid: &[u32],
    clue: &Coloured,
    memo: &mut [u8],
    column: &mut [u32],
    answer: &mut [u32],
    line: LinePosition,
    stack: &mut Stack,
) -> bool
    requires { Triable width height line grid.now clue.now.sizes.now clue.now.colours.now memo.old column.old answer.old stack.old }
    ensures kept { Kept stack.old stack.new }
    ensures attempted { Attempted (blocks clue.now.sizes.now clue.now.colours.now) line (line_of width height grid.now line) stack.old result answer.new stack.new }
{
    match line {
        LinePosition::Row(y) => solve_cells(row(grid, width, y), clue, memo, answer, line, stack),
        LinePosition::Column(x) => {
            copy_column(grid, width, height, x, column);
            solve_cells(&column[..height], clue, memo, answer, line, stack)
        }
    }
}

// Solves a line of the grid, pushes the lines that cross its changes, stores it and reports what changed; or finds that no placement agrees.
pub fn update_line(
    width: usize,
    height: usize,
    grid: &mut [u32],
    card: Card,
    report: &mut Report,
    memo: &mut [u8],
    column: &mut [u32],
    answer: &mut [u32],
    line: LinePosition,
    stack: &mut Stack,
) -> bool
    requires { Ready width height (lent_card card) line grid.old report.old memo.old column.old answer.old stack.old }
    ensures kept { Kept stack.old stack.new }
    ensures updated { Updated width height (lent_card card.entry) line grid.old report.old stack.old result grid.new report.new stack.new }
{
    let (sizes, colours) = card.clue(line);
    if !solve_at(
        width,
        height,
        &grid[..],
        &Coloured { sizes, colours },
        memo,
        column,
        answer,
        line,
        stack,
    ) {
        return false;
    }
    store_line(width, height, line, &answer[..], grid, report);
    true
}
