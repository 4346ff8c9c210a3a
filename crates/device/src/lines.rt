// One line solved. The answer is document 01's number.
ghost use Rattle.rules.specs.Block.{coloured};
ghost use Rattle.line.specs.Calls.{SolvesLine, SolvesBinaryLine};

use block::multicolor::Coloured;
use line::{answer_number, binary, multicolor};

pub fn sp_solve_line(
    cells: &[u32],
    sizes: &[u32],
    colours: &[u32],
    memo: &mut [u8],
    out: &mut [u32],
) -> u32
    ensures { SolvesLine cells.now (coloured sizes.now colours.now) memo.old out.old result memo.new out.new }
{
    answer_number(multicolor::solve(cells, &Coloured { sizes, colours }, memo, out))
}

pub fn sp_solve_binary_line(cells: &[u32], sizes: &[u32], memo: &mut [u8], out: &mut [u32]) -> u32
    ensures { SolvesBinaryLine cells.now sizes.now memo.old out.old result memo.new out.new }
{
    answer_number(binary::solve(cells, sizes, memo, out))
}
