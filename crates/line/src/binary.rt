// A binary line: its cells are 0, 1 or 2, its blocks a list of sizes. Its `solve` is not that of multicolor.rs: the cells are judged by rule 5,
// solved as their sets, and read back.
ghost use Rattle.std.specs.Prelude.{◌≡◌, map};
ghost use Rattle.rules.specs.Block.{binary};
ghost use Rattle.rules.specs.Binary.{set_by, cell_of, binary_answer};
ghost use Rattle.rules.specs.Refusal.{verdict, cell_rules};
ghost use Rattle.line.specs.Calls.{line_answer_number, SolvesBinaryLine};
ghost use Rattle.line.specs.Steps.{JudgedLine, Works};

use crate::judge::judge_binary_line;
use crate::{LineError, multicolor};
use block::binary::Binary;
use rules::Refusal;
use rules::judge::any_above;
use solver::copy_at;

// Rule 5: no cell is above 2.
pub fn judge_cells(cells: &[u32]) -> Result<(), Refusal>
    ensures { result ≡ verdict (cell_rules cells.now) }
{
    if any_above(cells, 2) {
        return Err(Refusal::BadCell);
    }
    Ok(())
}

// The set of a binary cell: undefined can be blank or black. Both are `u32`, as C has them, so no `From` can say it.
pub fn set_of(cell: u32) -> u32
    ensures { result ≡ set_by cell }
{
    if cell == 0 { 3 } else { cell }
}

// The binary cell of a set.
pub fn cell_of(set: u32) -> u32
    ensures { result ≡ cell_of set }
{
    if 2 < set { 0 } else { set }
}

// Turns cells into their sets, where they lie.
pub fn to_sets(cells: &mut [u32])
    ensures { cells.new ≡ map set_by cells.old }
{
    for cell in cells.iter_mut() {
        *cell = set_of(*cell);
    }
}

// Turns sets into their cells, where they lie.
pub fn to_cells(sets: &mut [u32])
    ensures { sets.new ≡ map cell_of sets.old }
{
    for set in sets.iter_mut() {
        *set = cell_of(*set);
    }
}

// Solves a line that keeps the rules: for a caller who has judged it.
pub fn solve_legal(cells: &[u32], sizes: &[u32], memo: &mut [u8], out: &mut [u32]) -> bool
    requires { JudgedLine cells.now (binary sizes.now) memo.old out.old }
    ensures { Works (binary_answer sizes.now cells.now) out.old result out.new }
{
    let mut line = [0u32; 64];
    let sets = &mut line[..cells.len()];
    copy_at(cells, 0, sets);
    to_sets(sets);
    if !multicolor::solve_legal(sets, &Binary { sizes }, memo, out) {
        return false;
    }
    to_cells(out);
    true
}

// Solves a line: a cell of the output is 1 or 2 where all agreeing placements say so, else 0.
pub fn solve(
    cells: &[u32],
    sizes: &[u32],
    memo: &mut [u8],
    out: &mut [u32],
) -> Result<(), LineError>
    ensures { SolvesBinaryLine cells.now sizes.now memo.old out.old (line_answer_number result) memo.new out.new }
{
    judge_binary_line(cells, sizes, memo.len(), out.len())?;
    if !solve_legal(cells, sizes, memo, out) {
        return Err(LineError::Unsolvable);
    }
    Ok(())
}
