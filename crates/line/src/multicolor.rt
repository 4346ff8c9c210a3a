// A line whose cells are colour sets. Its blocks can be coloured or binary. binary.rs has a `solve` of its own: a trait of a line's cells would ask
// for rule 5, a cell's set and a set's cell, and all three would do nothing here.
ghost use Rattle.std.specs.Prelude.{◌≡◌, ◌≤◌, length};
ghost use Rattle.std.proofs.lemmas.List.Edits.{sets};
ghost use Rattle.rules.specs.Binary.{line_answer};
ghost use Rattle.line.specs.Calls.{line_answer_number, SolvesLine};
ghost use Rattle.line.specs.Steps.{JudgedLine, Works};

use crate::LineError;
use crate::judge::judge_line;
use block::Blocks;
use filling::HeldLine;
use solver::{copy_at, try_solve};

// Solves a line that keeps the rules: for a caller who has judged it.
pub fn solve_legal<B: Blocks>(cells: &[u32], blocks: &B, memo: &mut [u8], out: &mut [u32]) -> bool
    requires { JudgedLine cells.now (B.lent blocks.now) memo.old out.old }
    ensures { Works (line_answer (B.lent blocks.now).list cells.now) out.old result out.new }
{
    let mut line = HeldLine::new();
    let mut work = [0u32; 64];
    copy_at(cells, 0, &mut line.cells);
    if !try_solve(cells.len(), blocks, &mut line, memo, &mut work) {
        return false;
    }
    copy_at(&work[..cells.len()], 0, out);
    true
}

// Solves a line: each cell of the output is the union of what the agreeing placements give it.
pub fn solve<B: Blocks>(
    cells: &[u32],
    blocks: &B,
    memo: &mut [u8],
    out: &mut [u32],
) -> Result<(), LineError>
    ensures { SolvesLine cells.now (B.lent blocks.now) memo.old out.old (line_answer_number result) memo.new out.new }
{
    judge_line(cells.len(), blocks, memo.len(), out.len())?;
    if !solve_legal(cells, blocks, memo, out) {
        return Err(LineError::Unsolvable);
    }
    Ok(())
}
