// Holds a line in the struct that the solver reads, and solves it: the parts of DynamicSolver::new and try_solve. The blocks can be
// coloured or binary.
#![tactic(auto)]

ghost use Rattle.std.specs.Prelude.{◌≡◌, ◌+◌, ◌≤◌, length};
ghost use Rattle.std.proofs.lemmas.List.Edits.{sets};
ghost use Rattle.solver.specs.Steps.{Cleared, Holdable, Holds, Summable, Summed, Solvable, Tried};

use block::Blocks;
use filling::{HeldLine, fill_matrix, room_of, trail_with_space, wide};

// Copies the numbers to the list, from index `at` on.
pub fn copy_at(from: &[u32], at: usize, to: &mut [u32])
    requires { at + length from.now ≤ length to.old }
    ensures { to.new ≡ sets to.old at from.now }
{
    // `copy_from_slice` would need `memmove`, which a bare device need not have (docs/DEVICE.md), and was slower here.
    for (i, &x) in from.iter().enumerate() {
        to[at + i] = x;
    }
}

// Holds the blocks beside the line's cells. After the last colour stands 0, and so does the sum of no blocks.
fn hold_blocks<B: Blocks>(length: usize, blocks: &B, line: &mut HeldLine)
    requires { Holdable length (B.lent blocks.now).list }
    ensures { Holds line.old length (B.lent blocks.now).list line.new }
{
    let count = blocks.count();
    for b in 0..count {
        line.sizes[b] = blocks.size(b);
        line.colours[b] = blocks.colour(b);
    }
    line.colours[count] = 0;
    line.sums[0] = 0;
    line.length = length;
    line.count = count;
}

// The sums for the early refusal: the least space of the first blocks, less one. False where that is more than the line.
fn calc_block_sum(line: &mut HeldLine) -> bool
    requires { Summable line.old }
    ensures { Summed line.old result line.new }
{
    let mut start = 0;
    for b in 0..line.count {
        let size = line.sizes[b];
        let end = start + wide(size);
        if line.length < end {
            return false;
        }
        start += room_of(size, trail_with_space(line, b));
        line.sums[b + 1] = (end - 1) as u32;
    }
    true
}

// Clears the memo as far as it is read.
fn clear(memo: &mut [u8], n: usize)
    requires { n ≤ length memo.old }
    ensures { Cleared memo.new n }
{
    memo[..n].fill(0);
}

// Solves the line whose cells the struct holds, with these legal blocks. What they can give each cell goes to `work`, which is all 0.
pub fn try_solve<B: Blocks>(
    length: usize,
    blocks: &B,
    line: &mut HeldLine,
    memo: &mut [u8],
    work: &mut [u32; 64],
) -> bool
    requires { Solvable length (B.lent blocks.now).list memo.old work.old }
    ensures { Tried length (B.lent blocks.now).list line.old.cells result work.new }
{
    hold_blocks(length, blocks, line);
    if !calc_block_sum(line) {
        return false;
    }
    let count = blocks.count();
    clear(memo, (count + 1) * 64);
    fill_matrix(length - 1, count, line, memo, work)
}
