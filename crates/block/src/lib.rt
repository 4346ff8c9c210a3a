// The partial sums of a line's blocks and their first cells: what multicolor.rs, binary.rs and base.rs say of the leftmost packing.
// Each public call takes coloured and binary blocks alike. It judges its input first, and a refusal changes nothing.
#![tactic(auto)]

ghost use Rattle.std.specs.Prelude.{◌≡◌, ◌<◌, length, get_or};
ghost use Rattle.rules.specs.Block.{Lent, ◌of◌};
ghost use Rattle.rules.specs.Refusal.{verdict, block_rules};
ghost use Rattle.block.specs.Calls.{PartialSums, BlockStarts};

pub mod base;
pub mod binary;
pub mod multicolor;

use base::pack;
use rules::Refusal;

// A line's blocks, as lists lend them.
pub trait Blocks {
    ghost lent: { Self → Lent };

    // How many blocks there are.
    fn count(&self) -> usize
        ensures { result ≡ length (lent self.now).list };

    // The size of block i.
    fn size(&self, i: usize) -> u32
        requires { i < length (lent self.now).list }
        ensures { result ≡ (get_or (lent self.now).list i (0 of 0)).size };

    // Its colour.
    fn colour(&self, i: usize) -> u32
        requires { i < length (lent self.now).list }
        ensures { result ≡ (get_or (lent self.now).list i (0 of 0)).colour };

    // Rules 2, 3 and 4. `roomy`: the lists to write have room.
    fn judge(&self, roomy: bool) -> Result<(), Refusal>
        ensures { result ≡ verdict (block_rules (lent self.now) roomy) };
}

// The partial sums: the ends of the blocks in the leftmost packing.
pub fn partial_sums<B: Blocks>(blocks: &B, sums: &mut [u64]) -> Result<usize, Refusal>
    ensures { PartialSums (B.lent blocks.now) sums.old result sums.new }
{
    let count = blocks.count();
    blocks.judge(count <= sums.len())?;
    pack(blocks, |_, end| end, sums);
    Ok(count)
}

// The blocks' first cells in the leftmost packing.
pub fn block_starts<B: Blocks>(blocks: &B, starts: &mut [u64]) -> Result<usize, Refusal>
    ensures { BlockStarts (B.lent blocks.now) starts.old result starts.new }
{
    let count = blocks.count();
    blocks.judge(count <= starts.len())?;
    pack(blocks, |start, _| start, starts);
    Ok(count)
}
