// The rules of positions and ranges, and the cells that the leftmost packing leaves in a line.
ghost use Rattle.std.specs.Prelude.{◌≡◌, ◌-◌, ◌≤◌, length};
ghost use Rattle.rules.specs.Packing.{minimal_space};
ghost use Rattle.rules.specs.Refusal.{verdict, space_rules};
ghost use Rattle.positions.specs.Calls.{range_rules};
ghost use Rattle.positions.specs.Steps.{space_of};

use block::Blocks;
use block::base::min_space;
use rules::Refusal;
use rules::judge::judge_length;

// Rule 10, after the others: the cells that the leftmost packing leaves in the line.
fn slack<B: Blocks>(cells: usize, blocks: &B) -> Result<u64, Refusal>
    requires { length (B.lent blocks.now).list ≤ 64 }
    ensures { result ≡ space_of (verdict (space_rules cells (B.lent blocks.now))) (cells - minimal_space (B.lent blocks.now).list) }
{
    (cells as u64)
        .checked_sub(min_space(blocks))
        .ok_or(Refusal::NoSpace)
}

// Rules 1, 2, 3, 4 and 10. `roomy`: the lists to write have room.
pub(crate) fn judge_space<B: Blocks>(cells: usize, blocks: &B, roomy: bool) -> Result<u64, Refusal>
    ensures { result ≡ space_of (verdict (range_rules cells (B.lent blocks.now) roomy)) (cells - minimal_space (B.lent blocks.now).list) }
{
    judge_length(cells)?;
    blocks.judge(roomy)?;
    slack(cells, blocks)
}
