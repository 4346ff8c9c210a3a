// Binary blocks: a list of sizes. Their colours are not told: `sp_binary_description` lends one list where `sp_description` lends two.
ghost use Rattle.rules.specs.Block.{binary};
ghost use Rattle.description.specs.Calls.{BinaryDescription};

use crate::base::retain;
use block::Blocks;
use block::binary::{BLACK, Binary};
use rules::Refusal;
use rules::judge::judge_count;

// Description::new: the blocks but for those of size 0, in order.
pub fn description_new(blocks: &Binary<'_>, out_sizes: &mut [u32]) -> Result<usize, Refusal>
    ensures { BinaryDescription (binary blocks.now.sizes.now) out_sizes.old result out_sizes.new }
{
    let count = blocks.count();
    judge_count(true, count, count <= out_sizes.len())?;
    Ok(retain::<_, false>(blocks, BLACK, out_sizes, &mut []))
}
