// Coloured blocks: a list of sizes and a list of colours of equal length.
ghost use Rattle.rules.specs.Block.{coloured};
ghost use Rattle.description.specs.Calls.{ColouredDescription};

use crate::base::retain;
use block::Blocks;
use block::multicolor::Coloured;
use rules::Refusal;
use rules::judge::{both_room, judge_count};

// Description::new: the blocks but for those of size 0 and colour 0, in order.
pub fn description_new(
    blocks: &Coloured<'_>,
    out_sizes: &mut [u32],
    out_colours: &mut [u32],
) -> Result<usize, Refusal>
    ensures { ColouredDescription (coloured blocks.now.sizes.now blocks.now.colours.now) out_sizes.old out_colours.old result out_sizes.new out_colours.new }
{
    let paired = blocks.sizes.len() == blocks.colours.len();
    let count = blocks.count();
    let roomy = both_room(count, out_sizes.len(), out_colours.len());
    judge_count(paired, count, roomy)?;
    Ok(retain::<_, true>(blocks, 0, out_sizes, out_colours))
}
