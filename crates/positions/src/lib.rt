// How many positions a line's blocks have, and the ranges of their colours: `positions_number` and `color_ranges` of base.rs.
// Each public call judges its input first, and a refusal changes nothing.
#![tactic(auto)]

ghost use Rattle.std.specs.Prelude.{◌≡◌, ◌&&◌, leb};
ghost use Rattle.rules.specs.Block.{coloured};
ghost use Rattle.positions.specs.Calls.{PositionsNumber, ColorRanges};

mod judge;
mod ranges;

use block::Blocks;
use block::multicolor::Coloured;
use judge::judge_space;
use ranges::write_all;
use rules::Refusal;
use rules::judge::both_room;

// In how many places the leftmost packing, moved as a whole, lies in the line.
pub fn positions_number<B: Blocks>(length: usize, blocks: &B) -> Result<u64, Refusal>
    ensures { PositionsNumber length (B.lent blocks.now) result }
{
    Ok(judge_space(length, blocks, true)? + 1)
}

// Whether three lists have room for `count` entries.
fn three_room(count: usize, a: usize, b: usize, c: usize) -> bool
    ensures { result ≡ (leb count a && (leb count b && leb count c)) }
{
    count <= a && both_room(count, b, c)
}

// Where the cells of each colour can lie: the colour, the first cell, and the cell after the last.
// These are three lists, as `sp_color_ranges` lends them, and of coloured blocks alone: C asks for no ranges of binary ones.
pub fn color_ranges(
    length: usize,
    blocks: &Coloured<'_>,
    out_colours: &mut [u32],
    out_from: &mut [u64],
    out_to: &mut [u64],
) -> Result<usize, Refusal>
    ensures { ColorRanges length (coloured blocks.now.sizes.now blocks.now.colours.now) out_colours.old out_from.old out_to.old result out_colours.new out_from.new out_to.new }
{
    let count = blocks.count();
    let roomy = three_room(count, out_colours.len(), out_from.len(), out_to.len());
    let slack = judge_space(length, blocks, roomy)?;
    Ok(write_all(blocks, slack, out_colours, out_from, out_to))
}
