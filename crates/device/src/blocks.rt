// A line's blocks, coloured and binary: sums, starts, positions, ranges, `Description::new`.
ghost use Rattle.rules.specs.Block.{coloured, binary};
ghost use Rattle.block.specs.Calls.{PartialSums, BlockStarts};
ghost use Rattle.positions.specs.Calls.{PositionsNumber, ColorRanges};
ghost use Rattle.description.specs.Calls.{ColouredDescription, BinaryDescription};
ghost use Rattle.replies.specs.Replies.{Told, tell_count_of, tell_positions_of};

use block::binary::Binary;
use block::multicolor::Coloured;
use replies::count::CountReply;
use replies::number::PositionsReply;

// The ends of the blocks in the leftmost packing.
pub fn sp_partial_sums(sizes: &[u32], colours: &[u32], sums: &mut [u64]) -> CountReply
    ensures { Told tell_count_of (λ a. PartialSums (coloured sizes.now colours.now) sums.old a sums.new) result }
{
    CountReply::from(block::partial_sums(&Coloured { sizes, colours }, sums))
}

// Their first cells in it.
pub fn sp_block_starts(sizes: &[u32], colours: &[u32], starts: &mut [u64]) -> CountReply
    ensures { Told tell_count_of (λ a. BlockStarts (coloured sizes.now colours.now) starts.old a starts.new) result }
{
    CountReply::from(block::block_starts(&Coloured { sizes, colours }, starts))
}

// In how many places the leftmost packing, moved as a whole, lies in the line.
pub fn sp_positions_number(length: usize, sizes: &[u32], colours: &[u32]) -> PositionsReply
    ensures { Told tell_positions_of (PositionsNumber length (coloured sizes.now colours.now)) result }
{
    PositionsReply::from(positions::positions_number(length, &Coloured { sizes, colours }))
}

// Where the cells of each colour can lie: the colour, the first cell, and the cell after the last.
pub fn sp_color_ranges(
    length: usize,
    sizes: &[u32],
    colours: &[u32],
    out_colours: &mut [u32],
    out_from: &mut [u64],
    out_to: &mut [u64],
) -> CountReply
    ensures { Told tell_count_of (λ a. ColorRanges length (coloured sizes.now colours.now) out_colours.old out_from.old out_to.old a out_colours.new out_from.new out_to.new) result }
{
    CountReply::from(positions::color_ranges(
        length,
        &Coloured { sizes, colours },
        out_colours,
        out_from,
        out_to,
    ))
}

// `Description::new`: the blocks but for those of size 0 and colour 0, in order.
pub fn sp_description(
    sizes: &[u32],
    colours: &[u32],
    out_sizes: &mut [u32],
    out_colours: &mut [u32],
) -> CountReply
    ensures { Told tell_count_of (λ a. ColouredDescription (coloured sizes.now colours.now) out_sizes.old out_colours.old a out_sizes.new out_colours.new) result }
{
    CountReply::from(description::multicolor::description_new(
        &Coloured { sizes, colours },
        out_sizes,
        out_colours,
    ))
}

// The ends of binary blocks in the leftmost packing.
pub fn sp_binary_partial_sums(sizes: &[u32], sums: &mut [u64]) -> CountReply
    ensures { Told tell_count_of (λ a. PartialSums (binary sizes.now) sums.old a sums.new) result }
{
    CountReply::from(block::partial_sums(&Binary { sizes }, sums))
}

// Their first cells in it.
pub fn sp_binary_block_starts(sizes: &[u32], starts: &mut [u64]) -> CountReply
    ensures { Told tell_count_of (λ a. BlockStarts (binary sizes.now) starts.old a starts.new) result }
{
    CountReply::from(block::block_starts(&Binary { sizes }, starts))
}

// In how many places it lies in the line.
pub fn sp_binary_positions_number(length: usize, sizes: &[u32]) -> PositionsReply
    ensures { Told tell_positions_of (PositionsNumber length (binary sizes.now)) result }
{
    PositionsReply::from(positions::positions_number(length, &Binary { sizes }))
}

// `Description::new`: the blocks but for those of size 0, in order.
pub fn sp_binary_description(sizes: &[u32], out_sizes: &mut [u32]) -> CountReply
    ensures { Told tell_count_of (λ a. BinaryDescription (binary sizes.now) out_sizes.old a out_sizes.new) result }
{
    CountReply::from(description::binary::description_new(&Binary { sizes }, out_sizes))
}
