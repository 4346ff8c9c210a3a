// The ranges of colours, by way of the packed starts and ends of all blocks.
ghost use Rattle.std.specs.Prelude.{◌≡◌};
ghost use Rattle.rules.specs.Block.{blocks as blocks_of};
ghost use Rattle.rules.specs.Ranges.{last_of};
ghost use Rattle.positions.specs.Steps.{Rangeable, Ranged, RangesFit, RangesOf};

use block::base::pack;
use block::multicolor::Coloured;

// The last block with a colour; 0 where there is none.
fn last_index(colours: &[u32], colour: u32) -> usize
    ensures { result ≡ last_of colour 0 0 colours.now }
{
    colours
        .iter()
        .rposition(|&other| other == colour)
        .unwrap_or(0)
}

// Each colour once, with the start of its first block, and the end of its last and the slack.
fn write_ranges(
    colours: &[u32],
    starts: &[u64],
    sums: &[u64],
    slack: u64,
    out_colours: &mut [u32],
    out_from: &mut [u64],
    out_to: &mut [u64],
) -> usize
    requires { Rangeable colours.now starts.now sums.now slack out_colours.old out_from.old out_to.old }
    ensures { Ranged colours.now starts.now sums.now slack out_colours.old out_from.old out_to.old result out_colours.new out_from.new out_to.new }
{
    let mut count = 0;
    for (at, colour) in colours.iter().enumerate() {
        if colours[..at].contains(colour) {
            continue;
        }
        out_colours[count] = *colour;
        out_from[count] = starts[at];
        out_to[count] = sums[last_index(colours, *colour)] + slack;
        count += 1;
    }
    count
}

// The ranges, by way of the starts and the partial sums of all blocks.
pub(crate) fn write_all(
    blocks: &Coloured<'_>,
    slack: u64,
    out_colours: &mut [u32],
    out_from: &mut [u64],
    out_to: &mut [u64],
) -> usize
    requires { RangesFit blocks.now.sizes.now blocks.now.colours.now slack out_colours.old out_from.old out_to.old }
    ensures { RangesOf (blocks_of blocks.now.sizes.now blocks.now.colours.now) slack out_colours.old out_from.old out_to.old result out_colours.new out_from.new out_to.new }
{
    // A line has at most 64 blocks, and there is no heap.
    let mut starts = [0; 64];
    let mut sums = [0; 64];
    pack(blocks, |start, _| start, &mut starts);
    pack(blocks, |_, end| end, &mut sums);
    write_ranges(
        blocks.colours,
        &starts,
        &sums,
        slack,
        out_colours,
        out_from,
        out_to,
    )
}
