// The pass of Description::new over a line's blocks.
ghost use Rattle.std.specs.Prelude.{◌≡◌, ◌≤◌, length, true};
ghost use Rattle.rules.specs.Block.{sizes_by, colours_by};
ghost use Rattle.rules.specs.Clue.{is_default, described};
ghost use Rattle.loops.specs.Put.{Put};

use block::Blocks;

// Whether a block equals the default, of size 0 and this colour.
fn is_default(size: u32, colour: u32, default_colour: u32) -> bool
    ensures { result ≡ is_default default_colour size colour }
{
    size == 0 && colour == default_colour
}

// The blocks that are not the default, in order: their sizes and, where they are coloured, their colours. One pass for both lists, so that each block
// is read and tested once.
pub(crate) fn retain<B: Blocks, const COLOURED: bool>(
    blocks: &B,
    default_colour: u32,
    out_sizes: &mut [u32],
    out_colours: &mut [u32],
) -> usize
    requires sizes { length (B.lent blocks.now).list ≤ length out_sizes.old }
    requires colours { COLOURED ≡ true → length (B.lent blocks.now).list ≤ length out_colours.old }
    ensures sizes { Put out_sizes.old 0 (sizes_by (described default_colour (B.lent blocks.now).list)) result out_sizes.new }
    ensures colours { COLOURED ≡ true → Put out_colours.old 0 (colours_by (described default_colour (B.lent blocks.now).list)) result out_colours.new }
{
    let mut count = 0;
    for i in 0..blocks.count() {
        let size = blocks.size(i);
        let colour = blocks.colour(i);
        if is_default(size, colour, default_colour) {
            continue;
        }
        out_sizes[count] = size;
        if COLOURED {
            out_colours[count] = colour;
        }
        count += 1;
    }
    count
}
