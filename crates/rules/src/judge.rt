// The rules on lengths and blocks that several layers share. Each is found before anything is written.
ghost use Rattle.std.specs.Prelude.{◌≡◌, ◌&&◌, map, ltb, leb, length};
ghost use Rattle.rules.specs.Block.{black, blocks, coloured, binary, illegal_colour_of, illegal_block, illegal};
ghost use Rattle.std.specs.List.{list_any};
ghost use Rattle.rules.specs.Refusal.{verdict, length_rules, side_rules, count_rules, block_rules};

use crate::Refusal;

// A colour that is blank, or has not exactly one bit.
pub fn illegal_colour(colour: u32) -> bool
    ensures { result ≡ illegal_colour_of colour }
{
    colour == 1 || colour.count_ones() != 1
}

fn illegal_block(size: u32, colour: u32) -> bool
    ensures { result ≡ illegal_block size colour }
{
    size == 0 || illegal_colour(colour)
}

// Some block of a list is not legal.
pub fn any_illegal(sizes: &[u32], colours: &[u32]) -> bool
    requires { length sizes.now ≡ length colours.now }
    ensures { result ≡ illegal (blocks sizes.now colours.now) }
{
    sizes
        .iter()
        .zip(colours)
        .any(|(size, colour)| illegal_block(*size, *colour))
}

// Some number of a list is above `most`.
pub fn any_above(list: &[u32], most: u32) -> bool
    ensures { result ≡ list_any (λ n. ltb most n) list.now }
{
    list.iter().any(|&n| most < n)
}

// Rule 1.
pub fn judge_length(line_length: usize) -> Result<(), Refusal>
    ensures { result ≡ verdict (length_rules line_length) }
{
    if line_length == 0 || 64 < line_length {
        return Err(Refusal::BadLength);
    }
    Ok(())
}

// Rule 1 for both sides.
pub fn judge_sides(width: usize, height: usize) -> Result<(), Refusal>
    ensures { result ≡ verdict (side_rules width height) }
{
    judge_length(width)?;
    judge_length(height)
}

// Rules 2 and 3, by what was found of the lists: `paired`, that those of the blocks have one length; `roomy`, that those to write have room.
pub fn judge_count(paired: bool, count: usize, roomy: bool) -> Result<(), Refusal>
    ensures { result ≡ verdict (count_rules paired count roomy) }
{
    if !paired || !roomy {
        return Err(Refusal::BadRoom);
    }
    if 64 < count {
        return Err(Refusal::TooManyBlocks);
    }
    Ok(())
}

// Rules 2, 3 and 4.
pub fn judge_blocks(sizes: &[u32], colours: &[u32], roomy: bool) -> Result<(), Refusal>
    ensures { result ≡ verdict (block_rules (coloured sizes.now colours.now) roomy) }
{
    judge_count(sizes.len() == colours.len(), sizes.len(), roomy)?;
    if any_illegal(sizes, colours) {
        return Err(Refusal::BadBlock);
    }
    Ok(())
}

// Some black block of a list is not legal: a size is 0. It is not `any_illegal`, since no colours are lent.
pub fn any_empty(sizes: &[u32]) -> bool
    ensures { result ≡ illegal (map black sizes.now) }
{
    sizes.contains(&0)
}

// Rules 2, 3 and 4 of black blocks, of which no colours are lent.
pub fn judge_black(sizes: &[u32], roomy: bool) -> Result<(), Refusal>
    ensures { result ≡ verdict (block_rules (binary sizes.now) roomy) }
{
    judge_count(true, sizes.len(), roomy)?;
    if any_empty(sizes) {
        return Err(Refusal::BadBlock);
    }
    Ok(())
}

// Whether two lists have room for `count` entries.
pub fn both_room(count: usize, a: usize, b: usize) -> bool
    ensures { result ≡ (leb count a && leb count b) }
{
    count <= a && count <= b
}
