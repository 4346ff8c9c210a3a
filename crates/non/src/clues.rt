// One line of the rows or the columns: its blocks are added to the card, with their colours.
use crate::blocks::{end_block, read_block};
use crate::card::{Card, Way};
use crate::faults::Fault;
use crate::line::Line;

// The most blocks of a line.
const MOST_BLOCKS: u32 = 64;

// Adds the block that is the whole of a text.
fn take_block(text: &[u8], card: &mut Card, way: Way) -> Result<(), Fault> {
    let (block, rest) = read_block(text)?;
    let colour = card
        .palette
        .know_word(block.word)
        .ok_or(Fault::ManyColours)?;
    card.lines_mut(way).push_block(block.size, colour);
    end_block(rest)
}

// Adds the blocks of a line, and counts them.
fn take_blocks(text: &[u8], card: &mut Card, way: Way) -> Result<u32, Fault> {
    let mut count = 0;
    for part in text.split(|&byte| byte == b',') {
        if count >= MOST_BLOCKS {
            return Err(Fault::ManyBlocks);
        }
        take_block(part, card, way)?;
        count += 1;
    }
    Ok(count)
}

// Takes the next line of a list, of which nothing may be cut. It has no blocks where it is empty, or 0 alone.
pub(crate) fn take_clue(line: Line<'_>, card: &mut Card, way: Way) -> Result<(), Fault> {
    if line.cut {
        return Err(Fault::LongLine);
    }
    let count = match line.text {
        b"" => {
            card.lines_mut(way).count_empty();
            0
        }
        b"0" => 0,
        text => take_blocks(text, card, way)?,
    };
    card.lines_mut(way).push_line(count, line.number);
    Ok(())
}
