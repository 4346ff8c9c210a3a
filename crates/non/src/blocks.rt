// One block in a line of a card.
use crate::faults::Fault;
use crate::palette::BLACK;
use crate::words::{Class, NoValue};

// A block with its colour's word.
#[derive(Clone, Copy)]
pub(crate) struct Block {
    pub(crate) size: u32,
    pub(crate) word: u64,
}

// What is wrong where a size should begin.
fn lack_of_size(text: &[u8]) -> Fault {
    match text.first() {
        None | Some(b':') => Fault::MissingSize,
        Some(byte) if byte.is_ascii_alphabetic() => Fault::MissingLine,
        Some(_) => Fault::UnknownText,
    }
}

// Reads the colour of a block, if one is written after its size, and hands out what stands after it.
fn read_colour(text: &[u8]) -> Result<(u64, &[u8]), Fault> {
    let Some(name) = text.strip_prefix(b":") else {
        return Ok((BLACK, text));
    };
    let (word, rest) = Class::Name.split(name);
    match Class::Name.value(word) {
        Ok(value) => Ok((value, rest)),
        Err(NoValue::Long) => Err(Fault::LongColour),
        Err(NoValue::Missing) => Err(Fault::MissingColour),
    }
}

// Reads the block that a text begins with, and hands out what stands after it.
pub(crate) fn read_block(text: &[u8]) -> Result<(Block, &[u8]), Fault> {
    let (word, rest) = Class::Number.split(text);
    match Class::Number.value(word) {
        Ok(0) => Err(Fault::EmptyBlock),
        Ok(value) => {
            let (word, rest) = read_colour(rest)?;
            let size = value as u32;
            Ok((Block { size, word }, rest))
        }
        Err(NoValue::Long) => Err(Fault::LargeNumber),
        Err(NoValue::Missing) => Err(lack_of_size(text)),
    }
}

// Judges what stands between a block and the next comma or the line's end.
pub(crate) fn end_block(text: &[u8]) -> Result<(), Fault> {
    match text.first() {
        None => Ok(()),
        Some(b' ') => Err(Fault::MissingComma),
        Some(_) => Err(Fault::UnknownText),
    }
}
