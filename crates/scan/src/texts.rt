// Reads the text of a picture, and looks for the last of a byte.
ghost use Rattle.std.specs.Prelude.{◌≡◌, ◌≢◌, ◌-◌, ◌<◌, ◌≤◌, ℕ, length, slice_index, IfOk};
ghost use Rattle.scan.specs.Counts.{IsPrefixLen};

use std::io;
use std::io::Read;

// Reads a file to its end, or until the text is full: how many bytes were read. A `while`, since nothing says before a read how much it gives, and into
// a lent text, since `read_to_end` would ask for memory.
pub(crate) fn read_text<R: Read>(input: &mut R, text: &mut [u8]) -> io::Result<usize>
    ensures { IfOk result (λ length. IsPrefixLen length text.new) }
{
    let mut length = 0;
    while length < text.len() {
        match input.read(&mut text[length..])? {
            0 => break,
            count => length += count,
        }
    }
    Ok(length)
}

// How many bytes a text has up to the last that is this one; 0 where none is.
pub(crate) fn count_through(text: &[u8], byte: u8) -> usize
    ensures prefix { IsPrefixLen result text.now }
    ensures last { 0 < result → slice_index text.now (result - 1) ≡ byte }
    ensures after { (k : ℕ) → result ≤ k → k < length text.now → slice_index text.now k ≢ byte }
{
    text.iter()
        .rposition(|&held| held == byte)
        .map_or(0, |place| place + 1)
}
