// What follows the height: whitespace, the cells with whitespace anywhere, and nothing else.
ghost use Rattle.std.specs.Prelude.{◌≡◌, true, ◌≤◌, length};
ghost use Rattle.rules.specs.Pbm.{is_pixel_of, is_stray_of, code_of, pixels, begins_spaced, is_drawn_of};
ghost use Rattle.std.specs.List.{list_any};
ghost use Rattle.rules.specs.Refusal.{written};

use crate::bytes::{is_pixel, is_space, is_stray};

fn begins_spaced(text: &[u8]) -> bool
    ensures { result ≡ begins_spaced text.now }
{
    text.first().is_some_and(|&byte| is_space(byte))
}

fn any_stray(text: &[u8]) -> bool
    ensures { result ≡ list_any is_stray_of text.now }
{
    text.iter().any(|&byte| is_stray(byte))
}

// How many cells the text has. A `for`, which is faster here than `filter` and `count`.
fn count_pixels(text: &[u8]) -> usize
    ensures { result ≡ length (pixels text.now) }
{
    let mut count = 0;
    for &byte in text {
        if is_pixel(byte) {
            count += 1;
        }
    }
    count
}

// Whether the text holds so many cells, and nothing that does not belong there.
pub(crate) fn is_drawn(text: &[u8], cells: usize) -> bool
    ensures { result ≡ is_drawn_of cells text.now }
{
    begins_spaced(text) && !any_stray(text) && count_pixels(text) == cells
}

// The code of a cell. Bytes and codes are numbers of the lent lists, so no `From` can say it.
fn code_of(byte: u8) -> u32
    requires { is_pixel_of byte ≡ true }
    ensures { result ≡ code_of byte }
{
    if byte == b'0' { 1 } else { 2 }
}

// The codes of the cells.
pub(crate) fn write_pixels(text: &[u8], codes: &mut [u32])
    requires { length (pixels text.now) ≤ length codes.old }
    ensures { codes.new ≡ written (pixels text.now) codes.old }
{
    for (i, &byte) in text.iter().filter(|&&byte| is_pixel(byte)).enumerate() {
        codes[i] = code_of(byte);
    }
}
