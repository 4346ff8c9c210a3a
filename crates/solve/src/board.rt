// A board, one line of text a row, and its cells as words: that of a colour, `.` for blank, and `?` where several colours are left.
ghost use Rattle.std.specs.Prelude.{◌≡◌};
ghost use Rattle.solve.specs.Shown.{set_shown, is_open, open_in, shown};

use line::binary::set_of;
use non::card::Card;
use non::palette::Palette;
use std::fmt;
use std::fmt::Write;

// The word of an open cell, `?`.
const OPEN: u64 = 63;

// The cells of a card, row after row, which are sets of colours where it is coloured: a flag, since `set_shown` is over one.
#[derive(Clone, Copy)]
pub(crate) struct Board<'a> {
    pub(crate) card: &'a Card,
    pub(crate) coloured: bool,
    pub(crate) cells: &'a [u32],
}

// A cell as a set of colours.
fn set_shown(coloured: bool, cell: u32) -> u32
    ensures { result ≡ set_shown coloured cell }
{
    if coloured { cell } else { set_of(cell) }
}

// Whether a set has several colours, or none.
fn is_open(set: u32) -> bool
    ensures { result ≡ is_open set }
{
    set.count_ones() != 1
}

// The word that a set is shown by.
fn word_shown(palette: &Palette, set: u32) -> u64
    ensures { result ≡ shown palette.now.words.items set }
{
    if is_open(set) {
        return OPEN;
    }
    palette.word_at(set.trailing_zeros() as usize)
}

// The largest word of a board as a number, which is the longest or as long.
fn largest_word(palette: &Palette) -> u64 {
    palette
        .words
        .as_slice()
        .iter()
        .copied()
        .max()
        .unwrap_or(OPEN)
        .max(OPEN)
}

// Writes a word with blanks before it, so that it is as wide as the largest.
fn write_word<W: Write>(out: &mut W, word: u64, largest: u64) -> fmt::Result {
    let unused = (largest.leading_zeros() / 8) as usize;
    for &byte in word.to_be_bytes().iter().skip(unused) {
        out.write_char(if byte == 0 { ' ' } else { char::from(byte) })?;
    }
    Ok(())
}

impl Board<'_> {
    // How many cells are open.
    pub(crate) fn count_open(&self) -> usize
        ensures { result ≡ open_in self.now.coloured self.now.cells.now }
    {
        self.cells
            .iter()
            .filter(|&&cell| is_open(set_shown(self.coloured, cell)))
            .count()
    }

    // Writes a row, with a blank between two cells.
    fn write_row<W: Write>(&self, out: &mut W, row: &[u32], largest: u64) -> fmt::Result {
        for (x, &cell) in row.iter().enumerate() {
            if x > 0 {
                out.write_char(' ')?;
            }
            let set = set_shown(self.coloured, cell);
            write_word(out, word_shown(&self.card.palette, set), largest)?;
        }
        out.write_char('\n')
    }
}

impl fmt::Display for Board<'_> {
    fn fmt<W: Write>(&self, f: &mut fmt::Formatter<W>) -> fmt::Result {
        let largest = largest_word(&self.card.palette);
        let width = self.card.columns.side();
        if width > 0 {
            for row in self.cells.chunks(width) {
                self.write_row(f, row, largest)?;
            }
        }
        Ok(())
    }
}
