// Writes a card: its title, its sides, and the clues of its rows and columns.
ghost use Rattle.std.specs.Prelude.{◌≡◌, ◌≤◌, length, map};
ghost use Rattle.rules.specs.Card.{sum};
ghost use Rattle.scan.specs.Titles.{is_odd, title_byte};

use crate::texts::count_through;
use std::fmt::Write;
use std::{fmt, io};

// The clues of the lines of a direction: how many blocks each has, and the sizes of all, line after line.
#[derive(Clone, Copy)]
pub(crate) struct Clues<'a> {
    pub(crate) counts: &'a [u32],
    pub(crate) sizes: &'a [u32],
    ghost sized: { sum counts.now ≤ length sizes.now },
}

// What could end a title or its line for who reads the card: a control byte, a quote, # or a backslash.
fn is_odd(byte: u8) -> bool
    ensures { result ≡ is_odd byte }
{
    byte < 32 || matches!(byte, b'"' | b'#' | b'\\' | 127)
}

// A byte of a title: `_` for an odd one.
fn title_byte(byte: u8) -> u8
    ensures { result ≡ title_byte byte }
{
    if is_odd(byte) { b'_' } else { byte }
}

// Turns bytes of a name into what a title shows of them, where they lie.
fn to_title(name: &mut [u8])
    ensures { name.new ≡ map title_byte name.old }
{
    for byte in name.iter_mut() {
        *byte = title_byte(*byte);
    }
}

// What a title shows of a part of a name, in the front of the room for it.
fn title<'a>(name: &[u8], room: &'a mut [u8; 64]) -> &'a [u8]
    requires { length name.now ≤ 64 }
    ensures { result.now ≡ map title_byte name.now }
{
    let shown = &mut room[..name.len()];
    shown.copy_from_slice(name);
    to_title(shown);
    shown
}

// The title is the file's name, without folders: part after part, so that no memory is asked for.
fn write_title(rt: &impl Print, path: &[u8]) -> io::Result<()> {
    print!(rt; "title \"")?;
    for part in path[count_through(path, b'/')..].chunks(64) {
        rt.write_all(title(part, &mut [0; 64]))?;
    }
    println!(rt; "\"")
}

// Writes the clue of a line; 0 where it has no block.
fn write_clue<W: Write>(out: &mut W, sizes: &[u32]) -> fmt::Result {
    match sizes {
        [] => write!(out, "0")?,
        [first, others @ ..] => {
            write!(out, "{first}")?;
            for size in others {
                write!(out, ",{size}")?;
            }
        }
    }
    writeln!(out)
}

impl fmt::Display for Clues<'_> {
    fn fmt<W: Write>(&self, f: &mut fmt::Formatter<W>) -> fmt::Result {
        let mut rest = self.sizes;
        for &count in self.counts {
            let (sizes, after) = rest.split_at(count as usize);
            write_clue(f, sizes)?;
            rest = after;
        }
        Ok(())
    }
}

// Writes a card. The sides stay two numbers, each of which is written once.
pub(crate) fn write_card(
    rt: &impl Print,
    path: &[u8],
    width: usize,
    height: usize,
    rows: Clues<'_>,
    columns: Clues<'_>,
) -> io::Result<()> {
    write_title(rt, path)?;
    println!(rt; "width {width}\nheight {height}\n")?;
    print!(rt; "rows\n{rows}\ncolumns\n{columns}")
}
