// The cards of runs: two sides, a point, the report's room, a grid, and the clues of rows and columns.
ghost use Rattle.std.specs.Prelude.{◌≡◌, length, IfOk, OnErr};
ghost use Rattle.vectors.specs.Counts.{IsPrefixLen};

use std::io;
use std::io::Read;
use vectors::reader::Reader;

// Room for the six lists of clues of the largest grid, and 128 to spare: they stand one after the other.
pub type Room = [u32; 16640];

// The numbers that a card begins with.
#[derive(Clone, Copy)]
pub struct Head {
    pub width: usize,
    pub height: usize,
    pub x: usize,
    pub y: usize,
    pub room: usize,
}

// Those, and how many cells the grid has.
#[derive(Clone, Copy)]
pub struct Board {
    pub head: Head,
    pub cells: usize,
}

// The clues of a direction. Binary blocks have no colours.
#[derive(Clone, Copy)]
pub struct Clues<'a> {
    pub counts: &'a [u32],
    pub sizes: &'a [u32],
    pub colours: &'a [u32],
}

// A card without its grid.
#[derive(Clone, Copy)]
pub struct Card<'a> {
    pub head: Head,
    pub rows: Clues<'a>,
    pub columns: Clues<'a>,
}

// Reads a list into the front of the room, and hands out the room that is left.
fn read_front<'a, R: Read>(
    reader: &mut Reader<R>,
    room: &'a mut [u32],
) -> io::Result<(&'a [u32], &'a mut [u32])> {
    let count = reader.read_list(room)?;
    let (front, rest) = room.split_at_mut(count);
    Ok((front, rest))
}

// Reads the three lists of a direction.
fn read_direction<'a, R: Read>(
    reader: &mut Reader<R>,
    room: &'a mut [u32],
) -> io::Result<(Clues<'a>, &'a mut [u32])> {
    let (counts, room) = read_front(reader, room)?;
    let (sizes, room) = read_front(reader, room)?;
    let (colours, room) = read_front(reader, room)?;
    Ok((
        Clues {
            counts,
            sizes,
            colours,
        },
        room,
    ))
}

impl Head {
    fn read<R: Read>(reader: &mut Reader<R>) -> io::Result<Head> {
        Ok(Head {
            width: reader.demand_size()?,
            height: reader.demand_size()?,
            x: reader.demand_size()?,
            y: reader.demand_size()?,
            room: reader.demand_size()?,
        })
    }
}

impl Board {
    // Reads a card's numbers and its grid. The clues come next.
    pub fn read<R: Read>(reader: &mut Reader<R>, grid: &mut [u32]) -> io::Result<Board>
        ensures ok { IfOk result (λ board. IsPrefixLen board.cells grid.new) }
        ensures err { OnErr result (length grid.new ≡ length grid.old) }
    {
        Ok(Board {
            head: Head::read(reader)?,
            cells: reader.read_list(grid)?,
        })
    }
}

impl<'a> Card<'a> {
    // Reads the clues of a card that begins with these numbers.
    pub fn read<R: Read>(
        reader: &mut Reader<R>,
        head: Head,
        room: &'a mut [u32],
    ) -> io::Result<Card<'a>>
        ensures { IfOk result (λ card. card.head ≡ head) }
    {
        let (rows, room) = read_direction(reader, room)?;
        let (columns, _) = read_direction(reader, room)?;
        Ok(Card {
            head,
            rows,
            columns,
        })
    }
}
