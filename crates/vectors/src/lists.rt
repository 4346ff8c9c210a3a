// Lists that a replayed call reads and writes: made, filled, read from a file of numbers, and looked at again.
ghost use Rattle.std.specs.Prelude.{◌≡◌, ◌≤◌, length, map, IfOk, OnErr};
ghost use Rattle.vectors.specs.Counts.{IsPrefixLen};
ghost use Rattle.vectors.specs.Fillers.{Filled};

use crate::entries::Entry;
use crate::reader::Reader;
use std::io;
use std::io::Read;

// Room for a number for each cell of the largest grid, and 64 to spare.
pub type Codes = [u32; 4160];

// Room for a number for each block of the longest line, and 16 to spare.
pub type Sums = [u64; 80];

// Room for the report of any run of the largest grid, and 64 to spare.
pub type Report = [u32; 127040];

// Room for the stack of any run, and 64 to spare.
pub type Stack = [u32; 192];

// Room for the memo of the longest line and 64 to spare, or for the text of the largest picture and 55 to spare.
pub type Bytes = [u8; 4224];

// A list that was filled and then lent to a call from `first` on. How it was filled goes by `turn`.
#[derive(Clone, Copy)]
pub struct Lent<'a, T> {
    pub turn: usize,
    pub first: usize,
    pub list: &'a [T],
}

// A picture that was read.
#[derive(Clone, Copy)]
pub struct Picture<'a> {
    pub width: usize,
    pub height: usize,
    pub blank: u32,
    pub codes: &'a [u32],
}

// Room for a list that is read.
pub fn make<T: Entry, const N: usize>() -> [T; N]
    ensures { N ≡ length result }
{
    [T::from_number(0); N]
}

fn fill<T: Entry>(turn: usize, list: &mut [T])
    ensures { Filled (T.entry_at turn) (map T.value list.new) (length list.new) }
{
    for (index, entry) in list.iter_mut().enumerate() {
        *entry = T::filler(turn, index);
    }
}

// A list as `make` makes it, filled.
pub fn make_filled<T: Entry, const N: usize>(turn: usize) -> [T; N]
    ensures length { N ≡ length result }
    ensures filled { Filled (T.entry_at turn) (map T.value result) N }
{
    let mut list = make();
    fill(turn, &mut list);
    list
}

// Fills a list with what a call could take for its own numbers of lines: those below 256 in turn. The first of them goes by `turn`. It is no
// filler of an `Entry`: other lists of such entries are filled with what no call takes for its own.
fn fill_low(turn: usize, list: &mut [u32]) {
    for (index, entry) in list.iter_mut().enumerate() {
        *entry = ((turn % 256 + index % 256) % 256) as u32;
    }
}

// A stack, filled with low numbers.
pub fn make_filled_stack(turn: usize) -> Stack
    ensures { 192 ≡ length result }
{
    let mut list = [0; 192];
    fill_low(turn, &mut list);
    list
}

// `count`, or the list's length where that is less: so many entries can be lent.
pub fn within<T>(count: usize, list: &[T]) -> usize
    ensures { IsPrefixLen result list.now }
{
    count.min(list.len())
}

// The front of a list, with as many of `count` entries as it has.
pub fn lend<T>(list: &mut [T], count: usize) -> &mut [T]
    ensures { length result.now ≤ length list.old }
{
    let end = within(count, list);
    &mut list[..end]
}

impl<'a, T: Entry> Lent<'a, T> {
    // A list that was lent whole, filled at turn 0.
    pub fn whole(list: &'a [T]) -> Lent<'a, T>
        ensures list { result.list.now ≡ list.now }
        ensures whole { (result.turn ≡ 0) × (result.first ≡ 0) }
    {
        Lent {
            turn: 0,
            first: 0,
            list,
        }
    }

    // What the list was filled with at an index.
    pub(crate) fn filler(&self, index: usize) -> u64
        ensures { result ≡ T.entry_at self.now.turn index }
    {
        T::filler(self.turn, index).number()
    }

    // How many entries at the front of the list hold all that was written to it since.
    pub(crate) fn written(&self) -> usize
        ensures { IsPrefixLen result self.now.list.now }
    {
        self.list
            .iter()
            .enumerate()
            .rposition(|(index, entry)| entry.number() != self.filler(index))
            .map_or(0, |last| last + 1)
    }
}

impl<R: Read> Reader<R> {
    // The next number, which has to be an entry: else a fault, and 0.
    fn entry<T: Entry>(&mut self) -> io::Result<T> {
        Ok(T::from_number(self.demand(T::MOST)?))
    }

    // Reads a count, and as many entries into the front of the list. A count that the list has no room for is a fault.
    pub fn read_list<T: Entry>(&mut self, list: &mut [T]) -> io::Result<usize>
        ensures ok { IfOk result (λ count. IsPrefixLen count list.new) }
        ensures err { OnErr result (length list.new ≡ length list.old) }
    {
        let count = self.demand(list.len() as u64)? as usize;
        for entry in &mut list[..count] {
            *entry = self.entry()?;
        }
        Ok(count)
    }

    // Reads a list into the front of the room for it.
    pub fn read_into<'a, T: Entry>(&mut self, room: &'a mut [T]) -> io::Result<&'a [T]>
        ensures { IfOk result (λ list. length list.now ≤ length room.old) }
    {
        let count = self.read_list(room)?;
        Ok(&room[..count])
    }

    // Reads a picture: its sides, the blank code, and the codes.
    pub fn read_picture<'a>(&mut self, room: &'a mut [u32]) -> io::Result<Picture<'a>>
        ensures { IfOk result (λ picture. length picture.codes.now ≤ length room.old) }
    {
        Ok(Picture {
            width: self.demand_size()?,
            height: self.demand_size()?,
            blank: self.entry()?,
            codes: self.read_into(room)?,
        })
    }
}
