// Compares what a call gave with the numbers that come next in a file.
ghost use Rattle.std.specs.Prelude.{◌≡◌, ◌==◌, ◌+◌, ◌%◌, ◌^◌, ◌⊎◌, if◌then◌else◌, OnOk, OnErr};

use crate::entries::Entry;
use crate::lists::Lent;
use crate::reader::Reader;
use std::io;
use std::io::Read;

// The file where it tells an answer, and how many numbers of it were given otherwise, up to where reading is.
#[derive(Drop)]
pub struct Comparison<'a, R> {
    reader: &'a mut Reader<R>,
    differing: u64,
}

impl<'a, R: Read> Comparison<'a, R> {
    pub fn new(reader: &'a mut Reader<R>) -> Comparison<'a, R>
        ensures same_reader { result.reader.ghost_name ≡ reader.entry.ghost_name }
        ensures none { result.differing ≡ 0 }
    {
        Comparison {
            reader,
            differing: 0,
        }
    }

    // How many numbers differ so far.
    pub fn differing(&self) -> u64
        ensures { result ≡ self.now.differing }
    {
        self.differing
    }

    // One number more.
    fn add(&mut self, given: u64, expected: u64)
        ensures { self.new.differing ≡ (if given == expected then self.old.differing else (self.old.differing + 1) % 2 ^ 64) }
    {
        if given != expected {
            self.differing = self.differing.wrapping_add(1);
        }
    }

    // Compares a number with the next one of the file.
    pub fn number(&mut self, given: u64) -> io::Result<()>
        ensures ok { OnOk result ((self.new.differing ≡ self.old.differing) ⊎ (self.new.differing ≡ (self.old.differing + 1) % 2 ^ 64)) }
        ensures err { OnErr result (self.new.differing ≡ self.old.differing) }
    {
        let expected = self.reader.demand(u64::MAX)?;
        self.add(given, expected);
        Ok(())
    }

    // What a list with `count` entries in the file should hold at an index: the next number of the file where the call was to write, and
    // elsewhere what the list was filled with.
    fn expect<T: Entry>(&mut self, count: usize, lent: &Lent<T>, index: usize) -> io::Result<u64> {
        if index >= lent.first && index - lent.first < count {
            return self.reader.demand(u64::MAX);
        }
        Ok(lent.filler(index))
    }

    fn entries<T: Entry>(&mut self, count: usize, lent: &Lent<T>) -> io::Result<()> {
        for (index, entry) in lent.list.iter().enumerate() {
            let expected = self.expect(count, lent, index)?;
            self.add(entry.number(), expected);
        }
        Ok(())
    }

    // Compares a list with the one that comes next in the file: its entries, and the filler before and after them.
    pub fn list<T: Entry>(&mut self, lent: &Lent<T>) -> io::Result<()> {
        let count = self.reader.demand(lent.list.len() as u64)?;
        self.entries(count as usize, lent)
    }

    // The same, and how many entries a call says that it wrote with their number in the file.
    pub fn told_list<T: Entry>(&mut self, told: usize, lent: &Lent<T>) -> io::Result<()> {
        let count = self.reader.demand(lent.list.len() as u64)?;
        self.add(told as u64, count);
        self.entries(count as usize, lent)
    }
}
