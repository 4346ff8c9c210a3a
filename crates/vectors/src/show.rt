// Shows lists so that a person can read them: what a call is given, and what it leaves.
use crate::entries::Entry;
use crate::lists::Lent;
use std::fmt;

// The most entries of a report that are shown one by one.
const MOST_SHOWN: usize = 64;

// The entries of a list: each run of equal ones as the entry, and how often it stands there if more than once.
#[derive(Clone, Copy)]
pub struct Runs<'a>(pub &'a [u32]);

impl fmt::Display for Runs<'_> {
    fn fmt<W: fmt::Write>(&self, f: &mut fmt::Formatter<W>) -> fmt::Result {
        for run in self.0.chunk_by(|a, b| a == b) {
            let entry = run[0];
            write!(f, " {entry}")?;
            let times = run.len();
            if times > 1 {
                write!(f, "*{times}")?;
            }
        }
        Ok(())
    }
}

// The entries of a list, one by one.
#[derive(Clone, Copy)]
struct Each<'a>(&'a [u64]);

impl fmt::Display for Each<'_> {
    fn fmt<W: fmt::Write>(&self, f: &mut fmt::Formatter<W>) -> fmt::Result {
        for entry in self.0 {
            write!(f, " {entry}")?;
        }
        Ok(())
    }
}

// How many entries a list has, their sum, and the sum of all sums up to an entry: together they tell the order too.
#[derive(Clone, Copy)]
struct Sums<'a>(&'a [u32]);

impl fmt::Display for Sums<'_> {
    fn fmt<W: fmt::Write>(&self, f: &mut fmt::Formatter<W>) -> fmt::Result {
        let mut plain = 0u64;
        let mut running = 0u64;
        for entry in self.0 {
            plain = plain.wrapping_add(u64::from(*entry));
            running = running.wrapping_add(plain);
        }
        let entries = self.0.len();
        write!(f, " {entries} entries, sums {plain} {running}")
    }
}

// A text in quotes: each byte itself where it can be printed, else its number between angle brackets, and so the sign `<`.
#[derive(Clone, Copy)]
pub struct Quoted<'a>(pub &'a [u8]);

impl fmt::Display for Quoted<'_> {
    fn fmt<W: fmt::Write>(&self, f: &mut fmt::Formatter<W>) -> fmt::Result {
        write!(f, " \"")?;
        for byte in self.0 {
            match *byte {
                b' '..=b';' | b'='..=b'~' => f.write_char(char::from(*byte))?,
                _ => write!(f, "<{byte}>")?,
            }
        }
        write!(f, "\"")
    }
}

// How many entries are as they were; nothing where none is.
#[derive(Clone, Copy)]
struct Kept(usize);

impl fmt::Display for Kept {
    fn fmt<W: fmt::Write>(&self, f: &mut fmt::Formatter<W>) -> fmt::Result {
        match self.0 {
            0 => Ok(()),
            count => write!(f, " ({count} kept)"),
        }
    }
}

// What was written to a filled list, and how many entries after it are as they were.
#[derive(Clone, Copy)]
pub struct Left<'a, T>(pub Lent<'a, T>);

impl<'a, T: Entry> Left<'a, T> {
    // The entries that hold all that was written, and how many entries after them are as they were: the end is looked for once.
    fn split(&self) -> (&'a [T], Kept) {
        let (written, kept) = self.0.list.split_at(self.0.written());
        (written, Kept(kept.len()))
    }
}

impl fmt::Display for Left<'_, u32> {
    fn fmt<W: fmt::Write>(&self, f: &mut fmt::Formatter<W>) -> fmt::Result {
        let (written, kept) = self.split();
        let runs = Runs(written);
        write!(f, "{runs}{kept}")
    }
}

impl fmt::Display for Left<'_, u64> {
    fn fmt<W: fmt::Write>(&self, f: &mut fmt::Formatter<W>) -> fmt::Result {
        let (written, kept) = self.split();
        let entries = Each(written);
        write!(f, "{entries}{kept}")
    }
}

impl fmt::Display for Left<'_, u8> {
    fn fmt<W: fmt::Write>(&self, f: &mut fmt::Formatter<W>) -> fmt::Result {
        let (written, kept) = self.split();
        let text = Quoted(written);
        write!(f, "{text}{kept}")
    }
}

// The same of a list that may be long: then its sums are shown.
#[derive(Clone, Copy)]
pub struct LeftLong<'a>(pub Lent<'a, u32>);

impl fmt::Display for LeftLong<'_> {
    fn fmt<W: fmt::Write>(&self, f: &mut fmt::Formatter<W>) -> fmt::Result {
        let (written, kept) = Left(self.0).split();
        if written.len() <= MOST_SHOWN {
            let runs = Runs(written);
            return write!(f, "{runs}{kept}");
        }
        let sums = Sums(written);
        write!(f, "{sums}{kept}")
    }
}

// How many entries of a filled list are as they were after the last that is not.
#[derive(Clone, Copy)]
pub struct Untouched<'a, T>(pub Lent<'a, T>);

impl<T: Entry> fmt::Display for Untouched<'_, T> {
    fn fmt<W: fmt::Write>(&self, f: &mut fmt::Formatter<W>) -> fmt::Result {
        let (_, kept) = Left(self.0).split();
        write!(f, "{kept}")
    }
}
