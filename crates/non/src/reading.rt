// Reads a file piece by piece, and takes its lines. So a file may be of any length, and so may comments and blanks.
use crate::card::{Card, Way};
use crate::clues::take_clue;
use crate::faults::{Fault, NoCard};
use crate::headings::{Before, judge_end, take_heading};
use crate::line::{Draft, Line};

// How far reading is.
#[derive(Drop)]
pub(crate) struct Reading<'a> {
    card: &'a mut Card,
    before: Before,
    draft: Draft,
    // How many lines were read, up to 2^32 - 1.
    number: u32,
    // How many bytes of a byte order mark were read, while they are all of the file so far.
    mark: Option<u8>,
}

// Takes a line of the file that is not a comment alone, and tells what then stands before the next.
fn take_line(line: Line<'_>, before: Before, card: &mut Card) -> Result<Before, Fault> {
    // Where sizes stand right after a full list which begins with an empty line, that line was none of the list, and they belong to it.
    if let (Before::Line(way), [b'0'..=b'9', ..]) = (before, line.text) {
        card.lines_mut(way).drop_empty();
    }
    let way = if card.rows.is_wanted() {
        Way::Rows
    } else if card.columns.is_wanted() {
        Way::Columns
    } else {
        return take_heading(line, before, card);
    };
    take_clue(line, card, way)?;
    Ok(Before::Line(way))
}

impl<'a> Reading<'a> {
    // The start of a file, which is read into a card of which nothing was read yet.
    pub(crate) fn new(card: &'a mut Card) -> Reading<'a> {
        Reading {
            card,
            before: Before::Other,
            draft: Draft::new(),
            number: 0,
            mark: Some(0),
        }
    }

    // Whether a byte order mark, which is 0xef 0xbb 0xbf, ends with one more byte.
    fn ends_mark(&mut self, byte: u8) -> bool {
        let (mark, ends) = match (self.mark, byte) {
            (Some(0), 0xef) => (Some(1), false),
            (Some(1), 0xbb) => (Some(2), false),
            (Some(2), 0xbf) => (None, true),
            _ => (None, false),
        };
        self.mark = mark;
        ends
    }

    // Takes a byte. Where a byte order mark ends with it, the first line begins after it.
    fn take(&mut self, byte: u8) -> Result<(), NoCard> {
        let marked = self.ends_mark(byte);
        match byte {
            b'\n' => return self.end_line(),
            _ if marked => self.draft.clear(),
            _ => self.draft.keep(byte),
        }
        Ok(())
    }

    // Takes a piece of the file.
    pub(crate) fn take_piece(&mut self, piece: &[u8]) -> Result<(), NoCard> {
        for &byte in piece {
            self.take(byte)?;
        }
        Ok(())
    }

    // Takes the line that was read.
    fn end_line(&mut self) -> Result<(), NoCard> {
        self.number = self.number.saturating_add(1);
        if !self.draft.is_comment() {
            let line = self.draft.line(self.number);
            self.before = take_line(line, self.before, self.card).map_err(|fault| {
                let line = match fault {
                    Fault::NoList { line } => line,
                    _ => self.number,
                };
                NoCard::Line { line, fault }
            })?;
        }
        self.draft.clear();
        Ok(())
    }

    // Takes what stands after the last line's end.
    fn end_last(&mut self) -> Result<(), NoCard> {
        if self.draft.is_new() {
            return Ok(());
        }
        self.end_line()
    }

    // Takes the end of the file.
    pub(crate) fn end(&mut self) -> Result<(), NoCard> {
        self.end_last()?;
        let line = self.number;
        judge_end(self.card).map_err(|fault| NoCard::End { line, fault })
    }

    // What a file that cannot be read on is: it is no card, but a fault in what was read is told first.
    pub(crate) fn fail(&mut self) -> Result<(), NoCard> {
        self.end_last()?;
        Err(NoCard::Unreadable)
    }
}
