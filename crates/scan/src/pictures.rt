// Reads a picture from its text, and makes a card of it.
use crate::cards::{Clues, write_card};
use crate::faults::{NoPicture, write_fault};
use crate::texts::count_through;
use pbm::Sides;
use pbm::read::read_pbm;
use picture::binary::clues_from_solution;
use rules::Refusal;
use std::io;

// The code of a white cell.
const BLANK: u32 = 1;

// Makes the clues of a picture, and writes its card.
fn write_picture(
    rt: &impl Print,
    name: &[u8],
    width: usize,
    height: usize,
    codes: &[u32],
) -> io::Result<()> {
    let mut row_counts = [0u32; 64];
    let mut row_sizes = [0u32; 4096];
    let mut column_counts = [0u32; 64];
    let mut column_sizes = [0u32; 4096];
    let answer = clues_from_solution(
        width,
        height,
        codes,
        BLANK,
        &mut row_counts,
        &mut row_sizes,
        &mut column_counts,
        &mut column_sizes,
    );
    if let Err(refusal) = answer {
        return write_fault(rt, name, NoPicture::Refused(refusal));
    }
    let rows = Clues {
        counts: &row_counts[..height],
        sizes: &row_sizes,
    };
    let columns = Clues {
        counts: &column_counts[..width],
        sizes: &column_sizes,
    };
    write_card(rt, name, width, height, rows, columns)
}

// What is wrong with a text that is longer than what was read of it. Whatever follows, it is refused with 11 where it does not begin with P1, and
// with 1 where its whole lines have a bad side.
fn judge_long(text: &[u8], codes: &mut [u32]) -> NoPicture {
    if !text.starts_with(b"P1") {
        return NoPicture::of(Refusal::BadText, text);
    }
    match read_pbm(&text[..count_through(text, b'\n')], codes) {
        Err(Refusal::BadLength) => NoPicture::Refused(Refusal::BadLength),
        _ => NoPicture::Long,
    }
}

// Makes a card of a text, if the whole of it was read; if not, what was read tells what is wrong, so the flag stands beside it.
pub(crate) fn scan_text(rt: &impl Print, name: &[u8], text: &[u8], whole: bool) -> io::Result<()> {
    let mut codes = [0u32; 4096];
    if !whole {
        return write_fault(rt, name, judge_long(text, &mut codes));
    }
    match read_pbm(text, &mut codes) {
        Ok(Sides { width, height }) => {
            write_picture(rt, name, width, height, &codes[..width * height])
        }
        Err(refusal) => write_fault(rt, name, NoPicture::of(refusal, text)),
    }
}
