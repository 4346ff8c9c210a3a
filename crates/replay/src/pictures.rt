// Replays the calls on plain PBM. A case has a room and a text, then the answer's number, the picture's sides and its codes; or two sides, a
// room and codes, then the number and the text. With a refusal the sides are 0, and nothing may be written.
use cases::pictures::{Drawing, PictureCall, Text};
use std::io;
use std::io::Read;
use vectors::comparison::Comparison;
use vectors::lists;
use vectors::lists::{Bytes, Codes, Lent};
use vectors::reader::Reader;

// Reads the text into the codes from `first` on, and compares.
fn replay_reading<R: Read>(
    first: usize,
    text: &Text,
    codes: &mut [u32],
    comparison: &mut Comparison<R>,
) -> io::Result<()> {
    let start = lists::within(first, codes);
    let reply = text.read_pbm(&mut codes[start..]);
    comparison.number(u64::from(reply.number))?;
    comparison.number(reply.width as u64)?;
    comparison.number(reply.height as u64)?;
    comparison.list(&Lent {
        turn: 0,
        first,
        list: codes,
    })
}

// Writes the picture into the text from `first` on, which was filled by the turn, and compares.
fn replay_writing<R: Read>(
    turn: usize,
    first: usize,
    drawing: &Drawing,
    text: &mut [u8],
    comparison: &mut Comparison<R>,
) -> io::Result<()> {
    let start = lists::within(first, text);
    let reply = drawing.write_pbm(&mut text[start..]);
    comparison.number(u64::from(reply.number))?;
    comparison.told_list(
        reply.count,
        &Lent {
            turn,
            first,
            list: text,
        },
    )
}

// Lends both lists as parts of filled ones, which begin elsewhere from turn to turn.
pub(crate) fn replay<R: Read>(
    turn: usize,
    call: PictureCall,
    reader: &mut Reader<R>,
) -> io::Result<u64> {
    let mut bytes: Bytes = lists::make_filled(turn);
    let mut codes: Codes = lists::make_filled(0);
    let first = turn % 53;
    match call {
        PictureCall::Read => {
            let text = Text::read(reader, &mut bytes[first..])?;
            let mut comparison = Comparison::new(reader);
            replay_reading(first, &text, &mut codes, &mut comparison)?;
            Ok(comparison.differing())
        }
        PictureCall::Write => {
            let drawing = Drawing::read(reader, &mut codes[first..])?;
            let mut comparison = Comparison::new(reader);
            replay_writing(turn, first, &drawing, &mut bytes, &mut comparison)?;
            Ok(comparison.differing())
        }
    }
}
