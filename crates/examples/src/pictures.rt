// Shows the calls on plain PBM. A case has the room for the codes and a text, or two sides, the room for the text, and codes.
use crate::answers::Answer;
use cases::pictures::{Drawing, PictureCall, Text};
use std::io;
use std::io::Read;
use vectors::lists;
use vectors::lists::{Bytes, Codes, Lent};
use vectors::reader::Reader;
use vectors::show::{Left, Quoted, Runs};

// Each call is lent as much room as the case says.
fn show_reading<R: Read>(rt: &impl Print, reader: &mut Reader<R>) -> io::Result<()> {
    let mut bytes: Bytes = lists::make_filled(0);
    let mut codes: Codes = lists::make_filled(0);
    let text = Text::read(reader, &mut bytes)?;
    print!(rt; "{} text{}", PictureCall::Read, Quoted(text.bytes))?;
    let answer = Answer::from(text.read_pbm(&mut codes));
    let codes = lists::lend(&mut codes, text.room);
    println!(rt; "{answer}; codes{}", Left(Lent::whole(codes)))
}

fn show_writing<R: Read>(rt: &impl Print, reader: &mut Reader<R>) -> io::Result<()> {
    let mut codes: Codes = lists::make();
    let mut text: Bytes = lists::make_filled(0);
    let drawing = Drawing::read(reader, &mut codes)?;
    print!(rt;
        "{} width {} height {}",
        PictureCall::Write,
        drawing.width,
        drawing.height
    )?;
    print!(rt; " codes{}", Runs(drawing.codes))?;
    let answer = Answer::from(drawing.write_pbm(&mut text));
    let text = lists::lend(&mut text, drawing.room);
    println!(rt; "{answer}; text{}", Left(Lent::whole(text)))
}

pub(crate) fn show<R: Read>(
    rt: &impl Print,
    call: PictureCall,
    reader: &mut Reader<R>,
) -> io::Result<()> {
    match call {
        PictureCall::Read => show_reading(rt, reader),
        PictureCall::Write => show_writing(rt, reader),
    }
}
