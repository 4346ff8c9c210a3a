// The calls on pictures as plain PBM, each with as much room as its case says.
ghost use Rattle.std.specs.Prelude.{◌≤◌, length, IfOk};

use device::pictures::{sp_read_pbm, sp_write_pbm};
use replies::count::CountReply;
use replies::pictures::PbmReply;
use std::io::Read;
use std::{fmt, io};
use vectors::lists;
use vectors::reader::Reader;

// A call on plain PBM.
#[derive(Clone, Copy, Debug, PartialEq, Eq)]
pub enum PictureCall {
    Read,
    Write,
}

impl fmt::Display for PictureCall {
    fn fmt<W: fmt::Write>(&self, f: &mut fmt::Formatter<W>) -> fmt::Result {
        f.write_str(match self {
            PictureCall::Read => "sp_read_pbm",
            PictureCall::Write => "sp_write_pbm",
        })
    }
}

// A text to read, and the room for the picture's codes.
#[derive(Clone, Copy)]
pub struct Text<'a> {
    pub room: usize,
    pub bytes: &'a [u8],
}

impl<'a> Text<'a> {
    pub fn read<R: Read>(reader: &mut Reader<R>, bytes: &'a mut [u8]) -> io::Result<Text<'a>>
        ensures { IfOk result (λ text. length text.bytes.now ≤ length bytes.old) }
    {
        Ok(Text {
            room: reader.demand_size()?,
            bytes: reader.read_into(bytes)?,
        })
    }

    // Reads the picture into the front of the codes.
    pub fn read_pbm(&self, codes: &mut [u32]) -> PbmReply {
        let end = lists::within(self.room, codes);
        sp_read_pbm(self.bytes, &mut codes[..end])
    }
}

// A picture to write, and the room for its text.
#[derive(Clone, Copy)]
pub struct Drawing<'a> {
    pub width: usize,
    pub height: usize,
    pub room: usize,
    pub codes: &'a [u32],
}

impl<'a> Drawing<'a> {
    pub fn read<R: Read>(reader: &mut Reader<R>, codes: &'a mut [u32]) -> io::Result<Drawing<'a>>
        ensures { IfOk result (λ drawing. length drawing.codes.now ≤ length codes.old) }
    {
        Ok(Drawing {
            width: reader.demand_size()?,
            height: reader.demand_size()?,
            room: reader.demand_size()?,
            codes: reader.read_into(codes)?,
        })
    }

    // Writes the picture into the front of the text.
    pub fn write_pbm(&self, text: &mut [u8]) -> CountReply {
        let end = lists::within(self.room, text);
        sp_write_pbm(self.width, self.height, self.codes, &mut text[..end])
    }
}
