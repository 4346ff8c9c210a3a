// A line of a file: without its comment, and without blanks but one between two words.
use crate::words::Class;
use arrayvec::ArrayVec;

// The text of a line, whether it has more than that, and its number in the file.
#[derive(Clone, Copy)]
pub(crate) struct Line<'a> {
    pub(crate) text: &'a [u8],
    pub(crate) cut: bool,
    pub(crate) number: u32,
}

// A line as far as it was read. Each flag says one thing more of the text that there is; none stands for a text that is missing.
#[derive(Drop)]
pub(crate) struct Draft {
    text: ArrayVec<u8, 4096>,
    // Whether a byte found no room.
    cut: bool,
    // Whether blanks stand after the text.
    blank: bool,
    // Whether a comment has begun.
    comment: bool,
}

impl Draft {
    // A line of which nothing was read.
    pub(crate) fn new() -> Draft {
        Draft {
            text: ArrayVec::new(),
            cut: false,
            blank: false,
            comment: false,
        }
    }

    // Begins the next line. Its room stays, which `new` would fill again for each line.
    pub(crate) fn clear(&mut self) {
        self.text.clear();
        self.cut = false;
        self.blank = false;
        self.comment = false;
    }

    // Whether nothing was read.
    pub(crate) fn is_new(&self) -> bool {
        self.text.is_empty() && !self.blank && !self.comment
    }

    // Whether the line is a comment alone.
    pub(crate) fn is_comment(&self) -> bool {
        self.text.is_empty() && self.comment
    }

    // The whole line, which has this number.
    pub(crate) fn line(&self, number: u32) -> Line<'_> {
        Line {
            text: self.text.as_slice(),
            cut: self.cut,
            number,
        }
    }

    fn push(&mut self, byte: u8) {
        if self.text.try_push(byte).is_err() {
            self.cut = true;
        }
    }

    // Whether the text ends with a word.
    fn ends_with_word(&self) -> bool {
        self.text
            .as_slice()
            .last()
            .is_some_and(|&byte| Class::Name.has(byte))
    }

    // Keeps a byte that is no blank, and one blank before it where blanks stand between two words.
    fn keep_solid(&mut self, byte: u8) {
        if self.blank && Class::Name.has(byte) && self.ends_with_word() {
            self.push(b' ');
        }
        self.blank = false;
        self.push(byte);
    }

    // Reads one byte more.
    pub(crate) fn keep(&mut self, byte: u8) {
        match byte {
            _ if self.comment => {}
            b' ' | b'\t' | b'\r' => self.blank = true,
            b'#' => self.comment = true,
            _ => self.keep_solid(byte),
        }
    }
}
