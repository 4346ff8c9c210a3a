// Reads a file of numbers from a reader, as standard input, a piece at a time.
//
// Such a file is decimal numbers below 2^64, separated by blanks, tabs and line ends; `#` starts a comment to the end of its line.
ghost use Rattle.std.specs.Prelude.{◌≡◌, ◌≤◌, true, false, IfOk};

use std::io;
use std::io::Read;

// Where a file has no next number though it has not ended.
#[derive(Debug, Drop)]
pub enum ReadError {
    // The input gives an error.
    Input(io::Error),

    // A strange byte or a number that is too large comes next, or came before.
    Broken,
}

impl From<io::Error> for ReadError {
    fn from(error: io::Error) -> ReadError {
        ReadError::Input(error)
    }
}

// A file that is read: the piece of it that was read last, whose bytes from `at` to `filled` are still to be used, and whether a fault was found,
// which stays as a flag, since the numbers after it are still told as 0.
// The piece is an array, since a `BufReader` needs a heap, and the programs that read files have none. Its bounds are two numbers, since no
// `Range` is `Copy`, and a reader of an input that is `Copy` is, too.
#[derive(Clone, Copy, Drop)]
pub struct Reader<R> {
    input: R,
    piece: [u8; 65536],
    at: usize,
    filled: usize,
    faulty: bool,
}

// The most digits of a number below 2^64.
const MOST_DIGITS: u64 = 20;

impl<R: Read> Reader<R> {
    // The start of a file.
    pub fn new(input: R) -> Reader<R>
        ensures { result.faulty ≡ false }
    {
        Reader {
            input,
            piece: [0; 65536],
            at: 0,
            filled: 0,
            faulty: false,
        }
    }

    // Whether the file has a fault so far.
    pub fn is_faulty(&self) -> bool
        ensures { result ≡ self.now.faulty }
    {
        self.faulty
    }

    // Calls the file faulty.
    pub fn fail(&mut self)
        ensures { self.new.faulty ≡ true }
    {
        self.faulty = true;
    }

    // The next byte, which stays the next one; none at the end of the input.
    fn peek(&mut self) -> io::Result<Option<u8>> {
        if self.at >= self.filled {
            self.filled = self.input.read(&mut self.piece)?;
            self.at = 0;
        }
        if self.filled == 0 {
            return Ok(None);
        }
        Ok(self.piece.get(self.at).copied())
    }

    // Goes past the next byte.
    fn pass(&mut self) {
        self.at = self.at.saturating_add(1);
    }

    // Goes past blanks and comments to the byte that is next. The count of turns only shows that the loop ends, since nothing says that an
    // input does.
    fn skip_space(&mut self) -> io::Result<Option<u8>> {
        let mut comment = false;
        for _ in 0..u64::MAX {
            match self.peek()? {
                Some(b' ' | b'\t' | b'\r') => {}
                Some(b'\n') => comment = false,
                Some(b'#') => comment = true,
                Some(_) if comment => {}
                next => return Ok(next),
            }
            self.pass();
        }
        Ok(None)
    }

    // Reads a number whose first digit is next.
    fn read_digits(&mut self) -> Result<u64, ReadError> {
        let mut value = 0u64;
        for _ in 0..=MOST_DIGITS {
            match self.peek()? {
                Some(byte @ b'0'..=b'9') => value = lengthen(value, byte - b'0')?,
                None | Some(b' ' | b'\t' | b'\r' | b'\n' | b'#') => return Ok(value),
                Some(_) => return Err(ReadError::Broken),
            }
            self.pass();
        }
        Err(ReadError::Broken)
    }

    // Reads a number, or finds the end of the file.
    fn try_number(&mut self) -> Result<Option<u64>, ReadError> {
        match self.skip_space()? {
            None => Ok(None),
            Some(b'0'..=b'9') => Ok(Some(self.read_digits()?)),
            Some(_) => Err(ReadError::Broken),
        }
    }

    // The next number of the file; none at its end. Once it is broken it stays so.
    pub fn read_number(&mut self) -> Result<Option<u64>, ReadError>
        ensures stays { self.old.faulty ≡ true → result ≡ Err ReadError.Broken }
        ensures broken { result ≡ Err ReadError.Broken → self.new.faulty ≡ true }
    {
        if self.faulty {
            return Err(ReadError::Broken);
        }
        let answer = self.try_number();
        if let Err(ReadError::Broken) = answer {
            self.faulty = true;
        }
        answer
    }

    // The next number, which has to be there and be at most `most`: else a fault, and 0.
    pub fn demand(&mut self, most: u64) -> io::Result<u64>
        ensures bound { IfOk result (λ value. value ≤ most) }
        ensures faulty { self.old.faulty ≡ true → result ≡ Ok 0 }
    {
        match self.read_number() {
            Ok(Some(value)) if value <= most => Ok(value),
            Err(ReadError::Input(error)) => Err(error),
            _ => {
                self.fail();
                Ok(0)
            }
        }
    }

    // The next number, which has to be there: else a fault, and 0.
    pub fn demand_size(&mut self) -> io::Result<usize>
        ensures { self.old.faulty ≡ true → result ≡ Ok 0 }
    {
        Ok(self.demand(u64::MAX)? as usize)
    }
}

// The number with one digit more, if it is below 2^64.
fn lengthen(value: u64, digit: u8) -> Result<u64, ReadError> {
    value
        .checked_mul(10)
        .and_then(|tens| tens.checked_add(u64::from(digit)))
        .ok_or(ReadError::Broken)
}
