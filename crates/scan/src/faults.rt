// Tells why a file is no picture. In brackets stands the documents' number, where there is one.
use files::Unopened;
use rules::Refusal;
use std::{fmt, io};

// Why a file is no picture.
#[derive(Clone, Copy)]
pub(crate) enum NoPicture {
    Unopened(Unopened),
    Unreadable,
    // The text is longer than what was read of it.
    Long,
    // The text is raw PBM, the other form of such pictures, which a tool makes plain.
    Raw,
    Refused(Refusal),
}

impl NoPicture {
    // What is wrong with a text that is refused.
    pub(crate) fn of(refusal: Refusal, text: &[u8]) -> NoPicture {
        match refusal {
            Refusal::BadText if text.starts_with(b"P4") => NoPicture::Raw,
            _ => NoPicture::Refused(refusal),
        }
    }

    // The refusal, where it has a number.
    fn refusal(self) -> Option<Refusal> {
        match self {
            NoPicture::Raw => Some(Refusal::BadText),
            NoPicture::Refused(refusal) => Some(refusal),
            _ => None,
        }
    }
}

impl fmt::Display for NoPicture {
    fn fmt<W: fmt::Write>(&self, f: &mut fmt::Formatter<W>) -> fmt::Result {
        match self {
            NoPicture::Unopened(unopened) => write!(f, "{unopened}")?,
            NoPicture::Unreadable => write!(f, "the file cannot be read")?,
            NoPicture::Long => write!(f, "the text is longer than 65,535 bytes")?,
            NoPicture::Raw => write!(f, "this is raw PBM, which pnmtoplainpnm makes plain")?,
            NoPicture::Refused(Refusal::BadLength) => write!(f, "a side is 0 or above 64")?,
            NoPicture::Refused(Refusal::BadText) => {
                write!(f, "the text is not plain PBM as it is read here")?
            }
            NoPicture::Refused(_) => write!(f, "it is refused")?,
        }
        match self.refusal() {
            Some(refusal) => write!(f, " ({})", u32::from(refusal)),
            None => Ok(()),
        }
    }
}

// Tells that a file is no picture. Its name need not be text.
pub(crate) fn write_fault(rt: &impl Print, name: &[u8], fault: NoPicture) -> io::Result<()> {
    print!(rt; "no picture, ")?;
    rt.write_all(name)?;
    println!(rt; ": {fault}")
}
