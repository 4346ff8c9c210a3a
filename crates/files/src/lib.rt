// The files that the arguments of a program name.
#![tactic(auto)]

ghost use Rattle.std.specs.Prelude.{◌≡◌, Err};
ghost use Rattle.std.specs.Str.{IsUtf8};
ghost use Rattle.files.specs.declared.Unopened.TheVariants.{Unknown};
ghost use Rattle.files.specs.Opening.{unopened_of};

use std::env::FillError;
use std::io::ErrorKind;
use std::rt::{Env, Files};
use std::{fmt, fs, str};

// Why a file was not opened.
#[derive(Clone, Copy, Debug, PartialEq, Eq)]
pub enum Unopened {
    Missing,
    Forbidden,
    Unknown,
}

impl fmt::Display for Unopened {
    fn fmt<W: fmt::Write>(&self, f: &mut fmt::Formatter<W>) -> fmt::Result {
        f.write_str(match self {
            Unopened::Missing => "there is no such file",
            Unopened::Forbidden => "the file may not be read",
            Unopened::Unknown => "the file cannot be opened",
        })
    }
}

impl From<ErrorKind> for Unopened {
    ghost from_gives = { λ kind r. r ≡ unopened_of kind };

    fn from(kind: ErrorKind) -> Unopened {
        match kind {
            ErrorKind::NotFound => Unopened::Missing,
            ErrorKind::PermissionDenied => Unopened::Forbidden,
            _ => Unopened::Unknown,
        }
    }
}

// Opens a file. A name that is not UTF-8 is none that std can open.
pub fn open_file<R: Files>(rt: &R, name: &[u8]) -> Result<R::File, Unopened>
    ensures { (IsUtf8 name.now → ⊥) → result ≡ Err Unknown }
{
    let Ok(text) = str::from_utf8(name) else {
        return Err(Unopened::Unknown);
    };
    fs::open(rt, text).map_err(|error| Unopened::from(error.kind()))
}

// How many arguments there are; the first is the program's name.
pub fn count_arguments(rt: &impl Env) -> usize {
    let mut start = [0u8; 1];
    (0..usize::MAX)
        .find(|&argument| matches!(rt.arg(argument, &mut start), Err(FillError::NotPresent)))
        .unwrap_or(usize::MAX)
}
