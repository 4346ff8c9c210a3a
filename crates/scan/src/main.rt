// Makes cards in the .non format of pictures in plain PBM: of the files that the arguments name, or of the picture on standard input.
//
// It ends with status 0 whatever the files hold, and with 1 only where its answer cannot be written. So an answer begins with `no picture,` where
// a text is none; else it is a card, which begins with its title. card.sh makes its status of that.
#![tactic(auto)]

mod cards;
mod faults;
mod pictures;
mod texts;

use faults::{NoPicture, write_fault};
use files::{count_arguments, open_file};
use pictures::scan_text;
use std::io;
use std::io::Read;
use std::rt::{Env, Files};
use texts::read_text;

// How many bytes of a file are read. A text is shorter. It is read into an array, and so are its codes and clues: the program needs no heap, so none
// can run short.
const MOST_BYTES: usize = 65536;

fn scan_file<I: Read>(rt: &impl Print, name: &[u8], input: &mut I) -> io::Result<()> {
    let mut text = [0; MOST_BYTES];
    match read_text(input, &mut text) {
        Ok(length) => scan_text(rt, name, &text[..length], length < MOST_BYTES),
        Err(_) => write_fault(rt, name, NoPicture::Unreadable),
    }
}

fn scan_path(rt: &(impl Files + Print), path: &[u8]) -> io::Result<()> {
    match open_file(rt, path) {
        Ok(mut file) => scan_file(rt, path, &mut file),
        Err(unopened) => write_fault(rt, path, NoPicture::Unopened(unopened)),
    }
}

// An argument that there is not, or that has more than 4,096 bytes, is an empty path.
fn scan_argument(rt: &(impl Env + Files + Print), argument: usize) -> io::Result<()> {
    let mut path = [0u8; 4096];
    let length = rt.arg(argument, &mut path).unwrap_or(0);
    scan_path(rt, &path[..length])
}

fn main(rt: HostRuntime) -> io::Result<()> {
    let count = count_arguments(&rt);
    if count < 2 {
        return scan_file(&rt, b"standard input", &mut rt.reader());
    }
    for argument in 1..count {
        scan_argument(&rt, argument)?;
    }
    Ok(())
}
