// Solves cards in the .non format and shows their boards: those of the files that the arguments name, where `-` is standard input, or the
// one on standard input.
//
// It ends with status 0 whatever the files hold, and with 1 only where its answer cannot be written. So an answer begins with `bad card,` where a
// file is no card and with `unsolvable` where a card has no solution, and it tells how many cells are open, where some are. solve.sh makes its
// status of that.
#![tactic(auto)]

mod board;
mod solving;

use files::{count_arguments, open_file};
use non::card::Card;
use non::faults::NoCard;
use non::read_card;
use solving::solve_card;
use std::fmt::Display;
use std::io;
use std::io::Read;
use std::rt::{Env, Files};

// The name of standard input.
const INPUT: &[u8] = b"standard input";

// Tells that a file is no card. Its name need not be text.
fn write_bad(rt: &impl Print, name: &[u8], what: impl Display + Drop) -> io::Result<()> {
    print!(rt; "bad card, ")?;
    rt.write_all(name)?;
    rt.println(what)
}

// A card that the reader takes and the run refuses would be told with the run's number.
fn solve_file<I: Read>(rt: &impl Print, name: &[u8], input: &mut I) -> io::Result<()> {
    let mut card = Card::new();
    match read_card(input, &mut card) {
        Ok(()) => {}
        Err(fault @ NoCard::Unreadable) => return write_bad(rt, name, format_args!(": {fault}")),
        Err(fault) => return write_bad(rt, name, format_args!(", {fault}")),
    }
    if let Some(refusal) = solve_card(rt, &card)? {
        let number = u32::from(refusal);
        return write_bad(rt, name, format_args!(": the run refuses it with {number}"));
    }
    Ok(())
}

fn solve_path(rt: &(impl Files + Print), path: &[u8]) -> io::Result<()> {
    match open_file(rt, path) {
        Ok(mut file) => solve_file(rt, path, &mut file),
        Err(unopened) => write_bad(rt, path, format_args!(": {unopened}")),
    }
}

// Where there are several cards, the name of each stands above its answer: one `if`, so a flag.
fn write_name(rt: &impl Print, name: &[u8], several: bool) -> io::Result<()> {
    if several {
        print!(rt; "== ")?;
        rt.write_all(name)?;
        println!(rt; " ==")?;
    }
    Ok(())
}

fn solve_named(rt: &(impl Files + Input + Print), path: &[u8], several: bool) -> io::Result<()> {
    match path {
        b"-" => {
            write_name(rt, INPUT, several)?;
            solve_file(rt, INPUT, &mut rt.reader())
        }
        _ => {
            write_name(rt, path, several)?;
            solve_path(rt, path)
        }
    }
}

// An argument that there is not, or that has more than 4,096 bytes, is an empty path.
fn solve_argument(
    rt: &(impl Env + Files + Input + Print),
    argument: usize,
    several: bool,
) -> io::Result<()> {
    let mut path = [0u8; 4096];
    let length = rt.arg(argument, &mut path).unwrap_or(0);
    solve_named(rt, &path[..length], several)
}

fn main(rt: HostRuntime) -> io::Result<()> {
    let count = count_arguments(&rt);
    if count < 2 {
        return solve_file(&rt, INPUT, &mut rt.reader());
    }
    for argument in 1..count {
        solve_argument(&rt, argument, count > 2)?;
    }
    Ok(())
}
