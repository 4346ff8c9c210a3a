// Replays the samples that the crate answered, and that of plain PBM: standard input has the cases, and standard output tells for each call how
// many were replayed and how many differ. A sample's header says what a case holds, and tests/vectors how it is made.
#![tactic(auto)]

mod blocks;
mod clues;
mod lines;
mod pictures;
mod runs;

use cases::calls::Call;
use std::io;
use std::io::Read;
use vectors::reader::{ReadError, Reader};
use vectors::report::Tallies;

// Replays one case by the call's number, and answers how many of its numbers differ. A number that no call has is a fault.
fn replay_call<R: Read>(case: u64, number: u64, reader: &mut Reader<R>) -> io::Result<u64> {
    let turn = case as usize;
    match Call::try_from(number) {
        Ok(Call::Blocks(call)) => blocks::replay(call, reader),
        Ok(Call::Clues(call)) => clues::replay(call, reader),
        Ok(Call::Line(call)) => lines::replay(turn, call, reader),
        Ok(Call::Run(call)) => runs::replay(turn, call, reader),
        Ok(Call::Picture(call)) => pictures::replay(turn, call, reader),
        Err(_) => {
            reader.fail();
            Ok(1)
        }
    }
}

// The number of the next case's call; none at the end of the file, or where it is broken.
fn next_call<R: Read>(reader: &mut Reader<R>) -> io::Result<Option<u64>> {
    match reader.read_number() {
        Ok(next) => Ok(next),
        Err(ReadError::Broken) => Ok(None),
        Err(ReadError::Input(error)) => Err(error),
    }
}

// Replays all cases of the file, and tells of each that differs. They are numbered from 1 as they stand in the file.
fn replay_all<R: Read>(
    rt: &impl Print,
    reader: &mut Reader<R>,
    tallies: &mut Tallies,
) -> io::Result<()> {
    for case in 1..=u64::MAX {
        let Some(number) = next_call(reader)? else {
            break;
        };
        let differing = replay_call(case, number, reader)?;
        tallies.count(number, differing != 0);
        if differing != 0 {
            println!(rt; "case {case} of call {number} differs in {differing} numbers")?;
        }
        if reader.is_faulty() {
            break;
        }
    }
    Ok(())
}

// How many cases of each call were replayed and of all calls, how many of them differ, and whether the whole input was read.
fn write_report(rt: &impl Print, tallies: &Tallies, faulty: bool) -> io::Result<()> {
    for number in 1..=21 {
        if let Ok(call) = Call::try_from(number) {
            println!(rt; "{call}: {}", tallies.of(number))?;
        }
    }
    println!(rt; "all calls: {}", tallies.total())?;
    if faulty {
        println!(rt; "the input is broken: it was not read to its end")
    } else {
        println!(rt; "the input was read to its end")
    }
}

fn main(rt: HostRuntime) -> io::Result<()> {
    let mut reader = Reader::new(rt.reader());
    let mut tallies = Tallies::new();
    replay_all(&rt, &mut reader, &mut tallies)?;
    write_report(&rt, &tallies, reader.is_faulty())
}
