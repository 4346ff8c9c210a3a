// Runs the documents' examples and the limits of the public calls, and writes one line for each: the call, what it is given, the
// answer's number and values, and what it leaves in each lent list. Standard input has the cases, as the scripts of tests/vectors
// write them.
#![tactic(auto)]

mod answers;
mod blocks;
mod clues;
mod lines;
mod pictures;
mod runs;

use cases::calls::Call;
use std::io;
use std::io::Read;
use vectors::reader::{ReadError, Reader};

// Runs one case by the call's number. A number that no call has is a fault.
fn show_call<R: Read>(rt: &impl Print, number: u64, reader: &mut Reader<R>) -> io::Result<()> {
    match Call::try_from(number) {
        Ok(Call::Blocks(call)) => blocks::show(rt, call, reader),
        Ok(Call::Clues(call)) => clues::show(rt, call, reader),
        Ok(Call::Line(call)) => lines::show(rt, call, reader),
        Ok(Call::Run(call)) => runs::show(rt, call, reader),
        Ok(Call::Picture(call)) => pictures::show(rt, call, reader),
        Err(_) => {
            reader.fail();
            Ok(())
        }
    }
}

// Shows all cases. The end of the input is told, and so is a number of a call that can't be read; a fault within a case ends the run as well.
fn show_all<R: Read>(rt: &impl Print, reader: &mut Reader<R>) -> io::Result<()> {
    for _ in 0..u64::MAX {
        match reader.read_number() {
            Ok(Some(number)) => show_call(rt, number, reader)?,
            Ok(None) => return println!(rt; "the input was read to its end"),
            Err(ReadError::Broken) => return println!(rt; "the input is broken"),
            Err(ReadError::Input(error)) => return Err(error),
        }
        if reader.is_faulty() {
            break;
        }
    }
    Ok(())
}

fn main(rt: HostRuntime) -> io::Result<()> {
    show_all(&rt, &mut Reader::new(rt.reader()))
}
