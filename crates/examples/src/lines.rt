// Shows the calls that solve a line. A case has the rooms of memo and output, cells, sizes and colours (none where the line is binary).
use cases::calls::Cells;
use cases::lines::{Line, LineCall};
use std::io;
use std::io::Read;
use vectors::lists;
use vectors::lists::{Bytes, Codes, Lent};
use vectors::reader::Reader;
use vectors::show::{Left, Runs, Untouched};

fn show_given(rt: &impl Print, call: LineCall, line: &Line) -> io::Result<()> {
    print!(rt;
        "{call} cells{} sizes{}",
        Runs(line.cells),
        Runs(line.sizes)
    )?;
    match call.0 {
        Cells::Coloured => print!(rt; " colours{}", Runs(line.colours)),
        Cells::Binary => Ok(()),
    }
}

// The number and what it leaves: of the memo only a refusal by checking says what that is.
fn show_left(rt: &impl Print, number: u32, memo: &[u8], out: &[u32]) -> io::Result<()> {
    print!(rt; " -> {number}; out{}", Left(Lent::whole(out)))?;
    match number {
        0 | 8 => Ok(()),
        _ => print!(rt; "; memo{}", Untouched(Lent::whole(memo))),
    }
}

// Lends as much room as the case says.
pub(crate) fn show<R: Read>(
    rt: &impl Print,
    call: LineCall,
    reader: &mut Reader<R>,
) -> io::Result<()> {
    let mut cells: Codes = lists::make();
    let mut sizes: Codes = lists::make();
    let mut colours: Codes = lists::make();
    let memo_room = reader.demand_size()?;
    let out_room = reader.demand_size()?;
    let line = Line::read(reader, &mut cells, &mut sizes, &mut colours)?;
    show_given(rt, call, &line)?;
    print!(rt; " memo {memo_room}")?;
    let mut memo: Bytes = lists::make_filled(0);
    let mut out: Codes = lists::make_filled(0);
    let memo = lists::lend(&mut memo, memo_room);
    let out = lists::lend(&mut out, out_room);
    let number = line.solve(call, memo, out);
    show_left(rt, number, memo, out)?;
    rt.println("")
}
