// Replays the calls that solve a line. A case has cells, sizes and colours (none where the line is binary), then the answer's number and
// the output, which is empty with 8: then nothing may be written.
use cases::lines::{Line, LineCall};
use std::io;
use std::io::Read;
use vectors::comparison::Comparison;
use vectors::lists;
use vectors::lists::{Bytes, Codes, Lent};
use vectors::reader::Reader;

// The least memo that a line can be solved with.
const MEMO: usize = 4160;

// Lends a memo and an output that are filled, the memo by the case's turn, and compares.
pub(crate) fn replay<R: Read>(
    turn: usize,
    call: LineCall,
    reader: &mut Reader<R>,
) -> io::Result<u64> {
    let mut cells: Codes = lists::make();
    let mut sizes: Codes = lists::make();
    let mut colours: Codes = lists::make();
    let mut memo: Bytes = lists::make_filled(turn);
    let mut out: Codes = lists::make_filled(0);
    let line = Line::read(reader, &mut cells, &mut sizes, &mut colours)?;
    let memo = lists::lend(&mut memo, MEMO);
    let out = lists::lend(&mut out, line.cells.len());
    let number = line.solve(call, memo, out);
    let mut comparison = Comparison::new(reader);
    comparison.number(u64::from(number))?;
    comparison.list(&Lent::whole(out))?;
    Ok(comparison.differing())
}
