// Replays the calls for clues. A case has a width and a height (0 for a line), a blank code and codes, then how many blocks the rows
// have and the columns, and counts, sizes and colours of each direction. A line's clue stands in the rows' sizes and colours.
use cases::clues::{ClueCall, Written, take_clues, take_line};
use std::io;
use std::io::Read;
use vectors::comparison::Comparison;
use vectors::lists;
use vectors::lists::{Codes, Lent, Picture};
use vectors::reader::Reader;

// A total that no call of a case answers: a number, since it is compared with the number that the file has there.
const NO_TOTAL: u64 = u64::MAX;

// How many blocks a call wrote for the rows and for the columns.
fn totals_of(number: u32, rows: usize, columns: usize) -> (u64, u64) {
    match number {
        0 => (rows as u64, columns as u64),
        _ => (NO_TOTAL, NO_TOTAL),
    }
}

fn call_clues(
    call: ClueCall,
    picture: &Picture,
    rows: &mut Written,
    columns: &mut Written,
) -> (u64, u64) {
    match call {
        ClueCall::Line(cells) => {
            let reply = take_line(cells, picture, rows.sizes, rows.colours);
            totals_of(reply.number, reply.count, 0)
        }
        ClueCall::Picture(cells) => {
            let reply = take_clues(cells, picture, rows, columns);
            totals_of(reply.number, reply.rows, reply.columns)
        }
    }
}

fn compare_direction<R: Read>(comparison: &mut Comparison<R>, written: &Written) -> io::Result<()> {
    comparison.list(&Lent::whole(written.counts))?;
    comparison.list(&Lent::whole(written.sizes))?;
    comparison.list(&Lent::whole(written.colours))
}

// Makes the call on filled lists, and compares.
pub(crate) fn replay<R: Read>(call: ClueCall, reader: &mut Reader<R>) -> io::Result<u64> {
    let mut codes: Codes = lists::make();
    let mut row_counts: Codes = lists::make_filled(0);
    let mut row_sizes: Codes = lists::make_filled(0);
    let mut row_colours: Codes = lists::make_filled(0);
    let mut column_counts: Codes = lists::make_filled(0);
    let mut column_sizes: Codes = lists::make_filled(0);
    let mut column_colours: Codes = lists::make_filled(0);
    let mut rows = Written {
        counts: &mut row_counts,
        sizes: &mut row_sizes,
        colours: &mut row_colours,
    };
    let mut columns = Written {
        counts: &mut column_counts,
        sizes: &mut column_sizes,
        colours: &mut column_colours,
    };
    let picture = reader.read_picture(&mut codes)?;
    let (row_total, column_total) = call_clues(call, &picture, &mut rows, &mut columns);
    let mut comparison = Comparison::new(reader);
    comparison.number(row_total)?;
    comparison.number(column_total)?;
    compare_direction(&mut comparison, &rows)?;
    compare_direction(&mut comparison, &columns)?;
    Ok(comparison.differing())
}
