// Replays the runs. A case has a card (its point is 0, 0 in a full run, and binary blocks have no colours), then the answer's number, the
// refusing line's kind (0 a row, 1 a column, 2 none) and index, report entries, lines solved, the grid, and the report.
use cases::cards::{Board, Card, Room};
use cases::runs::{RunCall, Workspace, run};
use replies::runs::RunReply;
use std::io;
use std::io::Read;
use vectors::comparison::Comparison;
use vectors::lists;
use vectors::lists::{Bytes, Codes, Lent, Report};
use vectors::reader::Reader;

// The least memo of a run.
const MEMO: usize = 4160;

// The least stack of a run.
const STACK: usize = 128;

fn compare_reply<R: Read>(comparison: &mut Comparison<R>, reply: RunReply) -> io::Result<()> {
    comparison.number(u64::from(reply.number))?;
    comparison.number(u64::from(reply.line_kind))?;
    comparison.number(reply.line_index as u64)?;
    comparison.number(reply.entries as u64)?;
    comparison.number(reply.lines as u64)
}

// Makes the run. It is lent the least memo and stack, and the report from `first` on. What memo and stack hold goes by the turn.
fn make_run(
    turn: usize,
    call: RunCall,
    card: &Card,
    grid: &mut [u32],
    first: usize,
    report: &mut [u32],
) -> RunReply {
    let mut memo: Bytes = lists::make_filled(turn);
    let mut stack = lists::make_filled_stack(turn);
    let start = lists::within(first, report);
    let mut space = Workspace {
        report: &mut report[start..],
        memo: lists::lend(&mut memo, MEMO),
        stack: lists::lend(&mut stack, STACK),
    };
    run(call, card, grid, &mut space)
}

// Lends the report's least room with up to three entries more, and compares.
pub(crate) fn replay<R: Read>(
    turn: usize,
    call: RunCall,
    reader: &mut Reader<R>,
) -> io::Result<u64> {
    let mut grid: Codes = lists::make();
    let mut room: Room = lists::make();
    let mut report: Report = lists::make_filled(0);
    let board = Board::read(reader, &mut grid)?;
    let card = Card::read(reader, board.head, &mut room)?;
    let grid = &mut grid[..board.cells];
    let first = turn % 61;
    let least = lists::within(card.head.room, &report);
    let report = lists::lend(&mut report, first + least + turn % 4);
    let reply = make_run(turn, call, &card, grid, first, report);
    let mut comparison = Comparison::new(reader);
    compare_reply(&mut comparison, reply)?;
    comparison.list(&Lent::whole(grid))?;
    comparison.list(&Lent {
        turn: 0,
        first,
        list: report,
    })?;
    Ok(comparison.differing())
}
