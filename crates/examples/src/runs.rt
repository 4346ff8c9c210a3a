// Shows the runs. A case has the rooms of memo and stack, then a card: its point is 0, 0 in a full run, and binary blocks have no colours.
use cases::calls::Cells;
use cases::cards::{Board, Card, Clues, Head, Room};
use cases::runs::{RunCall, Workspace, run};
use replies::runs::RunReply;
use std::io;
use std::io::Read;
use vectors::lists;
use vectors::lists::{Bytes, Codes, Lent, Report};
use vectors::reader::Reader;
use vectors::show::{Left, LeftLong, Runs, Untouched};

fn show_head(rt: &impl Print, call: RunCall, head: Head) -> io::Result<()> {
    print!(rt; "{call} width {} height {}", head.width, head.height)?;
    match call {
        RunCall::Full(_) => Ok(()),
        RunCall::Point(_) => print!(rt; " x {} y {}", head.x, head.y),
    }
}

fn show_clues(rt: &impl Print, cells: Cells, name: &str, clues: &Clues) -> io::Result<()> {
    print!(rt; " {name}_counts{}", Runs(clues.counts))?;
    print!(rt; " {name}_sizes{}", Runs(clues.sizes))?;
    match cells {
        Cells::Coloured => print!(rt; " {name}_colours{}", Runs(clues.colours)),
        Cells::Binary => Ok(()),
    }
}

fn show_given(rt: &impl Print, call: RunCall, card: &Card, grid: &[u32]) -> io::Result<()> {
    show_head(rt, call, card.head)?;
    print!(rt; " grid{}", Runs(grid))?;
    show_clues(rt, call.cells(), "row", &card.rows)?;
    show_clues(rt, call.cells(), "column", &card.columns)?;
    print!(rt; " report {}", card.head.room)
}

// The number; with 8 the line that refused; and without a refusal by checking the report entries and the lines solved.
fn show_answer(rt: &impl Print, reply: RunReply) -> io::Result<()> {
    print!(rt; " -> {}", reply.number)?;
    match reply.line_kind {
        0 => print!(rt; " at row {}", reply.line_index)?,
        1 => print!(rt; " at column {}", reply.line_index)?,
        _ => {}
    }
    match reply.number {
        0 | 8 => print!(rt; ", {} {}", reply.entries, reply.lines),
        _ => Ok(()),
    }
}

// What a run leaves: of memo and stack only a refusal by checking says what that is.
fn show_left(rt: &impl Print, number: u32, grid: &[u32], space: &Workspace) -> io::Result<()> {
    print!(rt;
        "; grid{}; report{}",
        Runs(grid),
        LeftLong(Lent::whole(space.report))
    )?;
    match number {
        0 | 8 => Ok(()),
        _ => {
            print!(rt; "; memo{}", Untouched(Lent::whole(space.memo)))?;
            print!(rt; "; stack{}", Left(Lent::whole(space.stack)))
        }
    }
}

// Lends as much room as the case says.
pub(crate) fn show<R: Read>(
    rt: &impl Print,
    call: RunCall,
    reader: &mut Reader<R>,
) -> io::Result<()> {
    let mut grid: Codes = lists::make();
    let mut room: Room = lists::make();
    let memo_room = reader.demand_size()?;
    let stack_room = reader.demand_size()?;
    let board = Board::read(reader, &mut grid)?;
    let card = Card::read(reader, board.head, &mut room)?;
    let grid = &mut grid[..board.cells];
    show_given(rt, call, &card, grid)?;
    print!(rt; " memo {memo_room} stack {stack_room}")?;
    let mut report: Report = lists::make_filled(0);
    let mut memo: Bytes = lists::make_filled(0);
    let mut stack: Codes = lists::make_filled(0);
    let mut space = Workspace {
        report: lists::lend(&mut report, card.head.room),
        memo: lists::lend(&mut memo, memo_room),
        stack: lists::lend(&mut stack, stack_room),
    };
    let reply = run(call, &card, grid, &mut space);
    show_answer(rt, reply)?;
    show_left(rt, reply.number, grid, &space)?;
    rt.println("")
}
