// Shows the calls on blocks. A case has a length (0 where the call has none), sizes, colours, and the rooms of the lists to write.
use crate::answers::{Answer, room_at};
use cases::blocks::{BlockCall, Blocks};
use cases::calls::Cells;
use std::io;
use std::io::Read;
use vectors::lists;
use vectors::lists::{Codes, Lent, Sums};
use vectors::reader::Reader;
use vectors::show::{Left, Runs};

fn show_given(rt: &impl Print, call: BlockCall, blocks: &Blocks) -> io::Result<()> {
    print!(rt; "{call}")?;
    if let BlockCall::PositionsNumber(_) | BlockCall::ColorRanges = call {
        print!(rt; " length {}", blocks.length)?;
    }
    print!(rt; " sizes{}", Runs(blocks.sizes))?;
    match call.cells() {
        Cells::Coloured => print!(rt; " colours{}", Runs(blocks.colours)),
        Cells::Binary => Ok(()),
    }
}

// Each call is lent as much room as the case says.
fn show_sums(rt: &impl Print, cells: Cells, blocks: &Blocks, rooms: &[u32]) -> io::Result<()> {
    let mut sums: Sums = lists::make_filled(0);
    let sums = lists::lend(&mut sums, room_at(rooms, 0));
    let answer = Answer::from(blocks.partial_sums(cells, sums));
    print!(rt; "{answer}; sums{}", Left(Lent::whole(sums)))
}

fn show_starts(rt: &impl Print, cells: Cells, blocks: &Blocks, rooms: &[u32]) -> io::Result<()> {
    let mut starts: Sums = lists::make_filled(0);
    let starts = lists::lend(&mut starts, room_at(rooms, 0));
    let answer = Answer::from(blocks.block_starts(cells, starts));
    print!(rt; "{answer}; starts{}", Left(Lent::whole(starts)))
}

fn show_ranges(rt: &impl Print, blocks: &Blocks, rooms: &[u32]) -> io::Result<()> {
    let mut colours: Codes = lists::make_filled(0);
    let mut from: Sums = lists::make_filled(0);
    let mut to: Sums = lists::make_filled(0);
    let colours = lists::lend(&mut colours, room_at(rooms, 0));
    let from = lists::lend(&mut from, room_at(rooms, 1));
    let to = lists::lend(&mut to, room_at(rooms, 2));
    let answer = Answer::from(blocks.color_ranges(colours, from, to));
    print!(rt; "{answer}; out_colours{}", Left(Lent::whole(colours)))?;
    print!(rt; "; out_from{}", Left(Lent::whole(from)))?;
    print!(rt; "; out_to{}", Left(Lent::whole(to)))
}

fn show_description(
    rt: &impl Print,
    cells: Cells,
    blocks: &Blocks,
    rooms: &[u32],
) -> io::Result<()> {
    let mut sizes: Codes = lists::make_filled(0);
    let mut colours: Codes = lists::make_filled(0);
    let sizes = lists::lend(&mut sizes, room_at(rooms, 0));
    let colours = lists::lend(&mut colours, room_at(rooms, 1));
    let answer = Answer::from(blocks.description(cells, sizes, colours));
    print!(rt; "{answer}; out_sizes{}", Left(Lent::whole(sizes)))?;
    match cells {
        Cells::Coloured => print!(rt; "; out_colours{}", Left(Lent::whole(colours))),
        Cells::Binary => Ok(()),
    }
}

fn show_positions(rt: &impl Print, cells: Cells, blocks: &Blocks) -> io::Result<()> {
    let answer = Answer::from(blocks.positions_number(cells));
    print!(rt; "{answer}")
}

pub(crate) fn show<R: Read>(
    rt: &impl Print,
    call: BlockCall,
    reader: &mut Reader<R>,
) -> io::Result<()> {
    let mut sizes: Codes = lists::make();
    let mut colours: Codes = lists::make();
    let mut rooms: Codes = lists::make();
    let blocks = Blocks::read(reader, &mut sizes, &mut colours)?;
    let rooms = reader.read_into(&mut rooms)?;
    show_given(rt, call, &blocks)?;
    match call {
        BlockCall::PartialSums(cells) => show_sums(rt, cells, &blocks, rooms)?,
        BlockCall::BlockStarts(cells) => show_starts(rt, cells, &blocks, rooms)?,
        BlockCall::PositionsNumber(cells) => show_positions(rt, cells, &blocks)?,
        BlockCall::ColorRanges => show_ranges(rt, &blocks, rooms)?,
        BlockCall::Description(cells) => show_description(rt, cells, &blocks, rooms)?,
    }
    rt.println("")
}
