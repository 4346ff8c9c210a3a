// Shows the calls for clues. A case has a width and a height (0 for a line), a blank code, codes, and the rooms of the lists to write.
use crate::answers::{Answer, room_at};
use cases::calls::Cells;
use cases::clues::{ClueCall, Written, take_clues, take_line};
use std::io;
use std::io::Read;
use vectors::lists;
use vectors::lists::{Codes, Lent, Picture};
use vectors::reader::Reader;
use vectors::show::{Left, Runs};

fn show_given(rt: &impl Print, call: ClueCall, picture: &Picture) -> io::Result<()> {
    print!(rt; "{call}")?;
    if let ClueCall::Picture(_) = call {
        print!(rt; " width {} height {}", picture.width, picture.height)?;
    }
    print!(rt; " blank {} codes{}", picture.blank, Runs(picture.codes))
}

// Each call is lent as much room as the case says.
fn show_line(rt: &impl Print, cells: Cells, picture: &Picture, rooms: &[u32]) -> io::Result<()> {
    let mut sizes: Codes = lists::make_filled(0);
    let mut colours: Codes = lists::make_filled(0);
    let sizes = lists::lend(&mut sizes, room_at(rooms, 0));
    let colours = lists::lend(&mut colours, room_at(rooms, 1));
    let answer = Answer::from(take_line(cells, picture, sizes, colours));
    print!(rt; "{answer}; sizes{}", Left(Lent::whole(sizes)))?;
    match cells {
        Cells::Coloured => print!(rt; "; colours{}", Left(Lent::whole(colours))),
        Cells::Binary => Ok(()),
    }
}

fn show_direction(rt: &impl Print, cells: Cells, name: &str, written: &Written) -> io::Result<()> {
    print!(rt; "; {name}_counts{}", Left(Lent::whole(written.counts)))?;
    print!(rt; "; {name}_sizes{}", Left(Lent::whole(written.sizes)))?;
    match cells {
        Cells::Coloured => print!(rt; "; {name}_colours{}", Left(Lent::whole(written.colours))),
        Cells::Binary => Ok(()),
    }
}

fn show_picture(rt: &impl Print, cells: Cells, picture: &Picture, rooms: &[u32]) -> io::Result<()> {
    let mut row_counts: Codes = lists::make_filled(0);
    let mut row_sizes: Codes = lists::make_filled(0);
    let mut row_colours: Codes = lists::make_filled(0);
    let mut column_counts: Codes = lists::make_filled(0);
    let mut column_sizes: Codes = lists::make_filled(0);
    let mut column_colours: Codes = lists::make_filled(0);
    let mut rows = Written {
        counts: lists::lend(&mut row_counts, room_at(rooms, 0)),
        sizes: lists::lend(&mut row_sizes, room_at(rooms, 1)),
        colours: lists::lend(&mut row_colours, room_at(rooms, 2)),
    };
    let mut columns = Written {
        counts: lists::lend(&mut column_counts, room_at(rooms, 3)),
        sizes: lists::lend(&mut column_sizes, room_at(rooms, 4)),
        colours: lists::lend(&mut column_colours, room_at(rooms, 5)),
    };
    let answer = Answer::from(take_clues(cells, picture, &mut rows, &mut columns));
    print!(rt; "{answer}")?;
    show_direction(rt, cells, "row", &rows)?;
    show_direction(rt, cells, "column", &columns)
}

pub(crate) fn show<R: Read>(
    rt: &impl Print,
    call: ClueCall,
    reader: &mut Reader<R>,
) -> io::Result<()> {
    let mut codes: Codes = lists::make();
    let mut rooms: Codes = lists::make();
    let picture = reader.read_picture(&mut codes)?;
    let rooms = reader.read_into(&mut rooms)?;
    show_given(rt, call, &picture)?;
    match call {
        ClueCall::Line(cells) => show_line(rt, cells, &picture, rooms)?,
        ClueCall::Picture(cells) => show_picture(rt, cells, &picture, rooms)?,
    }
    rt.println("")
}
