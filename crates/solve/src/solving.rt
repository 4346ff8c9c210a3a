// Makes a full run on a card, and shows what it leaves.
use crate::board::Board;
use card::parts;
use non::card::Card;
use non::palette::{BLACK, MOST_COLOURS, Palette};
use rules::{LinePosition, Refusal};
use run::{Progress, RunError};
use std::io;

// The room that a run asks for: a report in which 31 colours of each of 4,096 cells go, the memo, and the stack.
const REPORT: usize = 126976;

const MEMO: usize = 4160;

const STACK: usize = 128;

// Whether a card has a colour but black.
fn is_coloured(palette: &Palette) -> bool {
    palette.words.as_slice().iter().any(|&word| word != BLACK)
}

// The set of blank and all colours of a card.
fn full_set(palette: &Palette) -> u32 {
    u32::MAX >> (MOST_COLOURS - palette.words.len())
}

fn run_card(card: &Card, coloured: bool, grid: &mut [u32]) -> Result<Progress, RunError> {
    let (rows, columns) = (&card.rows, &card.columns);
    let mut report = [0u32; REPORT];
    let mut memo = [0u8; MEMO];
    let mut stack = [0u32; STACK];
    if coloured {
        propagation::run(
            columns.side(),
            rows.side(),
            grid,
            &parts::Card {
                row_counts: rows.counts(),
                row_sizes: rows.sizes(),
                row_colours: rows.colours(),
                column_counts: columns.counts(),
                column_sizes: columns.sizes(),
                column_colours: columns.colours(),
            },
            &mut report,
            &mut memo,
            &mut stack,
        )
    } else {
        propagation::run(
            columns.side(),
            rows.side(),
            grid,
            &parts::BlackCard {
                row_counts: rows.counts(),
                row_sizes: rows.sizes(),
                column_counts: columns.counts(),
                column_sizes: columns.sizes(),
            },
            &mut report,
            &mut memo,
            &mut stack,
        )
    }
}

// Names the line that cannot be filled.
fn write_unsolvable(rt: &impl Print, line: LinePosition, card: &Card) -> io::Result<()> {
    let (name, index, place) = match line {
        LinePosition::Row(y) => ("row", y.0, card.rows.place(y.0)),
        LinePosition::Column(x) => ("column", x.0, card.columns.place(x.0)),
    };
    let number = index.wrapping_add(1);
    println!(rt;
        "unsolvable (8): {name} {number} cannot be filled, its clue is in line {place} of the file"
    )?;
    println!(rt; "half-solved board:")
}

// Tells how many cells of a board are open, of which every cell is one.
fn write_open(rt: &impl Print, open: usize, board: &Board<'_>) -> io::Result<()> {
    let cells = board.cells.len();
    print!(rt; "{open} of {cells} cells are open, ")
}

// Shows what a run answers. Nothing is shown where it refuses the card: the refusal is handed back.
fn show_answer(
    rt: &impl Print,
    answer: Result<Progress, RunError>,
    board: &Board<'_>,
) -> io::Result<Option<Refusal>> {
    let open = board.count_open();
    let lines = match answer {
        Err(RunError::Refused(refusal)) => return Ok(Some(refusal)),
        Ok(Progress { lines, .. }) => {
            print!(rt; "{board}")?;
            if open == 0 {
                print!(rt; "solved: every cell is known, ")?;
            } else {
                write_open(rt, open, board)?;
            }
            lines
        }
        Err(RunError::Unsolvable { line, progress }) => {
            write_unsolvable(rt, line, board.card)?;
            print!(rt; "{board}")?;
            write_open(rt, open, board)?;
            progress.lines
        }
    };
    println!(rt; "{lines} lines solved")?;
    Ok(None)
}

// Solves a card and shows its board, unless the run refuses it.
pub(crate) fn solve_card(rt: &impl Print, card: &Card) -> io::Result<Option<Refusal>> {
    let coloured = is_coloured(&card.palette);
    let first = if coloured { full_set(&card.palette) } else { 0 };
    let mut cells = [first; 4096];
    let size = card.columns.side().saturating_mul(card.rows.side());
    let Some(grid) = cells.get_mut(..size) else {
        return Ok(None);
    };
    let answer = run_card(card, coloured, grid);
    let board = Board {
        card,
        coloured,
        cells: grid,
    };
    show_answer(rt, answer, &board)
}
