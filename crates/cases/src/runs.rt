// The runs.
ghost use Rattle.std.specs.Prelude.{◌≡◌};
ghost use Rattle.cases.specs.Calls.{cells_of_run};

use crate::calls::Cells;
use crate::cards::Card;
use device::runs::{sp_run, sp_run_binary, sp_run_binary_point, sp_run_point};
use replies::runs::RunReply;
use std::fmt;

// A run: of all lines, or from a point.
#[derive(Clone, Copy, Debug, PartialEq, Eq)]
pub enum RunCall {
    Full(Cells),
    Point(Cells),
}

impl RunCall {
    // The cells that the run is for.
    pub fn cells(self) -> Cells
        ensures { result ≡ cells_of_run self }
    {
        match self {
            RunCall::Full(cells) => cells,
            RunCall::Point(cells) => cells,
        }
    }
}

impl fmt::Display for RunCall {
    fn fmt<W: fmt::Write>(&self, f: &mut fmt::Formatter<W>) -> fmt::Result {
        f.write_str(match self {
            RunCall::Full(Cells::Coloured) => "sp_run",
            RunCall::Point(Cells::Coloured) => "sp_run_point",
            RunCall::Full(Cells::Binary) => "sp_run_binary",
            RunCall::Point(Cells::Binary) => "sp_run_binary_point",
        })
    }
}

// What a run is lent beside its grid.
#[derive(Drop)]
pub struct Workspace<'a> {
    pub report: &'a mut [u32],
    pub memo: &'a mut [u8],
    pub stack: &'a mut [u32],
}

fn run_full(card: &Card, cells: Cells, grid: &mut [u32], space: &mut Workspace) -> RunReply {
    match cells {
        Cells::Coloured => sp_run(
            card.head.width,
            card.head.height,
            grid,
            card.rows.counts,
            card.rows.sizes,
            card.rows.colours,
            card.columns.counts,
            card.columns.sizes,
            card.columns.colours,
            space.report,
            space.memo,
            space.stack,
        ),
        Cells::Binary => sp_run_binary(
            card.head.width,
            card.head.height,
            grid,
            card.rows.counts,
            card.rows.sizes,
            card.columns.counts,
            card.columns.sizes,
            space.report,
            space.memo,
            space.stack,
        ),
    }
}

fn run_point(card: &Card, cells: Cells, grid: &mut [u32], space: &mut Workspace) -> RunReply {
    match cells {
        Cells::Coloured => sp_run_point(
            card.head.width,
            card.head.height,
            card.head.x,
            card.head.y,
            grid,
            card.rows.counts,
            card.rows.sizes,
            card.rows.colours,
            card.columns.counts,
            card.columns.sizes,
            card.columns.colours,
            space.report,
            space.memo,
            space.stack,
        ),
        Cells::Binary => sp_run_binary_point(
            card.head.width,
            card.head.height,
            card.head.x,
            card.head.y,
            grid,
            card.rows.counts,
            card.rows.sizes,
            card.columns.counts,
            card.columns.sizes,
            space.report,
            space.memo,
            space.stack,
        ),
    }
}

// Makes a run on a card.
pub fn run(call: RunCall, card: &Card, grid: &mut [u32], space: &mut Workspace) -> RunReply {
    match call {
        RunCall::Full(cells) => run_full(card, cells, grid, space),
        RunCall::Point(cells) => run_point(card, cells, grid, space),
    }
}
