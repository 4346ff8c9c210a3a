// A picture as the loops over its lines read it.
ghost use Rattle.grid.specs.Grid.{Grid};

use clue::Reading;

// A picture with legal sides: its codes row by row, and how they are read.
#[derive(Clone, Copy)]
pub(crate) struct Picture<'a> {
    pub(crate) width: usize,
    pub(crate) height: usize,
    pub(crate) codes: &'a [u32],
    pub(crate) reading: Reading,
    ghost sized: { Grid width height codes.now },
}
