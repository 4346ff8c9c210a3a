// The calls that solve a line.
use crate::calls::Cells;
use device::lines::{sp_solve_binary_line, sp_solve_line};
use std::io::Read;
use std::{fmt, io};
use vectors::reader::Reader;

// A call that solves a line.
#[derive(Clone, Copy, Debug, PartialEq, Eq)]
pub struct LineCall(pub Cells);

impl fmt::Display for LineCall {
    fn fmt<W: fmt::Write>(&self, f: &mut fmt::Formatter<W>) -> fmt::Result {
        f.write_str(match self.0 {
            Cells::Coloured => "sp_solve_line",
            Cells::Binary => "sp_solve_binary_line",
        })
    }
}

// A line's cells and its blocks. Binary ones have no colours.
#[derive(Clone, Copy)]
pub struct Line<'a> {
    pub cells: &'a [u32],
    pub sizes: &'a [u32],
    pub colours: &'a [u32],
}

impl<'a> Line<'a> {
    // Reads cells, sizes and colours into the rooms for them.
    pub fn read<R: Read>(
        reader: &mut Reader<R>,
        cells: &'a mut [u32],
        sizes: &'a mut [u32],
        colours: &'a mut [u32],
    ) -> io::Result<Line<'a>> {
        Ok(Line {
            cells: reader.read_into(cells)?,
            sizes: reader.read_into(sizes)?,
            colours: reader.read_into(colours)?,
        })
    }

    // The answer's number.
    pub fn solve(&self, call: LineCall, memo: &mut [u8], out: &mut [u32]) -> u32 {
        match call.0 {
            Cells::Coloured => sp_solve_line(self.cells, self.sizes, self.colours, memo, out),
            Cells::Binary => sp_solve_binary_line(self.cells, self.sizes, memo, out),
        }
    }
}
