// The calls on a line's blocks.
ghost use Rattle.std.specs.Prelude.{◌≡◌};
ghost use Rattle.cases.specs.Calls.{cells_of_block_call};

use crate::calls::Cells;
use device::blocks::{
    sp_binary_block_starts, sp_binary_description, sp_binary_partial_sums,
    sp_binary_positions_number, sp_block_starts, sp_color_ranges, sp_description, sp_partial_sums,
    sp_positions_number,
};
use replies::count::CountReply;
use replies::number::PositionsReply;
use std::io::Read;
use std::{fmt, io};
use vectors::reader::Reader;

// A call on blocks. Only coloured ones have ranges.
#[derive(Clone, Copy, Debug, PartialEq, Eq)]
pub enum BlockCall {
    PartialSums(Cells),
    BlockStarts(Cells),
    PositionsNumber(Cells),
    ColorRanges,
    Description(Cells),
}

impl BlockCall {
    // The cells that the call is for.
    pub fn cells(self) -> Cells
        ensures { result ≡ cells_of_block_call self }
    {
        match self {
            BlockCall::PartialSums(cells) => cells,
            BlockCall::BlockStarts(cells) => cells,
            BlockCall::PositionsNumber(cells) => cells,
            BlockCall::ColorRanges => Cells::Coloured,
            BlockCall::Description(cells) => cells,
        }
    }
}

impl fmt::Display for BlockCall {
    fn fmt<W: fmt::Write>(&self, f: &mut fmt::Formatter<W>) -> fmt::Result {
        f.write_str(match self {
            BlockCall::PartialSums(Cells::Coloured) => "sp_partial_sums",
            BlockCall::BlockStarts(Cells::Coloured) => "sp_block_starts",
            BlockCall::PositionsNumber(Cells::Coloured) => "sp_positions_number",
            BlockCall::ColorRanges => "sp_color_ranges",
            BlockCall::Description(Cells::Coloured) => "sp_description",
            BlockCall::PartialSums(Cells::Binary) => "sp_binary_partial_sums",
            BlockCall::BlockStarts(Cells::Binary) => "sp_binary_block_starts",
            BlockCall::PositionsNumber(Cells::Binary) => "sp_binary_positions_number",
            BlockCall::Description(Cells::Binary) => "sp_binary_description",
        })
    }
}

// A line's length, 0 where a call has none, and its blocks. Binary ones have no colours.
#[derive(Clone, Copy)]
pub struct Blocks<'a> {
    pub length: usize,
    pub sizes: &'a [u32],
    pub colours: &'a [u32],
}

impl<'a> Blocks<'a> {
    // Reads a length, sizes and colours into the rooms for the two lists.
    pub fn read<R: Read>(
        reader: &mut Reader<R>,
        sizes: &'a mut [u32],
        colours: &'a mut [u32],
    ) -> io::Result<Blocks<'a>> {
        Ok(Blocks {
            length: reader.demand_size()?,
            sizes: reader.read_into(sizes)?,
            colours: reader.read_into(colours)?,
        })
    }

    pub fn partial_sums(&self, cells: Cells, sums: &mut [u64]) -> CountReply {
        match cells {
            Cells::Coloured => sp_partial_sums(self.sizes, self.colours, sums),
            Cells::Binary => sp_binary_partial_sums(self.sizes, sums),
        }
    }

    pub fn block_starts(&self, cells: Cells, starts: &mut [u64]) -> CountReply {
        match cells {
            Cells::Coloured => sp_block_starts(self.sizes, self.colours, starts),
            Cells::Binary => sp_binary_block_starts(self.sizes, starts),
        }
    }

    pub fn positions_number(&self, cells: Cells) -> PositionsReply {
        match cells {
            Cells::Coloured => sp_positions_number(self.length, self.sizes, self.colours),
            Cells::Binary => sp_binary_positions_number(self.length, self.sizes),
        }
    }

    pub fn color_ranges(
        &self,
        out_colours: &mut [u32],
        out_from: &mut [u64],
        out_to: &mut [u64],
    ) -> CountReply {
        sp_color_ranges(
            self.length,
            self.sizes,
            self.colours,
            out_colours,
            out_from,
            out_to,
        )
    }

    pub fn description(
        &self,
        cells: Cells,
        out_sizes: &mut [u32],
        out_colours: &mut [u32],
    ) -> CountReply {
        match cells {
            Cells::Coloured => sp_description(self.sizes, self.colours, out_sizes, out_colours),
            Cells::Binary => sp_binary_description(self.sizes, out_sizes),
        }
    }
}
