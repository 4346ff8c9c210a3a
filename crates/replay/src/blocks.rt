// Replays the calls on blocks. A case has a length, sizes and colours, then the answer's value and four lists, of 32 and of 64 bits:
// a call takes and writes those that it has, and the others are 0 and empty.
use cases::blocks::{BlockCall, Blocks};
use replies::count::CountReply;
use replies::number::PositionsReply;
use std::io;
use std::io::Read;
use vectors::comparison::Comparison;
use vectors::lists;
use vectors::lists::{Codes, Lent, Sums};
use vectors::reader::Reader;

// A value that no call of a case answers: a number, since it is compared with the number that the file has there.
const NO_VALUE: u64 = u64::MAX;

// Two functions, since C has a struct for each kind of answer.
fn value_of(reply: CountReply) -> u64 {
    match reply.number {
        0 => reply.count as u64,
        _ => NO_VALUE,
    }
}

fn positions_of(reply: PositionsReply) -> u64 {
    match reply.number {
        0 => reply.positions,
        _ => NO_VALUE,
    }
}

// Makes the call, on the lists that it has, and answers its value.
fn call_blocks(
    call: BlockCall,
    blocks: &Blocks,
    codes: &mut [u32],
    more_codes: &mut [u32],
    sums: &mut [u64],
    more_sums: &mut [u64],
) -> u64 {
    match call {
        BlockCall::PartialSums(cells) => value_of(blocks.partial_sums(cells, sums)),
        BlockCall::BlockStarts(cells) => value_of(blocks.block_starts(cells, sums)),
        BlockCall::PositionsNumber(cells) => positions_of(blocks.positions_number(cells)),
        BlockCall::ColorRanges => value_of(blocks.color_ranges(codes, sums, more_sums)),
        BlockCall::Description(cells) => value_of(blocks.description(cells, codes, more_codes)),
    }
}

// Makes the call on filled lists, and compares.
pub(crate) fn replay<R: Read>(call: BlockCall, reader: &mut Reader<R>) -> io::Result<u64> {
    let mut sizes: Codes = lists::make();
    let mut colours: Codes = lists::make();
    let mut codes: Codes = lists::make_filled(0);
    let mut more_codes: Codes = lists::make_filled(0);
    let mut sums: Sums = lists::make_filled(0);
    let mut more_sums: Sums = lists::make_filled(0);
    let blocks = Blocks::read(reader, &mut sizes, &mut colours)?;
    let value = call_blocks(
        call,
        &blocks,
        &mut codes,
        &mut more_codes,
        &mut sums,
        &mut more_sums,
    );
    let mut comparison = Comparison::new(reader);
    comparison.number(value)?;
    comparison.list(&Lent::whole(&codes))?;
    comparison.list(&Lent::whole(&more_codes))?;
    comparison.list(&Lent::whole(&sums))?;
    comparison.list(&Lent::whole(&more_sums))?;
    Ok(comparison.differing())
}
