// The rules of a line: its length, the room of its output and memo, its blocks and, if it is binary, its cells.
ghost use Rattle.std.specs.Prelude.{◌≡◌};
ghost use Rattle.rules.specs.Refusal.{verdict};
ghost use Rattle.line.specs.Calls.{room_for, line_rules, binary_line_rules};

use crate::binary::judge_cells;
use block::Blocks;
use block::binary::Binary;
use rules::Refusal;
use rules::judge::judge_length;

// An output as long as the line, and 65 × 64 bytes of memo.
fn has_room(length: usize, memo: usize, out: usize) -> bool
    ensures { result ≡ room_for length memo out }
{
    out == length && 4160 <= memo
}

// Rules 1 to 4.
pub(crate) fn judge_line<B: Blocks>(
    length: usize,
    blocks: &B,
    memo: usize,
    out: usize,
) -> Result<(), Refusal>
    ensures { result ≡ verdict (line_rules length (B.lent blocks.now) memo out) }
{
    judge_length(length)?;
    blocks.judge(has_room(length, memo, out))
}

// Rules 1 to 5.
pub(crate) fn judge_binary_line(
    cells: &[u32],
    sizes: &[u32],
    memo: usize,
    out: usize,
) -> Result<(), Refusal>
    ensures { result ≡ verdict (binary_line_rules cells.now sizes.now memo out) }
{
    judge_line(cells.len(), &Binary { sizes }, memo, out)?;
    judge_cells(cells)
}
