// The leftmost packing.
ghost use Rattle.std.specs.Prelude.{◌≡◌, ℕ, ◌+◌, ◌<◌, ◌≤◌, ◌^◌, length, get_or, drop};
ghost use Rattle.std.proofs.lemmas.List.Edits.{sets};
ghost use Rattle.rules.specs.Block.{◌of◌};
ghost use Rattle.rules.specs.Packing.{minimal_space};
ghost use Rattle.rules.specs.Placement.{gap};
ghost use Rattle.block.specs.Steps.{Packable, edges_from};

use crate::Blocks;

// Where the next block begins at the earliest: one blank after `end` if it has the colour of block i.
fn next_start<B: Blocks>(blocks: &B, i: usize, end: u64) -> u64
    requires { (i < length (B.lent blocks.now).list) × (end < 2 ^ 60) }
    ensures { result ≡ end + length (gap (get_or (B.lent blocks.now).list i (0 of 0)).colour (drop (i + 1) (B.lent blocks.now).list)) }
{
    let count = blocks.count();
    if i + 1 < count && blocks.colour(i) == blocks.colour(i + 1) {
        return end + 1;
    }
    end
}

// What `edge` makes of each block's first cell and the cell after its last, in the leftmost packing.
pub fn pack<B: Blocks, E: Fn(u64, u64) -> u64>(blocks: &B, edge: E, out: &mut [u64])
    requires room { Packable (B.lent blocks.now).list out.old }
    requires callable { E.IsAlwaysCallable edge }
    ensures { (f : ℕ → ℕ → ℕ) → ((start end r : ℕ) → E.post edge start end r → r ≡ f start end) → out.new ≡ sets out.old 0 (edges_from f 0 (B.lent blocks.now).list) }
{
    let mut start: u64 = 0;
    for i in 0..blocks.count() {
        let end = start + u64::from(blocks.size(i));
        out[i] = edge(start, end);
        start = next_start(blocks, i, end);
    }
}

// How long a line must be at least.
pub fn min_space<B: Blocks>(blocks: &B) -> u64
    requires { length (B.lent blocks.now).list ≤ 64 }
    ensures { result ≡ minimal_space (B.lent blocks.now).list }
{
    let mut start: u64 = 0;
    for i in 0..blocks.count() {
        start = next_start(blocks, i, start + u64::from(blocks.size(i)));
    }
    start
}
