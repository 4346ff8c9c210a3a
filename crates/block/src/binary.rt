// Binary blocks: a list of sizes.
ghost use Rattle.rules.specs.Block.{binary};

use crate::Blocks;
use rules::Refusal;
use rules::judge::judge_black;

// The colour of a binary block.
pub const BLACK: u32 = 2;

// Block i has size i, and is black.
#[derive(Clone, Copy)]
pub struct Binary<'a> {
    pub sizes: &'a [u32],
}

impl<'a> Blocks for Binary<'a> {
    ghost lent = { λ blocks. binary blocks.sizes.now };

    fn count(&self) -> usize {
        self.sizes.len()
    }

    fn size(&self, i: usize) -> u32 {
        self.sizes[i]
    }

    fn colour(&self, _i: usize) -> u32 {
        BLACK
    }

    fn judge(&self, roomy: bool) -> Result<(), Refusal> {
        judge_black(self.sizes, roomy)
    }
}
