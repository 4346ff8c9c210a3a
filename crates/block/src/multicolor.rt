// Coloured blocks: a list of sizes and a list of colours of equal length.
ghost use Rattle.rules.specs.Block.{coloured};

use crate::Blocks;
use rules::Refusal;
use rules::judge::judge_blocks;

// Block i has size i and colour i. The two lists stand apart, as the C interface lends them.
#[derive(Clone, Copy)]
pub struct Coloured<'a> {
    pub sizes: &'a [u32],
    pub colours: &'a [u32],
}

impl<'a> Blocks for Coloured<'a> {
    ghost lent = { λ blocks. coloured blocks.sizes.now blocks.colours.now };

    fn count(&self) -> usize {
        self.sizes.len().min(self.colours.len())
    }

    fn size(&self, i: usize) -> u32 {
        self.sizes[i]
    }

    fn colour(&self, i: usize) -> u32 {
        self.colours[i]
    }

    fn judge(&self, roomy: bool) -> Result<(), Refusal> {
        judge_blocks(self.sizes, self.colours, roomy)
    }
}
