// Runs on a grid of binary cells, with a card of sizes. The grid is turned into sets where it lies, and back.
ghost use Rattle.card.specs.Steps.{lent_black_card};
ghost use Rattle.propagation.specs.Calls.{binary_cells};

use crate::LentCard;
use card::judge::judge_black_card;
use card::parts::{BlackCard, Card};
use line::binary::{judge_cells, set_of, to_cells, to_sets};
use rules::Refusal;
use run::jobs::run_judged;
use run::{Progress, RunError, Start};

impl<'a> LentCard for BlackCard<'a> {
    ghost lent = { lent_black_card };

    ghost kind = { binary_cells };

    fn judge(
        &self,
        width: usize,
        height: usize,
        cells: usize,
        memo: usize,
        stack: usize,
    ) -> Result<(), Refusal> {
        judge_black_card(width, height, cells, *self, memo, stack)
    }

    fn judge_cells(&self, grid: &[u32]) -> Result<(), Refusal> {
        judge_cells(grid)
    }

    fn set_of(&self, cell: u32) -> u32 {
        set_of(cell)
    }

    // Each block has a black colour.
    fn run_judged(
        &self,
        width: usize,
        height: usize,
        start: Start,
        grid: &mut [u32],
        report: &mut [u32],
        memo: &mut [u8],
        stack: &mut [u32],
    ) -> Result<Progress, RunError> {
        let colours = [2u32; 4096];
        let card = Card {
            row_counts: self.row_counts,
            row_sizes: self.row_sizes,
            row_colours: &colours[..self.row_sizes.len()],
            column_counts: self.column_counts,
            column_sizes: self.column_sizes,
            column_colours: &colours[..self.column_sizes.len()],
        };
        to_sets(grid);
        let answer = run_judged(width, height, start, grid, card, report, memo, stack);
        to_cells(grid);
        answer
    }
}
