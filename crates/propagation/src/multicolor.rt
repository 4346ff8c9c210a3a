// Runs on a grid of colour sets, with a coloured card.
ghost use Rattle.card.specs.Steps.{lent_card};
ghost use Rattle.propagation.specs.Calls.{set_cells};

use crate::LentCard;
use card::judge::judge_card;
use card::parts::Card;
use rules::Refusal;
use run::jobs::run_judged;
use run::{Progress, RunError, Start};

impl<'a> LentCard for Card<'a> {
    ghost lent = { lent_card };

    ghost kind = { set_cells };

    fn judge(
        &self,
        width: usize,
        height: usize,
        cells: usize,
        memo: usize,
        stack: usize,
    ) -> Result<(), Refusal> {
        judge_card(width, height, cells, *self, memo, stack)
    }

    fn judge_cells(&self, _grid: &[u32]) -> Result<(), Refusal> {
        Ok(())
    }

    fn set_of(&self, cell: u32) -> u32 {
        cell
    }

    fn run_judged(
        &self,
        width: usize,
        height: usize,
        start: Start,
        grid: &mut [u32],
        report: &mut [u32],
        memo: &mut [u8],
        stack: &mut [u32],
    ) -> Result<Progress, RunError> {
        run_judged(width, height, start, grid, *self, report, memo, stack)
    }
}
