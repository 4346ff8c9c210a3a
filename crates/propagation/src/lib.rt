// Propagation: lines of the lent grid are solved one after the other until nothing changes (nonogrid's propagation.rs).
// Each public call takes coloured and binary cards alike. It judges its input first, and a refusal by checking changes nothing. Width and height stay
// two numbers, as the words of all contracts take them; what is lent with a card stays lists, as C has it.
#![tactic(auto)]

ghost use Rattle.std.specs.Prelude.{◌≡◌};
ghost use Rattle.rules.specs.Card.{Card};
ghost use Rattle.rules.specs.CardRules.{card_rules};
ghost use Rattle.rules.specs.Refusal.{verdict};
ghost use Rattle.run.specs.Ends.{reply_by, end_of};
ghost use Rattle.run.specs.Steps.{Judged};
ghost use Rattle.propagation.specs.Calls.{Cells, RunsIn};
ghost use Rattle.propagation.specs.Steps.{set_in, sets_in, rules_in, EndedIn};

pub mod binary;
mod judge;
pub mod multicolor;

use judge::judge_run;
use rules::{ColumnIndex, Refusal, RowIndex};
use run::{Progress, RunError, Start};

// A card as lists lend it, and with it the kind of cell of its grid: sets of colours, or binary cells.
pub trait LentCard {
    ghost lent: { Self → Card };

    ghost kind: { Cells };

    // Rules 1 to 4.
    fn judge(
        &self,
        width: usize,
        height: usize,
        cells: usize,
        memo: usize,
        stack: usize,
    ) -> Result<(), Refusal>
        ensures { result ≡ verdict (card_rules width height cells (lent self.now) memo stack) };

    // Rule 5, of binary cells.
    fn judge_cells(&self, grid: &[u32]) -> Result<(), Refusal>
        ensures { result ≡ verdict (rules_in kind grid.now) };

    // A cell as a set of colours.
    fn set_of(&self, cell: u32) -> u32
        ensures { result ≡ set_in kind cell };

    // The run of what was judged.
    fn run_judged(
        &self,
        width: usize,
        height: usize,
        start: Start,
        grid: &mut [u32],
        report: &mut [u32],
        memo: &mut [u8],
        stack: &mut [u32],
    ) -> Result<Progress, RunError>
        requires { Judged width height start (lent self.now) (sets_in kind grid.old) report.old memo.old stack.old }
        ensures { EndedIn kind (end_of width height start (lent self.now) (sets_in kind grid.old)) result grid.new report.old report.new };
}

// A run from any start: its input is judged first.
fn run_from<C: LentCard>(
    width: usize,
    height: usize,
    start: Start,
    grid: &mut [u32],
    card: &C,
    report: &mut [u32],
    memo: &mut [u8],
    stack: &mut [u32],
) -> Result<Progress, RunError>
    ensures { RunsIn C.kind width height start (C.lent card.now) grid.old report.old memo.old stack.old (reply_by result) grid.new report.new memo.new stack.new }
{
    judge_run(
        width,
        height,
        start,
        &grid[..],
        card,
        report.len(),
        memo.len(),
        stack.len(),
    )?;
    card.run_judged(width, height, start, grid, report, memo, stack)
}

// A full run: all lines, the farthest from the middle first.
pub fn run<C: LentCard>(
    width: usize,
    height: usize,
    grid: &mut [u32],
    card: &C,
    report: &mut [u32],
    memo: &mut [u8],
    stack: &mut [u32],
) -> Result<Progress, RunError>
    ensures { RunsIn C.kind width height Start.Full (C.lent card.now) grid.old report.old memo.old stack.old (reply_by result) grid.new report.new memo.new stack.new }
{
    run_from(width, height, Start::Full, grid, card, report, memo, stack)
}

// A run from a point: its row, its column, and what follows from them.
pub fn run_point<C: LentCard>(
    width: usize,
    height: usize,
    x: ColumnIndex,
    y: RowIndex,
    grid: &mut [u32],
    card: &C,
    report: &mut [u32],
    memo: &mut [u8],
    stack: &mut [u32],
) -> Result<Progress, RunError>
    ensures { RunsIn C.kind width height (Start.Point x y) (C.lent card.now) grid.old report.old memo.old stack.old (reply_by result) grid.new report.new memo.new stack.new }
{
    run_from(
        width,
        height,
        Start::Point(x, y),
        grid,
        card,
        report,
        memo,
        stack,
    )
}
