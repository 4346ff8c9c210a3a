// The rules of a run: those of its card, then binary cells, the point, and the room of the report.
ghost use Rattle.std.specs.Prelude.{◌≡◌, ◌-◌, ◌≤◌, length};
ghost use Rattle.std.specs.Int.Count.{ones};
ghost use Rattle.rules.specs.Refusal.{verdict};
ghost use Rattle.rules.specs.Run.{room};
ghost use Rattle.propagation.specs.Calls.{in_grid, end_rules};
ghost use Rattle.propagation.specs.Steps.{sets_in, all_rules};

use crate::LentCard;
use rules::Refusal;
use run::Start;

// The number of a set's colours less one. The empty set adds 0.
fn less_one(set: u32) -> usize
    ensures { (result ≡ ones set - 1) × (result ≤ 32) }
{
    set.count_ones().saturating_sub(1) as usize
}

// The room number of a grid: the sum, over all cells' sets, of the number of colours less one.
fn count_room<C: LentCard>(card: &C, grid: &[u32]) -> usize
    requires { length grid.now ≤ 4096 }
    ensures { result ≡ room (sets_in C.kind grid.now) }
{
    grid.iter().map(|&cell| less_one(card.set_of(cell))).sum()
}

// Whether the point, if there is one, lies in the grid.
fn in_grid(width: usize, height: usize, start: Start) -> bool
    ensures { result ≡ in_grid width height start }
{
    match start {
        Start::Full => true,
        Start::Point(x, y) => x.0 < width && y.0 < height,
    }
}

// Rules 6 and 7.
fn judge_end(
    width: usize,
    height: usize,
    start: Start,
    report: usize,
    room: usize,
) -> Result<(), Refusal>
    ensures { result ≡ verdict (end_rules width height start report «room») }
{
    if !in_grid(width, height, start) {
        return Err(Refusal::OutsideGrid);
    }
    if report < room {
        return Err(Refusal::ShortReport);
    }
    Ok(())
}

// All rules of a run.
pub(crate) fn judge_run<C: LentCard>(
    width: usize,
    height: usize,
    start: Start,
    grid: &[u32],
    card: &C,
    report: usize,
    memo: usize,
    stack: usize,
) -> Result<(), Refusal>
    ensures { result ≡ verdict (all_rules C.kind width height start (C.lent card.now) grid.now report memo stack) }
{
    card.judge(width, height, grid.len(), memo, stack)?;
    card.judge_cells(grid)?;
    judge_end(width, height, start, report, count_room(card, grid))
}
