// The loop of a run: lines are taken from the stack until it is empty or a line is refused.
ghost use Rattle.std.specs.Prelude.{◌≡◌, [], ◌+◌, ◌≤◌, length};
ghost use Rattle.rules.specs.Board.{len};
ghost use Rattle.rules.specs.Card.{clue_of, solve_straight};
ghost use Rattle.rules.specs.Run.{room, run};
ghost use Rattle.rules.specs.Refusal.{stack_size};
ghost use Rattle.stack.specs.Stack.{lines_on, Kept, Starts};
ghost use Rattle.card.specs.Steps.{lent_card};
ghost use Rattle.run.specs.Ends.{end_of, start_stack, start_count};
ghost use Rattle.run.specs.Steps.{InGrid, Begins, Ended, Judged};

use crate::{Progress, RunError, Start};
use card::parts::Card;
use grid::report::Report;
use rules::LinePosition;
use stack::Stack;
use update::update_line;

// How many cells a line has.
fn len_of(width: usize, height: usize, line: LinePosition) -> usize
    ensures { result ≡ len width height line }
{
    match line {
        LinePosition::Row(_) => width,
        LinePosition::Column(_) => height,
    }
}

// Takes line after line from the stack. Width and height stay two numbers, here and below: the words of all contracts (`Grid`, `len`, `On`) take them so.
fn run_jobs(
    width: usize,
    height: usize,
    grid: &mut [u32],
    card: Card,
    report: &mut Report,
    memo: &mut [u8],
    column: &mut [u32],
    answer: &mut [u32],
    stack: &mut Stack,
) -> Result<Progress, RunError>
    requires { Begins width height (lent_card card) grid.old report.old memo.old column.old answer.old stack.old }
    ensures kept { Kept stack.old stack.new }
    ensures same { report.new.cells.ghost_name ≡ report.old.cells.ghost_name }
    ensures ended { Ended (run width height (solve_straight width height (clue_of (lent_card card.entry))) (room grid.old + stack.old.count) (lines_on stack.old) grid.old [] 0) result grid.new report.old.cells.now report.new.cells.now }
{
    let mut lines: usize = 0;
    while let Some(line) = stack.pop() {
        let length = len_of(width, height, line);
        if !update_line(
            width,
            height,
            grid,
            card,
            report,
            memo,
            column,
            &mut answer[..length],
            line,
            stack,
        ) {
            return Err(RunError::Unsolvable {
                line,
                progress: Progress {
                    entries: report.count,
                    lines,
                },
            });
        }
        lines += 1;
    }
    Ok(Progress {
        entries: report.count,
        lines,
    })
}

// Sets the stack up in a lent list.
fn set_up<'a>(width: usize, height: usize, start: Start, codes: &'a mut [u32]) -> Stack<'a>
    requires { (width ≤ 64) × (height ≤ 64) × InGrid width height start × (stack_size ≤ length codes.old) }
    ensures same { result.codes.ghost_name ≡ codes.entry.ghost_name }
    ensures starts { Starts (start_stack width height start) codes.old result }
    ensures count { result.count ≡ start_count width height start }
{
    match start {
        Start::Full => Stack::full(width, height, codes),
        Start::Point(x, y) => Stack::point(x, y, codes),
    }
}

// The run of what was judged. `column` is for a column's cells, `answer` for a line's.
pub fn run_judged(
    width: usize,
    height: usize,
    start: Start,
    grid: &mut [u32],
    card: Card,
    report: &mut [u32],
    memo: &mut [u8],
    stack: &mut [u32],
) -> Result<Progress, RunError>
    requires { Judged width height start (lent_card card) grid.old report.old memo.old stack.old }
    ensures { Ended (end_of width height start (lent_card card.entry) grid.old) result grid.new report.old report.new }
{
    let mut report = Report {
        cells: report,
        count: 0,
    };
    let mut stack = set_up(width, height, start, stack);
    let mut column = [0u32; 64];
    let mut answer = [0u32; 64];
    run_jobs(
        width,
        height,
        grid,
        card,
        &mut report,
        memo,
        &mut column,
        &mut answer,
        &mut stack,
    )
}
