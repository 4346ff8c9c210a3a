// Runs on a grid, full and from a point.
ghost use Rattle.rules.specs.Card.{black_card, card_of};
ghost use Rattle.run.specs.declared.Start.TheVariants.{Full, Point};
ghost use Rattle.propagation.specs.Calls.{RunsColoured, RunsBinary};
ghost use Rattle.replies.specs.Replies.{Told, tell_run};

use card::parts::{BlackCard, Card};
use propagation::{run, run_point};
use replies::runs::RunReply;
use rules::{ColumnIndex, RowIndex};

// A full run on a grid of colour sets, with a coloured card.
pub fn sp_run<'a, 'b>(
    width: usize,
    height: usize,
    grid: &mut [u32],
    row_counts: &[u32],
    row_sizes: &'a [u32],
    row_colours: &'b [u32],
    column_counts: &[u32],
    column_sizes: &'a [u32],
    column_colours: &'b [u32],
    report: &mut [u32],
    memo: &mut [u8],
    stack: &mut [u32],
) -> RunReply
    ensures { Told tell_run (λ t. RunsColoured width height Full (card_of row_counts.now row_sizes.now row_colours.now column_counts.now column_sizes.now column_colours.now) grid.old report.old memo.old stack.old t grid.new report.new memo.new stack.new) result }
{
    RunReply::from(run(
        width,
        height,
        grid,
        &Card {
            row_counts,
            row_sizes,
            row_colours,
            column_counts,
            column_sizes,
            column_colours,
        },
        report,
        memo,
        stack,
    ))
}

// A run from a point on a grid of colour sets, with a coloured card.
pub fn sp_run_point<'a, 'b>(
    width: usize,
    height: usize,
    x: usize,
    y: usize,
    grid: &mut [u32],
    row_counts: &[u32],
    row_sizes: &'a [u32],
    row_colours: &'b [u32],
    column_counts: &[u32],
    column_sizes: &'a [u32],
    column_colours: &'b [u32],
    report: &mut [u32],
    memo: &mut [u8],
    stack: &mut [u32],
) -> RunReply
    ensures { Told tell_run (λ t. RunsColoured width height (Point (record { 0 = x }) (record { 0 = y })) (card_of row_counts.now row_sizes.now row_colours.now column_counts.now column_sizes.now column_colours.now) grid.old report.old memo.old stack.old t grid.new report.new memo.new stack.new) result }
{
    RunReply::from(run_point(
        width,
        height,
        ColumnIndex(x),
        RowIndex(y),
        grid,
        &Card {
            row_counts,
            row_sizes,
            row_colours,
            column_counts,
            column_sizes,
            column_colours,
        },
        report,
        memo,
        stack,
    ))
}

// A full run on a grid of binary cells, with a card of sizes.
pub fn sp_run_binary<'a>(
    width: usize,
    height: usize,
    grid: &mut [u32],
    row_counts: &[u32],
    row_sizes: &'a [u32],
    column_counts: &[u32],
    column_sizes: &'a [u32],
    report: &mut [u32],
    memo: &mut [u8],
    stack: &mut [u32],
) -> RunReply
    ensures { Told tell_run (λ t. RunsBinary width height Full (black_card row_counts.now row_sizes.now column_counts.now column_sizes.now) grid.old report.old memo.old stack.old t grid.new report.new memo.new stack.new) result }
{
    RunReply::from(run(
        width,
        height,
        grid,
        &BlackCard {
            row_counts,
            row_sizes,
            column_counts,
            column_sizes,
        },
        report,
        memo,
        stack,
    ))
}

// A run from a point on a grid of binary cells, with a card of sizes.
pub fn sp_run_binary_point<'a>(
    width: usize,
    height: usize,
    x: usize,
    y: usize,
    grid: &mut [u32],
    row_counts: &[u32],
    row_sizes: &'a [u32],
    column_counts: &[u32],
    column_sizes: &'a [u32],
    report: &mut [u32],
    memo: &mut [u8],
    stack: &mut [u32],
) -> RunReply
    ensures { Told tell_run (λ t. RunsBinary width height (Point (record { 0 = x }) (record { 0 = y })) (black_card row_counts.now row_sizes.now column_counts.now column_sizes.now) grid.old report.old memo.old stack.old t grid.new report.new memo.new stack.new) result }
{
    RunReply::from(run_point(
        width,
        height,
        ColumnIndex(x),
        RowIndex(y),
        grid,
        &BlackCard {
            row_counts,
            row_sizes,
            column_counts,
            column_sizes,
        },
        report,
        memo,
        stack,
    ))
}
