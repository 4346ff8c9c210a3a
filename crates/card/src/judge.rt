// The rules 1 to 4 of a card, and of what is lent with it for a run. Each is found before anything is written. Width and height stay two numbers:
// the words of all contracts take them so.
ghost use Rattle.std.specs.Prelude.{◌≡◌, ◌≤◌};
ghost use Rattle.rules.specs.CardRules.{counts_fit, room_fits, card_rules};
ghost use Rattle.rules.specs.Refusal.{verdict};
ghost use Rattle.card.specs.Steps.{lent_card, lent_black_card, list_rules};

use crate::parts::{BlackCard, Card, sum_to};
use rules::Refusal;
use rules::judge::{any_above, any_empty, any_illegal, judge_sides};

// One direction's counts, and how many sizes and colours it has.
#[derive(Clone, Copy)]
struct Lengths<'a> {
    counts: &'a [u32],
    sizes: usize,
    colours: usize,
}

// Whether one direction's lists have the lengths that they must have.
fn counts_fit(lines: usize, lists: Lengths) -> bool
    requires { lines ≤ 64 }
    ensures { result ≡ counts_fit lines lists.entry.counts.now lists.entry.sizes lists.entry.colours }
{
    lists.counts.len() == lines
        && sum_to(lists.counts, lines) == lists.sizes as u64
        && lists.colours == lists.sizes
}

// Whether the grid, the memo and the stack have theirs.
fn room_fits(width: usize, height: usize, cells: usize, memo: usize, stack: usize) -> bool
    requires { (width ≤ 64) × (height ≤ 64) }
    ensures { result ≡ room_fits width height cells memo stack }
{
    cells == width * height && 4160 <= memo && 128 <= stack
}

// Rules 1 to 3, by the counts and the other lists' lengths.
fn judge_counts(
    width: usize,
    height: usize,
    cells: usize,
    rows: Lengths,
    columns: Lengths,
    memo: usize,
    stack: usize,
) -> Result<(), Refusal>
    ensures { result ≡ verdict (list_rules width height cells rows.entry.counts.now rows.entry.sizes rows.entry.colours columns.entry.counts.now columns.entry.sizes columns.entry.colours memo stack) }
{
    judge_sides(width, height)?;
    if !room_fits(width, height, cells, memo, stack)
        || !counts_fit(height, rows)
        || !counts_fit(width, columns)
    {
        return Err(Refusal::BadRoom);
    }
    if any_above(rows.counts, 64) || any_above(columns.counts, 64) {
        return Err(Refusal::TooManyBlocks);
    }
    Ok(())
}

// Rules 1 to 4 of a coloured card.
pub fn judge_card(
    width: usize,
    height: usize,
    cells: usize,
    card: Card,
    memo: usize,
    stack: usize,
) -> Result<(), Refusal>
    ensures { result ≡ verdict (card_rules width height cells (lent_card card.entry) memo stack) }
{
    let rows = Lengths {
        counts: card.row_counts,
        sizes: card.row_sizes.len(),
        colours: card.row_colours.len(),
    };
    let columns = Lengths {
        counts: card.column_counts,
        sizes: card.column_sizes.len(),
        colours: card.column_colours.len(),
    };
    judge_counts(width, height, cells, rows, columns, memo, stack)?;
    if any_illegal(card.row_sizes, card.row_colours)
        || any_illegal(card.column_sizes, card.column_colours)
    {
        return Err(Refusal::BadBlock);
    }
    Ok(())
}

// Rules 1 to 4 of a binary card, whose blocks are black. No colours are lent, so nothing could be handed to the function above.
pub fn judge_black_card(
    width: usize,
    height: usize,
    cells: usize,
    card: BlackCard,
    memo: usize,
    stack: usize,
) -> Result<(), Refusal>
    ensures { result ≡ verdict (card_rules width height cells (lent_black_card card.entry) memo stack) }
{
    let rows = Lengths {
        counts: card.row_counts,
        sizes: card.row_sizes.len(),
        colours: card.row_sizes.len(),
    };
    let columns = Lengths {
        counts: card.column_counts,
        sizes: card.column_sizes.len(),
        colours: card.column_sizes.len(),
    };
    judge_counts(width, height, cells, rows, columns, memo, stack)?;
    if any_empty(card.row_sizes) || any_empty(card.column_sizes) {
        return Err(Refusal::BadBlock);
    }
    Ok(())
}
