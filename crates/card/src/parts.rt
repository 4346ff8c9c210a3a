// A line's clue: a part of the row list or of the column list.
ghost use Rattle.std.specs.Prelude.{◌≡◌, ◌≤◌, ◌<◌, length, take};
ghost use Rattle.rules.specs.Board.{On};
ghost use Rattle.rules.specs.Card.{sum, part};
ghost use Rattle.card.specs.Steps.{lent_card, part_of, Counts, Cut, sizes_at, colours_at};

use rules::LinePosition;

// The six lists of a card, as they are lent: per direction a count for each line, and the sizes and colours of all blocks, line after line.
#[derive(Clone, Copy)]
pub struct Card<'a> {
    pub row_counts: &'a [u32],
    pub row_sizes: &'a [u32],
    pub row_colours: &'a [u32],
    pub column_counts: &'a [u32],
    pub column_sizes: &'a [u32],
    pub column_colours: &'a [u32],
}

// The four lists of a binary card, whose blocks are black: there are no colours.
#[derive(Clone, Copy)]
pub struct BlackCard<'a> {
    pub row_counts: &'a [u32],
    pub row_sizes: &'a [u32],
    pub column_counts: &'a [u32],
    pub column_sizes: &'a [u32],
}

// The blocks of the lines before line i.
pub(crate) fn sum_to(counts: &[u32], i: usize) -> u64
    requires { (i ≤ length counts.now) × (length counts.now ≤ 64) }
    ensures { result ≡ sum (take i counts.now) }
{
    counts[..i].iter().map(|&count| count as u64).sum()
}

// The part of a list that belongs to line i.
fn part_of<'a>(counts: &[u32], list: &'a [u32], i: usize) -> &'a [u32]
    requires { (i < length counts.now) × Counts counts.now list.now }
    ensures { result.now ≡ part counts.now i list.now }
{
    let from = sum_to(counts, i) as usize;
    let n = counts[i] as usize;
    &list[from..from + n]
}

// A line's part of the list of its direction.
pub fn line_part<'a>(
    line: LinePosition,
    row_counts: &[u32],
    rows: &'a [u32],
    column_counts: &[u32],
    columns: &'a [u32],
) -> &'a [u32]
    requires { On (length column_counts.now) (length row_counts.now) line × Counts row_counts.now rows.now × Counts column_counts.now columns.now }
    ensures { result.now ≡ part_of line row_counts.now rows.now column_counts.now columns.now }
{
    match line {
        LinePosition::Row(y) => part_of(row_counts, rows, y.0),
        LinePosition::Column(x) => part_of(column_counts, columns, x.0),
    }
}

impl<'a> Card<'a> {
    // The sizes and the colours of a line: its part of the lists of its direction.
    pub fn clue(self, line: LinePosition) -> (&'a [u32], &'a [u32])
        requires { Cut line (lent_card self) }
        ensures sizes { result.0.now ≡ sizes_at line (lent_card self.entry) }
        ensures colours { result.1.now ≡ colours_at line (lent_card self.entry) }
    {
        let sizes = line_part(
            line,
            self.row_counts,
            self.row_sizes,
            self.column_counts,
            self.column_sizes,
        );
        let colours = line_part(
            line,
            self.row_counts,
            self.row_colours,
            self.column_counts,
            self.column_colours,
        );
        (sizes, colours)
    }
}
