// The clue of a line and the clues of a grid, coloured and binary.
ghost use Rattle.clue.specs.Calls.{ColouredClue, BinaryClue};
ghost use Rattle.picture.specs.Calls.{ColouredClues, BinaryClues};
ghost use Rattle.replies.specs.Replies.{Told, tell_count_of, tell_clues_of};

use replies::clues::CluesReply;
use replies::count::CountReply;

// The clue of a line of codes: its maximal runs of equal codes that are not blank.
pub fn sp_clue(codes: &[u32], blank: u32, sizes: &mut [u32], colours: &mut [u32]) -> CountReply
    ensures { Told tell_count_of (λ a. ColouredClue blank codes.now sizes.old colours.old a sizes.new colours.new) result }
{
    CountReply::from(clue::multicolor::from_line(codes, blank, sizes, colours))
}

// The clue of a binary line: the sizes of its maximal stretches of codes that are not blank.
pub fn sp_binary_clue(codes: &[u32], blank: u32, sizes: &mut [u32]) -> CountReply
    ensures { Told tell_count_of (λ a. BinaryClue blank codes.now sizes.old a sizes.new) result }
{
    CountReply::from(clue::binary::from_line(codes, blank, sizes))
}

// The clues of a picture of width × height codes.
pub fn sp_clues(
    width: usize,
    height: usize,
    codes: &[u32],
    blank: u32,
    row_counts: &mut [u32],
    row_sizes: &mut [u32],
    row_colours: &mut [u32],
    column_counts: &mut [u32],
    column_sizes: &mut [u32],
    column_colours: &mut [u32],
) -> CluesReply
    ensures { Told tell_clues_of (λ a. ColouredClues blank width height codes.now row_counts.old row_sizes.old row_colours.old column_counts.old column_sizes.old column_colours.old a row_counts.new row_sizes.new row_colours.new column_counts.new column_sizes.new column_colours.new) result }
{
    CluesReply::from(picture::multicolor::clues_from_solution(
        width,
        height,
        codes,
        blank,
        row_counts,
        row_sizes,
        row_colours,
        column_counts,
        column_sizes,
        column_colours,
    ))
}

// The clues of a binary picture: sizes alone.
pub fn sp_binary_clues(
    width: usize,
    height: usize,
    codes: &[u32],
    blank: u32,
    row_counts: &mut [u32],
    row_sizes: &mut [u32],
    column_counts: &mut [u32],
    column_sizes: &mut [u32],
) -> CluesReply
    ensures { Told tell_clues_of (λ a. BinaryClues blank width height codes.now row_counts.old row_sizes.old column_counts.old column_sizes.old a row_counts.new row_sizes.new column_counts.new column_sizes.new) result }
{
    CluesReply::from(picture::binary::clues_from_solution(
        width,
        height,
        codes,
        blank,
        row_counts,
        row_sizes,
        column_counts,
        column_sizes,
    ))
}
