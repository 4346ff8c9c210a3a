// Reads a card in the .non format, which nonogram programs share, into lists that a run can be lent.
//
// Such a file has the lines `width N` and `height N`, and the lists `rows` and `columns`: a line of sizes for each row or column, with
// commas between them. A block of colour c is written `size:c`. `#` starts a comment, and a line with any other key is passed over.
// cards/README.md has the rules.
#![tactic(auto)]

mod blocks;
pub mod card;
mod clues;
pub mod faults;
mod headings;
mod line;
pub mod palette;
mod reading;
mod words;

use card::Card;
use faults::NoCard;
use reading::Reading;
use std::io::Read;

// Reads a file, or whatever else gives bytes, into a card of which nothing was read yet: one is lent, since it is large to hand on. The loop counts the
// pieces, since nothing says that a file ends.
pub fn read_card<R: Read>(input: &mut R, card: &mut Card) -> Result<(), NoCard> {
    let mut reading = Reading::new(card);
    let mut buffer = [0; 4096];
    for _ in 0..u64::MAX {
        match input.read(&mut buffer) {
            Ok(0) => return reading.end(),
            Ok(count) => reading.take_piece(&buffer[..count])?,
            Err(_) => return reading.fail(),
        }
    }
    Err(NoCard::Unreadable)
}
