// The device's calls by their numbers, for the programs that show and replay them, and what a case of each is given: blocks, a picture, a line,
// the card of a run, a text.
#![tactic(auto)]

pub mod blocks;
pub mod calls;
pub mod cards;
pub mod clues;
pub mod lines;
pub mod pictures;
pub mod runs;
