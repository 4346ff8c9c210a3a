// What answers are over C: a struct for each kind of answer, and the one struct that tells each answer.
#![tactic(auto)]

pub mod clues;
pub mod count;
pub mod number;
pub mod pictures;
pub mod runs;
