// The six lists of a card: their rules, and a line's part of them.
#![tactic(auto)]

pub mod judge;
pub mod parts;
