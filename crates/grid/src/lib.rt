// Rows and columns of the lent grid: a row is a part of it, a column is copied, and a line's answer is stored and reported.
#![tactic(auto)]

pub mod lines;
pub mod report;
pub mod store;
