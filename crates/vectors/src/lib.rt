// Files of numbers that a program is replayed on: reading them, comparing lists with them, and telling the outcome.
#![tactic(auto)]

pub mod comparison;
pub mod entries;
pub mod lists;
pub mod reader;
pub mod report;
pub mod show;
