// The device library: the public calls for C and Rust, each with its Rattle call's whole statement.
#![tactic(auto)]

pub mod blocks;
pub mod clues;
pub mod lines;
pub mod pictures;
pub mod runs;
