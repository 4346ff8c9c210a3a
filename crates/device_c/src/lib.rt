// The exports for C of the device library: each call of `device` under its name, with its whole statement.
#![tactic(auto)]

mod blocks;
mod clues;
mod lines;
mod pictures;
mod runs;
