// The clues of a picture: `clues_from_solution` of base.rs. Each public call judges its input first, and a refusal changes nothing.
#![tactic(auto)]

pub mod binary;
mod directions;
mod judge;
pub mod multicolor;
mod view;

// How many blocks a call wrote for the rows, and for the columns.
#[derive(Clone, Copy)]
pub struct Totals {
    pub rows: usize,
    pub columns: usize,
}
