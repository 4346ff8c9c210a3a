// Plain PBM: a picture read from a text, and written as one. Each public call judges its input first, and a refusal changes nothing.
#![tactic(auto)]

mod bytes;
mod heading;
mod numbers;
mod page;
mod raster;
pub mod read;
mod rows;
pub mod write;

// The sides of a picture.
#[derive(Clone, Copy)]
pub struct Sides {
    pub width: usize,
    pub height: usize,
}
