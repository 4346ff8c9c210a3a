// Description::new of base.rs: the blocks that are not the default. Each public call judges its input first, and a refusal changes nothing.
#![tactic(auto)]

mod base;
pub mod binary;
pub mod multicolor;
