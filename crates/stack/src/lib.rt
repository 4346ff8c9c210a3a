// The stack of lines that wait to be solved.
#![tactic(auto)]

pub mod codes;
pub mod order;
pub mod push;

// The lines that wait: the first `count` codes of a lent list, the last of them on top.
#[derive(Drop)]
pub struct Stack<'a> {
    pub codes: &'a mut [u32],
    pub count: usize,
}
