// The clue of a line: `from_line` of base.rs. Each public call judges its input first, and a refusal changes nothing.
#![tactic(auto)]

ghost use Rattle.std.specs.Prelude.{◌≡◌};
ghost use Rattle.clue.specs.Steps.{field, read_in};

pub mod binary;
pub mod judge;
pub mod line;
pub mod multicolor;

// A number of a block.
#[derive(Clone, Copy)]
pub enum Field {
    Size,
    Colour,
}

impl Field {
    // The number of a block of that size and colour.
    pub(crate) fn of(self, size: u32, colour: u32) -> u32
        ensures { result ≡ field self size colour }
    {
        match self {
            Field::Size => size,
            Field::Colour => colour,
        }
    }
}

// What is written of each line's clue: how many blocks it has, or a number of each. An enum, since a closure would ask a ghost function in each
// contract.
#[derive(Clone, Copy)]
pub enum Part {
    Count,
    Each(Field),
}

// How a picture's codes are taken: each as a colour of its own, or all but the blank one as black. An enum, as `Part` is.
#[derive(Clone, Copy)]
pub enum Ink {
    Coloured,
    Black,
}

// How a line is read: which of its codes is blank, and how the others are taken.
#[derive(Clone, Copy)]
pub struct Reading {
    pub ink: Ink,
    pub blank: u32,
}

impl Reading {
    // A code as it is taken.
    pub(crate) fn read(self, code: u32) -> u32
        ensures { result ≡ read_in self code }
    {
        match self.ink {
            Ink::Coloured => code,
            Ink::Black => { if code == self.blank { 1 } else { 2 } }
        }
    }
}
