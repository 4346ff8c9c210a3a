// What every layer shares: positions of lines, and refusals with their numbers.
#![tactic(auto)]

ghost use Rattle.std.specs.Prelude.{◌≡◌};
ghost use Rattle.rules.specs.Refusal.{refusal_number_of};

pub mod judge;

// A row's number. It is never mixed with a column's.
#[derive(Clone, Copy)]
pub struct RowIndex(pub usize);

// A column's number.
#[derive(Clone, Copy)]
pub struct ColumnIndex(pub usize);

// A line of the grid: a row or a column, with its index.
#[derive(Clone, Copy)]
pub enum LinePosition {
    Row(RowIndex),
    Column(ColumnIndex),
}

// Why a call refuses its input. 8 is no such refusal: it is found by solving.
#[derive(Clone, Copy)]
pub enum Refusal {
    BadLength,
    BadRoom,
    TooManyBlocks,
    BadBlock,
    BadCell,
    OutsideGrid,
    ShortReport,
    BadCode,
    NoSpace,
    BadText,
}

// The documents' number of a refusal.
impl From<Refusal> for u32 {
    ghost from_gives = { λ refusal number. number ≡ refusal_number_of refusal };

    fn from(refusal: Refusal) -> u32 {
        match refusal {
            Refusal::BadLength => 1,
            Refusal::BadRoom => 2,
            Refusal::TooManyBlocks => 3,
            Refusal::BadBlock => 4,
            Refusal::BadCell => 5,
            Refusal::OutsideGrid => 6,
            Refusal::ShortReport => 7,
            Refusal::BadCode => 9,
            Refusal::NoSpace => 10,
            Refusal::BadText => 11,
        }
    }
}
