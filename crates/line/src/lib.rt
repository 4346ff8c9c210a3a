// One nonogram line: the dynamic solver of nonogrid's line.rs over colour sets, and its binary face.
// Each public call judges its input first; a refusal by checking changes nothing.
#![tactic(auto)]

pub mod binary;
mod judge;
pub mod multicolor;

ghost use Rattle.std.specs.Prelude.{◌≡◌};
ghost use Rattle.line.specs.declared.LineError.TheVariants.{Refused};
ghost use Rattle.line.specs.Calls.{line_answer_number};

use rules::Refusal;

// Why a line is not solved: no placement agrees with it, or its input is refused by checking.
#[derive(Clone, Copy)]
pub enum LineError {
    Unsolvable,
    Refused(Refusal),
}

// A refusal by checking is one of a line.
impl From<Refusal> for LineError {
    ghost from_gives = { λ refusal error. error ≡ Refused refusal };

    fn from(refusal: Refusal) -> LineError {
        LineError::Refused(refusal)
    }
}

// Document 01's number of an answer: 0, 8, or that of a refusal by checking. `Result` and `u32` are std's, so no `From` can say it.
pub fn answer_number(answer: Result<(), LineError>) -> u32
    ensures { result ≡ line_answer_number answer }
{
    match answer {
        Ok(()) => 0,
        Err(LineError::Unsolvable) => 8,
        Err(LineError::Refused(refusal)) => u32::from(refusal),
    }
}
