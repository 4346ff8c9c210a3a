// The loop of a run: where it begins, what it answers, and line after line until nothing changes (nonogrid's propagation.rs).
#![tactic(auto)]

pub mod jobs;

ghost use Rattle.std.specs.Prelude.{◌≡◌};
ghost use Rattle.run.specs.declared.RunError.TheVariants.{Refused};
ghost use Rattle.run.specs.Ends.{run_answer_number};

use rules::{ColumnIndex, LinePosition, Refusal, RowIndex};

// Where a run begins: with all lines, or with the two lines through a point.
#[derive(Clone, Copy)]
pub enum Start {
    Full,
    Point(ColumnIndex, RowIndex),
}

// How far a run came: the entries written to the report, and the lines solved.
#[derive(Clone, Copy)]
pub struct Progress {
    pub entries: usize,
    pub lines: usize,
}

// Why a run did not solve its board: at a line that no placement agrees with, or its input is refused by checking.
#[derive(Clone, Copy)]
pub enum RunError {
    Unsolvable {
        line: LinePosition,
        progress: Progress,
    },
    Refused(Refusal),
}

// A refusal by checking is one of a run.
impl From<Refusal> for RunError {
    ghost from_gives = { λ refusal error. error ≡ Refused refusal };

    fn from(refusal: Refusal) -> RunError {
        RunError::Refused(refusal)
    }
}

// Document 01's number of an answer: 0, 8, or that of a refusal by checking. `Result` and `u32` are std's, so no `From` can say it.
pub fn answer_number(answer: Result<Progress, RunError>) -> u32
    ensures { result ≡ run_answer_number answer }
{
    match answer {
        Ok(_) => 0,
        Err(RunError::Unsolvable { .. }) => 8,
        Err(RunError::Refused(refusal)) => u32::from(refusal),
    }
}
