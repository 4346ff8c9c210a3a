// What a run answers over C: all of it stands flat in one struct.
ghost use Rattle.std.specs.Prelude.{◌≡◌};
ghost use Rattle.std.proofs.Math.Option.{some, none};
ghost use Rattle.run.specs.Ends.{reply_by};
ghost use Rattle.replies.specs.Replies.{tell_run};

use rules::LinePosition;
use run::{Progress, RunError};

// What a run answers: document 01's number; the line that refused, its kind 0 for a row, 1 for a column and 2 for none, whose index is 0;
// the entries written to the report; the lines solved. A refusal by checking has no line and no counts.
#[repr(C)]
#[derive(Clone, Copy)]
pub struct RunReply {
    pub number: u32,
    pub line_kind: u32,
    pub line_index: usize,
    pub entries: usize,
    pub lines: usize,
}

// The reply that names no line.
fn reply_without_line(number: u32, entries: usize, lines: usize) -> RunReply
    ensures { result ≡ tell_run (record { number = number; line = none; entries = entries; lines = lines }) }
{
    RunReply {
        number,
        line_kind: 2,
        line_index: 0,
        entries,
        lines,
    }
}

// The reply that names the line that refused.
fn reply_with_line(line: LinePosition, progress: Progress) -> RunReply
    ensures { result ≡ tell_run (record { number = 8; line = some line; entries = progress.entries; lines = progress.lines }) }
{
    let (line_kind, line_index) = match line {
        LinePosition::Row(y) => (0, y.0),
        LinePosition::Column(x) => (1, x.0),
    };
    RunReply {
        number: 8,
        line_kind,
        line_index,
        entries: progress.entries,
        lines: progress.lines,
    }
}

// The struct tells the answer.
impl From<Result<Progress, RunError>> for RunReply {
    ghost from_gives = { λ answer reply. reply ≡ tell_run (reply_by answer) };

    fn from(answer: Result<Progress, RunError>) -> RunReply {
        match answer {
            Ok(Progress { entries, lines }) => reply_without_line(0, entries, lines),
            Err(RunError::Unsolvable { line, progress }) => reply_with_line(line, progress),
            Err(RunError::Refused(refusal)) => reply_without_line(u32::from(refusal), 0, 0),
        }
    }
}
