// What a call for the clues of a grid answers over C.
ghost use Rattle.std.specs.Prelude.{◌≡◌};
ghost use Rattle.replies.specs.Replies.{tell_clues_of};

use picture::Totals;
use rules::Refusal;

// Document 01's number, and how many blocks are written for the rows and for the columns: with a refusal 0 and 0.
#[repr(C)]
#[derive(Clone, Copy)]
pub struct CluesReply {
    pub number: u32,
    pub rows: usize,
    pub columns: usize,
}

// The struct tells the answer.
impl From<Result<Totals, Refusal>> for CluesReply {
    ghost from_gives = { λ answer reply. reply ≡ tell_clues_of answer };

    fn from(answer: Result<Totals, Refusal>) -> CluesReply {
        match answer {
            Ok(Totals { rows, columns }) => CluesReply {
                number: 0,
                rows,
                columns,
            },
            Err(refusal) => CluesReply {
                number: u32::from(refusal),
                rows: 0,
                columns: 0,
            },
        }
    }
}
