// What a call for the number of positions answers over C.
ghost use Rattle.std.specs.Prelude.{◌≡◌};
ghost use Rattle.replies.specs.Replies.{tell_positions_of};

use rules::Refusal;

// Document 01's number, and in how many places the blocks lie: with a refusal 0.
#[repr(C)]
#[derive(Clone, Copy)]
pub struct PositionsReply {
    pub number: u32,
    pub positions: u64,
}

// The struct tells the answer.
impl From<Result<u64, Refusal>> for PositionsReply {
    ghost from_gives = { λ answer reply. reply ≡ tell_positions_of answer };

    fn from(answer: Result<u64, Refusal>) -> PositionsReply {
        match answer {
            Ok(positions) => PositionsReply {
                number: 0,
                positions,
            },
            Err(refusal) => PositionsReply {
                number: u32::from(refusal),
                positions: 0,
            },
        }
    }
}
