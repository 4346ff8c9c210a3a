// What a call that reads a picture answers over C.
ghost use Rattle.std.specs.Prelude.{◌≡◌};
ghost use Rattle.replies.specs.Replies.{tell_pbm_of};

use pbm::Sides;
use rules::Refusal;

// The documents' number, and the sides of the picture: with a refusal 0 and 0.
#[repr(C)]
#[derive(Clone, Copy)]
pub struct PbmReply {
    pub number: u32,
    pub width: usize,
    pub height: usize,
}

// The struct tells the answer.
impl From<Result<Sides, Refusal>> for PbmReply {
    ghost from_gives = { λ answer reply. reply ≡ tell_pbm_of answer };

    fn from(answer: Result<Sides, Refusal>) -> PbmReply {
        match answer {
            Ok(Sides { width, height }) => PbmReply {
                number: 0,
                width,
                height,
            },
            Err(refusal) => PbmReply {
                number: u32::from(refusal),
                width: 0,
                height: 0,
            },
        }
    }
}
