// What a call that writes one list, or lists of one length, answers over C.
ghost use Rattle.std.specs.Prelude.{◌≡◌};
ghost use Rattle.replies.specs.Replies.{tell_count_of};

use rules::Refusal;

// Document 01's number, and how many entries of each list are written: with a refusal 0.
#[repr(C)]
#[derive(Clone, Copy)]
pub struct CountReply {
    pub number: u32,
    pub count: usize,
}

// The struct tells the answer.
impl From<Result<usize, Refusal>> for CountReply {
    ghost from_gives = { λ answer reply. reply ≡ tell_count_of answer };

    fn from(answer: Result<usize, Refusal>) -> CountReply {
        match answer {
            Ok(count) => CountReply { number: 0, count },
            Err(refusal) => CountReply {
                number: u32::from(refusal),
                count: 0,
            },
        }
    }
}
