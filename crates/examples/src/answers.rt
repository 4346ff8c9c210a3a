// Answers as they are written: the documents' number, and the values that come with 0.
use replies::clues::CluesReply;
use replies::count::CountReply;
use replies::number::PositionsReply;
use replies::pictures::PbmReply;
use std::fmt;

// An answer with one value or two.
#[derive(Clone, Copy)]
pub(crate) struct Answer {
    number: u32,
    first: u64,
    second: Option<u64>,
}

impl From<CountReply> for Answer {
    fn from(reply: CountReply) -> Answer {
        Answer {
            number: reply.number,
            first: reply.count as u64,
            second: None,
        }
    }
}

impl From<PositionsReply> for Answer {
    fn from(reply: PositionsReply) -> Answer {
        Answer {
            number: reply.number,
            first: reply.positions,
            second: None,
        }
    }
}

impl From<CluesReply> for Answer {
    fn from(reply: CluesReply) -> Answer {
        Answer {
            number: reply.number,
            first: reply.rows as u64,
            second: Some(reply.columns as u64),
        }
    }
}

impl From<PbmReply> for Answer {
    fn from(reply: PbmReply) -> Answer {
        Answer {
            number: reply.number,
            first: reply.width as u64,
            second: Some(reply.height as u64),
        }
    }
}

impl fmt::Display for Answer {
    fn fmt<W: fmt::Write>(&self, f: &mut fmt::Formatter<W>) -> fmt::Result {
        let Answer {
            number,
            first,
            second,
        } = *self;
        write!(f, " -> {number}")?;
        if number != 0 {
            return Ok(());
        }
        write!(f, ", {first}")?;
        match second {
            Some(value) => write!(f, " {value}"),
            None => Ok(()),
        }
    }
}

// The room of an output list; 0 where the case names none.
pub(crate) fn room_at(rooms: &[u32], at: usize) -> usize {
    rooms.get(at).map_or(0, |room| *room as usize)
}
