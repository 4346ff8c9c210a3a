// The heading of a text: P1, the width and the height.
ghost use Rattle.std.specs.Prelude.{◌≡◌, false};
ghost use Rattle.rules.specs.Pbm.{past_filler, numeral_at, size_at, heading};
ghost use Rattle.pbm.specs.Steps.{SizeRead, HeadingRead};

use crate::Sides;
use crate::bytes::{is_commented, is_plain, is_space};
use crate::numbers::{Digits, read_digits};

// Both sizes, each held to at most 65, and the text after them.
#[derive(Clone, Copy)]
pub(crate) struct Heading<'a> {
    pub(crate) sides: Sides,
    pub(crate) rest: &'a [u8],
}

// The text from its first byte on that is neither whitespace nor part of a comment.
fn skip_filler(text: &[u8]) -> &[u8]
    ensures { result.now ≡ past_filler false text.now }
{
    let mut open = false;
    for (i, &byte) in text.iter().enumerate() {
        if is_plain(open, byte) {
            return &text[i..];
        }
        open = is_commented(open, byte);
    }
    &[]
}

// The number at the front of the text.
fn read_numeral(text: &[u8]) -> Option<Digits<'_>>
    ensures { SizeRead (numeral_at text.now) result }
{
    if text.first()?.is_ascii_digit() {
        Some(read_digits(text))
    } else {
        None
    }
}

// The size at the front of the text: whitespace, more of it and comments, then a number.
fn read_size(text: &[u8]) -> Option<Digits<'_>>
    ensures { SizeRead (size_at text.now) result }
{
    let (&byte, rest) = text.split_first()?;
    if is_space(byte) {
        read_numeral(skip_filler(rest))
    } else {
        None
    }
}

pub(crate) fn read_heading(text: &[u8]) -> Option<Heading<'_>>
    ensures { HeadingRead (heading text.now) result }
{
    let width = read_size(text.strip_prefix(b"P1")?)?;
    let height = read_size(width.rest)?;
    Some(Heading {
        sides: Sides {
            width: width.value,
            height: height.value,
        },
        rest: height.rest,
    })
}
