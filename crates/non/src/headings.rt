// The lines of a card outside its two lists: its sides, the beginnings of the lists, and lines that are passed over.
use crate::card::{Card, Lines, Way};
use crate::faults::Fault;
use crate::line::Line;
use crate::words::{Class, NoValue};

// What stands before a line of a file, comments aside, where that tells how the line is read.
#[derive(Clone, Copy)]
pub(crate) enum Before {
    // A line of a list.
    Line(Way),
    // A goal, or more of it.
    Goal,
    // A word alone, which begins no list, in that line of the file.
    Word { line: u32 },
    Other,
}

// The number that stands after a key and a blank, and what stands after it.
fn read_side(text: &[u8]) -> Result<(u64, &[u8]), Fault> {
    let number = text.strip_prefix(b" ").ok_or(Fault::MissingNumber)?;
    let (word, rest) = Class::Number.split(number);
    match Class::Number.value(word) {
        Ok(value) => Ok((value, rest)),
        Err(NoValue::Long) => Err(Fault::LargeNumber),
        Err(NoValue::Missing) => Err(Fault::MissingNumber),
    }
}

// Takes a side, of which nothing may be cut: the width is the number of columns, the height that of rows.
fn take_side(text: &[u8], cut: bool, lines: &mut Lines) -> Result<(), Fault> {
    if lines.side.is_some() {
        return Err(Fault::SideAgain);
    }
    if cut {
        return Err(Fault::LongLine);
    }
    match read_side(text)? {
        (_, [_, ..]) => Err(Fault::UnknownText),
        (side @ 1..=64, []) => {
            lines.side = Some(side as usize);
            Ok(())
        }
        _ => Err(Fault::BadSide),
    }
}

fn begin_list(text: &[u8], lines: &mut Lines) -> Result<(), Fault> {
    if !text.is_empty() {
        return Err(Fault::UnknownText);
    }
    if lines.begun {
        return Err(Fault::ListAgain);
    }
    if lines.side.is_none() {
        return Err(Fault::NoSideYet);
    }
    lines.begun = true;
    Ok(())
}

// Takes a line that begins with a key, and tells what then stands before the next. A key that counts may be in capitals.
fn take_key(line: Line<'_>, card: &mut Card) -> Result<Before, Fault> {
    let (key, rest) = Class::Key.split(line.text);
    if key.is_empty() {
        return Err(Fault::UnknownText);
    }
    if key.eq_ignore_ascii_case(b"width") {
        take_side(rest, line.cut, &mut card.columns)?;
    } else if key.eq_ignore_ascii_case(b"height") {
        take_side(rest, line.cut, &mut card.rows)?;
    } else if key.eq_ignore_ascii_case(b"rows") {
        begin_list(rest, &mut card.rows)?;
    } else if key.eq_ignore_ascii_case(b"columns") {
        begin_list(rest, &mut card.columns)?;
    } else if key.eq_ignore_ascii_case(b"goal") {
        return Ok(Before::Goal);
    }
    if rest.is_empty() {
        return Ok(Before::Word { line: line.number });
    }
    Ok(Before::Other)
}

// Whether a text can be more of a goal.
fn is_goal(text: &[u8]) -> bool {
    text.iter()
        .all(|byte| matches!(byte, b' ' | b'"' | b'0'..=b'9'))
}

// Takes a line outside the lists, and tells what then stands before the next. An empty line ends a list, and nothing else. Where sizes stand
// here, a word that stands before them should have begun a list.
pub(crate) fn take_heading(
    line: Line<'_>,
    before: Before,
    card: &mut Card,
) -> Result<Before, Fault> {
    match (before, line.text) {
        (Before::Line(_), []) => Ok(Before::Other),
        (_, []) => Ok(before),
        (Before::Goal, text) if is_goal(text) => Ok(before),
        (Before::Word { line }, [b'0'..=b'9', ..]) => Err(Fault::NoList { line }),
        (_, [b'0'..=b'9', ..]) => Err(Fault::ExtraLine),
        _ => take_key(line, card),
    }
}

// What a card lacks at the end of the file.
pub(crate) fn judge_end(card: &Card) -> Result<(), Fault> {
    if card.columns.side.is_none() {
        return Err(Fault::NoWidth);
    }
    if card.rows.side.is_none() {
        return Err(Fault::NoHeight);
    }
    if !card.rows.begun {
        return Err(Fault::NoRows);
    }
    if !card.columns.begun {
        return Err(Fault::NoColumns);
    }
    if card.rows.is_wanted() || card.columns.is_wanted() {
        return Err(Fault::MissingLine);
    }
    Ok(())
}
