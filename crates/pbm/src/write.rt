// A picture written as a text, in one fixed form.
ghost use Rattle.std.specs.Prelude.{◌≡◌, ◌+◌, ◌*◌, ◌≤◌, ◌<◌, length};
ghost use Rattle.rules.specs.Pbm.{is_other, heading_text, ink_rules, write_rules};
ghost use Rattle.std.specs.List.{list_any};
ghost use Rattle.rules.specs.Refusal.{verdict};
ghost use Rattle.pbm.specs.Calls.{WritesPbm};
ghost use Rattle.pbm.specs.Steps.{Room, Adds};

use crate::Sides;
use crate::numbers::{count_digits, write_number};
use crate::page::Page;
use crate::rows::write_rows;
use rules::Refusal;
use rules::judge::judge_sides;

fn is_other(code: u32) -> bool
    ensures { result ≡ is_other code }
{
    code != 1 && code != 2
}

fn any_other(codes: &[u32]) -> bool
    ensures { result ≡ list_any is_other codes.now }
{
    codes.iter().any(|&code| is_other(code))
}

// How many bytes the heading of a picture has.
fn heading_length(sides: Sides) -> usize
    ensures { result ≡ length (heading_text sides.width sides.height) }
{
    count_digits(sides.width) + count_digits(sides.height) + 5
}

// Rules 2 and 9.
fn judge_codes(sides: Sides, codes: &[u32], room: usize) -> Result<(), Refusal>
    requires { (sides.width ≤ 64) × (sides.height ≤ 64) }
    ensures { result ≡ verdict (ink_rules sides.width sides.height codes.now room) }
{
    if codes.len() != sides.width * sides.height {
        return Err(Refusal::BadRoom);
    }
    if room < heading_length(sides) + sides.height * (sides.width + 1) {
        return Err(Refusal::BadRoom);
    }
    if any_other(codes) {
        return Err(Refusal::BadCode);
    }
    Ok(())
}

fn judge_picture(sides: Sides, codes: &[u32], room: usize) -> Result<(), Refusal>
    ensures { result ≡ verdict (write_rules sides.width sides.height codes.now room) }
{
    judge_sides(sides.width, sides.height)?;
    judge_codes(sides, codes, room)
}

// P1, and the line with the sides.
fn write_heading(sides: Sides, page: &mut Page)
    requires { (sides.width < 100) × (sides.height < 100) × Room page.old (length (heading_text sides.width sides.height)) }
    ensures { Adds page.old (heading_text sides.width sides.height) page.new }
{
    page.push(b'P');
    page.push(b'1');
    page.push(b'\n');
    write_number(sides.width, page);
    page.push(b' ');
    write_number(sides.height, page);
    page.push(b'\n');
}

// The text of the picture, from the front of the list on.
pub fn write_pbm(
    width: usize,
    height: usize,
    codes: &[u32],
    text: &mut [u8],
) -> Result<usize, Refusal>
    ensures { WritesPbm width height codes.now text.old result text.new }
{
    let sides = Sides { width, height };
    judge_picture(sides, codes, text.len())?;
    let mut page = Page::new(text);
    write_heading(sides, &mut page);
    write_rows(sides, codes, &mut page);
    Ok(page.count())
}
