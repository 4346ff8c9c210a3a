// A picture read from a text.
ghost use Rattle.std.specs.Prelude.{◌≡◌};
ghost use Rattle.std.proofs.Math.Option.{some};
ghost use Rattle.rules.specs.Pbm.{read_rules};
ghost use Rattle.rules.specs.Refusal.{verdict};
ghost use Rattle.pbm.specs.Calls.{ReadsPbm};

use crate::Sides;
use crate::heading::read_heading;
use crate::raster::{is_drawn, write_pixels};
use rules::Refusal;
use rules::judge::judge_sides;

// Rules 1 and 2, and 11 for what follows the height.
fn judge_drawing(sides: Sides, text: &[u8], room: usize) -> Result<(), Refusal>
    ensures { result ≡ verdict (read_rules room (some (record { width = sides.width; height = sides.height; rest = text.now }))) }
{
    judge_sides(sides.width, sides.height)?;
    let cells = sides.width * sides.height;
    if room < cells {
        return Err(Refusal::BadRoom);
    }
    if !is_drawn(text, cells) {
        return Err(Refusal::BadText);
    }
    Ok(())
}

// The sides and the codes of the picture whose text this is: 1 for white, 2 for black.
pub fn read_pbm(text: &[u8], codes: &mut [u32]) -> Result<Sides, Refusal>
    ensures { ReadsPbm text.now codes.old result codes.new }
{
    let heading = read_heading(text).ok_or(Refusal::BadText)?;
    judge_drawing(heading.sides, heading.rest, codes.len())?;
    write_pixels(heading.rest, codes);
    Ok(heading.sides)
}
