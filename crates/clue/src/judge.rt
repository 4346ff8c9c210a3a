// The rules on picture codes.
ghost use Rattle.std.specs.Prelude.{◌≡◌, cond, false, eqb};
ghost use Rattle.rules.specs.Block.{illegal_colour_of};
ghost use Rattle.rules.specs.Clue.{bad_code_of};
ghost use Rattle.rules.specs.Refusal.{verdict};
ghost use Rattle.clue.specs.Calls.{room_rules, code_rules};

use rules::Refusal;
use rules::judge::illegal_colour;

fn bad_cell(code: u32, blank: u32) -> bool
    ensures { result ≡ cond (eqb code blank) false (illegal_colour_of code) }
{
    code != blank && illegal_colour(code)
}

// Rule 9: some code is neither blank nor a legal colour.
pub fn bad_code(codes: &[u32], blank: u32) -> bool
    ensures { result ≡ bad_code_of blank codes.now }
{
    codes.iter().any(|&code| bad_cell(code, blank))
}

// Rule 2.
pub fn judge_room(roomy: bool) -> Result<(), Refusal>
    ensures { result ≡ verdict (room_rules roomy) }
{
    if !roomy {
        return Err(Refusal::BadRoom);
    }
    Ok(())
}

// Rules 2 and 9.
pub fn judge_codes(roomy: bool, bad: bool) -> Result<(), Refusal>
    ensures { result ≡ verdict (code_rules roomy bad) }
{
    judge_room(roomy)?;
    if bad {
        return Err(Refusal::BadCode);
    }
    Ok(())
}
