// The rows of a picture as lines of text.
ghost use Rattle.std.specs.Prelude.{◌≡◌, false, map, ◌+◌, length};
ghost use Rattle.rules.specs.Pbm.{is_other, digit_of, line_text, rows_text};
ghost use Rattle.pbm.specs.Steps.{Inked, Room, Adds, RowsRoom};

use crate::Sides;
use crate::page::Page;

// The digit of a code: a number of a lent list, too.
fn digit_of(code: u32) -> u8
    requires { is_other code ≡ false }
    ensures { result ≡ digit_of code }
{
    code as u8 + 47
}

// The digits of the codes.
fn write_cells(codes: &[u32], page: &mut Page)
    requires { Inked codes.now × Room page.old (length codes.now) }
    ensures { Adds page.old (map digit_of codes.now) page.new }
{
    for &code in codes {
        page.push(digit_of(code));
    }
}

// A row with its line feed.
fn write_row(codes: &[u32], page: &mut Page)
    requires { Inked codes.now × Room page.old (length codes.now + 1) }
    ensures { Adds page.old (line_text (map digit_of codes.now)) page.new }
{
    write_cells(codes, page);
    page.push(b'\n');
}

// All rows.
pub(crate) fn write_rows(sides: Sides, codes: &[u32], page: &mut Page)
    requires { RowsRoom sides codes.now page.old }
    ensures { Adds page.old (rows_text sides.width sides.height codes.now) page.new }
{
    for row in codes.chunks_exact(sides.width) {
        write_row(row, page);
    }
}
