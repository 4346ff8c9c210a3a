// A line as a number, as the lent stack holds it (C has no other type for it): a column is its index, a row its index plus 64.
ghost use Rattle.std.specs.Prelude.{◌≡◌};
ghost use Rattle.rules.specs.Board.{On, cross};
ghost use Rattle.stack.specs.Stack.{line_of_code};

use rules::{ColumnIndex, LinePosition, RowIndex};

// The line through index j that crosses a line: the one place where a row's number becomes a column's, and back.
pub(crate) fn crossing(line: LinePosition, j: usize) -> LinePosition
    ensures { result ≡ cross line j }
{
    match line {
        LinePosition::Row(_) => LinePosition::Column(ColumnIndex(j)),
        LinePosition::Column(_) => LinePosition::Row(RowIndex(j)),
    }
}

// The code of a line.
pub(crate) fn code_of(line: LinePosition) -> u32
    requires { On 64 64 line }
    ensures { line_of_code result ≡ line }
{
    match line {
        LinePosition::Row(y) => y.0 as u32 + 64,
        LinePosition::Column(x) => x.0 as u32,
    }
}

// The line of a code.
pub fn line_of(code: u32) -> LinePosition
    ensures { result ≡ line_of_code code }
{
    if code < 64 {
        LinePosition::Column(ColumnIndex(code as usize))
    } else {
        LinePosition::Row(RowIndex((code - 64) as usize))
    }
}
