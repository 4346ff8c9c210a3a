// Numbers in a text: read held to at most 65, so that no length of them wraps, and written.
ghost use Rattle.std.specs.Prelude.{◌≡◌, true, ◌+◌, ◌*◌, ◌-◌, ◌≤◌, ◌<◌, length};
ghost use Rattle.rules.specs.Pbm.{is_digit_of, digits, decimal};
ghost use Rattle.pbm.specs.Steps.{held, DigitsRead, Room, Adds};

use crate::page::Page;

// A number that was read: its value, held to at most 65, and the text after it.
#[derive(Clone, Copy)]
pub(crate) struct Digits<'a> {
    pub(crate) value: usize,
    pub(crate) rest: &'a [u8],
}

// The value with a digit more.
fn add_digit(value: usize, byte: u8) -> usize
    requires { (value ≤ 65) × (is_digit_of byte ≡ true) }
    ensures { result ≡ held (value * 10 + (byte - 48)) }
{
    let longer = value * 10 + usize::from(byte - b'0');
    longer.min(65)
}

// The longest run of digits at the front of the text.
pub(crate) fn read_digits(text: &[u8]) -> Digits<'_>
    ensures { DigitsRead (digits 0 text.now) result }
{
    let mut value = 0;
    let mut rest = text;
    while let Some((byte, tail)) = rest.split_first() {
        if !byte.is_ascii_digit() {
            break;
        }
        value = add_digit(value, *byte);
        rest = tail;
    }
    Digits { value, rest }
}

// How many digits a number below 100 has.
pub(crate) fn count_digits(number: usize) -> usize
    ensures { result ≡ length (decimal number) }
{
    if number < 10 { 1 } else { 2 }
}

// The digits of a number below 100.
pub(crate) fn write_number(number: usize, page: &mut Page)
    requires { (number < 100) × Room page.old (length (decimal number)) }
    ensures { Adds page.old (decimal number) page.new }
{
    if number < 10 {
        page.push(b'0' + number as u8);
    } else {
        page.push(b'0' + (number / 10) as u8);
        page.push(b'0' + (number % 10) as u8);
    }
}
