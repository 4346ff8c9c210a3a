// The bytes of a text: whitespace, comments, digits and cells.
ghost use Rattle.std.specs.Prelude.{◌≡◌};
ghost use Rattle.rules.specs.Pbm.{is_space_of, is_line_end, is_pixel_of, is_plain, commented, is_stray_of};

// Whitespace: space, TAB, LF, VT, FF, CR.
pub(crate) fn is_space(byte: u8) -> bool
    ensures { result ≡ is_space_of byte }
{
    matches!(byte, b' ' | b'\t'..=b'\r')
}

fn is_line_end(byte: u8) -> bool
    ensures { result ≡ is_line_end byte }
{
    matches!(byte, b'\n' | b'\r')
}

// A cell of the picture: the digit 0 or the digit 1.
pub(crate) fn is_pixel(byte: u8) -> bool
    ensures { result ≡ is_pixel_of byte }
{
    matches!(byte, b'0' | b'1')
}

// A byte that no raster has.
pub(crate) fn is_stray(byte: u8) -> bool
    ensures { result ≡ is_stray_of byte }
{
    !is_space(byte) && !is_pixel(byte)
}

// A byte that is neither whitespace nor part of a comment. `open`: a comment is open before it.
pub(crate) fn is_plain(open: bool, byte: u8) -> bool
    ensures { result ≡ is_plain «open» byte }
{
    !open && !is_space(byte) && byte != b'#'
}

// Whether a comment is open after a byte that is not plain.
pub(crate) fn is_commented(open: bool, byte: u8) -> bool
    ensures { result ≡ commented «open» byte }
{
    if open {
        !is_line_end(byte)
    } else {
        byte == b'#'
    }
}
