//! The characters of sources.
ghost use Rattle.std.specs.Prelude.{◌≡◌};
ghost use Rattle.usb_hex.specs.SourceItems.{begins_line_end, begins_word, is_decimal, is_letter, is_line_end, is_of_word, is_quote};

/// Whether the end of a line is at the start of a text.
pub(crate) fn begins_line_end(text: &[u8]) -> bool
    ensures { result ≡ begins_line_end text.now }
{
    match text {
        [c, ..] => is_line_end(*c),
        [] => false,
    }
}

pub(crate) fn is_line_end(c: u8) -> bool
    ensures { result ≡ is_line_end c }
{
    c == b'\n' || c == b'\r'
}

pub(crate) fn is_quote(c: u8) -> bool
    ensures { result ≡ is_quote c }
{
    c == b'"' || c == b'\''
}

pub(crate) fn is_decimal(c: u8) -> bool
    ensures { result ≡ is_decimal c }
{
    c >= b'0' && c <= b'9'
}

pub(crate) fn is_letter(c: u8) -> bool
    ensures { result ≡ is_letter c }
{
    (c >= b'A' && c <= b'Z') || (c >= b'a' && c <= b'z') || c == b'_'
}

/// Whether the character may be in a number or a name.
pub(crate) fn is_of_word(c: u8) -> bool
    ensures { result ≡ is_of_word c }
{
    is_decimal(c) || is_letter(c)
}

/// Whether such a character is at the start of a text.
pub(crate) fn begins_word(text: &[u8]) -> bool
    ensures { result ≡ begins_word text.now }
{
    match text {
        [c, ..] => is_of_word(*c),
        [] => false,
    }
}
