//! Whether the characters of lines are those of their bytes.
ghost use Rattle.std.specs.Prelude.{◌≡◌, false, slice_index};
ghost use Rattle.usb_text.specs.HexDigits.{byte_of};
ghost use Rattle.usb_hex.specs.Columns.{are_in_order, characters_of, colon_form, ends_bytes, is_visible, line_order, order_of, tells};

use crate::column::{after_one, has_three_spaces, next_line};
use crate::hex_digit::{byte_of, digit};
use crate::hex_text::Form;
use crate::offset::after_offset;

/// The lines at most whose characters are compared.
const LINES: usize = 16;

/// The form of a text with a colon after its first offset.
pub(crate) fn colon_form(text: &[u8]) -> Form
    ensures { result ≡ colon_form text.now }
{
    if are_in_order(LINES, text) {
        Form::Colons
    } else {
        Form::Words
    }
}

/// Whether the first visible character, in the first `lines` lines, is that of its byte.
#[tactic(auto, using(crate::proofs::InOrder::next_in_order), unfolding(crate::specs::Columns::are_in_order))]
fn are_in_order(lines: usize, text: &[u8]) -> bool
    ensures { result ≡ are_in_order lines text.now }
{
    if lines == 0 {
        return true;
    }
    match line_order(after_offset(text)) {
        Some(is) => is,
        None => are_in_order(lines - 1, next_line(text)),
    }
}

/// Whether the first visible character of a line is that of its byte.
fn line_order(line: &[u8]) -> Option<bool>
    ensures { result ≡ line_order line.now }
{
    order_of(line, characters_of(line))
}

/// Whether the bytes of a line end at this character: at its end, or at two spaces.
#[inline(always)]
fn ends_bytes(c: u8, rest: &[u8]) -> bool
    ensures { result ≡ ends_bytes c rest.now }
{
    c == b'\n' || (c == b' ' && matches!(rest, [b' ', ..]))
}

/// What is left of a line after its first two spaces. Nothing is where there are more.
#[tactic(auto, using(crate::proofs::InOrder::characters_on), unfolding(crate::specs::Columns::characters_of))]
fn characters_of(text: &[u8]) -> &[u8]
    ensures { result.now ≡ characters_of text.now }
{
    let mut rest = text;
    while let [c, tail @ ..] = rest {
        if ends_bytes(*c, tail) {
            return if *c == b'\n' || has_three_spaces(rest) {
                &[]
            } else {
                after_one(tail)
            };
        }
        rest = tail;
    }
    rest
}

/// The same of a line with these characters.
#[tactic(auto, using(crate::proofs::InOrder::order_ends, crate::proofs::InOrder::order_on, crate::proofs::InOrder::order_alone, crate::proofs::InOrder::order_stops, crate::proofs::InOrder::order_reported, crate::proofs::InOrder::order_next), unfolding(crate::specs::Columns::order_of))]
fn order_of(text: &[u8], characters: &[u8]) -> Option<bool>
    ensures { result ≡ order_of false 0 text.now characters.now }
{
    let mut rest = text;
    let mut shown = characters;
    while let [c, tail @ ..] = rest {
        if ends_bytes(*c, tail) {
            return None;
        }
        rest = tail;
        if digit(*c).is_some() {
            let [d, left @ ..] = tail else {
                return None;
            };
            if ends_bytes(*d, left) {
                return None;
            }
            if let Some(is) = tells(*c, *d, shown) {
                return Some(is);
            }
            shown = after_one(shown);
            rest = left;
        }
    }
    None
}

/// Whether the character at the start of a text is the byte of these digits, if it is visible.
#[inline(always)]
fn tells(high: u8, low: u8, characters: &[u8]) -> Option<bool>
    ensures { result ≡ tells (byte_of high low) (slice_index characters.now 0) }
{
    match characters {
        [c, ..] if is_visible(*c) => Some(*c == byte_of(high, low)?),
        _ => None,
    }
}

/// Whether a character is that of one byte alone.
fn is_visible(c: u8) -> bool
    ensures { result ≡ is_visible c }
{
    c > 32 && c < 127 && c != b'.'
}
