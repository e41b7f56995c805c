//! Offsets and addresses at the start of lines.
ghost use Rattle.std.specs.Prelude.{◌≡◌, ◌≤◌, ◌==◌, ◌||◌, ◌&&◌, false, IfSome, MatchOption, length, true};
ghost use Rattle.hex.specs.Hex.{is_hex_digit};
ghost use Rattle.usb_hex.specs.Columns.{after_all, after_colon, after_digits, after_mark, after_name, after_offset, ends_address, grown, has_digits, has_offset, is_in_name, is_octal, is_offset, offset_value};

use crate::column::{after_blanks, after_hex_digits, after_one};
use crate::hex_digit::digit;

/// What is left of a line from `>` on, or from its end.
#[tactic(auto, unfolding(crate::specs::Columns::after_all))]
fn after_in_name(text: &[u8]) -> &[u8]
    ensures is { result.now ≡ after_all is_in_name text.now }
    ensures within { length result.now ≤ length text.now }
{
    let mut rest = text;
    while let [c, tail @ ..] = rest {
        if *c == b'\n' || *c == b'>' {
            break;
        }
        rest = tail;
    }
    rest
}

/// Whether four characters or more were before what is left of a text.
pub(crate) fn is_offset(text: &[u8], rest: &[u8]) -> bool
    requires { length rest.now ≤ length text.now }
    ensures { result ≡ is_offset text.now rest.now }
{
    text.len() - rest.len() >= 4
}

/// What is left after `0x`, if that is there.
pub(crate) fn after_mark(text: &[u8]) -> &[u8]
    ensures is { result.now ≡ after_mark text.now }
    ensures within { length result.now ≤ length text.now }
{
    match text {
        [b'0', b'x', rest @ ..] => rest,
        _ => text,
    }
}

/// What is left after the name of an address, if there is one.
pub(crate) fn after_name(text: &[u8]) -> &[u8]
    ensures is { result.now ≡ after_name text.now }
    ensures within { length result.now ≤ length text.now }
{
    match text {
        [b' ', b'<', ..] => after_one(after_in_name(text)),
        _ => text,
    }
}

/// Whether a colon and a blank are at the start of a text.
pub(crate) fn ends_address(text: &[u8]) -> bool
    ensures { result ≡ ends_address text.now }
{
    matches!(text, [b':', b' ' | b'\t', ..])
}

/// What is left after a colon, if there is one.
fn after_colon(text: &[u8]) -> &[u8]
    ensures is { result.now ≡ after_colon text.now }
    ensures within { length result.now ≤ length text.now }
{
    match text {
        [b':', rest @ ..] => rest,
        _ => text,
    }
}

/// What is left after the digits of an offset.
pub(crate) fn after_digits(text: &[u8]) -> &[u8]
    ensures is { result.now ≡ after_digits text.now }
    ensures within { length result.now ≤ length (after_mark text.now) }
{
    after_hex_digits(after_mark(text))
}

/// Whether a text begins with as many digits as an offset has.
pub(crate) fn has_digits(text: &[u8]) -> bool
    ensures { result ≡ has_digits text.now }
{
    is_offset(after_mark(text), after_digits(text))
}

/// What is left after the offset of a line.
pub(crate) fn after_offset(text: &[u8]) -> &[u8]
    ensures is { result.now ≡ after_offset text.now }
    ensures within { length result.now ≤ length text.now }
{
    let digits = after_mark(text);
    let rest = after_hex_digits(digits);
    if is_offset(digits, rest) {
        after_blanks(after_colon(after_name(rest)))
    } else {
        text
    }
}

/// The value of an offset's digits so far and one more.
fn grown(radix: u8, value: u64, digit: u8) -> u64
    ensures { result ≡ grown radix value digit }
{
    if value < 1 << 56 {
        value * u64::from(radix) + u64::from(digit)
    } else {
        value
    }
}

/// The value of the digits at the start of a text.
#[tactic(auto, unfolding(crate::specs::Columns::offset_value))]
pub(crate) fn offset_value(radix: u8, text: &[u8]) -> u64
    ensures { result ≡ offset_value radix 0 text.now }
{
    let mut value = 0;
    let mut rest = text;
    while let [c, tail @ ..] = rest {
        let Some(digit) = digit(*c) else {
            break;
        };
        if digit >= radix {
            break;
        }
        value = grown(radix, value, digit);
        rest = tail;
    }
    value
}

/// Whether an offset is octal, as that of `od` is.
fn is_octal(text: &[u8]) -> bool
    ensures { result ≡ is_octal text.now }
{
    let rest = after_digits(text);
    text.len() - rest.len() == 7 && !matches!(rest, [b':', ..])
}

/// The value of the hexadecimal digits at the start of a text, and what is left after them.
#[inline(always)]
#[tactic(auto, using(crate::proofs::Offsets::value_ends, crate::proofs::Offsets::value_on), unfolding(crate::specs::Columns::after_all, crate::specs::Columns::offset_value))]
fn number(text: &[u8]) -> (u64, &[u8])
    ensures value { result.0 ≡ offset_value 16 0 text.now }
    ensures is { result.1.now ≡ after_all is_hex_digit text.now }
    ensures within { length result.1.now ≤ length text.now }
{
    let mut value = 0;
    let mut rest = text;
    while let [c, tail @ ..] = rest {
        let Some(digit) = digit(*c) else {
            break;
        };
        value = grown(16, value, digit);
        rest = tail;
    }
    (value, rest)
}

/// What is left after the offset of a line, where it is that of this place.
pub(crate) fn after_offset_of(place: u128, text: &[u8]) -> Option<&[u8]>
    ensures is { MatchOption result (has_offset place text.now ≡ false) (λ rest. (has_offset place text.now ≡ true) × (rest.now ≡ after_offset text.now)) }
    ensures within { IfSome result (λ rest. length rest.now ≤ length text.now) }
{
    let digits = after_mark(text);
    let (value, rest) = number(digits);
    if is_offset(digits, rest) && is_place(place, value, text) {
        Some(after_blanks(after_colon(after_name(rest))))
    } else {
        None
    }
}

/// Whether an offset of this value, or an octal one, is that of this place.
#[inline(always)]
fn is_place(place: u128, value: u64, text: &[u8]) -> bool
    ensures { result ≡ ((value == place) || (is_octal text.now && (offset_value 8 0 text.now == place))) }
{
    u128::from(value) == place || (is_octal(text) && u128::from(offset_value(8, text)) == place)
}
