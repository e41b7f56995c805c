//! Texts in parts, and numbers in digits.
ghost use Rattle.std.specs.Prelude.{◌≡◌, ◌<◌, ◌≤◌, length, IfSome};
ghost use Rattle.usb_capture.specs.Words.{after_part, after_parts, digit, number_after, number_below, number_in, number_with, part, place_of};

use memchr::memchr;
use usb_fields::{after, prefix};

/// How many bytes come before the first of this value.
#[tactic(auto, using(crate::proofs::WordLemmas::place_found, crate::proofs::WordLemmas::place_nowhere))]
pub(crate) fn place_of(byte: u8, text: &[u8]) -> usize
    ensures { result ≡ place_of byte text.now }
{
    match memchr(byte, text) {
        Some(place) => place,
        None => text.len(),
    }
}

/// What follows the first part of a text, and the byte after it.
fn after_part(byte: u8, text: &[u8]) -> &[u8]
    ensures { result.now ≡ after_part byte text.now }
{
    after(after(text, place_of(byte, text)), 1)
}

/// What follows the first `count` parts of a text, between which this byte stands.
#[tactic(auto, unfolding(crate::specs::Words::after_parts))]
pub(crate) fn after_parts(byte: u8, count: u8, text: &[u8]) -> &[u8]
    ensures { result.now ≡ after_parts byte count text.now }
{
    let mut rest = text;
    for _number in 0..count {
        rest = after_part(byte, rest);
    }
    rest
}

/// The part after this many.
#[tactic(auto, unfolding(crate::specs::Words::part))]
pub(crate) fn part(byte: u8, number: u8, text: &[u8]) -> &[u8]
    ensures { result.now ≡ part byte number text.now }
{
    let rest = after_parts(byte, number, text);
    prefix(rest, place_of(byte, rest))
}

/// The number that a text is in digits of this base, if it has a digit and 64 bits hold it.
#[tactic(auto, unfolding(crate::specs::Words::number_in))]
pub(crate) fn number_in(base: u8, text: &[u8]) -> Option<u64>
    ensures { result ≡ number_in base text.now }
{
    if text.is_empty() {
        return None;
    }
    number_of(base, text)
}

/// The number of these digits, which is 0 if there is none.
fn number_of(base: u8, text: &[u8]) -> Option<u64>
    ensures { result ≡ number_after base 0 text.now }
{
    let mut number = 0;
    for character in text {
        number = number_with(base, number, *character)?;
    }
    Some(number)
}

/// The same, if it is below a limit.
#[tactic(auto, unfolding(crate::specs::Words::number_below))]
pub(crate) fn number_below(base: u8, limit: u64, text: &[u8]) -> Option<u64>
    ensures is { result ≡ number_below base limit text.now }
    ensures below { IfSome result (λ number. number < limit) }
{
    let number = number_in(base, text)?;
    if number < limit { Some(number) } else { None }
}

/// A number with a digit of this base after it, if 64 bits hold it.
#[tactic(auto, unfolding(crate::specs::Words::number_with))]
fn number_with(base: u8, number: u64, character: u8) -> Option<u64>
    ensures { result ≡ number_with base number character }
{
    let digit = digit(character)?;
    if digit >= base {
        return None;
    }
    number
        .checked_mul(u64::from(base))?
        .checked_add(u64::from(digit))
}

/// The value of a digit.
#[tactic(auto, unfolding(crate::specs::Words::digit))]
pub(crate) fn digit(character: u8) -> Option<u8>
    ensures is { result ≡ digit character }
    ensures small { IfSome result (λ d. d < 16) }
{
    match character {
        b'0'..=b'9' => Some(character - b'0'),
        b'a'..=b'f' => Some(character - b'a' + 10),
        _ => None,
    }
}
