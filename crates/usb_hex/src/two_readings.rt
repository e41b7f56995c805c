//! Texts that two readings would take differently.
ghost use Rattle.std.specs.Prelude.{◌≡◌, ◌≤◌, length};
ghost use Rattle.hex.specs.Hex.{is_hex_digit};
ghost use Rattle.usb_hex.specs.Columns.{after_all};
ghost use Rattle.usb_hex.specs.TwoReadings.{after_radix, begins_bits, begins_group, begins_offset, begins_words, counts_bytes, digits_in_line, has_offset_after, has_two_readings, is_binary, is_count, is_counted};

use crate::column::{
    after_blanks, after_hex_digits, at_start, begins_blank, begins_feed, begins_gap,
    begins_numbers, next_line,
};
use crate::hex_digit::digit;
use crate::label::are_pairs;
use crate::offset::{is_offset, offset_value};

/// Whether two readings would take a text differently.
pub(crate) fn has_two_readings(text: &[u8]) -> bool
    ensures { result ≡ has_two_readings text.now }
{
    let start = at_start(text);
    (begins_blank(text) && begins_words(start))
        || begins_bits(start)
        || begins_numbers(start)
        || begins_offset(start)
        || counts_bytes(start)
}

/// Whether a word of which nothing says which byte is first is at the start of a text.
fn begins_words(text: &[u8]) -> bool
    ensures { result ≡ begins_words text.now }
{
    begins_digits(4, text) || begins_digits(8, text) || begins_digits(16, text)
}

/// Whether a group of `count` digits is at the start of a text.
fn begins_digits(count: usize, text: &[u8]) -> bool
    ensures { result ≡ begins_group count is_hex_digit text.now }
{
    let rest = after_hex_digits(text);
    text.len() - rest.len() == count && begins_gap(rest)
}

/// Whether eight bits are at the start of a text.
fn begins_bits(text: &[u8]) -> bool
    ensures { result ≡ begins_bits text.now }
{
    let text = after_radix(text);
    let rest = after_bits(text);
    text.len() - rest.len() == 8 && begins_gap(rest)
}

/// What is left after all leading bits.
#[tactic(auto, unfolding(crate::specs::Columns::after_all))]
fn after_bits(text: &[u8]) -> &[u8]
    ensures is { result.now ≡ after_all is_binary text.now }
    ensures within { length result.now ≤ length text.now }
{
    let mut rest = text;
    while let [b'0' | b'1', tail @ ..] = rest {
        rest = tail;
    }
    rest
}

/// What is left after `0b`, if that is there.
fn after_radix(text: &[u8]) -> &[u8]
    ensures { result.now ≡ after_radix text.now }
{
    match text {
        [b'0', b'b', rest @ ..] => rest,
        _ => text,
    }
}

/// Whether a number as an offset is before two bytes alone.
fn begins_offset(text: &[u8]) -> bool
    ensures { result ≡ begins_offset text.now }
{
    let rest = after_hex_digits(text);
    is_offset(text, rest) && begins_blank(rest) && are_pairs(after_blanks(rest))
}

/// Whether the next line begins with a count of bytes, and this one with such a count or zeros.
fn counts_bytes(text: &[u8]) -> bool
    ensures { result ≡ counts_bytes text.now }
{
    let rest = after_hex_digits(text);
    begins_blank(rest)
        && (is_offset(text, rest) || matches!(text, [b'0', b'0', ..]))
        && (is_counted(16, text) || is_counted(10, text))
}

/// Whether the next line begins with the number of this one and the count of bytes after that.
fn is_counted(radix: u8, text: &[u8]) -> bool
    ensures { result ≡ is_counted radix text.now }
{
    let rest = after_hex_digits(text);
    let count = digits_in_line(rest) / 2;
    count > 0
        && u128::from(offset_value(radix, next_line(rest)))
            == u128::from(offset_value(radix, text)) + count as u128
}

/// Whether what could be an offset begins a line after `count` bytes of a text without columns.
#[tactic(auto, using(crate::proofs::ColumnLines::empty_has_no_offset))]
pub(crate) fn has_offset_after(count: usize, text: &[u8]) -> bool
    ensures { result ≡ has_offset_after count text.now }
{
    let start = at_start(text);
    if begins_feed(start) {
        return false;
    }
    is_offset(start, after_hex_digits(start)) && (begins_offset(start) || is_count(count, start))
}

/// Whether the number at the start of a line is the count of the bytes before it.
fn is_count(count: usize, text: &[u8]) -> bool
    ensures { result ≡ is_count count text.now }
{
    begins_gap(after_hex_digits(text))
        && (offset_value(16, text) == count as u64 || offset_value(10, text) == count as u64)
}

/// How many digits are in a line.
#[tactic(auto, unfolding(crate::specs::TwoReadings::digits_in_line))]
fn digits_in_line(text: &[u8]) -> usize
    ensures is { result ≡ digits_in_line text.now }
{
    let mut count = 0;
    let mut rest = text;
    while let [c, tail @ ..] = rest {
        if *c == b'\n' {
            break;
        }
        if digit(*c).is_some() {
            count += 1;
        }
        rest = tail;
    }
    count
}
