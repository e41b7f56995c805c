//! The items of a text that has bytes as the source of a program or another text has them.
ghost use Rattle.std.specs.Prelude.{◌≡◌, ◌<◌, ◌≤◌, IfSome, MatchOption, None, Some, length};
ghost use Rattle.std.specs.List.{list_all};
ghost use Rattle.usb_hex.specs.SourceItems.{after_backslash, begins_prefix, decimal_item, decimals, ended_number, escape, escaped_item, loose_item, number, one_digit, pair_item, parting_item, precedes_number, prefixed_item, separated_item, short_number, source_item, suffixed_item};
ghost use Rattle.usb_hex.specs.SourceItems.{after_prefix, after_separator, begins_quoted, after_suffix, after_width, begins_escape, closing_item, ends_suffix, goes_on, is_closing, is_parting};

use crate::column::{after_blanks, begins_blank, begins_digit};
use crate::hex_digit::{byte_of, digit, is_gap};
use crate::symbol::{begins_word, is_decimal, is_letter, is_line_end, is_quote};

/// How a text without columns has its bytes.
#[derive(Clone, Copy, Debug, PartialEq, Eq, Hash)]
pub(crate) enum Style {
    /// In strings, each as `\x12`.
    Escaped,
    /// Each after a prefix, as `0x12` or `$12`; one of one decimal digit may have none.
    Prefixed,
    /// Each as two digits and `h`.
    Suffixed,
    /// Each as two digits.
    Pairs,
    /// Each as two digits, with colons or hyphens between them in a line.
    Separated,
    /// In an array, each as one or two hexadecimal digits.
    Loose,
    /// In an array, each as a decimal number.
    Decimals,
    /// In an array, as numbers that may be decimal or hexadecimal. No byte is read.
    Either,
}

/// The item at the start of a text of a style.
#[inline(always)]
pub(crate) fn source_item(style: Style, text: &[u8]) -> Option<(Option<u8>, &[u8])>
    ensures is { MatchOption result (source_item style text.now ≡ None) (λ p. source_item style text.now ≡ Some (p.0, p.1.now)) }
    ensures less { IfSome result (λ p. length p.1.now < length text.now) }
{
    match style {
        Style::Escaped => escaped_item(text),
        Style::Prefixed => prefixed_item(text),
        Style::Suffixed => suffixed_item(text),
        Style::Pairs => pair_item(text),
        Style::Separated => separated_item(text),
        Style::Loose => loose_item(text),
        Style::Decimals => decimal_item(text),
        Style::Either => parting_item(text),
    }
}

/// The item in strings.
#[tactic(auto, unfolding(crate::specs::SourceItems::escaped_item))]
fn escaped_item(text: &[u8]) -> Option<(Option<u8>, &[u8])>
    ensures is { MatchOption result (escaped_item text.now ≡ None) (λ p. escaped_item text.now ≡ Some (p.0, p.1.now)) }
    ensures less { IfSome result (λ p. length p.1.now < length text.now) }
{
    match text {
        [b'\\', rest @ ..] => after_backslash(rest),
        [b')', rest @ ..] => closing_item(rest),
        [c, rest @ ..] if is_quote(*c) || (is_parting(*c) && !begins_escape(rest)) => {
            Some((None, rest))
        }
        _ => None,
    }
}

/// Whether `\x` is at the start of a text.
pub(crate) fn begins_escape(text: &[u8]) -> bool
    ensures { result ≡ begins_escape text.now }
{
    matches!(text, [b'\\', b'x', ..])
}

/// The item after a backslash.
fn after_backslash(text: &[u8]) -> Option<(Option<u8>, &[u8])>
    ensures is { MatchOption result (after_backslash text.now ≡ None) (λ p. after_backslash text.now ≡ Some (p.0, p.1.now)) }
    ensures less { IfSome result (λ p. length p.1.now ≤ length text.now) }
{
    match text {
        [b'x', rest @ ..] => escape(rest),
        [c, ..] if is_line_end(*c) => Some((None, text)),
        _ => None,
    }
}

/// The byte after `\x`.
fn escape(text: &[u8]) -> Option<(Option<u8>, &[u8])>
    ensures is { MatchOption result (escape text.now ≡ None) (λ p. escape text.now ≡ Some (p.0, p.1.now)) }
    ensures less { IfSome result (λ p. length p.1.now < length text.now) }
{
    match text {
        [high, low, rest @ ..] if goes_on(rest) => Some((Some(byte_of(*high, *low)?), rest)),
        _ => None,
    }
}

/// Whether a backslash or a quote is at the start of a text.
fn goes_on(text: &[u8]) -> bool
    ensures { result ≡ goes_on text.now }
{
    match text {
        [c, ..] => *c == b'\\' || is_quote(*c),
        [] => false,
    }
}

/// The item among numbers with a prefix.
#[tactic(auto, unfolding(crate::specs::SourceItems::prefixed_item))]
fn prefixed_item(text: &[u8]) -> Option<(Option<u8>, &[u8])>
    ensures is { MatchOption result (prefixed_item text.now ≡ None) (λ p. prefixed_item text.now ≡ Some (p.0, p.1.now)) }
    ensures less { IfSome result (λ p. length p.1.now < length text.now) }
{
    match text {
        [c, rest @ ..] if is_parting(*c) || *c == b'"' => Some((None, rest)),
        [c, rest @ ..] => match after_prefix(*c, rest) {
            None => one_digit(*c, rest),
            Some(tail) => number(tail),
        },
        [] => None,
    }
}

/// What is left after a prefix, if there is one.
fn after_prefix(c: u8, rest: &[u8]) -> Option<&[u8]>
    ensures is { MatchOption result (after_prefix c rest.now ≡ None) (λ tail. after_prefix c rest.now ≡ Some tail.now) }
    ensures within { IfSome result (λ tail. length tail.now ≤ length rest.now) }
{
    match (c, rest) {
        (b'$', _) => Some(rest),
        (b'0', [b'x' | b'X', tail @ ..]) => Some(tail),
        _ => None,
    }
}

/// Whether blanks and a number with a prefix are at the start of a text.
fn precedes_number(text: &[u8]) -> bool
    ensures { result ≡ precedes_number text.now }
{
    begins_blank(text) && begins_prefix(after_blanks(text))
}

/// Whether a prefix is at the start of a text.
fn begins_prefix(text: &[u8]) -> bool
    ensures { result ≡ begins_prefix text.now }
{
    matches!(text, [b'$', ..] | [b'0', b'x' | b'X', ..])
}

/// The byte of one decimal digit.
fn one_digit(c: u8, rest: &[u8]) -> Option<(Option<u8>, &[u8])>
    ensures is { MatchOption result (one_digit c rest.now ≡ None) (λ p. one_digit c rest.now ≡ Some (p.0, p.1.now)) }
    ensures less { IfSome result (λ p. length p.1.now ≤ length rest.now) }
{
    if is_decimal(c) && !(begins_word(rest) || precedes_number(rest)) {
        Some((Some(c - b'0'), rest))
    } else {
        None
    }
}

/// The byte of one or two digits.
fn number(text: &[u8]) -> Option<(Option<u8>, &[u8])>
    ensures is { MatchOption result (number text.now ≡ None) (λ p. number text.now ≡ Some (p.0, p.1.now)) }
    ensures less { IfSome result (λ p. length p.1.now < length text.now) }
{
    match text {
        [c, d, rest @ ..] if digit(*d).is_some() => ended_number(
            after_suffix(rest),
            byte_of(*c, *d),
        ),
        [c, rest @ ..] => ended_number(after_suffix(rest), digit(*c)),
        [] => None,
    }
}

/// A byte, where its number ends there.
fn ended_number(rest: &[u8], byte: Option<u8>) -> Option<(Option<u8>, &[u8])>
    ensures is { MatchOption result (ended_number rest.now byte ≡ None) (λ p. ended_number rest.now byte ≡ Some (p.0, p.1.now)) }
    ensures less { IfSome result (λ p. length p.1.now ≤ length rest.now) }
{
    if begins_word(rest) {
        None
    } else {
        Some((Some(byte?), rest))
    }
}

/// What is left after a suffix `u`, if there is one.
fn after_suffix(text: &[u8]) -> &[u8]
    ensures is { result.now ≡ after_suffix text.now }
    ensures within { length result.now ≤ length text.now }
{
    match text {
        [b'u' | b'U', rest @ ..] => after_width(rest),
        _ => text,
    }
}

/// What is left after an 8, if there is one.
fn after_width(text: &[u8]) -> &[u8]
    ensures is { result.now ≡ after_width text.now }
    ensures within { length result.now ≤ length text.now }
{
    match text {
        [b'8', rest @ ..] => rest,
        _ => text,
    }
}

/// The item among bytes of two digits.
#[inline(always)]
#[tactic(auto, unfolding(crate::specs::SourceItems::pair_item))]
fn pair_item(text: &[u8]) -> Option<(Option<u8>, &[u8])>
    ensures is { MatchOption result (pair_item text.now ≡ None) (λ p. pair_item text.now ≡ Some (p.0, p.1.now)) }
    ensures less { IfSome result (λ p. length p.1.now < length text.now) }
{
    match text {
        [c, rest @ ..] if is_parting(*c) || is_quote(*c) => Some((None, rest)),
        [b')', rest @ ..] => closing_item(rest),
        [_, _, rest @ ..] if begins_quoted(rest) => None,
        [c, d, rest @ ..] => Some((Some(byte_of(*c, *d)?), rest)),
        _ => None,
    }
}

/// Whether a quote that ends no string is at the start of a text.
fn begins_quoted(text: &[u8]) -> bool
    ensures { result ≡ begins_quoted text.now }
{
    match text {
        [c, d, ..] => is_quote(*c) && (digit(*d).is_some() || is_quote(*d)),
        _ => false,
    }
}

/// The item among bytes of two digits and `h`.
#[tactic(auto, unfolding(crate::specs::SourceItems::suffixed_item))]
fn suffixed_item(text: &[u8]) -> Option<(Option<u8>, &[u8])>
    ensures is { MatchOption result (suffixed_item text.now ≡ None) (λ p. suffixed_item text.now ≡ Some (p.0, p.1.now)) }
    ensures less { IfSome result (λ p. length p.1.now < length text.now) }
{
    match text {
        [c, rest @ ..] if is_parting(*c) => Some((None, rest)),
        [c, d, h, rest @ ..] if ends_suffix(*h, rest) => Some((Some(byte_of(*c, *d)?), rest)),
        [b'0', _, _, h, tail @ ..] if ends_suffix(*h, tail) => Some((None, &text[1..])),
        _ => None,
    }
}

/// Whether the character is the suffix `h`, with which a number ends.
fn ends_suffix(c: u8, rest: &[u8]) -> bool
    ensures { result ≡ ends_suffix c rest.now }
{
    (c == b'h' || c == b'H') && !begins_word(rest)
}

/// The item among bytes with colons or hyphens between them.
#[tactic(auto, unfolding(crate::specs::SourceItems::separated_item))]
fn separated_item(text: &[u8]) -> Option<(Option<u8>, &[u8])>
    ensures is { MatchOption result (separated_item text.now ≡ None) (λ p. separated_item text.now ≡ Some (p.0, p.1.now)) }
    ensures less { IfSome result (λ p. length p.1.now < length text.now) }
{
    match text {
        [c, rest @ ..] if is_parting(*c) => Some((None, rest)),
        [c, d, rest @ ..] => {
            let left = after_separator(rest)?;
            Some((Some(byte_of(*c, *d)?), left))
        }
        _ => None,
    }
}

/// What is left after a separator, or before the end of a line.
fn after_separator(text: &[u8]) -> Option<&[u8]>
    ensures is { MatchOption result (after_separator text.now ≡ None) (λ tail. after_separator text.now ≡ Some tail.now) }
    ensures within { IfSome result (λ tail. length tail.now ≤ length text.now) }
{
    match text {
        [] => Some(text),
        [c, ..] if is_line_end(*c) => Some(text),
        [b':' | b'-', rest @ ..] if begins_digit(rest) => Some(rest),
        _ => None,
    }
}

/// The item among numbers of an array.
#[tactic(auto, unfolding(crate::specs::SourceItems::loose_item))]
fn loose_item(text: &[u8]) -> Option<(Option<u8>, &[u8])>
    ensures is { MatchOption result (loose_item text.now ≡ None) (λ p. loose_item text.now ≡ Some (p.0, p.1.now)) }
    ensures less { IfSome result (λ p. length p.1.now < length text.now) }
{
    match text {
        [c, rest @ ..] if is_parting(*c) => Some((None, rest)),
        _ => short_number(text),
    }
}

/// The byte of one or two digits without a suffix.
fn short_number(text: &[u8]) -> Option<(Option<u8>, &[u8])>
    ensures is { MatchOption result (short_number text.now ≡ None) (λ p. short_number text.now ≡ Some (p.0, p.1.now)) }
    ensures less { IfSome result (λ p. length p.1.now < length text.now) }
{
    match text {
        [c, d, rest @ ..] if digit(*d).is_some() => ended_number(rest, byte_of(*c, *d)),
        [c, rest @ ..] => ended_number(rest, digit(*c)),
        [] => None,
    }
}

/// The item among decimal numbers of an array.
#[tactic(auto, unfolding(crate::specs::SourceItems::decimal_item))]
fn decimal_item(text: &[u8]) -> Option<(Option<u8>, &[u8])>
    ensures is { MatchOption result (decimal_item text.now ≡ None) (λ p. decimal_item text.now ≡ Some (p.0, p.1.now)) }
    ensures less { IfSome result (λ p. length p.1.now < length text.now) }
{
    match text {
        [c, rest @ ..] if is_parting(*c) => Some((None, rest)),
        [c, rest @ ..] if is_decimal(*c) => decimals(*c - b'0', rest),
        _ => None,
    }
}

/// The item among numbers that may be decimal or hexadecimal.
fn parting_item(text: &[u8]) -> Option<(Option<u8>, &[u8])>
    ensures is { MatchOption result (parting_item text.now ≡ None) (λ p. parting_item text.now ≡ Some (p.0, p.1.now)) }
    ensures less { IfSome result (λ p. length p.1.now < length text.now) }
{
    match text {
        [c, rest @ ..] if is_parting(*c) => Some((None, rest)),
        _ => None,
    }
}

/// The byte of decimal digits, some of which have a value already.
#[tactic(auto, unfolding(crate::specs::SourceItems::decimals))]
fn decimals(value: u8, text: &[u8]) -> Option<(Option<u8>, &[u8])>
    ensures is { MatchOption result (decimals value text.now ≡ None) (λ p. decimals value text.now ≡ Some (p.0, p.1.now)) }
    ensures less { IfSome result (λ p. length p.1.now ≤ length text.now) }
{
    match text {
        [c, rest @ ..] if is_decimal(*c) => {
            let more = u16::from(value) * 10 + u16::from(*c - b'0');
            if value == 0 || more > 255 {
                None
            } else {
                decimals(more as u8, rest)
            }
        }
        [c, ..] if is_letter(*c) => None,
        _ => Some((Some(value), text)),
    }
}

/// Whether the character is white space, a comma or a semicolon.
pub(crate) fn is_parting(c: u8) -> bool
    ensures { result ≡ is_parting c }
{
    is_gap(c) || c == b';'
}

/// The item of a closing parenthesis: all that is left, where nothing else is in it.
pub(crate) fn closing_item(rest: &[u8]) -> Option<(Option<u8>, &[u8])>
    ensures is { MatchOption result (closing_item rest.now ≡ None) (λ p. closing_item rest.now ≡ Some (p.0, p.1.now)) }
    ensures less { IfSome result (λ p. length p.1.now ≤ length rest.now) }
{
    if closes(rest) {
        Some((None, &[]))
    } else {
        None
    }
}

/// Whether nothing but such characters is in a text.
fn closes(text: &[u8]) -> bool
    ensures { result ≡ list_all is_closing text.now }
{
    text.iter().all(|c| is_closing(*c))
}

/// Whether the character is a closing parenthesis, white space, a comma or a semicolon.
fn is_closing(c: u8) -> bool
    ensures { result ≡ is_closing c }
{
    c == b')' || is_parting(c)
}
