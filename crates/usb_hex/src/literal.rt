//! Literals of Python and Rust, in which a printable character is its own byte.
ghost use Rattle.std.specs.Prelude.{◌≡◌, ◌<◌, ◌≤◌, IfSome, MatchOption, None, Some, false, length};
ghost use Rattle.usb_hex.specs.Columns.{after_all};
ghost use Rattle.usb_hex.specs.inside.Unmarked.{literal_at};
ghost use Rattle.usb_hex.specs.Literals.{after_literal, after_opening, begins_literal, escaped, hex_escape, is_space, literal_escape, literal_in, literal_item, literal_of, reopened};

use crate::bracket::has;
use crate::column::{after_one, at_start};
use crate::hex_digit::byte_of;
use crate::label::{begins_decimal, ends_declaration};
use crate::source_item::closing_item;
use crate::symbol::{is_of_word, is_quote};

/// The text from the quote of its literal on, where it has one. Without a backslash it has none.
#[tactic(auto, using(crate::proofs::Unmarked::no_literal))]
pub(crate) fn literal_of(text: &[u8]) -> Option<&[u8]>
    ensures is { MatchOption result (literal_of text.now ≡ None) (λ rest. literal_of text.now ≡ Some rest.now) }
    ensures within { IfSome result (λ rest. length rest.now ≤ length text.now) }
{
    if has(b'\\', text) {
        literal_at(at_start(text))
    } else {
        None
    }
}

/// The same at the start of a text, which no number begins.
fn literal_at(start: &[u8]) -> Option<&[u8]>
    ensures is { MatchOption result (literal_at start.now ≡ None) (λ rest. literal_at start.now ≡ Some rest.now) }
    ensures within { IfSome result (λ rest. length rest.now ≤ length start.now) }
{
    if begins_decimal(start) {
        None
    } else {
        literal_in(start)
    }
}

/// The same of a text that begins with no number.
#[tactic(auto, unfolding(crate::specs::Literals::literal_in))]
fn literal_in(text: &[u8]) -> Option<&[u8]>
    ensures is { MatchOption result (literal_in false text.now ≡ None) (λ rest. literal_in false text.now ≡ Some rest.now) }
    ensures within { IfSome result (λ rest. length rest.now ≤ length text.now) }
{
    let mut named = false;
    let mut rest = text;
    while let [c, tail @ ..] = rest {
        if begins_literal(rest) && !named {
            return Some(tail);
        }
        if ends_declaration(*c) || is_quote(*c) {
            return None;
        }
        named = is_of_word(*c);
        rest = tail;
    }
    None
}

/// Whether `b'\` is at the start of a text.
fn begins_literal(text: &[u8]) -> bool
    ensures { result ≡ begins_literal text.now }
{
    match text {
        [b'b', quote, b'\\', ..] => is_quote(*quote),
        _ => false,
    }
}

/// What is left after the quote that begins a literal.
pub(crate) fn after_opening(text: &[u8]) -> &[u8]
    ensures is { result.now ≡ after_opening text.now }
    ensures within { length result.now ≤ length text.now }
{
    match literal_of(text) {
        None => text,
        Some(literal) => after_one(literal),
    }
}

/// The item in a literal with this quote.
#[tactic(auto, unfolding(crate::specs::Literals::literal_item))]
pub(crate) fn literal_item(quote: u8, text: &[u8]) -> Option<(Option<u8>, &[u8])>
    ensures is { MatchOption result (literal_item quote text.now ≡ None) (λ p. literal_item quote text.now ≡ Some (p.0, p.1.now)) }
    ensures less { IfSome result (λ p. length p.1.now < length text.now) }
{
    match text {
        [c, rest @ ..] if *c == quote => after_literal(quote, rest),
        [b'\\', rest @ ..] => literal_escape(rest),
        [c, rest @ ..] if *c >= 32 && *c <= 126 => Some((Some(*c), rest)),
        _ => None,
    }
}

/// The byte after a backslash.
fn literal_escape(text: &[u8]) -> Option<(Option<u8>, &[u8])>
    ensures is { MatchOption result (literal_escape text.now ≡ None) (λ p. literal_escape text.now ≡ Some (p.0, p.1.now)) }
    ensures less { IfSome result (λ p. length p.1.now < length text.now) }
{
    match text {
        [b'x', rest @ ..] => hex_escape(rest),
        [b'0', rest @ ..] if begins_decimal(rest) => None,
        [c, rest @ ..] => Some((Some(escaped(*c)?), rest)),
        [] => None,
    }
}

/// The byte after `\x`.
fn hex_escape(text: &[u8]) -> Option<(Option<u8>, &[u8])>
    ensures is { MatchOption result (hex_escape text.now ≡ None) (λ p. hex_escape text.now ≡ Some (p.0, p.1.now)) }
    ensures less { IfSome result (λ p. length p.1.now < length text.now) }
{
    match text {
        [high, low, rest @ ..] => Some((Some(byte_of(*high, *low)?), rest)),
        _ => None,
    }
}

/// The byte of an escape of one letter.
fn escaped(c: u8) -> Option<u8>
    ensures { result ≡ escaped c }
{
    match c {
        b'0' => Some(0),
        b'n' => Some(b'\n'),
        b'r' => Some(b'\r'),
        b't' => Some(b'\t'),
        b'\\' | b'"' | b'\'' => Some(c),
        _ => None,
    }
}

/// The item after a literal: the start of another, or the end of a call.
fn after_literal(quote: u8, text: &[u8]) -> Option<(Option<u8>, &[u8])>
    ensures is { MatchOption result (after_literal quote text.now ≡ None) (λ p. after_literal quote text.now ≡ Some (p.0, p.1.now)) }
    ensures less { IfSome result (λ p. length p.1.now ≤ length text.now) }
{
    match reopened(quote, after_spaces(text)) {
        Some(literal) => Some((None, literal)),
        None => closing_item(text),
    }
}

/// What is left after `b` and this quote, if they are there.
fn reopened(quote: u8, text: &[u8]) -> Option<&[u8]>
    ensures is { MatchOption result (reopened quote text.now ≡ None) (λ rest. reopened quote text.now ≡ Some rest.now) }
    ensures within { IfSome result (λ rest. length rest.now ≤ length text.now) }
{
    match text {
        [b'b', c, rest @ ..] if *c == quote => Some(rest),
        _ => None,
    }
}

/// What is left after all leading white space.
#[tactic(auto, unfolding(crate::specs::Columns::after_all))]
fn after_spaces(text: &[u8]) -> &[u8]
    ensures is { result.now ≡ after_all is_space text.now }
    ensures within { length result.now ≤ length text.now }
{
    let mut rest = text;
    while let [b'\t' | b'\n' | b'\r' | b' ', tail @ ..] = rest {
        rest = tail;
    }
    rest
}
