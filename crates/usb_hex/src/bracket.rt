//! What is between the first bracket of a text and its partner.
ghost use Rattle.std.specs.Prelude.{◌≡◌, ◌≤◌, length};
ghost use Rattle.usb_hex.specs.Brackets.{begins_digits, bracket_of, closing, first_side, has, is_between_words, is_read, next_side, opening, precedes_bytes, shown};
ghost use Rattle.usb_hex.specs.Columns.{after_all};
ghost use Rattle.std.specs.Prelude.{IfErr, IfOk};
ghost use Rattle.usb_hex.specs.Brackets.{within};

use crate::column::{after_hex_digits, has_bytes};
use crate::hex_text::HexFault;
use crate::label::begins_two_digits;
use crate::reading::keep;
use crate::symbol::{begins_word, is_of_word};
use memchr::memchr;
use std::alloc::Global;

/// A kind of brackets.
#[derive(Clone, Copy, Debug, PartialEq, Eq, Hash)]
pub(crate) enum Bracket {
    Curly,
    Square,
}

/// On which side of the brackets a character is.
#[derive(Clone, Copy, Debug, PartialEq, Eq, Hash)]
pub(crate) enum Side {
    /// Before the equals sign of a declaration, whose type may have brackets.
    Declared,
    /// Before the first bracket.
    Before,
    /// Between the first bracket and its partner.
    Within,
    /// After that.
    After,
}

/// A text with spaces for what isn't between its first bracket and the partner. Its lines and columns are those of the
/// text.
#[tactic(auto, unfolding(crate::specs::Brackets::within))]
pub(crate) fn within(alloc: Global, bracket: Bracket, text: &[u8]) -> Result<Vec<u8>, HexFault>
    ensures ok { IfOk result (λ inner. inner.items ≡ within bracket (first_side bracket text.now) text.now) }
    ensures err { IfErr result (λ fault. fault ≡ HexFault.Memory) }
{
    let mut inner = Vec::new(alloc);
    let mut side = first_side(bracket, text);
    let mut rest = text;
    while let [c, tail @ ..] = rest {
        keep(&mut inner, Some(shown(bracket, side, *c, tail)))?;
        side = next_side(bracket, side, *c);
        rest = tail;
    }
    Ok(inner)
}

/// The kind of brackets that a text has: braces, where it has one.
pub(crate) fn bracket_of(text: &[u8]) -> Option<Bracket>
    ensures { result ≡ bracket_of text.now }
{
    if has(b'{', text) {
        Some(Bracket::Curly)
    } else if has(b'[', text) {
        Some(Bracket::Square)
    } else {
        None
    }
}

/// Whether a text has a character.
#[tactic(auto, using(crate::proofs::Found::is_found, crate::proofs::Found::is_nowhere))]
pub(crate) fn has(character: u8, text: &[u8]) -> bool
    ensures { result ≡ has character text.now }
{
    match memchr(character, text) {
        Some(_) => true,
        None => false,
    }
}

/// Where a text begins.
fn first_side(bracket: Bracket, text: &[u8]) -> Side
    ensures { result ≡ first_side bracket text.now }
{
    match bracket {
        Bracket::Square if has(b'=', text) => Side::Declared,
        Bracket::Curly | Bracket::Square => Side::Before,
    }
}

/// Where the character after this one is.
fn next_side(bracket: Bracket, side: Side, c: u8) -> Side
    ensures { result ≡ next_side bracket side c }
{
    match side {
        Side::Declared if c == b'=' => Side::Before,
        Side::Before if c == opening(bracket) => Side::Within,
        Side::Within if c == closing(bracket) => Side::After,
        _ => side,
    }
}

/// The character, or a space for one that isn't read.
fn shown(bracket: Bracket, side: Side, c: u8, rest: &[u8]) -> u8
    ensures { result ≡ shown bracket side c rest.now }
{
    if c == b'\n' || is_read(bracket, side, c, rest) {
        c
    } else {
        b' '
    }
}

/// Whether the character is read. A second bracket is, and so is the partner of the first before bytes: they begin no byte.
fn is_read(bracket: Bracket, side: Side, c: u8, rest: &[u8]) -> bool
    ensures { result ≡ is_read bracket side c rest.now }
{
    match side {
        Side::Declared | Side::Before => false,
        Side::Within => c != closing(bracket) || precedes_bytes(rest),
        Side::After => c == opening(bracket),
    }
}

/// Whether bytes are after the partner of the first bracket.
fn precedes_bytes(text: &[u8]) -> bool
    ensures { result ≡ precedes_bytes text.now }
{
    begins_digits(after_no_word(text)) || has_bytes(text)
}

/// Whether a text begins with `0x`, or with two digits or more with which a word ends.
fn begins_digits(text: &[u8]) -> bool
    ensures { result ≡ begins_digits text.now }
{
    matches!(text, [b'0', b'x', ..])
        || (begins_two_digits(text) && !begins_word(after_hex_digits(text)))
}

/// What is left from the first word on.
#[tactic(auto, unfolding(crate::specs::Columns::after_all))]
fn after_no_word(text: &[u8]) -> &[u8]
    ensures is { result.now ≡ after_all is_between_words text.now }
    ensures within { length result.now ≤ length text.now }
{
    let mut rest = text;
    while let [c, tail @ ..] = rest {
        if is_of_word(*c) {
            break;
        }
        rest = tail;
    }
    rest
}

fn opening(bracket: Bracket) -> u8
    ensures { result ≡ opening bracket }
{
    match bracket {
        Bracket::Curly => b'{',
        Bracket::Square => b'[',
    }
}

fn closing(bracket: Bracket) -> u8
    ensures { result ≡ closing bracket }
{
    match bracket {
        Bracket::Curly => b'}',
        Bracket::Square => b']',
    }
}
