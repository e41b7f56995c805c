//! Hexadecimal texts, read: their forms and items, and why a text is none.
ghost use Rattle.std.specs.Prelude.{◌≡◌, ◌+◌, count_by, drop, length, take};
ghost use Rattle.usb_hex.specs.HexText.{column_after};
ghost use Rattle.usb_text.specs.Lines.{is_line_feed};
ghost use Rattle.usb_hex.specs.Hexadecimal.{fault_at, first_of};
ghost use Rattle.std.specs.Prelude.{◌≡◌};
ghost use Rattle.hex.specs.Hex.{is_hex_digit};
ghost use Rattle.usb_hex.specs.Columns.{after_all, after_one};
ghost use Rattle.usb_hex.specs.TwoReadings.{has_offset_after};
ghost use Rattle.usb_hex.specs.HexText.{begins_directive, begins_mark, form_of, is_digit_letter};
ghost use Rattle.std.specs.Prelude.{◌≡◌, ◌<◌, ◌≤◌, IfSome, MatchOption, None, Some, length, slice_index, ◌&&◌, ◌==◌};
ghost use Rattle.usb_hex.specs.HexText.{at_line, begins_byte, counted_item, has_characters, has_no_item, is_mark, item, line_item, mark_or_byte, plain_item};

use crate::column::{
    after_blanks, after_line, after_one, at_offset, at_start, begins_blank, begins_digit,
    begins_zeros, column_form, columns_of, has_three_spaces, has_two_spaces, is_too_long,
};
use crate::hex_digit::{byte_of, digit, is_gap};
use crate::literal::literal_item;
use crate::named::after_label;
use crate::source_item::{Style, source_item};
use crate::symbol::is_decimal;
use crate::two_readings::{has_offset_after, has_two_readings};

/// Why a text has no bytes.
#[derive(Clone, Copy, Debug, PartialEq, Eq, Hash)]
pub enum HexFault {
    /// It is not hexadecimal: the line and the column, from 1, of the first character that begins nothing, and the
    /// character, or of its end where it has no byte. A line feed begins nothing where the offset of the line after it
    /// is not the count of the bytes before.
    Text {
        line: usize,
        column: usize,
        found: Option<u8>,
    },
    /// Out of memory.
    Memory,
}

/// The fault at a place of a text.
pub(crate) fn fault_at(text: &[u8], place: usize) -> HexFault
    ensures { result ≡ fault_at text.now place }
{
    let before = front(text, place);
    HexFault::Text {
        line: line_after(before),
        column: column_after(before),
        found: first_of(after(text, place)),
    }
}

/// This many characters of a text, or all.
#[tactic(auto, using(std::proofs::lemmas::List::take_all))]
fn front(text: &[u8], count: usize) -> &[u8]
    ensures { result.now ≡ take count text.now }
{
    if count < text.len() {
        &text[..count]
    } else {
        text
    }
}

/// What is after `count` characters of a text.
#[tactic(auto, using(std::proofs::lemmas::List::drop_all))]
fn after(text: &[u8], count: usize) -> &[u8]
    ensures { result.now ≡ drop count text.now }
{
    if count < text.len() {
        &text[count..]
    } else {
        &[]
    }
}

/// The first character of a text, if it has one.
fn first_of(text: &[u8]) -> Option<u8>
    ensures { result ≡ first_of text.now }
{
    match text {
        [c, ..] => Some(*c),
        [] => None,
    }
}

/// The line of what is after a text, from 1.
fn line_after(text: &[u8]) -> usize
    ensures { result ≡ 1 + count_by is_line_feed text.now }
{
    let mut line = 1;
    for c in text {
        if *c == b'\n' {
            line += 1;
        }
    }
    line
}

/// The column of what is after a text, from 1.
#[tactic(auto, unfolding(crate::specs::HexText::column_after))]
fn column_after(text: &[u8]) -> usize
    ensures { result ≡ column_after 1 text.now }
{
    let mut column = 1;
    for c in text {
        column = if *c == b'\n' { 1 } else { column + 1 };
    }
    column
}

/// How the lines of a text are laid out.
#[derive(Clone, Copy, Debug, PartialEq, Eq, Hash)]
pub(crate) enum Form {
    /// Without columns.
    Plain,
    /// Two readings would take it differently, as words of which nothing says which byte is first. No byte is read.
    Words,
    /// In columns with a colon after each offset, as `xxd` writes them.
    Colons,
    /// In columns with spaces after each offset, as `hexdump -C` and Wireshark write them.
    Spaces,
    /// In rows of sixteen bytes and their characters after one space each, as PowerShell 7 writes them.
    Rows,
    /// In columns with one space after each offset and characters, as `objdump -s` writes them.
    Groups,
    /// In columns of single bytes after offsets from this one on, as debuggers and `od` write them.
    Addresses(u64),
    /// Without offsets, with names before lines and characters after them, as UsbTreeView writes them.
    Named,
    /// In literals with this quote, as Python and Rust write them.
    Literal(u8),
    /// As the source of a program or another text has bytes.
    Source(Style),
}

/// The form in which a text is read as it is.
#[tactic(auto, unfolding(crate::specs::HexText::form_of))]
pub(crate) fn form_of(text: &[u8]) -> Form
    ensures { result ≡ form_of text.now }
{
    if begins_zeros(text) {
        column_form(text)
    } else if columns_of(text).is_some()
        || has_two_readings(text)
        || begins_directive(at_start(text))
    {
        Form::Words
    } else {
        Form::Plain
    }
}

/// Whether a text begins as an assembler's line of bytes does, with letters before `0x`.
fn begins_directive(text: &[u8]) -> bool
    ensures { result ≡ begins_directive text.now }
{
    begins_digit_letter(text) && begins_mark(after_blanks(after_letters(text)))
}

/// Whether `0x` is at the start of a text.
fn begins_mark(text: &[u8]) -> bool
    ensures { result ≡ begins_mark text.now }
{
    matches!(text, [b'0', b'x', ..])
}

/// What is left after all leading digits that are letters.
#[tactic(auto, unfolding(crate::specs::Columns::after_all))]
fn after_letters(text: &[u8]) -> &[u8]
    ensures { result.now ≡ after_all is_digit_letter text.now }
{
    let mut rest = text;
    while let [c, tail @ ..] = rest {
        if !is_digit_letter(*c) {
            break;
        }
        rest = tail;
    }
    rest
}

/// Whether a digit that is a letter is at the start of a text.
fn begins_digit_letter(text: &[u8]) -> bool
    ensures { result ≡ is_digit_letter (slice_index text.now 0) }
{
    match text {
        [c, ..] => is_digit_letter(*c),
        [] => false,
    }
}

/// Whether the character is a digit and a letter.
fn is_digit_letter(c: u8) -> bool
    ensures { result ≡ is_digit_letter c }
{
    digit(c).is_some() && !is_decimal(c)
}

/// The item at the start of a text, after `count` bytes: the byte that it is, if it is one, and what is left.
#[inline(always)]
pub(crate) fn item(form: Form, count: usize, text: &[u8]) -> Option<(Option<u8>, &[u8])>
    ensures is { MatchOption result (item form count text.now ≡ None) (λ p. item form count text.now ≡ Some (p.0, p.1.now)) }
    ensures less { IfSome result (λ p. length p.1.now < length text.now) }
{
    match form {
        Form::Source(style) => counted_item(style, count, text),
        Form::Literal(quote) => literal_item(quote, text),
        Form::Words => None,
        _ => line_item(form, count, text),
    }
}

/// The item of a source, in which no line begins with what could be an offset.
#[inline(always)]
fn counted_item(style: Style, count: usize, text: &[u8]) -> Option<(Option<u8>, &[u8])>
    ensures is { MatchOption result (counted_item style count text.now ≡ None) (λ p. counted_item style count text.now ≡ Some (p.0, p.1.now)) }
    ensures less { IfSome result (λ p. length p.1.now < length text.now) }
{
    if has_offset_below(count, text) {
        None
    } else {
        source_item(style, text)
    }
}

/// Whether a line feed is here, and what could be an offset after it.
#[inline(always)]
fn has_offset_below(count: usize, text: &[u8]) -> bool
    ensures { result ≡ ((slice_index text.now 0 == 10) && has_offset_after count (after_one text.now)) }
{
    match text {
        [b'\n', rest @ ..] => has_offset_after(count, rest),
        _ => false,
    }
}

/// The same in a text with or without columns. Most items begin with a digit, which tells them from the others.
#[inline(always)]
#[tactic(auto, unfolding(crate::specs::HexText::line_item))]
fn line_item(form: Form, count: usize, text: &[u8]) -> Option<(Option<u8>, &[u8])>
    ensures is { MatchOption result (line_item form count text.now ≡ None) (λ p. line_item form count text.now ≡ Some (p.0, p.1.now)) }
    ensures less { IfSome result (λ p. length p.1.now < length text.now) }
{
    match text {
        [c, rest @ ..] if digit(*c).is_some() => mark_or_byte(form, *c, rest),
        [_, rest @ ..] if has_characters(form, count, text) => Some((None, after_line(rest))),
        _ => plain_item(form, count, text),
    }
}

/// The item at the start of a text that is in no column of characters.
#[inline(always)]
#[tactic(auto, unfolding(crate::specs::HexText::plain_item))]
fn plain_item(form: Form, count: usize, text: &[u8]) -> Option<(Option<u8>, &[u8])>
    ensures is { MatchOption result (plain_item form count text.now ≡ None) (λ p. plain_item form count text.now ≡ Some (p.0, p.1.now)) }
    ensures less { IfSome result (λ p. length p.1.now < length text.now) }
{
    match text {
        [c, rest @ ..] if *c != b'\n' && is_gap(*c) => Some((None, rest)),
        [b'\n', rest @ ..] => Some((None, at_line(form, count, rest)?)),
        [c, rest @ ..] => mark_or_byte(form, *c, rest),
        [] => None,
    }
}

/// The item that begins with this character: a mark, or a byte whose group isn't too long.
#[inline(always)]
fn mark_or_byte(form: Form, c: u8, text: &[u8]) -> Option<(Option<u8>, &[u8])>
    ensures is { MatchOption result (mark_or_byte form c text.now ≡ None) (λ p. mark_or_byte form c text.now ≡ Some (p.0, p.1.now)) }
    ensures within { IfSome result (λ p. length p.1.now ≤ length text.now) }
{
    let [d, rest @ ..] = text else {
        return None;
    };
    match byte_of(c, *d) {
        Some(_) if is_too_long(form, rest) => None,
        Some(byte) => Some((Some(byte), rest)),
        None if marks_byte(c, *d, rest) => Some((None, rest)),
        None => None,
    }
}

/// What is left after the start of a line that isn't the first, after `count` bytes.
#[inline(always)]
fn at_line(form: Form, count: usize, text: &[u8]) -> Option<&[u8]>
    ensures is { MatchOption result (at_line form count text.now ≡ None) (λ rest. at_line form count text.now ≡ Some rest.now) }
    ensures within { IfSome result (λ rest. length rest.now ≤ length text.now) }
{
    match form {
        Form::Plain if has_offset_after(count, text) => None,
        Form::Plain | Form::Words | Form::Literal(_) | Form::Source(_) => Some(text),
        Form::Named => Some(after_label(text)),
        Form::Colons | Form::Spaces | Form::Rows | Form::Groups => at_offset(count as u128, text),
        Form::Addresses(base) => at_offset(u128::from(base) + count as u128, text),
    }
}

/// Whether the characters of a line's bytes begin here.
#[inline(always)]
fn has_characters(form: Form, count: usize, text: &[u8]) -> bool
    ensures { result ≡ has_characters form count text.now }
{
    match form {
        Form::Plain | Form::Words | Form::Literal(_) | Form::Source(_) => false,
        Form::Colons | Form::Groups | Form::Addresses(_) => has_two_spaces(text),
        Form::Named => has_three_spaces(text),
        Form::Rows => has_two_spaces(text) || (begins_blank(text) && count % 16 == 0),
        Form::Spaces => { begins_bar(text) || has_three_spaces(text) || has_no_item(count, text) }
    }
}

/// Whether a bar is at the start of a text.
fn begins_bar(text: &[u8]) -> bool
    ensures { result ≡ (slice_index text.now 0 == 124) }
{
    matches!(text, [b'|', ..])
}

/// Whether nothing that a text without columns has is after two spaces.
fn has_no_item(count: usize, text: &[u8]) -> bool
    ensures { result ≡ has_no_item count text.now }
{
    has_two_spaces(text) && plain_item(Form::Plain, count, after_one(after_one(text))).is_none()
}

/// Whether the characters are a mark, and a byte is after them.
#[inline(always)]
fn marks_byte(c: u8, d: u8, rest: &[u8]) -> bool
    ensures { result ≡ (is_mark c d && begins_byte rest.now) }
{
    is_mark(c, d) && begins_byte(rest)
}

/// Whether the characters are `0x` or `\x`.
fn is_mark(c: u8, d: u8) -> bool
    ensures { result ≡ is_mark c d }
{
    (c == b'0' || c == b'\\') && d == b'x'
}

/// Whether two digits are at the start of a text, and no third one.
#[inline(always)]
fn begins_byte(text: &[u8]) -> bool
    ensures { result ≡ begins_byte text.now }
{
    match text {
        [c, d, rest @ ..] => digit(*c).is_some() && digit(*d).is_some() && !begins_digit(rest),
        _ => false,
    }
}
