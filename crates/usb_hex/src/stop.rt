//! The line that says why a text is not read as hexadecimal.
ghost use Rattle.std.specs.Prelude.{◌≡◌, ◌++◌, OnOk, codes};
ghost use Rattle.usb_text.specs.Numbers.{byte_code};
ghost use Rattle.usb_hex.specs.Stops.{character_words, found_words, is_ambiguous, is_some_source, is_utf16, line_words, place_line, place_words, refused_words, stop_line, text_line};

use crate::column::{column_form, columns_of};
use crate::hex_text::{Form, HexFault};
use crate::hexadecimal::{is_source, named_form};
use crate::two_readings::has_two_readings;
use std::alloc::AllocError;
use usb_text::{Text, put_byte_code};

/// Puts the line that says why the bytes are no hexadecimal text: `? not hexadecimal text: line 1 column 15 has '/'`.
/// Nothing is put where they don't look like text.
///
/// # Errors
///
/// Out of memory.
pub fn put_stop(text: &mut Text, bytes: &[u8], fault: HexFault) -> Result<(), AllocError>
    ensures { OnOk result (text.new ≡ text.old ++ stop_line bytes.now fault) }
{
    match fault {
        HexFault::Memory => Ok(()),
        HexFault::Text {
            line,
            column,
            found,
        } => {
            if is_utf16(bytes) {
                put_utf16(text)
            } else if is_some_source(bytes) {
                put_text_line(text, bytes, line, column, found)
            } else {
                Ok(())
            }
        }
    }
}

/// Puts the line of bytes that are a text.
fn put_text_line(
    text: &mut Text,
    bytes: &[u8],
    line: usize,
    column: usize,
    found: Option<u8>,
) -> Result<(), AllocError>
    ensures { OnOk result (text.new ≡ text.old ++ text_line bytes.now line column found) }
{
    if is_ambiguous(bytes) {
        put_refused(text)?;
        text.put("it has two readings\n")
    } else {
        put_place_line(text, line, column, found)
    }
}

/// Puts the line that says a place and what is there.
#[tactic(auto, unfolding(crate::specs::Stops::place_line))]
fn put_place_line(
    text: &mut Text,
    line: usize,
    column: usize,
    found: Option<u8>,
) -> Result<(), AllocError>
    ensures { OnOk result (text.new ≡ text.old ++ place_line line column found) }
{
    put_place(text, line, column)?;
    put_found(text, found)?;
    text.put("\n")
}

/// Puts a place.
#[tactic(auto, unfolding(crate::specs::Stops::place_words))]
fn put_place(text: &mut Text, line: usize, column: usize) -> Result<(), AllocError>
    ensures { OnOk result (text.new ≡ text.old ++ place_words line column) }
{
    put_line(text, line)?;
    text.put(" column ")?;
    text.put_decimal(column as u64)
}

/// Puts the line of a place.
#[tactic(auto, unfolding(crate::specs::Stops::line_words))]
fn put_line(text: &mut Text, line: usize) -> Result<(), AllocError>
    ensures { OnOk result (text.new ≡ text.old ++ line_words line) }
{
    put_refused(text)?;
    text.put("line ")?;
    text.put_decimal(line as u64)
}

/// Puts what each such line begins with.
#[tactic(auto, unfolding(crate::specs::Stops::refused_words))]
fn put_refused(text: &mut Text) -> Result<(), AllocError>
    ensures { OnOk result (text.new ≡ text.old ++ refused_words) }
{
    text.put("? not hexadecimal text: ")
}

/// Puts the line of UTF-16.
fn put_utf16(text: &mut Text) -> Result<(), AllocError>
    ensures { OnOk result (text.new ≡ text.old ++ refused_words ++ codes "UTF-16\n") }
{
    put_refused(text)?;
    text.put("UTF-16\n")
}

/// Puts what is at a place.
#[tactic(auto, unfolding(crate::specs::Stops::found_words))]
fn put_found(text: &mut Text, found: Option<u8>) -> Result<(), AllocError>
    ensures { OnOk result (text.new ≡ text.old ++ found_words found) }
{
    match found {
        None => text.put(" is the end"),
        Some(b'\n') => text.put(" is the end of the line"),
        Some(c) => {
            if c >= 32 && c <= 126 {
                put_quoted(text, c)
            } else {
                put_code(text, c)
            }
        }
    }
}

/// Puts a character in quotes.
fn put_quoted(text: &mut Text, c: u8) -> Result<(), AllocError>
    ensures { OnOk result (text.new ≡ text.old ++ character_words c) }
{
    text.put(" has '")?;
    text.put_character(c)?;
    text.put("'")
}

/// Puts the code of a character.
fn put_code(text: &mut Text, c: u8) -> Result<(), AllocError>
    ensures { OnOk result (text.new ≡ text.old ++ codes " has " ++ byte_code c) }
{
    text.put(" has ")?;
    put_byte_code(text, c)
}

/// Whether two readings would take a text differently.
fn is_ambiguous(text: &[u8]) -> bool
    ensures { result ≡ is_ambiguous text.now }
{
    match columns_of(text) {
        Some(line) => matches!(column_form(line), Form::Words),
        None => has_two_readings(text) && named_form(text).is_none(),
    }
}

/// Whether bytes begin with the byte order mark of UTF-16.
fn is_utf16(bytes: &[u8]) -> bool
    ensures { result ≡ is_utf16 bytes.now }
{
    matches!(bytes, [0xff, 0xfe, ..] | [0xfe, 0xff, ..])
}

/// Whether bytes are a text with some character.
fn is_some_source(bytes: &[u8]) -> bool
    ensures { result ≡ is_some_source bytes.now }
{
    !bytes.is_empty() && is_source(bytes)
}
