//! The text of a string.
ghost use Rattle.std.specs.Prelude.{◌≡◌, IfOk};
ghost use Rattle.std.specs.Option.{option_copied};
ghost use Rattle.usb_text.specs.Characters.{shown_words, units_in};
ghost use Rattle.usb_c.specs.Answers.{AnswersOn, Fills};
ghost use Rattle.usb_c.specs.Facts.{TellsString, is_string, string_at};
ghost use Rattle.usb_c.specs.declared.answer.Verdict.TheVariants as verdicts;

use crate::answer::{Answer, Verdict};
use crate::buffer::fill_done;
use std::alloc::{AllocError, Global};
use usb_fields::{after, byte_at, descriptor_type, prefix};
use usb_text::{Text, put_units_in};
use usb_walk::WalkedDescriptor;

/// The number of the role of a string.
const STRING: u8 = 9;

/// Puts the text of a string of these bytes into the buffer, as UTF-8 with escapes for what is no character. Of the struct its
/// role, its place and its length are looked at.
#[unsafe(no_mangle)]
pub extern "C" fn nzg_text(
    alloc: Global,
    bytes: &[u8],
    string: &WalkedDescriptor,
    text: &mut [u8],
) -> Answer
    ensures { AnswersOn (TellsString (string_at bytes.now string.now) text.old text.new) result }
{
    put_string(alloc, string_at(bytes, string), text).answer()
}

/// The string descriptor of which a struct says its role, its place and its length, if it stands there.
fn string_at<'b>(bytes: &'b [u8], string: &WalkedDescriptor) -> Option<&'b [u8]>
    ensures { option_copied result ≡ string_at bytes.now string.now }
{
    let d = prefix(after(bytes, string.place), usize::from(string.length));
    if string.role == STRING && is_string(string.length, d) {
        Some(d)
    } else {
        None
    }
}

/// Whether bytes are a string descriptor of this length (USB 2.0, 9.6.7).
fn is_string(length: u8, d: &[u8]) -> bool
    ensures { result ≡ is_string length d.now }
{
    d.len() == usize::from(length)
        && byte_at(d, 0) == length
        && byte_at(d, 1) == descriptor_type::STRING
        && length % 2 == 0
}

fn put_string(alloc: Global, string: Option<&[u8]>, out: &mut [u8]) -> Verdict
    ensures { TellsString (option_copied string.entry) out.old out.new result }
{
    match string {
        Some(d) => put_text(alloc, after(d, 2), out),
        None => Verdict::BadArgument(6),
    }
}

fn put_text(alloc: Global, units: &[u8], out: &mut [u8]) -> Verdict
    ensures { Fills verdicts.Done (shown_words (units_in units.now)) out.old out.new result }
{
    match text_of(alloc, units) {
        Ok(text) => fill_done(text.as_bytes(), out),
        Err(_) => Verdict::NoMemory,
    }
}

/// The units of these bytes as text.
fn text_of(alloc: Global, units: &[u8]) -> Result<Text, AllocError>
    ensures { IfOk result (λ text. text ≡ shown_words (units_in units.now)) }
{
    let mut text = Text::new(alloc);
    put_units_in(&mut text, true, units)?;
    Ok(text)
}
