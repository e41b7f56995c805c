//! What stands after the first word of a line, read.
ghost use Rattle.std.specs.Prelude.{◌≡◌, ◌≤◌, IfSome, MatchOption, None, Some, length, take};
ghost use Rattle.usb_listing.specs.inside.Rows.{fields_in};
ghost use Rattle.std.specs.Prelude.{◌≡◌, ◌≤◌, IfOk, MatchOption, None, Some, []};
ghost use Rattle.usb_listing.specs.inside.Fields.{number_first, unit_first, value_first, values_from};
ghost use Rattle.std.specs.Prelude.{◌≡◌, ◌≤◌, IfOk, MatchOption, None, Some};
ghost use Rattle.usb_listing.specs.inside.Rows.{before_quote, languages_in, quoted, string_in};

use crate::fields::{pair, read_descriptor, skip_space};
use crate::with_extra_row;
use crate::word::Word;
use std::alloc::{AllocError, Global};
use usb_fields::descriptor_type::{
    CONFIGURATION, DEVICE, DEVICE_QUALIFIER, ENDPOINT, INTERFACE, OTHER_SPEED_CONFIGURATION,
};
use usb_fields::{DEVICE_WIDTHS, QUALIFIER_WIDTHS};
use usb_set::{CONFIGURATION_WIDTHS, ENDPOINT_WIDTHS, INTERFACE_WIDTHS, Sequence};
use usb_text::is_plain;

/// Reads the text after a word as the bytes of its descriptor, which are put at the start of the buffer. The answer is how
/// many they are. What a line leaves out is bDescriptorType, and for the first descriptor of a set wTotalLength, which is
/// put as 0.
#[inline(always)]
#[tactic(auto, unfolding(crate::specs::inside::Rows::fields_in))]
pub(crate) fn read_fields(word: Word, text: &[u8], out: &mut [u8]) -> Option<usize>
    requires { length out.old ≡ 255 }
    ensures is { MatchOption result (fields_in word text.now ≡ None) (λ end. fields_in word text.now ≡ Some (take end out.new)) }
    ensures within { IfSome result (λ end. end ≤ length out.new) }
{
    match word {
        Word::Device => read_descriptor(&[0, DEVICE], &DEVICE_WIDTHS, false, text, out),
        Word::Configuration => {
            read_descriptor(
                &[0, CONFIGURATION, 0, 0],
                &CONFIGURATION_WIDTHS,
                true,
                text,
                out,
            )
        }
        Word::OtherSpeed => read_descriptor(
            &[0, OTHER_SPEED_CONFIGURATION, 0, 0],
            &CONFIGURATION_WIDTHS,
            true,
            text,
            out,
        ),
        Word::Interface => read_descriptor(&[0, INTERFACE], &INTERFACE_WIDTHS, true, text, out),
        Word::Endpoint => read_descriptor(&[0, ENDPOINT], &ENDPOINT_WIDTHS, true, text, out),
        Word::Extra(word) => with_extra_row!(word, left_out, widths => {
            read_descriptor(&left_out, &widths, true, text, out)
        }),
        Word::Qualifier => {
            read_descriptor(&[0, DEVICE_QUALIFIER], &QUALIFIER_WIDTHS, false, text, out)
        }
        Word::Languages | Word::String => None,
    }
}

/// The most units of a string, and the most languages of a language list (USB 2.0, 9.6.7).
const MOST: usize = 126;

/// How values of two bytes are written.
#[derive(Clone, Copy, Debug, PartialEq, Eq)]
pub(crate) enum Written {
    /// As the units of a string.
    Unit,
    /// As fields.
    Field,
}

/// The number whose four digits come first, and what is after it.
#[tactic(auto, unfolding(crate::specs::inside::Fields::number_first))]
fn take_number(text: &[u8]) -> Option<(u16, &[u8])>
    ensures { MatchOption result (number_first text.now ≡ None) (λ p. number_first text.now ≡ Some (p.0, p.1.now)) }
{
    match text {
        [a, b, c, d, rest @ ..] => {
            let high = pair(*a, *b)?;
            let low = pair(*c, *d)?;
            Some((u16::from(high) * 256 + u16::from(low), rest))
        }
        _ => None,
    }
}

/// The unit that comes first, and what is after it.
#[tactic(auto, unfolding(crate::specs::inside::Fields::unit_first))]
fn take_unit(text: &[u8]) -> Option<(u16, &[u8])>
    ensures { MatchOption result (unit_first text.now ≡ None) (λ p. unit_first text.now ≡ Some (p.0, p.1.now)) }
{
    match text {
        [b'\\', digits @ ..] => {
            let (unit, rest) = take_number(digits)?;
            if is_plain(unit) {
                None
            } else {
                Some((unit, rest))
            }
        }
        [c, rest @ ..] if is_plain(u16::from(*c)) => Some((u16::from(*c), rest)),
        _ => None,
    }
}

/// The value that comes first, and what is after it.
fn take_value(form: Written, text: &[u8]) -> Option<(u16, &[u8])>
    ensures { MatchOption result (value_first form text.now ≡ None) (λ p. value_first form text.now ≡ Some (p.0, p.1.now)) }
{
    match form {
        Written::Unit => take_unit(text),
        Written::Field => take_number(skip_space(text)?),
    }
}

/// How many values the text says, if it says any, and no more than there can be: a unit is one character,
/// or five with its escape, and so is a field.
fn count_values(form: Written, text: &[u8]) -> usize
    ensures { result ≤ 126 }
{
    let escapes = match form {
        Written::Unit => text.iter().filter(|c| **c == b'\\').count(),
        Written::Field => text.len() / 5,
    };
    text.len()
        .saturating_sub(escapes.saturating_mul(4))
        .min(MOST)
}

/// The values to the end of the text.
#[tactic(auto, using(crate::proofs::ValueLemmas::values_next, crate::proofs::ValueLemmas::values_end, crate::proofs::ValueLemmas::values_full))]
pub(crate) fn read_values(
    alloc: Global,
    form: Written,
    text: &[u8],
) -> Result<Option<Sequence<u16>>, AllocError>
    ensures { IfOk result (λ found. found ≡ values_from form 126 [] text.now) }
{
    let room = count_values(form, text);
    let mut values = Sequence::from_vec(Vec::with_capacity(alloc, room)?);
    let mut rest = text;
    for _ in 0..MOST {
        if rest.is_empty() {
            return Ok(Some(values));
        }
        let Some((value, after)) = take_value(form, rest) else {
            return Ok(None);
        };
        values.push(value)?;
        rest = after;
    }
    Ok(if rest.is_empty() { Some(values) } else { None })
}

/// The language codes of the text after the word.
#[tactic(auto, unfolding(crate::specs::inside::Rows::languages_in))]
pub(crate) fn read_languages(
    alloc: Global,
    text: &[u8],
) -> Result<Option<Sequence<u16>>, AllocError>
    ensures { IfOk result (λ found. found ≡ languages_in text.now) }
{
    match read_values(alloc, Written::Field, text)? {
        Some(languages) => {
            if languages.is_empty() {
                return Ok(None);
            }
            Ok(Some(languages))
        }
        None => Ok(None),
    }
}

/// The units of the text after the word.
#[tactic(auto, unfolding(crate::specs::inside::Rows::string_in))]
pub(crate) fn read_string(alloc: Global, text: &[u8]) -> Result<Option<Sequence<u16>>, AllocError>
    ensures { IfOk result (λ found. found ≡ string_in text.now) }
{
    match unquote(text) {
        Some(units) => read_values(alloc, Written::Unit, units),
        None => Ok(None),
    }
}

/// The text of a string, after a space and between quotes.
#[tactic(auto, unfolding(crate::specs::inside::Rows::quoted))]
fn unquote(text: &[u8]) -> Option<&[u8]>
    ensures { MatchOption result (quoted text.now ≡ None) (λ units. quoted text.now ≡ Some units.now) }
{
    match skip_space(text)? {
        [b'"', rest @ ..] => before_quote(rest),
        _ => None,
    }
}

/// What is before a quote that ends the text.
#[tactic(auto, using(crate::proofs::QuoteLemmas::quote_last, crate::proofs::QuoteLemmas::no_quote_last, crate::proofs::QuoteLemmas::nothing_quoted))]
fn before_quote(text: &[u8]) -> Option<&[u8]>
    ensures { MatchOption result (before_quote text.now ≡ None) (λ units. before_quote text.now ≡ Some units.now) }
{
    if text.is_empty() {
        return None;
    }
    let end = text.len() - 1;
    if text[end] == b'"' {
        Some(&text[..end])
    } else {
        None
    }
}
