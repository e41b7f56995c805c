//! What is remarked of string descriptors.
ghost use Rattle.std.specs.Prelude.{◌≡◌};
ghost use Rattle.usb_remarks.specs.StringRemarks.{languages_remark, no_language, text_remark};
ghost use Rattle.usb_file_data.specs.Likeness.{is_of_language};

use crate::remark::{Remark, remark_if};
use usb_fields::{after, word_at};

/// The first of these units that is no number of a language.
fn no_language(units: &[u8]) -> Option<u16>
    ensures { result ≡ no_language units.now }
{
    match units {
        [low, high, rest @ ..] => {
            if is_of_language(*high) {
                no_language(rest)
            } else {
                Some(u16::from_le_bytes([*low, *high]))
            }
        }
        _ => None,
    }
}

/// Whether the upper byte of a unit is that of a language's number (Language Identifiers 1.0).
fn is_of_language(high: u8) -> bool
    ensures { result ≡ is_of_language high }
{
    high % 4 == 0 && high >= 4
}

/// A remark on a language list in which not each number is one of a language (USB 2.0, 9.6.7).
pub(crate) fn languages_remark(d: &[u8]) -> Option<Remark>
    ensures { result ≡ languages_remark d.now }
{
    match no_language(after(d, 2)) {
        None => None,
        Some(found) => Some(Remark::NoLanguage { found }),
    }
}

/// A remark on a string whose last unit is 0 (USB 2.0, 9.6.7).
pub(crate) fn text_remark(d: &[u8]) -> Option<Remark>
    ensures { result ≡ text_remark d.now }
{
    let last = after(d, d.len().saturating_sub(2));
    remark_if(d.len() >= 4 && word_at(last, 0) == 0, Remark::EndedString)
}
