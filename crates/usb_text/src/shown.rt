//! The characters beyond ASCII that are shown, and units as a listing has them.
ghost use Rattle.std.specs.Prelude.{◌≡◌, true, false, MatchOption};
ghost use Rattle.std.specs.List.{list_any};
ghost use Rattle.usb_text.specs.Characters.{has_code, hidden, is_plain, is_shown};
ghost use Rattle.std.specs.Prelude.{◌≡◌, ◌++◌, OnOk};
ghost use Rattle.std.specs.List.{flat_map};
ghost use Rattle.usb_text.specs.Characters.{written_unit, units_in};

use crate::characters::is_plain;
use crate::text::Text;
use std::alloc::AllocError;

/// Code points from the first to the last.
#[derive(Clone, Copy, Debug, PartialEq, Eq, Hash)]
pub(crate) struct CodeRange {
    pub(crate) first: u32,
    pub(crate) last: u32,
}

/// The code points from the first to the last.
const fn range(first: u32, last: u32) -> CodeRange
    ensures { result ≡ record { first = first; last = last } }
{
    CodeRange { first, last }
}

/// Code points of the Basic Multilingual Plane and the next that steer a text or leave no mark in it, by Unicode 15.0.
fn is_hidden(code: u32) -> bool
    ensures { result ≡ list_any (has_code code) hidden }
{
    let hidden = [
        range(0x00ad, 0x00ad),
        range(0x0600, 0x0605),
        range(0x061c, 0x061c),
        range(0x06dd, 0x06dd),
        range(0x070f, 0x070f),
        range(0x0890, 0x0891),
        range(0x08e2, 0x08e2),
        range(0x1680, 0x1680),
        range(0x180e, 0x180e),
        range(0x2000, 0x200f),
        range(0x2028, 0x202f),
        range(0x205f, 0x206f),
        range(0x3000, 0x3000),
        range(0xd800, 0xdfff),
        range(0xe000, 0xf8ff),
        range(0xfdd0, 0xfdef),
        range(0xfeff, 0xfeff),
        range(0xfff0, 0xfffb),
        range(0x1_10bd, 0x1_10bd),
        range(0x1_10cd, 0x1_10cd),
        range(0x1_3430, 0x1_343f),
        range(0x1_bca0, 0x1_bca3),
        range(0x1_d173, 0x1_d17a),
    ];
    hidden
        .iter()
        .any(|range| range.first <= code && code <= range.last)
}

/// Whether a code point is shown as its character.
#[tactic(auto, unfolding(crate::specs::Characters::is_shown))]
fn is_shown(code: u32) -> bool
    ensures { result ≡ is_shown code }
{
    code >= 0xa1 && code < 0xe_0000 && code % 0x1_0000 < 0xfffe && !is_hidden(code)
}

/// The character of a code point, if it is shown.
#[tactic(auto, unfolding(crate::specs::Characters::is_shown))]
pub(crate) fn shown(code: u32) -> Option<char>
    ensures { MatchOption result (is_shown code ≡ false) (λ c. (c ≡ code) × (is_shown code ≡ true)) }
{
    if is_shown(code) {
        char::from_u32(code)
    } else {
        None
    }
}

/// Puts units, each as in a listing.
pub(crate) fn put_escaped(text: &mut Text, units: &[u16]) -> Result<(), AllocError>
    ensures { OnOk result (text.new ≡ text.old ++ flat_map written_unit units.now) }
{
    for unit in units {
        put_unit(text, *unit)?;
    }
    Ok(())
}

/// Puts the units of bytes, each as in a listing.
#[tactic(auto, unfolding(crate::specs::Characters::written_unit))]
pub(crate) fn put_escaped_in(text: &mut Text, b: &[u8]) -> Result<(), AllocError>
    ensures { OnOk result (text.new ≡ text.old ++ flat_map written_unit (units_in b.now)) }
{
    match b {
        // Most units are characters, and two of them cost less than one and one.
        [one, 0, other, 0, rest @ ..] if is_plain(u16::from(*one)) && is_plain(u16::from(*other)) =>
            {
                text.put_bytes(&[*one, *other])?;
                put_escaped_in(text, rest)
            }
        [low, high, rest @ ..] => {
            put_unit(text, u16::from_le_bytes([*low, *high]))?;
            put_escaped_in(text, rest)
        }
        _ => Ok(()),
    }
}

/// Puts a unit of a string: its character, or a backslash and four digits.
#[inline(always)]
#[tactic(auto, unfolding(crate::specs::Characters::written_unit))]
pub(crate) fn put_unit(text: &mut Text, unit: u16) -> Result<(), AllocError>
    ensures { OnOk result (text.new ≡ text.old ++ written_unit unit) }
{
    if is_plain(unit) {
        return text.put_character(unit as u8);
    }
    put_escape(text, unit)
}

/// The same of a unit that isn't written as its character, apart so that a character costs no call.
#[inline(never)]
#[tactic(auto, unfolding(crate::specs::Characters::written_unit))]
fn put_escape(text: &mut Text, unit: u16) -> Result<(), AllocError>
    requires { is_plain unit ≡ false }
    ensures { OnOk result (text.new ≡ text.old ++ written_unit unit) }
{
    text.put("\\")?;
    text.put_digits(&unit.to_be_bytes())
}
