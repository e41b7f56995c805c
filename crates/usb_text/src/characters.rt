//! Units of strings as characters.
ghost use Rattle.std.specs.Prelude.{◌≡◌, ◌++◌, ◌&&◌, true, OnOk};
ghost use Rattle.usb_text.specs.Characters.{is_plain, one_words, pair_words, shown_words, units_in, units_words};
ghost use Rattle.std.specs.Char.{encode_utf8};
ghost use Rattle.std.specs.Char.Utf16.{is_high_surrogate, is_low_surrogate};

use crate::shown::{put_escaped, put_escaped_in, put_unit, shown};
use crate::text::Text;
use std::alloc::AllocError;
use usb_fields::after;

/// Whether a unit is written as the character that it is: a printable one of ASCII that is neither the
/// quote, which ends a string, nor the backslash, which begins an escape.
///
/// ```rust
/// assert_eq!(rt; (is_plain(0x41), is_plain(0x22)), (true, false));
/// ```
pub fn is_plain(unit: u16) -> bool
    ensures { result ≡ is_plain unit }
{
    (0x20..=0x7e).contains(&unit) && unit != 0x22 && unit != 0x5c
}

/// Puts the units of a string, with `utf8` those beyond ASCII as characters, but for what could steer a terminal or leaves no
/// mark (Unicode 15.0).
///
/// ```rust
/// put_units(&mut text, true, &[0x43, 0x61, 0x66, 0xe9, 0x202e])?;
/// assert_eq!(rt; text.as_bytes(), b"Caf\xc3\xa9\\202e");
/// ```
///
/// # Errors
///
/// Out of memory.
pub fn put_units(text: &mut Text, utf8: bool, units: &[u16]) -> Result<(), AllocError>
    ensures { OnOk result (text.new ≡ text.old ++ units_words utf8 units.now) }
{
    if utf8 {
        put_shown(text, units)
    } else {
        put_escaped(text, units)
    }
}

/// The same of the units of bytes, each the low byte first.
///
/// # Errors
///
/// Out of memory.
pub fn put_units_in(text: &mut Text, utf8: bool, b: &[u8]) -> Result<(), AllocError>
    ensures { OnOk result (text.new ≡ text.old ++ units_words utf8 (units_in b.now)) }
{
    if utf8 {
        put_shown_in(text, b)
    } else {
        put_escaped_in(text, b)
    }
}

#[tactic(auto, unfolding(crate::specs::Characters::shown_words))]
fn put_shown(text: &mut Text, units: &[u16]) -> Result<(), AllocError>
    ensures { OnOk result (text.new ≡ text.old ++ shown_words units.now) }
{
    match units {
        [unit, next, rest @ ..] => {
            if is_pair(*unit, *next) {
                put_pair(text, *unit, *next)?;
                return put_shown(text, rest);
            }
            put_one(text, *unit)?;
            put_shown(text, &units[1..])
        }
        [unit] => put_one(text, *unit),
        [] => Ok(()),
    }
}

#[tactic(auto, unfolding(crate::specs::Characters::shown_words))]
fn put_shown_in(text: &mut Text, b: &[u8]) -> Result<(), AllocError>
    ensures { OnOk result (text.new ≡ text.old ++ shown_words (units_in b.now)) }
{
    match b {
        [low, high, next_low, next_high, rest @ ..] => {
            let unit = u16::from_le_bytes([*low, *high]);
            let next = u16::from_le_bytes([*next_low, *next_high]);
            if is_pair(unit, next) {
                put_pair(text, unit, next)?;
                return put_shown_in(text, rest);
            }
            put_one(text, unit)?;
            put_shown_in(text, after(b, 2))
        }
        [low, high] => put_one(text, u16::from_le_bytes([*low, *high])),
        [low, high, _] => put_one(text, u16::from_le_bytes([*low, *high])),
        _ => Ok(()),
    }
}

/// Whether two units are a surrogate pair.
fn is_pair(high: u16, low: u16) -> bool
    ensures { result ≡ (is_high_surrogate high && is_low_surrogate low) }
{
    0xd800 <= high && high < 0xdc00 && 0xdc00 <= low && low < 0xe000
}

/// Puts the character of a surrogate pair, or its units where that isn't shown.
#[tactic(auto, unfolding(crate::specs::Characters::pair_words))]
fn put_pair(text: &mut Text, high: u16, low: u16) -> Result<(), AllocError>
    requires { (is_high_surrogate high && is_low_surrogate low) ≡ true }
    ensures { OnOk result (text.new ≡ text.old ++ pair_words high low) }
{
    let over = (u32::from(high) - 0xd800) * 0x400 + (u32::from(low) - 0xdc00);
    match shown(0x1_0000 + over) {
        Some(character) => put_character(text, character),
        None => {
            put_unit(text, high)?;
            put_unit(text, low)
        }
    }
}

/// Puts a unit by itself: its character, or the unit where that isn't shown.
#[tactic(auto, unfolding(crate::specs::Characters::one_words))]
fn put_one(text: &mut Text, unit: u16) -> Result<(), AllocError>
    ensures { OnOk result (text.new ≡ text.old ++ one_words unit) }
{
    match shown(u32::from(unit)) {
        Some(character) => put_character(text, character),
        None => put_unit(text, unit),
    }
}

/// Puts a character as UTF-8.
fn put_character(text: &mut Text, character: char) -> Result<(), AllocError>
    ensures { OnOk result (text.new ≡ text.old ++ encode_utf8 character) }
{
    text.put(character.encode_utf8(&mut [0; 4]))
}
