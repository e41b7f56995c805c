//! Strings and language lists: descriptors that hold 16-bit units, and their text (USB 2.0, 9.6.7).
ghost use Rattle.std.specs.Prelude.{◌≡◌, ◌≤◌, ◌<◌, ◌+◌, ◌*◌, ◌/◌, ◌%◌, ◌++◌, length, vec_capacity, vec_len, IfOk, IfErr, OnErr, OnOk};
ghost use Rattle.std.specs.List.{flat_map};
ghost use Rattle.usb_fields.specs.Bytes.{little_endian};
ghost use Rattle.usb_fields.specs.Units.{units_bytes, ReadUnitsFails, WriteUnitsFails};
ghost use Rattle.std.specs.Prelude.{◌≡◌, encode_utf8_all, IfOk};
ghost use Rattle.std.specs.String.{string_bytes};
ghost use Rattle.std.specs.Char.Utf16.{utf16_lossy_chars};

use crate::bytes::word_bytes;
use crate::descriptor_type;
use crate::fault::UnitFault;
use std::alloc::{AllocError, Global};

/// The most units that a string can have, and the most languages that a language list can: bLength counts no more (USB
/// 2.0, 9.6.7).
pub const MOST_UNITS: usize = 126;

/// This many units are put together before they are added to a list.
const MANY_UNITS: usize = 8;

/// The units of a string or a language list, exactly where the bytes are bLength, type 3 and these units, the low byte
/// first: language codes of string 0, UTF-16 code units of any other string. They are kept as numbers.
///
/// ```rust
/// let languages = read_units(alloc, &[4, 3, 0x09, 0x04])?;
/// assert_eq!(rt; languages.as_slice(), [0x0409].as_slice());
/// ```
///
/// # Errors
///
/// The first of [`UnitFault::Length`], [`UnitFault::Kind`] and [`UnitFault::Odd`] that holds;
/// [`UnitFault::Memory`] only where none of them does.
pub fn read_units(alloc: Global, b: &[u8]) -> Result<Vec<u16>, UnitFault>
    ensures ok { IfOk result (λ u. b.now ≡ units_bytes u.items) }
    ensures few { IfOk result (λ u. length u.items ≤ 126) }
    ensures err { IfErr result (λ fault. ReadUnitsFails b.now fault) }
{
    if b.len() < 2 || usize::from(b[0]) != b.len() {
        return Err(UnitFault::Length);
    }
    if b[1] != descriptor_type::STRING {
        return Err(UnitFault::Kind);
    }
    if b[0] % 2 == 1 {
        return Err(UnitFault::Odd);
    }
    Ok(units_in(alloc, &b[2..])?)
}

/// The units whose bytes these are.
fn units_in(alloc: Global, b: &[u8]) -> Result<Vec<u16>, AllocError>
    requires { length b.now % 2 ≡ 0 }
    ensures is { IfOk result (λ u. b.now ≡ flat_map little_endian u.items) }
    ensures long { IfOk result (λ u. 2 * length u.items ≡ length b.now) }
{
    let mut units = Vec::with_capacity(alloc, b.len() / 2)?;
    let mut rest = b;
    while let [low, high, more @ ..] = rest {
        units.push_reserved(u16::from_le_bytes([*low, *high]));
        rest = more;
    }
    Ok(units)
}

/// The bytes of a string or a language list with these units, at most 126.
///
/// ```rust
/// let bytes = write_units(alloc, &[0x0048, 0x0069])?;
/// assert_eq!(rt; bytes.as_slice(), [6, 3, 0x48, 0x00, 0x69, 0x00].as_slice());
/// ```
///
/// # Errors
///
/// [`UnitFault::TooLong`] for more than 126 units; [`UnitFault::Memory`] only where they are not too many.
pub fn write_units(alloc: Global, u: &[u16]) -> Result<Vec<u8>, UnitFault>
    ensures ok { IfOk result (λ b. b.items ≡ units_bytes u.now) }
    ensures few { OnOk result (length u.now ≤ 126) }
    ensures err { IfErr result (λ fault. WriteUnitsFails u.now fault) }
{
    let mut bytes = Vec::new(alloc);
    write_units_onto(u, &mut bytes)?;
    Ok(bytes)
}

/// Adds the bytes of a string or a language list with these units at the end of a list, as [`write_units`] gives them.
///
/// ```rust
/// let mut out = Vec::from_slice(alloc, &[0xff])?;
/// write_units_onto(&[0x0048], &mut out)?;
/// assert_eq!(rt; out.as_slice(), [0xff, 4, 3, 0x48, 0x00].as_slice());
/// ```
///
/// # Errors
///
/// Those of [`write_units`]. The list then has the elements that it had.
#[inline(always)]
pub fn write_units_onto(u: &[u16], out: &mut Vec<u8>) -> Result<(), UnitFault>
    ensures ok { OnOk result (out.new.items ≡ out.old.items ++ units_bytes u.now) }
    ensures few { OnOk result (length u.now ≤ 126) }
    ensures err { IfErr result (λ fault. WriteUnitsFails u.now fault) }
    ensures kept { OnErr result (out.new.items ≡ out.old.items) }
{
    if u.len() > MOST_UNITS {
        return Err(UnitFault::TooLong);
    }
    let size = 2 + 2 * u.len();
    out.reserve(size)?;
    out.push_reserved(size as u8);
    out.push_reserved(descriptor_type::STRING);
    if u.len() < MANY_UNITS {
        put_units(u, out);
    } else {
        put_many_units(u, out);
    }
    Ok(())
}

/// Adds the bytes of the units at the end of a list that has room for them.
#[inline(always)]
fn put_units(u: &[u16], out: &mut Vec<u8>)
    requires { vec_len out.old + 2 * length u.now ≤ vec_capacity out.old }
    ensures { out.new.items ≡ out.old.items ++ flat_map little_endian u.now }
{
    for unit in u {
        let [low, high] = word_bytes(*unit);
        out.push_reserved(low);
        out.push_reserved(high);
    }
}

/// The same, with the bytes put together first: so they are copied at once. It is apart, so that few units cost no call.
#[inline(never)]
#[tactic(auto, using(crate::proofs::UnitLemmas::unit_written))]
fn put_many_units(u: &[u16], out: &mut Vec<u8>)
    requires few { length u.now ≤ 126 }
    requires room { vec_len out.old + 2 * length u.now ≤ vec_capacity out.old }
    ensures { out.new.items ≡ out.old.items ++ flat_map little_endian u.now }
{
    let mut bytes = [0; 2 * MOST_UNITS];
    'units: for i in 0..u.len() {
        let [low, high] = word_bytes(u[i]);
        bytes[2 * i] = low;
        bytes[2 * i + 1] = high;
    }
    // There is room for them.
    let _ = out.extend_from_slice(&bytes[..2 * u.len()]);
}

/// The text of a string's UTF-16 code units, with U+FFFD for each surrogate that has no partner: a device can send any
/// units, and the standard asks for Unicode (USB 2.0, 9.6.7). Where a loss has to be seen, `String::from_utf16` has it.
///
/// ```rust
/// assert_eq!(rt; text_of(alloc, &[0x0055, 0x0053, 0x0042])?.as_str(), "USB");
/// ```
///
/// # Errors
///
/// Out of memory.
pub fn text_of(alloc: Global, units: &[u16]) -> Result<String, AllocError>
    ensures { IfOk result (λ text. string_bytes text ≡ encode_utf8_all (utf16_lossy_chars units.now)) }
{
    String::from_utf16_lossy(alloc, units)
}
