//! The strings of a language in a device image, and the table that tells where each of them is.
ghost use Rattle.std.specs.Prelude.{◌≡◌, ◌++◌, ◌<◌, ◌≤◌, length, take, false, IfOk, IfSome, OnOk};
ghost use Rattle.std.specs.List.{flat_map, list_any};
ghost use Rattle.std.specs.Option.{option_map};
ghost use Rattle.usb_fields.specs.Bytes.{little_endian, little_endian_at};
ghost use Rattle.usb_fields.specs.Units.{units_bytes};
ghost use Rattle.usb_file_data.specs.File.{is_long_string};
ghost use Rattle.usb_device.specs.Images.{string_in, table_bytes};
ghost use Rattle.usb_device.specs.FileImages.{language_bytes, places};
ghost use Rattle.usb_device.specs.inside.Places.{bytes_at, IsPlace};

use crate::piece::Place;
use std::alloc::{AllocError, Global};
use usb_fields::{Sequence, UnitFault, after, word_bytes, write_units_onto};

/// The most bytes of a table: two for each index from 1 to 255, and for where the last string ends.
const TABLE: usize = 512;

/// Where the string of this index is among the strings of a language.
#[tactic(auto, using(crate::proofs::PlaceLemmas::from_place))]
#[inline(always)]
pub(crate) fn find(strings: &[u8], index: u8) -> Option<Place>
    ensures found { option_map (bytes_at strings.now) result ≡ string_in index strings.now }
    ensures within { IfSome result (IsPlace strings.now) }
{
    let at = 2 * usize::from(index);
    let table = number_at(strings, 0);
    if at >= table {
        return None;
    }
    let start = number_at(strings, at);
    let end = number_at(strings, at + 2);
    if start >= end {
        return None;
    }
    let first = (2 + table + start).min(strings.len());
    Some(Place::new(strings, first, end - start))
}

/// The number in the two bytes at this place. A byte that is not there is 0.
#[inline(always)]
fn number_at(b: &[u8], at: usize) -> usize
    requires { at < 1024 }
    ensures value { result ≡ little_endian_at b.now at }
    ensures fits { result < 65536 }
{
    match after(b, at) {
        [low, high, ..] => usize::from(u16::from_le_bytes([*low, *high])),
        [low] => usize::from(*low),
        [] => 0,
    }
}

/// The strings of one language with their table: the first of these texts are its.
pub(crate) fn write(
    alloc: Global,
    named: &[u8],
    texts: &[Sequence<u16>],
) -> Result<Vec<u8>, AllocError>
    requires { list_any is_long_string texts.now ≡ false }
    ensures { IfOk result (λ b. b.items ≡ language_bytes named.now texts.now) }
{
    let table = write_table(alloc, named, texts)?;
    let mut strings = Vec::new(alloc);
    add_number(&mut strings, table.len())?;
    strings.extend_from_slice(&table)?;
    add_strings(&mut strings, named.len(), texts)?;
    Ok(strings)
}

/// The table.
fn write_table(alloc: Global, named: &[u8], texts: &[Sequence<u16>]) -> Result<Vec<u8>, AllocError>
    requires { list_any is_long_string texts.now ≡ false }
    ensures { IfOk result (λ b. b.items ≡ table_bytes (places 255 1 0 named.now texts.now)) }
{
    let count = named.len().min(texts.len());
    let mut table = Vec::with_capacity(alloc, TABLE)?;
    let mut place = 0;
    let mut i = 0;
    let mut index = 1;
    while index < 256 && i < count {
        add_number(&mut table, place)?;
        if usize::from(named[i]) == index {
            place += string_length(&texts[i]);
            i += 1;
        }
        index += 1;
    }
    add_number(&mut table, place)?;
    Ok(table)
}

/// Adds a number in two bytes. With a larger one, which no table has, there is no memory.
fn add_number(bytes: &mut Vec<u8>, n: usize) -> Result<(), AllocError>
    ensures added { OnOk result (bytes.new.items ≡ bytes.old.items ++ little_endian n) }
    ensures fits { OnOk result (n < 65536) }
{
    let Ok(n) = u16::try_from(n) else {
        return Err(AllocError);
    };
    bytes.extend_from_slice(&word_bytes(n))?;
    Ok(())
}

/// Adds the first of these texts, this many at most, as strings.
#[tactic(auto, using(crate::proofs::LongLemmas::short_at, std::proofs::lemmas::List::take_min))]
fn add_strings(
    strings: &mut Vec<u8>,
    count: usize,
    texts: &[Sequence<u16>],
) -> Result<(), AllocError>
    requires { list_any is_long_string texts.now ≡ false }
    ensures { OnOk result (strings.new.items ≡ strings.old.items ++ flat_map units_bytes (take count texts.now)) }
{
    for i in 0..count.min(texts.len()) {
        add_units(strings, &texts[i])?;
    }
    Ok(())
}

/// Adds a string or the language list.
pub(crate) fn add_units(out: &mut Vec<u8>, units: &[u16]) -> Result<(), AllocError>
    requires { is_long_string units.now ≡ false }
    ensures { OnOk result (out.new.items ≡ out.old.items ++ units_bytes units.now) }
{
    match write_units_onto(units, out) {
        Ok(()) => Ok(()),
        Err(UnitFault::Memory) => Err(AllocError),
        Err(_) => unreachable!(),
    }
}

/// bLength of a string or the language list.
#[tactic(auto, using(crate::proofs::LongLemmas::units_long))]
pub(crate) fn string_length(units: &[u16]) -> usize
    requires { is_long_string units.now ≡ false }
    ensures length { result ≡ length (units_bytes units.now) }
    ensures few { result ≤ 254 }
{
    2 + 2 * units.len()
}
