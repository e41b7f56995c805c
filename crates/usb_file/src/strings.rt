//! The strings of a file, read one after another.
ghost use Rattle.std.specs.Prelude.{◌≡◌, ◌≤◌, [], IfErr, IfOk, drop, length};
ghost use Rattle.usb_file_data.specs.FileFaults.{is_no_string};
ghost use Rattle.usb_file.specs.inside.Reading.{Behind, ReadsNextString, ReadsString, ReadsStrings, ReadsDueStrings, StringRefused, StringsRefused, DueStringsRefused};

use crate::file_reader::rest;
use std::alloc::Global;
use usb_fields::{UnitFault, descriptor_length, descriptor_type, read_units};
use usb_file_data::{FileFault, FileWhy, Strings};
use usb_set::Sequence;

/// The least bLength of a string descriptor, in bytes: that of one with no unit (USB 2.0, 9.6.7).
const LEAST_STRING: u8 = descriptor_length::HEAD;

/// The least bLength of a language list, in bytes: that of one language.
const LEAST_LANGUAGES: u8 = descriptor_length::HEAD + 2;

/// The language list and the strings, if any index is named, and where they end.
pub(crate) fn read_strings(
    alloc: Global,
    b: &[u8],
    place: usize,
    count: usize,
) -> Result<(Option<Strings>, usize), FileFault>
    requires within { place ≤ length b.now }
    requires count { count ≤ 255 }
    ensures ok { IfOk result (λ p. ReadsStrings count b.now place p.0 p.1) }
    ensures err { IfErr result (λ fault. StringsRefused count b.now place fault.at fault.why) }
{
    if count == 0 {
        return Ok((None, place));
    }
    let (languages, start) = read_string_at(alloc, b, place, LEAST_LANGUAGES)?;
    let due = languages.len() * count;
    let mut texts = Sequence::new(alloc);
    let end = read_due_strings(alloc, b, start, due, &mut texts)?;
    Ok((Some(Strings { languages, texts }), end))
}

/// Reads as many strings as are due, and answers where they end.
fn read_due_strings(
    alloc: Global,
    b: &[u8],
    place: usize,
    due: usize,
    strings: &mut Sequence<Sequence<u16>>,
) -> Result<usize, FileFault>
    requires none { strings.old ≡ [] }
    requires within { place ≤ length b.now }
    ensures ok { IfOk result (λ end. ReadsDueStrings b.now place strings.new end) }
    ensures all { IfOk result (λ end. length strings.new ≡ due) }
    ensures err { IfErr result (λ fault. DueStringsRefused due b.now place strings.new fault.at fault.why) }
{
    let mut end = place;
    'due: while strings.len() < due {
        end = read_next_string(alloc, b, end, strings)?;
    }
    Ok(end)
}

/// Reads the next string, and answers where it ends.
fn read_next_string(
    alloc: Global,
    b: &[u8],
    place: usize,
    strings: &mut Sequence<Sequence<u16>>,
) -> Result<usize, FileFault>
    requires within { place ≤ length b.now }
    ensures ok { IfOk result (λ end. ReadsNextString b.now place strings.old strings.new end) }
    ensures err { IfErr result (λ fault. Behind place (λ n. StringRefused 2 (drop place b.now) n fault.why) fault.at) }
    ensures same { IfErr result (λ fault. strings.new ≡ strings.old) }
{
    let (string, end) = read_string_at(alloc, b, place, LEAST_STRING)?;
    match strings.push(string) {
        Ok(()) => Ok(end),
        Err(_) => Err(FileFault::new(place, FileWhy::Memory)),
    }
}

/// The units of the string descriptor of at least `least` bytes at this place, and where it ends.
fn read_string_at(
    alloc: Global,
    b: &[u8],
    place: usize,
    least: u8,
) -> Result<(Sequence<u16>, usize), FileFault>
    requires within { place ≤ length b.now }
    requires least { 2 ≤ least }
    ensures ok { IfOk result (λ p. Behind place (ReadsString least (drop place b.now) p.0) p.1) }
    ensures few { IfOk result (λ p. length p.0 ≤ 126) }
    ensures err { IfErr result (λ fault. Behind place (λ n. StringRefused least (drop place b.now) n fault.why) fault.at) }
{
    match read_string(alloc, least, rest(b, place)) {
        Ok((units, used)) => Ok((units, place + used)),
        Err(fault) => Err(fault.moved(place)),
    }
}

/// The units of the string descriptor of at least `least` bytes that the bytes begin with, and how many
/// bytes it has; or a fault, its place counted from the first of these bytes.
fn read_string(alloc: Global, least: u8, rest: &[u8]) -> Result<(Sequence<u16>, usize), FileFault>
    requires { 2 ≤ least }
    ensures ok { IfOk result (λ p. ReadsString least rest.now p.0 p.1) }
    ensures err { IfErr result (λ fault. StringRefused least rest.now fault.at fault.why) }
    ensures small { IfErr result (λ fault. fault.at ≤ length rest.now) }
{
    if is_no_string(least, rest) {
        return Err(FileFault::new(0, FileWhy::Text));
    }
    if rest.len() < 2 || rest.len() < usize::from(rest[0]) {
        return Err(FileFault::new(rest.len(), FileWhy::Truncated));
    }
    let used = usize::from(rest[0]);
    match read_units(alloc, &rest[..used]) {
        Ok(units) => Ok((Sequence::from_vec(units), used)),
        Err(UnitFault::Memory) => Err(FileFault::new(0, FileWhy::Memory)),
        Err(_) => unreachable!(),
    }
}

/// Whether two bytes are there, and begin no string descriptor of at least `least` bytes.
fn is_no_string(least: u8, rest: &[u8]) -> bool
    ensures { result ≡ is_no_string least rest.now }
{
    match rest {
        [] | [_] => false,
        [len, kind, ..] => *len < least || *len % 2 == 1 || *kind != descriptor_type::STRING,
    }
}
