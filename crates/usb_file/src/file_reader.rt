//! A file, read part by part.
ghost use Rattle.std.specs.Prelude.{◌≡◌, ◌≤◌, IfErr, IfOk, Some, is_some, length, take};
ghost use Rattle.usb_fields.specs.Device.{device_bytes, device_fault};
ghost use Rattle.usb_file_data.specs.FileFaults.{fixed_fault};
ghost use Rattle.usb_file_data.specs.declared.fault.FileWhy.TheVariants as files;
ghost use Rattle.std.specs.Prelude.{◌≡◌, ◌≤◌, IfErr, IfOk, length};
ghost use Rattle.usb_file_data.specs.FileFaults.{begins_qualifier};
ghost use Rattle.usb_file.specs.inside.Reading.{OtherRefused, QualifierRefused, ReadsOther, ReadsQualifier};
ghost use Rattle.std.specs.Prelude.{◌≡◌, ◌≤◌, IfErr, IfOk, drop, length};
ghost use Rattle.usb_file_data.specs.File.{File};
ghost use Rattle.usb_file_data.specs.FileFaults.{ReadRefused};
ghost use Rattle.usb_file_data.specs.Inputs.{DeviceRefused};
ghost use Rattle.usb_file.specs.inside.Reading.{IsOfForm, SetsRead, ends_as_dump};
ghost use Rattle.usb_file_data.specs.declared.file.DescriptorFile.{DescriptorFile};

use crate::laws::{one_answer, part_laws};
use crate::sets::read_sets;
use crate::strings::read_strings;
use std::alloc::Global;
use usb_fields::{DeviceDescriptor, Qualifier, descriptor_length, descriptor_type, known_bytes};
use usb_file_data::{DescriptorFile, FileFault, FileWhy, Other, count_named};
use usb_set::{Sequence, SetKind};

/// bLength of a device descriptor, in bytes (USB 2.0, 9.6.1).
pub(crate) const DEVICE_LENGTH: usize = descriptor_length::DEVICE as usize;

/// The device descriptor that the file begins with.
pub(crate) fn read_device(b: &[u8]) -> Result<DeviceDescriptor, FileFault>
    ensures ok { IfOk result (λ d. take 18 b.now ≡ device_bytes d) }
    ensures long { IfOk result (λ d. 18 ≤ length b.now) }
    ensures err { IfErr result (λ fault. fixed_fault 18 (is_some (device_fault (take 18 b.now))) files.Device b.now ≡ Some (fault.at, fault.why)) }
{
    if b.len() < DEVICE_LENGTH {
        return Err(FileFault::new(b.len(), FileWhy::Truncated));
    }
    match DeviceDescriptor::read(&b[..DEVICE_LENGTH]) {
        Ok(device) => Ok(device),
        Err(_) => Err(FileFault::new(0, FileWhy::Device)),
    }
}

/// bLength of a qualifier, in bytes (USB 2.0, 9.6.2).
const QUALIFIER_LENGTH: usize = descriptor_length::DEVICE_QUALIFIER as usize;

/// The other speed, if a qualifier begins at this place, and where it ends.
pub(crate) fn read_other(
    alloc: Global,
    b: &[u8],
    place: usize,
) -> Result<(Option<Other>, usize), FileFault>
    requires within { place ≤ length b.now }
    ensures ok { IfOk result (λ p. ReadsOther b.now place p.0 p.1) }
    ensures err { IfErr result (λ fault. OtherRefused b.now place fault.at fault.why) }
{
    if !begins_qualifier(rest(b, place)) {
        return Ok((None, place));
    }
    let qualifier = read_qualifier(b, place)?;
    let mut sets = Sequence::new(alloc);
    let declared = qualifier.configurations;
    let start = place + QUALIFIER_LENGTH;
    let end = read_sets(alloc, b, start, SetKind::OtherSpeed, declared, &mut sets)?;
    Ok((Some(Other { qualifier, sets }), end))
}

/// Whether bytes after the sets of the device begin a qualifier: one lone byte might.
fn begins_qualifier(rest: &[u8]) -> bool
    ensures { result ≡ begins_qualifier rest.now }
{
    match rest {
        [] => false,
        [_] => true,
        [_, kind, ..] => *kind == descriptor_type::DEVICE_QUALIFIER,
    }
}

/// The qualifier at this place.
fn read_qualifier(b: &[u8], place: usize) -> Result<Qualifier, FileFault>
    requires within { place ≤ length b.now }
    ensures ok { IfOk result (λ q. ReadsQualifier b.now place q) }
    ensures err { IfErr result (λ fault. QualifierRefused b.now place fault.at fault.why) }
{
    let left = rest(b, place);
    if left.len() < QUALIFIER_LENGTH {
        return Err(FileFault::new(b.len(), FileWhy::Truncated));
    }
    match Qualifier::read(&left[..QUALIFIER_LENGTH]) {
        Ok(qualifier) => Ok(qualifier),
        Err(_) => Err(FileFault::new(place, FileWhy::Qualifier)),
    }
}

/// The file that the bytes are, exactly where they are one: its parts one after another, each count, kind, layout and
/// string right, and nothing after them (USB 2.0, 9.4.3 and 9.6).
///
/// ```rust
/// let file = read_file(alloc, bytes)?;
/// println!(rt; "{} configurations", file.sets.len())?;
/// assert_eq!(rt; write_file(alloc, &file)?.as_slice(), bytes);
/// ```
///
/// # Errors
///
/// Exactly where the bytes are no file, the fault of the first part that is not there whole and right, at its place; or
/// `Memory` where a part starts.
pub fn read_file(alloc: Global, b: &[u8]) -> Result<DescriptorFile, FileFault>
    ensures ok { IfOk result (λ f. File f b.now) }
    ensures err { IfErr result (λ fault. ReadRefused b.now fault.at fault.why) }
    // The bytes of a file are refused out of memory alone.
    ensures only { IfErr result (λ fault. (f : DescriptorFile) → File f b.now → fault.why ≡ files.Memory) }
{
    one_answer();
    let (file, form) = read_file_or_dump(alloc, b)?;
    match form {
        Form::File => Ok(file),
        Form::Dump => Err(FileFault::new(b.len(), FileWhy::Truncated)),
    }
}

/// Whether what was read has the strings that it names.
#[derive(Clone, Copy)]
pub(crate) enum Form {
    /// It is a file.
    File,
    /// It ends where the strings are due, right after the sets of the device.
    Dump,
}

/// The file or the dump, read part by part.
pub(crate) fn read_file_or_dump(
    alloc: Global,
    b: &[u8],
) -> Result<(DescriptorFile, Form), FileFault>
    ensures ok { IfOk result (λ p. IsOfForm p.1 p.0 b.now) }
    ensures err { IfErr result (λ fault. DeviceRefused b.now fault.at fault.why) }
{
    part_laws();
    let (mut file, place) = read_all_sets(alloc, b)?;
    let count = count_named(&file);
    if ends_as_dump(count, &file.other, rest(b, place)) {
        return Ok((file, Form::Dump));
    }
    let (strings, end) = read_strings(alloc, b, place, count)?;
    file.strings = strings;
    if end < b.len() {
        return Err(FileFault::new(end, FileWhy::Trailing));
    }
    Ok((file, Form::File))
}

/// Whether nothing follows the sets of a device of one speed, which names `count` indices: then the bytes are a
/// dump, if it names one.
fn ends_as_dump(count: usize, other: &Option<Other>, rest: &[u8]) -> bool
    ensures { result ≡ ends_as_dump count other.now rest.now }
{
    match (other, rest) {
        (None, []) => count > 0,
        _ => false,
    }
}

/// The device descriptor and the sets of either speed, and where they end.
fn read_all_sets(alloc: Global, b: &[u8]) -> Result<(DescriptorFile, usize), FileFault>
    ensures ok { IfOk result (λ p. SetsRead b.now p.0 p.1) }
    ensures err { IfErr result (λ fault. DeviceRefused b.now fault.at fault.why) }
{
    part_laws();
    known_bytes(b);
    let device = read_device(b)?;
    let mut sets = Sequence::new(alloc);
    let declared = device.configurations;
    let kind = SetKind::Configuration;
    let main_end = read_sets(alloc, b, DEVICE_LENGTH, kind, declared, &mut sets)?;
    let (other, end) = read_other(alloc, b, main_end)?;
    let file = DescriptorFile {
        device,
        sets,
        other,
        strings: None,
    };
    Ok((file, end))
}

/// The bytes from a place on.
pub(crate) fn rest(b: &[u8], place: usize) -> &[u8]
    requires { place ≤ length b.now }
    ensures { result.now ≡ drop place b.now }
{
    &b[place..]
}
