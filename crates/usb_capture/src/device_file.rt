//! The descriptors of a device, as a file.
ghost use Rattle.std.specs.Prelude.{◌≡◌, ◌++◌, [], List, ℕ, None, Some, IfErr, IfNone, IfOk, IfSome, OnOk, MatchOption, unwrap_or};
ghost use Rattle.std.specs.Option.{option_copied, option_map};
ghost use Rattle.usb_capture.specs.DeviceFiles.{IsDescriptor, IsLack, IsMade, dump_parts, file_bytes, named_by, other_parts, part, parts, reading_of, string_parts, strings_in};
ghost use Rattle.usb_capture.specs.Findings.{beside};

use crate::asked::Asked;
use crate::control_transfer::ControlTransfer;
use crate::conversations::{CONFIGURATION, DEVICE, LANGUAGES, OTHER_SPEED, QUALIFIER};
use crate::device_readings::DeviceReadings;
use crate::named_strings::{device_names, names};
use std::alloc::{AllocError, AllocFailed, Global};
use usb_fields::{after, byte_at, word_at};

/// What is made of the descriptors of a device that came.
#[derive(Debug, Drop)]
pub enum DeviceFile {
    /// The bytes of a descriptor file: the device descriptor, each of its configurations, the qualifier and each configuration
    /// at the other speed, if a qualifier came, and the languages and strings that these name.
    File(Vec<u8>),
    /// The device descriptor and each of its configurations, as Linux's file `descriptors` has them: of the rest something
    /// didn't come.
    Dump(Vec<u8>),
}

/// Why there is neither.
#[derive(Clone, Copy, Debug, PartialEq, Eq, Hash)]
pub enum FileLack {
    /// No device descriptor of 18 bytes came whole.
    Device,
    /// The configuration with this index didn't come whole, though bNumConfigurations counts it.
    Configuration(u8),
    /// Out of memory.
    Memory,
}

impl From<AllocError> for FileLack {
    ghost use Rattle.std.specs.Prelude.{◌≡◌};
    ghost use Rattle.usb_capture.specs.declared.device_file.FileLack.TheVariants.{Memory};

    ghost from_gives = { λ _ lack. lack ≡ Memory };

    fn from(_: AllocError) -> FileLack {
        FileLack::Memory
    }
}

impl<T: Drop> From<AllocFailed<T>> for FileLack {
    ghost use Rattle.std.specs.Prelude.{◌≡◌};
    ghost use Rattle.usb_capture.specs.declared.device_file.FileLack.TheVariants.{Memory};

    ghost from_gives = { λ _ lack. lack ≡ Memory };

    fn from(_: AllocFailed<T>) -> FileLack {
        FileLack::Memory
    }
}

impl DeviceReadings {
    /// The descriptors of the device that has this address: a descriptor file where all came that it names, and else the dump
    /// that Linux has. Each is one of the readings, whole.
    ///
    /// # Errors
    ///
    /// What lacks for a dump, or out of memory.
    pub fn file(&self, alloc: Global, bus: u16, device: u16) -> Result<DeviceFile, FileLack>
        ensures ok { IfOk result (IsMade self.now.readings.kept.items (record { bus = bus; device = device; value = 256; index = 0 })) }
        ensures err { IfErr result (IsLack self.now.readings.kept.items (record { bus = bus; device = device; value = 256; index = 0 })) }
    {
        make(
            alloc,
            self.as_slice(),
            Asked {
                bus,
                device,
                value: DEVICE,
                index: 0,
            },
        )
    }
}

/// The file or the dump of a device.
fn make(alloc: Global, kept: &[ControlTransfer], device: Asked) -> Result<DeviceFile, FileLack>
    ensures ok { IfOk result (IsMade kept.now device) }
    ensures err { IfErr result (IsLack kept.now device) }
{
    let Some(descriptor) = descriptor_of(kept, device) else {
        return Err(FileLack::Device);
    };
    let dump = make_dump(alloc, kept, device, descriptor)?;
    match make_file(alloc, kept, device, &dump)? {
        Some(file) => Ok(DeviceFile::File(file)),
        None => Ok(DeviceFile::Dump(dump)),
    }
}

/// The device descriptor, if it has 18 bytes.
fn descriptor_of(kept: &[ControlTransfer], device: Asked) -> Option<&[u8]>
    ensures some { IfSome result (λ descriptor. IsDescriptor kept.now device descriptor.now) }
    ensures none { IfNone result ((descriptor : List ℕ) → IsDescriptor kept.now device descriptor → ⊥) }
{
    match part(kept, device.beside(DEVICE)) {
        Some(descriptor) if descriptor.len() == 18 => Some(descriptor),
        _ => None,
    }
}

/// The device descriptor and its configurations.
fn make_dump(
    alloc: Global,
    kept: &[ControlTransfer],
    device: Asked,
    descriptor: &[u8],
) -> Result<Vec<u8>, FileLack>
    ensures ok { IfOk result (λ dump. part kept.now (beside device 256) ≡ Some descriptor.now → parts kept.now (dump_parts device descriptor.now) ≡ Some dump.items) }
    ensures err { IfErr result (IsLack kept.now device) }
{
    let mut dump = Vec::from_slice(alloc, descriptor)?;
    for index in 0..byte_at(descriptor, 17) {
        let Some(set) = part(kept, device.beside(CONFIGURATION + u16::from(index))) else {
            return Err(FileLack::Configuration(index));
        };
        dump.extend_from_slice(set)?;
    }
    Ok(dump)
}

/// The file, if all came that it has beside the dump.
fn make_file(
    alloc: Global,
    kept: &[ControlTransfer],
    device: Asked,
    dump: &[u8],
) -> Result<Option<Vec<u8>>, AllocError>
    ensures { IfOk result (λ file. (descriptor : List ℕ) → IsDescriptor kept.now device descriptor → parts kept.now (dump_parts device descriptor) ≡ Some dump.now
        → MatchOption file (file_bytes kept.now device descriptor ≡ None) (λ bytes. file_bytes kept.now device descriptor ≡ Some bytes.items)) }
{
    let others = other_parts(alloc, device, part(kept, device.beside(QUALIFIER)))?;
    let Some(sets) = with_parts(alloc, dump, kept, &others)? else {
        return Ok(None);
    };
    let strings = strings_of(alloc, kept, device, &sets)?;
    with_parts(alloc, &sets, kept, &strings)
}

/// These bytes, and these descriptors one after another, if all of them came.
fn with_parts(
    alloc: Global,
    bytes: &[u8],
    kept: &[ControlTransfer],
    asked: &[Asked],
) -> Result<Option<Vec<u8>>, AllocError>
    ensures { IfOk result (λ all. MatchOption all (parts kept.now asked.now ≡ None) (λ all. option_map (λ more. bytes.now ++ more) (parts kept.now asked.now) ≡ Some all.items)) }
{
    let mut all = Vec::from_slice(alloc, bytes)?;
    for one in asked {
        let Some(bytes) = part(kept, *one) else {
            return Ok(None);
        };
        all.extend_from_slice(bytes)?;
    }
    Ok(Some(all))
}

/// The bytes of the last reading of a descriptor.
fn part(kept: &[ControlTransfer], asked: Asked) -> Option<&[u8]>
    ensures { option_copied result ≡ part kept.now asked }
{
    match reading_of(kept, asked) {
        Some(reading) => Some(reading.data.as_slice()),
        None => None,
    }
}

/// The last reading of a descriptor.
fn reading_of(kept: &[ControlTransfer], asked: Asked) -> Option<&ControlTransfer>
    ensures { option_copied result ≡ reading_of kept.now asked }
{
    kept.iter()
        .find(|reading| Asked::of(reading).is_same(asked))
}

/// The qualifier, if it came, and the configurations that it counts.
fn other_parts(
    alloc: Global,
    device: Asked,
    qualifier: Option<&[u8]>,
) -> Result<Vec<Asked>, AllocError>
    ensures { IfOk result (λ asked. asked.items ≡ other_parts device (option_copied qualifier.entry)) }
{
    let mut asked = Vec::new(alloc);
    let Some(qualifier) = qualifier else {
        return Ok(asked);
    };
    asked.push(device.beside(QUALIFIER))?;
    for index in 0..byte_at(qualifier, 8) {
        asked.push(device.beside(OTHER_SPEED + u16::from(index)))?;
    }
    Ok(asked)
}

/// The language list and the strings that the descriptors of these sets name, if any. The device descriptor is the first.
fn strings_of(
    alloc: Global,
    kept: &[ControlTransfer],
    device: Asked,
    sets: &[u8],
) -> Result<Vec<Asked>, AllocError>
    ensures { IfOk result (λ asked. asked.items ≡ string_parts device (named_by sets.now) (unwrap_or (part kept.now (beside device 768)) [])) }
{
    let named = named_by(alloc, sets)?;
    match part(kept, device.beside(LANGUAGES)) {
        Some(list) => string_parts(alloc, device, &named, list),
        None => string_parts(alloc, device, &named, &[]),
    }
}

/// The indices of the strings that descriptors name.
fn named_by(alloc: Global, sets: &[u8]) -> Result<Vec<u16>, AllocError>
    ensures { IfOk result (λ named. named.items ≡ named_by sets.now) }
{
    (1..256u16)
        .filter(|index| device_names(*index, sets) || names(*index, sets))
        .collect(alloc)
}

/// The language list, and of each of its languages the strings that are named.
fn string_parts(
    alloc: Global,
    device: Asked,
    named: &[u16],
    list: &[u8],
) -> Result<Vec<Asked>, AllocError>
    ensures { IfOk result (λ asked. asked.items ≡ string_parts device named.now list.now) }
{
    let mut asked = Vec::new(alloc);
    if named.is_empty() {
        return Ok(asked);
    }
    asked.push(device.beside(LANGUAGES))?;
    let mut rest = after(list, 2);
    while rest.len() > 1 {
        put_strings(&mut asked, device, named, word_at(rest, 0))?;
        rest = after(rest, 2);
    }
    Ok(asked)
}

/// The strings of a language that are named.
fn put_strings(
    asked: &mut Vec<Asked>,
    device: Asked,
    named: &[u16],
    language: u16,
) -> Result<(), AllocError>
    ensures { OnOk result (asked.new.items ≡ asked.old.items ++ strings_in device named.now language) }
{
    for index in named {
        asked.push(Asked {
            bus: device.bus,
            device: device.device,
            value: LANGUAGES + *index % 256,
            index: language,
        })?;
    }
    Ok(())
}
