//! What the bytes of a read say.
ghost use Rattle.std.specs.Prelude.{◌≡◌, ◌≤◌, length, take, Some, None, if◌then◌else◌, IfOk, IfSome, IsSome, OnErr};
ghost use Rattle.usb_set.specs.Descriptors.{type_number};
ghost use Rattle.usb_host.specs.Read.{device_of, is_first, may_have_second as may_have_second_speed, packet_fits as fits_speed, qualifier_of, same_bytes, total_in as total_of, units_of};

use std::alloc::Global;
use usb_fields::{
    DeviceDescriptor, Qualifier, Sequence, Speed, USB_2_0, UnitFault, descriptor_length,
    descriptor_type, known_bytes, read_units, word_at,
};
use usb_file_data::NoMemory;
use usb_set::SetKind;

/// The first bytes of a device descriptor.
pub(crate) fn first_in(speed: Speed, bytes: &[u8]) -> Option<[u8; 8]>
    ensures { result ≡ if is_first speed bytes.now then Some bytes.now else None }
{
    let Ok(first) = <&[u8; 8]>::try_from(bytes) else {
        return None;
    };
    if first[0] == descriptor_length::DEVICE
        && first[1] == descriptor_type::DEVICE
        && packet_fits(speed, first[7])
    {
        Some(*first)
    } else {
        None
    }
}

/// Whether endpoint zero can have packets of this size (5.5.3).
fn packet_fits(speed: Speed, packet: u8) -> bool
    ensures { result ≡ fits_speed speed packet }
{
    match speed {
        Speed::Low => packet == 8,
        Speed::Full => packet == 8 || packet == 16 || packet == 32 || packet == 64,
        Speed::High => packet == 64,
    }
}

/// A device descriptor.
#[tactic(auto, using(crate::proofs::ReadLemmas::device_is, crate::proofs::ReadLemmas::device_not, crate::proofs::ReadLemmas::device_long))]
pub(crate) fn device_in(bytes: &[u8]) -> Option<DeviceDescriptor>
    ensures value { result ≡ device_of bytes.now }
    ensures long { IfSome result (λ d. length bytes.now ≡ 18) }
{
    match DeviceDescriptor::read(bytes) {
        Ok(device) => Some(device),
        Err(_) => None,
    }
}

/// Whether the bytes begin with these.
#[tactic(auto, using(crate::proofs::ReadLemmas::same_or_not))]
pub(crate) fn begins_with(bytes: &[u8], first: &[u8; 8]) -> bool
    requires { 8 ≤ length bytes.now }
    ensures { result ≡ same_bytes (take 8 bytes.now) first.now }
{
    &bytes[..8] == first.as_slice()
}

/// Whether there may be a second speed (9.6.2).
pub(crate) fn may_have_second(speed: Speed, device: &DeviceDescriptor) -> bool
    ensures { result ≡ may_have_second_speed speed device.now }
{
    match speed {
        Speed::Low => false,
        Speed::Full | Speed::High => device.usb >= USB_2_0,
    }
}

/// wTotalLength of the first descriptor of a set of this kind.
pub(crate) fn total_in(kind: SetKind, bytes: &[u8]) -> Option<u16>
    ensures { result ≡ total_of (type_number kind) bytes.now }
{
    if bytes.len() != usize::from(descriptor_length::CONFIGURATION) {
        return None;
    }
    let total = word_at(bytes, 2);
    if bytes[0] >= descriptor_length::CONFIGURATION
        && bytes[1] == kind.descriptor_type()
        && total >= u16::from(bytes[0])
    {
        Some(total)
    } else {
        None
    }
}

/// A device qualifier.
#[tactic(auto, using(crate::proofs::ReadLemmas::qualifier_is, crate::proofs::ReadLemmas::qualifier_not))]
pub(crate) fn qualifier_in(bytes: &[u8]) -> Option<Qualifier>
    ensures { result ≡ qualifier_of bytes.now }
{
    match Qualifier::read(bytes) {
        Ok(qualifier) => Some(qualifier),
        Err(_) => None,
    }
}

/// The units of a string or of the language list. Memory is asked for only where there are some.
#[tactic(auto, using(crate::proofs::ReadLemmas::units_are, crate::proofs::ReadLemmas::units_refused, crate::proofs::ReadLemmas::units_there))]
pub(crate) fn units_in(alloc: Global, bytes: &[u8]) -> Result<Option<Sequence<u16>>, NoMemory>
    ensures value { IfOk result (λ units. units ≡ units_of bytes.now) }
    ensures few { IfOk result (λ units. IfSome units (λ u. length u ≤ 126)) }
    ensures err { OnErr result (IsSome (units_of bytes.now)) }
{
    known_bytes(bytes);
    match read_units(alloc, bytes) {
        Ok(units) => Ok(Some(Sequence::from_vec(units))),
        Err(fault) => {
            if fault == UnitFault::Memory {
                Err(NoMemory)
            } else {
                Ok(None)
            }
        }
    }
}
