//! What the bytes of one descriptor show.
ghost use Rattle.std.specs.Prelude.{◌≡◌, ◌≤◌, ◌<◌, length, IfSome, IfNone};
ghost use Rattle.usb_set.specs.Faults.{header_fault, is_set_type, item_fault, least_length, total_of};
ghost use Rattle.usb_set.specs.Building.{has_setting};
ghost use Rattle.usb_set.specs.inside.Reading.{SplitsDescriptor, first_byte};

use crate::extra::typed_length;
use crate::fault::SetWhy;
use crate::tree::Configuration;
use usb_fields::{descriptor_length, descriptor_type, word_at};

/// Whether it is the type of a set's first descriptor.
fn is_set_type(kind: u8) -> bool
    ensures { result ≡ is_set_type kind }
{
    matches!(
        kind,
        descriptor_type::CONFIGURATION | descriptor_type::OTHER_SPEED_CONFIGURATION
    )
}

/// The least bLength of a descriptor of this type.
fn least_length(kind: u8) -> u8
    ensures { result ≡ least_length kind }
{
    typed_length(kind).unwrap_or(descriptor_length::HEAD)
}

/// The first fault that the first descriptor's bytes show, and its place.
pub(crate) fn fault_in_header(bytes: &[u8]) -> Option<(usize, SetWhy)>
    ensures { result ≡ header_fault bytes.now }
{
    match bytes {
        [len, ..] if *len < descriptor_length::CONFIGURATION => Some((0, SetWhy::HeaderLength)),
        [_, kind, ..] if !is_set_type(*kind) => Some((1, SetWhy::HeaderKind)),
        [len, _, _, _, ..] if usize::from(word_at(bytes, 2)) < usize::from(*len) => {
            Some((2, SetWhy::Total))
        }
        _ => None,
    }
}

/// The first fault that a later descriptor's bytes show, with `room` bytes of the set left.
pub(crate) fn fault_in_item(room: usize, in_setting: bool, bytes: &[u8]) -> Option<SetWhy>
    ensures { result ≡ item_fault room in_setting bytes.now }
{
    let [first, more @ ..] = bytes else {
        return None;
    };
    if *first < descriptor_length::HEAD {
        return Some(SetWhy::ItemLength);
    }
    if room < usize::from(*first) {
        return Some(SetWhy::Over);
    }
    let [kind, ..] = more else {
        return None;
    };
    match *kind {
        kind if is_set_type(kind) => Some(SetWhy::Nested),
        kind if *first < least_length(kind) => Some(SetWhy::ItemShort),
        descriptor_type::ENDPOINT if !in_setting => Some(SetWhy::Stray),
        _ => None,
    }
}

/// The descriptor that the bytes begin with, and what follows it, if it is whole.
pub(crate) fn split_descriptor(bytes: &[u8]) -> Option<(&[u8], &[u8])>
    requires { 1 < first_byte bytes.now }
    ensures some { IfSome result (λ p. SplitsDescriptor bytes.now p.0.now p.1.now) }
    ensures fits { IfSome result (λ p. length p.0.now ≤ 255) }
    ensures none { IfNone result (length bytes.now < first_byte bytes.now) }
    ensures short { IfNone result (length bytes.now < 255) }
{
    let [len, ..] = bytes else {
        return None;
    };
    let len = usize::from(*len);
    if bytes.len() < len {
        return None;
    }
    Some(bytes.split_at(len))
}

/// wTotalLength, as the first descriptor declares it.
pub(crate) fn declared_total(header: &[u8]) -> usize
    requires { 4 ≤ length header.now }
    ensures value { result ≡ total_of header.now }
    ensures bound { result ≤ 65535 }
{
    usize::from(word_at(header, 2))
}

/// Whether an endpoint would belong to a setting.
pub(crate) fn is_in_setting(c: &Configuration) -> bool
    ensures { result ≡ has_setting c.now }
{
    !c.settings.is_empty()
}
