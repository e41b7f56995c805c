//! Which strings descriptors name (USB 2.0, 9.6.7).
ghost use Rattle.std.specs.Prelude.{◌≡◌};
ghost use Rattle.usb_capture.specs.Findings.{device_names, has_language, names, names_any, string_index};

use usb_fields::{after, byte_at, prefix, word_at};

/// Whether one of these descriptors, which stand one after another, names the string of this index.
pub(crate) fn names(index: u16, descriptors: &[u8]) -> bool
    ensures { result ≡ names index descriptors.now }
{
    let mut rest = descriptors;
    while byte_at(rest, 0) > 1 {
        let length = usize::from(byte_at(rest, 0));
        if u16::from(string_index(prefix(rest, length))) == index {
            return true;
        }
        rest = after(rest, length);
    }
    false
}

/// iConfiguration, iInterface or iFunction of a descriptor.
fn string_index(descriptor: &[u8]) -> u8
    ensures { result ≡ string_index descriptor.now }
{
    match byte_at(descriptor, 1) {
        2 | 7 => byte_at(descriptor, 6),
        4 => byte_at(descriptor, 8),
        11 => byte_at(descriptor, 7),
        _ => 0,
    }
}

/// Whether the string is iManufacturer, iProduct or iSerialNumber of the device descriptor.
pub(crate) fn device_names(index: u16, device: &[u8]) -> bool
    ensures { result ≡ device_names index device.now }
{
    u16::from(byte_at(device, 14)) == index
        || u16::from(byte_at(device, 15)) == index
        || u16::from(byte_at(device, 16)) == index
}

/// Whether a device descriptor names any string.
pub(crate) fn names_any(device: &[u8]) -> bool
    ensures { result ≡ names_any device.now }
{
    byte_at(device, 14) > 0 || byte_at(device, 15) > 0 || byte_at(device, 16) > 0
}

/// Whether a language is in the language list.
pub(crate) fn has_language(language: u16, list: &[u8]) -> bool
    ensures { result ≡ has_language language list.now }
{
    let mut rest = after(list, 2);
    while rest.len() > 1 {
        if word_at(rest, 0) == language {
            return true;
        }
        rest = after(rest, 2);
    }
    false
}
