//! The settings and endpoints in what a device said of a configuration.
pub(crate) mod endpoints;
pub(crate) mod settings;

ghost use Rattle.std.specs.Prelude.{◌≡◌, fold, length};
ghost use Rattle.std.specs.List.{list_any};
ghost use Rattle.usb_device.specs.Freedoms.{is_other_setting};
ghost use Rattle.usb_device.specs.Requests.{has_endpoint, interface_addresses, is_alternate, is_of_interface};
ghost use Rattle.usb_device.specs.States.{without_halt};
ghost use Rattle.usb_capture.specs.DeviceStates.{are_descriptors, has_of_type, is_all_said, settings_said};
ghost use Rattle.usb_capture.specs.SaidSettings.{has_descriptor};

use crate::said_settings::settings::Settings;
use usb_fields::{after, byte_at, word_at};

/// Whether the device said all of a configuration (USB 2.0, 9.6.3), in whole descriptors.
pub(crate) fn is_all_said(set: &[u8]) -> bool
    ensures { result ≡ is_all_said set.now }
{
    set.len() > 3
        && byte_at(set, 1) == 2
        && set.len() == usize::from(word_at(set, 2))
        && are_descriptors(set)
}

/// Whether these bytes are descriptors, one after another to the end.
fn are_descriptors(bytes: &[u8]) -> bool
    ensures { result ≡ are_descriptors (length bytes.now) bytes.now }
{
    let mut rest = bytes;
    while has_descriptor(rest) {
        rest = after(rest, usize::from(byte_at(rest, 0)));
    }
    rest.is_empty()
}

/// Whether all bytes of the first descriptor are there.
fn has_descriptor(bytes: &[u8]) -> bool
    ensures { result ≡ has_descriptor bytes.now }
{
    byte_at(bytes, 0) > 1 && usize::from(byte_at(bytes, 0)) <= bytes.len()
}

/// Whether a configuration has an interface of this number (USB 2.0, 9.6.5).
pub(crate) fn has_interface(set: &[u8], number: u8) -> bool
    ensures { result ≡ list_any (is_of_interface number) (settings_said (length set.now) set.now) }
{
    for setting in Settings::of(set) {
        if setting.number == number {
            return true;
        }
    }
    false
}

/// Whether its interface of this number has this alternate setting.
pub(crate) fn has_alternate(set: &[u8], number: u8, alternate: u8) -> bool
    ensures { result ≡ list_any (is_alternate number alternate) (settings_said (length set.now) set.now) }
{
    for setting in Settings::of(set) {
        if setting.number == number && setting.alternate == alternate {
            return true;
        }
    }
    false
}

/// Whether its interface of this number has another alternate setting than this one.
pub(crate) fn has_other_setting(set: &[u8], number: u8, alternate: u8) -> bool
    ensures { result ≡ list_any (is_other_setting number alternate) (settings_said (length set.now) set.now) }
{
    for setting in Settings::of(set) {
        if setting.number == number && setting.alternate != alternate {
            return true;
        }
    }
    false
}

/// Whether one of the chosen settings has an endpoint of this address (USB 2.0, 9.6.6).
pub(crate) fn has_endpoint(set: &[u8], alternates: &[u8; 256], address: u8) -> bool
    ensures { result ≡ list_any (has_endpoint alternates.now address) (settings_said (length set.now) set.now) }
{
    for setting in Settings::of(set) {
        if setting.has_endpoint(alternates, address) {
            return true;
        }
    }
    false
}

/// Whether one of the chosen settings has an endpoint of this address and this type: 0 is control, 1 isochronous.
pub(crate) fn has_of_type(set: &[u8], alternates: &[u8; 256], address: u8, kind: u8) -> bool
    ensures { result ≡ list_any (has_of_type kind alternates.now address) (settings_said (length set.now) set.now) }
{
    for setting in Settings::of(set) {
        if setting.has_of_type(alternates, address, kind) {
            return true;
        }
    }
    false
}

/// The halts without those of the endpoints in any setting of an interface.
#[tactic(auto, using(crate::proofs::SettingLemmas::halts_more))]
pub(crate) fn without_interface(set: &[u8], halts: u32, number: u8) -> u32
    ensures { result ≡ fold without_halt halts (interface_addresses (settings_said (length set.now) set.now) number) }
{
    let mut left = halts;
    for setting in Settings::of(set) {
        if setting.number == number {
            left = setting.without_endpoints(left);
        }
    }
    left
}
