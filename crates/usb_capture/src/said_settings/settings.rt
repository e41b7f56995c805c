//! The settings of a configuration, read where a device said them.
ghost use Rattle.std.specs.Prelude.{◌≡◌, ◌∷◌, [], drop, fold, length, map, slice_index, MatchOption};
ghost use Rattle.std.specs.Iterator.{YieldsFirstBy, item_count};
ghost use Rattle.usb_device.specs.Requests.{address_of, has_endpoint};
ghost use Rattle.usb_device.specs.States.{without_halt};
ghost use Rattle.usb_capture.specs.DeviceStates.{has_of_type};
ghost use Rattle.usb_capture.specs.SaidSettings.{setting_at, setting_of, settings_in, settings_left};

use crate::said_settings::endpoints::Endpoints;
use usb_device::State;
use usb_fields::{after, byte_at};

/// The settings in descriptors, which stand one after another.
#[derive(Clone, Copy)]
pub(crate) struct Settings<'a> {
    descriptors: &'a [u8],
}

impl<'a> Settings<'a> {
    /// Those of a configuration.
    pub(crate) fn of(set: &'a [u8]) -> Settings<'a>
        ensures { settings_left result ≡ settings_in set.now }
    {
        Settings { descriptors: set }
    }
}

impl<'a> Iterator for Settings<'a> {
    type Item = Setting<'a>;

    ghost next_gives = { YieldsFirstBy setting_of settings_left };

    ghost remaining = { item_count settings_left };

    fn next(&mut self) -> Option<Setting<'a>> {
        let interface = from_interface(self.descriptors)?;
        let later = after(interface, usize::from(byte_at(interface, 0)));
        self.descriptors = later;
        Some(Setting {
            number: byte_at(interface, 2),
            alternate: byte_at(interface, 3),
            endpoints: Endpoints { descriptors: later },
        })
    }
}

/// What there is from the next interface descriptor on (USB 2.0, 9.6.5), where there is one.
#[tactic(auto, using(crate::proofs::SettingLemmas::settings_end, crate::proofs::SettingLemmas::settings_more, crate::proofs::SettingLemmas::settings_pass))]
fn from_interface(descriptors: &[u8]) -> Option<&[u8]>
    ensures { MatchOption result (settings_in descriptors.now ≡ [])
        (λ b. settings_in descriptors.now ≡ setting_at b.now ∷ settings_in (drop (slice_index b.now 0) b.now)) }
{
    let mut rest = descriptors;
    while byte_at(rest, 0) > 1 {
        if byte_at(rest, 1) == 4 {
            return Some(rest);
        }
        rest = after(rest, usize::from(byte_at(rest, 0)));
    }
    None
}

/// A setting of an interface.
#[derive(Clone, Copy)]
pub(crate) struct Setting<'a> {
    /// bInterfaceNumber.
    pub(crate) number: u8,
    /// bAlternateSetting.
    pub(crate) alternate: u8,
    pub(crate) endpoints: Endpoints<'a>,
}

impl<'a> Setting<'a> {
    /// Whether it is chosen, and has an endpoint of this address.
    pub(crate) fn has_endpoint(&self, alternates: &[u8; 256], address: u8) -> bool
        ensures { result ≡ has_endpoint alternates.now address (setting_of self.now) }
    {
        if alternates[usize::from(self.number)] != self.alternate {
            return false;
        }
        for endpoint in self.endpoints {
            if endpoint.address == address {
                return true;
            }
        }
        false
    }

    /// Whether it is chosen, and has an endpoint of this address and this type.
    pub(crate) fn has_of_type(&self, alternates: &[u8; 256], address: u8, kind: u8) -> bool
        ensures { result ≡ has_of_type kind alternates.now address (setting_of self.now) }
    {
        if alternates[usize::from(self.number)] != self.alternate {
            return false;
        }
        for endpoint in self.endpoints {
            if endpoint.address == address && endpoint.attributes % 4 == kind {
                return true;
            }
        }
        false
    }

    /// The halts without those of its endpoints.
    pub(crate) fn without_endpoints(&self, halts: u32) -> u32
        ensures { result ≡ fold without_halt halts (map address_of (setting_of self.now).endpoints) }
    {
        let mut state = State::zero();
        state.halts = halts;
        for endpoint in self.endpoints {
            state.set_halt(endpoint.address, false);
        }
        state.halts
    }
}
