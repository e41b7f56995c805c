//! What requests can name of the sets of a device, read where it lies in an image.
ghost use Rattle.std.specs.Prelude.{◌≡◌, find, fold, map};
ghost use Rattle.std.specs.Iterator.{YieldsFirstBy, item_count};
ghost use Rattle.std.specs.List.{list_any};
ghost use Rattle.usb_device.specs.inside.Sets.{endpoint_of, endpoints_left, set_of, setting_of, settings_left, sets_left};
ghost use Rattle.usb_device.specs.Freedoms.{has_isochronous, is_other_setting};
ghost use Rattle.usb_device.specs.Requests.{address_of, attributes_of, can_wake, has_endpoint, has_value, interface_addresses, is_alternate, is_of_interface, settings_of};
ghost use Rattle.usb_device.specs.States.{without_halt};

use crate::halts::without;
use crate::piece::{self, past};

/// The sets.
#[derive(Clone, Copy)]
pub(crate) struct Sets<'a> {
    pub(crate) pieces: &'a [u8],
}

impl<'a> Iterator for Sets<'a> {
    type Item = Set<'a>;

    ghost next_gives = { YieldsFirstBy set_of sets_left };

    ghost remaining = { item_count sets_left };

    fn next(&mut self) -> Option<Set<'a>> {
        let (piece, later) = piece::first(self.pieces)?;
        self.pieces = later;
        Some(Set {
            value: piece.index,
            attributes: piece.number,
            settings: Settings { pieces: piece.body },
        })
    }
}

impl<'a> Sets<'a> {
    /// The settings of the first with this bConfigurationValue, and none where there is no such.
    #[tactic(auto, using(crate::proofs::PieceLemmas::no_pieces))]
    pub(crate) fn settings_of(&self, value: u8) -> Settings<'a>
        ensures { settings_left result ≡ settings_of (find (has_value value) (sets_left self.now)) }
    {
        for set in *self {
            if set.value == value {
                return set.settings;
            }
        }
        Settings { pieces: &[] }
    }

    /// bmAttributes of the first with this bConfigurationValue, and 0 where there is no such.
    pub(crate) fn attributes_of(&self, value: u8) -> u16
        ensures { result ≡ attributes_of (find (has_value value) (sets_left self.now)) }
    {
        for set in *self {
            if set.value == value {
                return set.attributes;
            }
        }
        0
    }

    /// Whether one has this bConfigurationValue.
    pub(crate) fn has_value(&self, value: u8) -> bool
        ensures { result ≡ list_any (has_value value) (sets_left self.now) }
    {
        for set in *self {
            if set.value == value {
                return true;
            }
        }
        false
    }

    /// Whether one has remote wakeup.
    pub(crate) fn can_wake(&self) -> bool
        ensures { result ≡ list_any can_wake (sets_left self.now) }
    {
        for set in *self {
            if set.attributes / 32 % 2 == 1 {
                return true;
            }
        }
        false
    }
}

/// A set.
#[derive(Clone, Copy)]
pub(crate) struct Set<'a> {
    /// bConfigurationValue.
    pub(crate) value: u8,
    /// bmAttributes.
    pub(crate) attributes: u16,
    pub(crate) settings: Settings<'a>,
}

/// The settings of a set.
#[derive(Clone, Copy)]
pub(crate) struct Settings<'a> {
    pub(crate) pieces: &'a [u8],
}

impl<'a> Iterator for Settings<'a> {
    type Item = Setting<'a>;

    ghost next_gives = { YieldsFirstBy setting_of settings_left };

    ghost remaining = { item_count settings_left };

    fn next(&mut self) -> Option<Setting<'a>> {
        let (piece, later) = piece::first(self.pieces)?;
        self.pieces = later;
        Some(Setting {
            number: piece.index,
            alternate: piece.number,
            endpoints: Endpoints { bytes: piece.body },
        })
    }
}

impl<'a> Settings<'a> {
    /// Whether an interface has this number.
    pub(crate) fn has_interface(&self, number: u8) -> bool
        ensures { result ≡ list_any (is_of_interface number) (settings_left self.now) }
    {
        for setting in *self {
            if setting.number == number {
                return true;
            }
        }
        false
    }

    /// Whether an interface with this number has this alternate setting.
    pub(crate) fn has_alternate(&self, number: u8, alternate: u8) -> bool
        ensures { result ≡ list_any (is_alternate number alternate) (settings_left self.now) }
    {
        for setting in *self {
            if setting.number == number && setting.alternate == u16::from(alternate) {
                return true;
            }
        }
        false
    }

    /// Whether that interface has another one.
    pub(crate) fn has_other(&self, number: u8, alternate: u8) -> bool
        ensures { result ≡ list_any (is_other_setting number alternate) (settings_left self.now) }
    {
        for setting in *self {
            if setting.number == number && setting.alternate != u16::from(alternate) {
                return true;
            }
        }
        false
    }

    /// Whether a setting that is chosen has an endpoint with this address.
    pub(crate) fn has_endpoint(&self, alternates: &[u8; 256], address: u8) -> bool
        ensures { result ≡ list_any (has_endpoint alternates.now address) (settings_left self.now) }
    {
        for setting in *self {
            if setting.has_endpoint(alternates, address) {
                return true;
            }
        }
        false
    }

    /// Whether a setting that is chosen has an isochronous endpoint with this address.
    pub(crate) fn has_isochronous(&self, alternates: &[u8; 256], address: u8) -> bool
        ensures { result ≡ list_any (has_isochronous alternates.now address) (settings_left self.now) }
    {
        for setting in *self {
            if setting.has_isochronous(alternates, address) {
                return true;
            }
        }
        false
    }

    /// The halts without those of the endpoints of all settings of an interface.
    #[tactic(auto, using(crate::proofs::OfferLemmas::halts_more))]
    pub(crate) fn without_interface(&self, halts: u32, number: u8) -> u32
        ensures { result ≡ fold without_halt halts (interface_addresses (settings_left self.now) number) }
    {
        let mut left = halts;
        for setting in *self {
            if setting.number == number {
                left = setting.without_endpoints(left);
            }
        }
        left
    }
}

/// A setting.
#[derive(Clone, Copy)]
pub(crate) struct Setting<'a> {
    /// bInterfaceNumber.
    pub(crate) number: u8,
    /// bAlternateSetting.
    pub(crate) alternate: u16,
    pub(crate) endpoints: Endpoints<'a>,
}

impl<'a> Setting<'a> {
    /// Whether it is chosen, and has an endpoint with this address.
    fn has_endpoint(&self, alternates: &[u8; 256], address: u8) -> bool
        ensures { result ≡ has_endpoint alternates.now address (setting_of self.now) }
    {
        if u16::from(alternates[usize::from(self.number)]) != self.alternate {
            return false;
        }
        for endpoint in self.endpoints {
            if endpoint.address == address {
                return true;
            }
        }
        false
    }

    /// Whether it is chosen, and has an isochronous endpoint with this address.
    fn has_isochronous(&self, alternates: &[u8; 256], address: u8) -> bool
        ensures { result ≡ has_isochronous alternates.now address (setting_of self.now) }
    {
        if u16::from(alternates[usize::from(self.number)]) != self.alternate {
            return false;
        }
        for endpoint in self.endpoints {
            if endpoint.address == address && endpoint.attributes % 4 == 1 {
                return true;
            }
        }
        false
    }

    /// The halts without those of its endpoints.
    fn without_endpoints(&self, halts: u32) -> u32
        ensures { result ≡ fold without_halt halts (map address_of (setting_of self.now).endpoints) }
    {
        let mut left = halts;
        for endpoint in self.endpoints {
            left = without(left, endpoint.address);
        }
        left
    }
}

/// The endpoints of a setting.
#[derive(Clone, Copy)]
pub(crate) struct Endpoints<'a> {
    pub(crate) bytes: &'a [u8],
}

impl<'a> Iterator for Endpoints<'a> {
    type Item = Endpoint;

    ghost next_gives = { YieldsFirstBy endpoint_of endpoints_left };

    ghost remaining = { item_count endpoints_left };

    #[tactic(auto, using(crate::proofs::OfferLemmas::endpoint_step, crate::proofs::OfferLemmas::endpoint_none))]
    fn next(&mut self) -> Option<Endpoint> {
        let [address, attributes, ..] = self.bytes else {
            return None;
        };
        let endpoint = Endpoint {
            address: *address,
            attributes: *attributes,
        };
        self.bytes = past(self.bytes, 2);
        Some(endpoint)
    }
}

/// An endpoint.
#[derive(Clone, Copy)]
pub(crate) struct Endpoint {
    /// bEndpointAddress.
    pub(crate) address: u8,
    /// bmAttributes.
    pub(crate) attributes: u8,
}
