//! Whose a descriptor is.
ghost use Rattle.std.specs.Prelude.{◌≡◌};
ghost use Rattle.usb_walk.specs.Owners.{last_owner, owner_of, part_in, set_of, setting_in};

use crate::position::Position;
use crate::role::Role;
use usb_fields::byte_at;
use usb_file_data::Part;

/// An interface with one of its settings (USB 2.0, 9.6.5).
#[derive(Clone, Copy, Debug, PartialEq, Eq, Hash)]
pub struct InterfaceSetting {
    /// bInterfaceNumber.
    pub interface: u8,
    /// bAlternateSetting.
    pub alternate: u8,
}

/// Whose a descriptor of a set is. That of an interface or an endpoint is its own. One that extends another, as a class
/// defines, is of the nearest configuration, interface or endpoint before it (USB 2.0, 9.5). An association is of its set.
#[derive(Clone, Copy, Debug, PartialEq, Eq, Hash)]
pub struct DescriptorOwner {
    /// The part that has the set.
    pub part: Part,
    /// The number of the set in its part, from 0.
    pub set: usize,
    /// The interface and its setting, where it belongs to one.
    pub setting: Option<InterfaceSetting>,
    /// bEndpointAddress, where it belongs to an endpoint.
    pub endpoint: Option<u8>,
}

impl Position {
    /// Whose a descriptor of this role is.
    #[tactic(auto, unfolding(crate::specs::Owners::owner_of))]
    pub fn owner(&self, role: Role, d: &[u8]) -> Option<DescriptorOwner>
        ensures { result ≡ owner_of self.now role d.now }
    {
        match role {
            Role::Configuration | Role::Association => Some(self.whole_set()),
            Role::Interface => Some(DescriptorOwner {
                setting: Some(InterfaceSetting {
                    interface: byte_at(d, 2),
                    alternate: byte_at(d, 3),
                }),
                ..self.whole_set()
            }),
            Role::Endpoint => Some(DescriptorOwner {
                setting: Some(self.last_setting()),
                endpoint: Some(byte_at(d, 2)),
                ..self.whole_set()
            }),
            Role::Raw => Some(self.last_owner()),
            _ => None,
        }
    }

    fn whole_set(&self) -> DescriptorOwner
        ensures { result ≡ set_of self.now }
    {
        DescriptorOwner {
            part: self.part(),
            set: self.set,
            setting: None,
            endpoint: None,
        }
    }

    /// The part that has the set.
    pub fn part(&self) -> Part
        ensures { result ≡ part_in self.now }
    {
        if self.is_other {
            Part::Other
        } else {
            Part::Main
        }
    }

    fn last_setting(&self) -> InterfaceSetting
        ensures { result ≡ setting_in self.now }
    {
        InterfaceSetting {
            interface: self.interface,
            alternate: self.alternate,
        }
    }

    /// The last of what owns other descriptors.
    fn last_owner(&self) -> DescriptorOwner
        ensures { result ≡ last_owner self.now }
    {
        let mut owner = self.whole_set();
        if self.below == 3 || self.below == 4 {
            owner.setting = Some(self.last_setting());
        }
        if self.below == 4 {
            owner.endpoint = Some(self.endpoint);
        }
        owner
    }
}
