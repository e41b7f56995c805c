//! What a position says of a descriptor at it.
ghost use Rattle.std.specs.Prelude.{◌≡◌, ◌-◌, length, take};
ghost use Rattle.std.specs.Option.{option_copied};
ghost use Rattle.usb_walk.specs.Surroundings.{codes_of, depth_of, interface_number, rest_of_set};

use crate::position::Position;
use crate::role::Role;
use usb_fields::{byte_at, prefix};
use usb_names::ClassCodes;

impl Position {
    /// The depth of its heading.
    #[tactic(auto, unfolding(crate::specs::Surroundings::depth_of))]
    pub fn depth(&self, role: Role) -> u8
        ensures { result ≡ depth_of self.now role }
    {
        match role {
            Role::Configuration => 1,
            Role::Interface => 2,
            Role::Endpoint => 3,
            Role::Association => 2,
            Role::Raw => self.below,
            _ => 0,
        }
    }

    /// The number of the interface that a descriptor of this role is, or else of the last one before it.
    pub fn interface_number(&self, role: Role, d: &[u8]) -> u8
        ensures { result ≡ interface_number self.now role d.now }
    {
        match role {
            Role::Interface => byte_at(d, 2),
            _ => self.interface,
        }
    }

    /// The class codes of the interface that a descriptor follows.
    pub fn codes(&self) -> Option<ClassCodes>
        ensures { result ≡ codes_of self.now }
    {
        if self.settings == 0 {
            None
        } else {
            Some(ClassCodes {
                class: self.class,
                subclass: self.subclass,
                protocol: self.protocol,
            })
        }
    }

    /// The bytes of its set after a descriptor.
    fn behind_in_set<'b>(&self, d: &[u8], behind: &'b [u8]) -> &'b [u8]
        ensures { result.now ≡ take (self.now.left - length d.now) behind.now }
    {
        prefix(behind, self.left.saturating_sub(d.len()))
    }

    /// The same where they are all there.
    pub fn rest_of_set<'b>(&self, d: &[u8], behind: &'b [u8]) -> Option<&'b [u8]>
        ensures { option_copied result ≡ rest_of_set self.now d.now behind.now }
    {
        if self.left.saturating_sub(d.len()) <= behind.len() {
            Some(self.behind_in_set(d, behind))
        } else {
            None
        }
    }
}
