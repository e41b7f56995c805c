//! What a descriptor is at its place.
ghost use Rattle.std.specs.Prelude.{◌≡◌};
ghost use Rattle.usb_walk.specs.RoleNumbers.{role_in, role_number};
ghost use Rattle.usb_walk.specs.Roles.{inner_role, is_alone, is_association, is_endpoint, is_interface, is_of_type, outer_role, role_if, role_of, string_role, typed_role};

use crate::position::Position;
use usb_fields::{byte_at, descriptor_length, descriptor_type, word_at};
use usb_file_data::names_languages;

impl Position {
    /// What the descriptor is, where one can be here.
    #[inline(always)]
    #[tactic(auto, unfolding(crate::specs::Roles::role_of))]
    pub(crate) fn role(&self, d: &[u8]) -> Option<Role>
        ensures { result ≡ role_of self.now d.now }
    {
        if self.left == 0 {
            self.outer_role(d)
        } else if d.len() <= self.left {
            self.inner_role(d)
        } else {
            None
        }
    }

    #[inline(always)]
    #[tactic(auto, unfolding(crate::specs::Roles::outer_role))]
    fn outer_role(&self, d: &[u8]) -> Option<Role>
        ensures { result ≡ outer_role self.now d.now }
    {
        let length = d.len();
        match byte_at(d, 1) {
            descriptor_type::DEVICE => {
                role_if(
                    self.at == 0 && length == usize::from(descriptor_length::DEVICE),
                    Role::Device,
                )
            }
            descriptor_type::DEVICE_QUALIFIER => role_if(
                self.has_device && length == usize::from(descriptor_length::DEVICE_QUALIFIER),
                Role::Qualifier,
            ),
            descriptor_type::CONFIGURATION | descriptor_type::OTHER_SPEED_CONFIGURATION => role_if(
                length >= usize::from(descriptor_length::CONFIGURATION)
                    && length <= usize::from(word_at(d, 2)),
                Role::Configuration,
            ),
            descriptor_type::STRING => {
                string_role(self.has_languages || self.is_alone(d), length)
            }
            _ => None,
        }
    }

    /// Whether a string descriptor is a string though none came before it: after no device, and no language list.
    fn is_alone(&self, d: &[u8]) -> bool
        ensures { result ≡ is_alone self.now d.now }
    {
        !self.has_device && !names_languages(d)
    }

    #[tactic(auto, unfolding(crate::specs::Roles::inner_role))]
    fn inner_role(&self, d: &[u8]) -> Option<Role>
        ensures { result ≡ inner_role self.now d.now }
    {
        let length = d.len();
        match byte_at(d, 1) {
            descriptor_type::CONFIGURATION | descriptor_type::OTHER_SPEED_CONFIGURATION => None,
            descriptor_type::INTERFACE => Some(typed_role(
                length >= usize::from(descriptor_length::INTERFACE),
                Role::Interface,
            )),
            descriptor_type::ENDPOINT => Some(typed_role(
                self.settings >= 1 && length >= usize::from(descriptor_length::ENDPOINT),
                Role::Endpoint,
            )),
            descriptor_type::INTERFACE_ASSOCIATION => Some(typed_role(
                length >= usize::from(descriptor_length::INTERFACE_ASSOCIATION),
                Role::Association,
            )),
            _ => Some(Role::Raw),
        }
    }
}

fn string_role(has_languages: bool, length: usize) -> Option<Role>
    ensures { result ≡ string_role has_languages length }
{
    if has_languages {
        role_if(length % 2 == 0, Role::Text)
    } else {
        role_if(length % 2 == 0 && length >= 4, Role::Languages)
    }
}

fn role_if(holds: bool, role: Role) -> Option<Role>
    ensures { result ≡ role_if holds role }
{
    if holds { Some(role) } else { None }
}

/// The role of a descriptor of a type that has one, or that of any other.
pub fn typed_role(holds: bool, role: Role) -> Role
    ensures { result ≡ typed_role holds role }
{
    if holds { role } else { Role::Raw }
}

/// What a descriptor is at its place.
#[derive(Clone, Copy, Debug, PartialEq, Eq, Hash)]
pub enum Role {
    /// The device descriptor (USB 2.0, 9.6.1).
    Device,
    /// The device qualifier (USB 2.0, 9.6.2).
    Qualifier,
    /// The first descriptor of a set, of either type (USB 2.0, 9.6.3 and 9.6.4).
    Configuration,
    /// An interface association (its ECN, 9.X.Y).
    Association,
    /// An interface (USB 2.0, 9.6.5).
    Interface,
    /// An endpoint (USB 2.0, 9.6.6).
    Endpoint,
    /// A descriptor that a class defines, or that nothing does (USB 2.0, 9.5).
    Raw,
    /// The language list (USB 2.0, 9.6.7).
    Languages,
    /// A string (USB 2.0, 9.6.7).
    Text,
}

/// The number of a role: `enum nzg_role` of nozzlegorse.h.
pub fn role_number(role: Role) -> u8
    ensures { result ≡ role_number role }
{
    match role {
        Role::Device => 1,
        Role::Configuration => 2,
        Role::Interface => 3,
        Role::Endpoint => 4,
        Role::Association => 5,
        Role::Raw => 6,
        Role::Qualifier => 7,
        Role::Languages => 8,
        Role::Text => 9,
    }
}

/// The role of a number, if it is one.
pub fn role_in(number: u8) -> Option<Role>
    ensures { result ≡ role_in number }
{
    match number {
        1 => Some(Role::Device),
        2 => Some(Role::Configuration),
        3 => Some(Role::Interface),
        4 => Some(Role::Endpoint),
        5 => Some(Role::Association),
        6 => Some(Role::Raw),
        7 => Some(Role::Qualifier),
        8 => Some(Role::Languages),
        9 => Some(Role::Text),
        _ => None,
    }
}

fn is_of_type(kind: u8, least: u8, d: &[u8]) -> bool
    ensures { result ≡ is_of_type kind least d.now }
{
    byte_at(d, 1) == kind && d.len() >= usize::from(least)
}

pub fn is_interface(d: &[u8]) -> bool
    ensures { result ≡ is_interface d.now }
{
    is_of_type(descriptor_type::INTERFACE, descriptor_length::INTERFACE, d)
}

pub fn is_endpoint(d: &[u8]) -> bool
    ensures { result ≡ is_endpoint d.now }
{
    is_of_type(descriptor_type::ENDPOINT, descriptor_length::ENDPOINT, d)
}

pub fn is_association(d: &[u8]) -> bool
    ensures { result ≡ is_association d.now }
{
    is_of_type(
        descriptor_type::INTERFACE_ASSOCIATION,
        descriptor_length::INTERFACE_ASSOCIATION,
        d,
    )
}
