//! Where a descriptor is among the parts, sets, settings and endpoints of an input.
ghost use Rattle.std.specs.Prelude.{◌≡◌};
ghost use Rattle.usb_walk.specs.Places.{outside, part_number, place_in, raw_place, within};

use crate::position::Position;
use crate::role::Role;
use usb_file_data::Part;

/// Where a descriptor is, by the numbers that the line of a finding has. Those that it doesn't have are 0.
#[derive(Clone, Copy, Debug, PartialEq, Eq, Hash)]
pub struct Place {
    /// The part.
    pub part: Part,
    /// The set's number in its part, from 0.
    pub set: usize,
    /// The number of the setting, or of the association, in its set, from 0.
    pub setting: usize,
    /// The endpoint's number in its setting, from 0.
    pub endpoint: usize,
}

impl Position {
    /// Where a descriptor of this role is.
    #[tactic(auto, unfolding(crate::specs::Places::place_in))]
    pub fn place(&self, role: Role) -> Place
        ensures { result ≡ place_in self.now role }
    {
        match role {
            Role::Qualifier => outside(Part::Other),
            Role::Configuration => self.within(0, 0),
            Role::Association => self.within(self.associations, 0),
            Role::Interface => self.within(self.settings, 0),
            Role::Endpoint => self.within(self.setting, self.endpoints),
            Role::Raw => self.raw_place(),
            Role::Device | Role::Languages | Role::Text => outside(Part::Device),
        }
    }

    fn within(&self, setting: usize, endpoint: usize) -> Place
        ensures { result ≡ within self.now setting endpoint }
    {
        Place {
            part: self.part(),
            set: self.set,
            setting,
            endpoint,
        }
    }

    /// Where a descriptor is that extends the set, the last interface or the last endpoint.
    fn raw_place(&self) -> Place
        ensures { result ≡ raw_place self.now }
    {
        match self.below {
            4 => self.within(self.setting, self.endpoints.saturating_sub(1)),
            3 => self.within(self.setting, 0),
            _ => self.within(0, 0),
        }
    }
}

/// The number of a part: 0 the device, 1 its sets, 2 its qualifier and the sets of the other speed.
pub fn part_number(part: Part) -> u8
    ensures { result ≡ part_number part }
{
    match part {
        Part::Device => 0,
        Part::Main => 1,
        Part::Other => 2,
    }
}

/// In a part, and in none of its sets.
pub fn outside(part: Part) -> Place
    ensures { result ≡ outside part }
{
    Place {
        part,
        set: 0,
        setting: 0,
        endpoint: 0,
    }
}
