//! Where a descriptor stands in an input, as plain numbers: all that decides what it is, how deep and whose.
ghost use Rattle.std.specs.Prelude.{◌≡◌, ◌≤◌, ◌+◌, ◌<◌, ◌^◌, IfSome, false, length};
ghost use Rattle.usb_walk.specs.Positions.{Counted, begun, first_position, moved, noted, position_after, position_at, sets_of, with_set, with_setting};
ghost use Rattle.usb_walk.specs.Roles.{next_role};
ghost use Rattle.usb_walk.specs.declared.role.Role.TheVariants.{Configuration};

use crate::role::Role;
use crate::whole_descriptor::descriptor_length;
use usb_fields::{byte_at, descriptor_type, prefix, word_at};

/// What came before a descriptor, as numbers. A walk over an input goes from one to the next: [`next_role`](Self::next_role) says
/// what comes, [`enter`](Self::enter) is at it, and [`pass`](Self::pass) after it. All of the first one is 0.
///
/// ```rust
/// let mut position = Position::start();
/// if let Some((role, length)) = position.next_role(&bytes) {
///     position.enter(role, &bytes);
///     position.pass(role, &bytes[..length]);
/// }
/// ```
#[repr(C)]
#[derive(Clone, Copy, Debug, Drop, PartialEq, Eq, Hash)]
pub struct Position {
    /// Its place in the input.
    pub at: usize,
    /// How many bytes of the set are left from here on; none outside of sets.
    pub left: usize,
    /// How many strings came.
    pub strings: usize,
    /// How many sets of the main part came.
    pub main_sets: usize,
    /// How many sets of the other part came.
    pub other_sets: usize,
    /// The number of the set that it is in, in its part.
    pub set: usize,
    /// How many associations of the set came.
    pub associations: usize,
    /// How many settings of the set came.
    pub settings: usize,
    /// The number of the last one of them.
    pub setting: usize,
    /// How many endpoints of that setting came.
    pub endpoints: usize,
    /// bInterfaceNumber of that setting.
    pub interface: u8,
    /// bAlternateSetting of it.
    pub alternate: u8,
    /// bInterfaceClass of it. Behind a device, bDeviceClass.
    pub class: u8,
    /// The subclass.
    pub subclass: u8,
    /// The protocol.
    pub protocol: u8,
    /// bEndpointAddress of the last endpoint.
    pub endpoint: u8,
    /// The depth of a descriptor that extends what is nearest before it: 2 of a configuration, 3 of an interface, 4 of an endpoint.
    pub below: u8,
    /// Whether the set is one of the other speed.
    pub is_other: bool,
    /// Whether the device came.
    pub has_device: bool,
    /// Whether the language list came.
    pub has_languages: bool,
}

impl Position {
    /// At the first byte of an input.
    pub fn start() -> Position
        ensures start { result ≡ first_position }
        ensures counted { Counted result }
    {
        Position {
            at: 0,
            left: 0,
            strings: 0,
            main_sets: 0,
            other_sets: 0,
            set: 0,
            associations: 0,
            settings: 0,
            setting: 0,
            endpoints: 0,
            interface: 0,
            alternate: 0,
            class: 0,
            subclass: 0,
            protocol: 0,
            endpoint: 0,
            below: 0,
            is_other: false,
            has_device: false,
            has_languages: false,
        }
    }

    /// What the descriptor is with which the bytes begin, and how long it is, where one can be here (USB 2.0, 9.5 and 9.6).
    #[inline(always)]
    #[tactic(auto, unfolding(crate::specs::Roles::next_role))]
    pub fn next_role(&self, ahead: &[u8]) -> Option<(Role, usize)>
        ensures next { result ≡ next_role self.now ahead.now }
        ensures least { IfSome result (λ next. 2 ≤ next.1) }
        ensures most { IfSome result (λ next. next.1 ≤ length ahead.now) }
    {
        match descriptor_length(ahead) {
            None => None,
            Some(length) => match self.role(prefix(ahead, length)) {
                None => None,
                Some(role) => Some((role, length)),
            },
        }
    }

    /// Comes to a descriptor of this role, with which the bytes begin: the first one of a set begins it, and one outside of sets
    /// is in none.
    #[inline(always)]
    pub fn enter(&mut self, role: Role, ahead: &[u8])
        ensures { self.new ≡ position_at role ahead.now self.old }
    {
        match role {
            Role::Configuration => self.enter_set(ahead),
            Role::Association | Role::Interface | Role::Endpoint | Role::Raw => {}
            _ => self.leave_sets(),
        }
    }

    /// Comes to the first descriptor of a set.
    #[inline(never)]
    fn enter_set(&mut self, ahead: &[u8])
        ensures { self.new ≡ position_at Configuration ahead.now self.old }
    {
        let is_other = byte_at(ahead, 1) == descriptor_type::OTHER_SPEED_CONFIGURATION;
        self.left = usize::from(word_at(ahead, 2));
        self.begin(is_other, self.sets_of(is_other), 2);
    }

    /// Comes to a descriptor outside of sets: all numbers of a set are 0.
    #[inline(never)]
    fn leave_sets(&mut self)
        ensures { self.new ≡ begun false 0 0 self.old }
    {
        self.begin(false, 0, 0);
    }

    /// Begins the set of this number, or none.
    #[inline(always)]
    fn begin(&mut self, is_other: bool, number: usize, below: u8)
        ensures { self.new ≡ begun is_other number below self.old }
    {
        self.is_other = is_other;
        self.set = number;
        self.associations = 0;
        self.settings = 0;
        self.setting = 0;
        self.endpoints = 0;
        self.interface = 0;
        self.alternate = 0;
        self.class = 0;
        self.subclass = 0;
        self.protocol = 0;
        self.endpoint = 0;
        self.below = below;
    }

    /// How many sets of the part came.
    fn sets_of(&self, is_other: bool) -> usize
        ensures { result ≡ sets_of self.now is_other }
    {
        if is_other {
            self.other_sets
        } else {
            self.main_sets
        }
    }

    /// Moves past a descriptor of this role.
    #[inline(always)]
    pub fn pass(&mut self, role: Role, d: &[u8])
        requires counted { Counted self.old }
        requires room { self.old.at + length d.now < 2 ^ 63 }
        ensures { self.new ≡ position_after role d.now self.old }
    {
        self.note(role, d);
        self.go_on(d.len());
    }

    fn go_on(&mut self, count: usize)
        requires { self.old.at + count < 2 ^ 64 }
        ensures { self.new ≡ moved count self.old }
    {
        self.at += count;
        self.left = self.left.saturating_sub(count);
    }

    /// Keeps what the descriptors after it depend on.
    #[inline(always)]
    #[tactic(auto, unfolding(crate::specs::Positions::noted))]
    fn note(&mut self, role: Role, d: &[u8])
        requires counted { Counted self.old }
        requires room { self.old.at < 2 ^ 63 }
        ensures { self.new ≡ noted role d.now self.old }
    {
        match role {
            Role::Device => {
                self.has_device = true;
                self.class = byte_at(d, 4);
                self.subclass = byte_at(d, 5);
                self.protocol = byte_at(d, 6);
            }
            Role::Qualifier => {}
            Role::Configuration => self.add_set(),
            Role::Association => self.associations += 1,
            Role::Interface => self.add_setting(d),
            Role::Endpoint => {
                self.endpoints += 1;
                self.endpoint = byte_at(d, 2);
                self.below = 4;
            }
            Role::Raw => {}
            Role::Languages => self.has_languages = true,
            Role::Text => self.strings += 1,
        }
    }

    fn add_set(&mut self)
        requires main { self.old.main_sets + 1 < 2 ^ 64 }
        requires other { self.old.other_sets + 1 < 2 ^ 64 }
        ensures { self.new ≡ with_set self.old.is_other self.old }
    {
        if self.is_other {
            self.other_sets += 1;
        } else {
            self.main_sets += 1;
        }
    }

    /// One setting more, which an interface begins.
    fn add_setting(&mut self, d: &[u8])
        requires { self.old.settings + 1 < 2 ^ 64 }
        ensures { self.new ≡ with_setting d.now self.old }
    {
        self.setting = self.settings;
        self.settings += 1;
        self.endpoints = 0;
        self.interface = byte_at(d, 2);
        self.alternate = byte_at(d, 3);
        self.class = byte_at(d, 5);
        self.subclass = byte_at(d, 6);
        self.protocol = byte_at(d, 7);
        self.endpoint = 0;
        self.below = 3;
    }
}
