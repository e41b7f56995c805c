//! The walk from a descriptor to the next one.
ghost use Rattle.std.specs.Prelude.{◌≡◌, ◌≤◌, ◌+◌, ◌<◌, ◌^◌, is_some, length, unwrap_or};
ghost use Rattle.usb_walk.specs.Numbered.{numbered_next};
ghost use Rattle.usb_walk.specs.Positions.{Counted, position_after};
ghost use Rattle.usb_walk.specs.Surroundings.{depth_of};
ghost use Rattle.usb_walk.specs.WalkedDescriptors.{as_numbers, is_counted, next_as_numbers, next_of, string_of_role, with_endpoint, with_role};

use crate::place::part_number;
use crate::position::Position;
use crate::role::{Role, role_number};
use crate::string_place::{NO_STRING, StringPlace, name_string, string_among};
use crate::walked_descriptor::WalkedDescriptor;
use usb_fields::{after, byte_at, prefix, word_at};

impl WalkedDescriptor {
    /// Becomes the first descriptor of an input, or the one after another one. False where none can stand there: nothing changes then.
    #[tactic(auto, unfolding(crate::specs::WalkedDescriptors::next_of), using(crate::proofs::Walking::counted_of))]
    pub fn next_in(&mut self, bytes: &[u8]) -> bool
        ensures moved { self.new ≡ unwrap_or (next_of bytes.now self.old) self.old }
        ensures found { result ≡ is_some (next_of bytes.now self.old) }
    {
        if is_counted(&self.position) {
            self.go_on(bytes)
        } else {
            false
        }
    }

    /// Becomes the descriptor with which the bytes at its position begin.
    fn go_on(&mut self, bytes: &[u8]) -> bool
        requires { Counted self.old.position }
        ensures moved { self.new ≡ unwrap_or (next_as_numbers bytes.now self.old) self.old }
        ensures found { result ≡ is_some (next_as_numbers bytes.now self.old) }
    {
        let ahead = after(bytes, self.position.at);
        match self.position.next_role(ahead) {
            None => false,
            Some((role, count)) => {
                self.set_numbers(bytes, role, ahead, count);
                true
            }
        }
    }

    /// Becomes the descriptor of this role and length, with which the bytes at its position begin.
    #[tactic(auto, unfolding(crate::specs::WalkedDescriptors::as_numbers))]
    fn set_numbers(&mut self, bytes: &[u8], role: Role, ahead: &[u8], count: usize)
        requires counted { Counted self.old.position }
        requires room { self.old.position.at + length ahead.now < 2 ^ 63 }
        requires most { count ≤ length ahead.now }
        ensures { self.new ≡ as_numbers bytes.now self.old (numbered_next self.old.position ahead.now (role, count)) }
    {
        let string = string_of_role(role, bytes, self);
        let d = prefix(ahead, count);
        self.position.enter(role, ahead);
        self.place = self.position.at;
        self.pass(role, d);
        self.endpoint_number = self.position.endpoints.saturating_sub(1);
        self.language = string.language;
        self.length = byte_at(d, 0);
        self.kind = byte_at(d, 1);
        self.role = role_number(role);
        self.index = string.index;
        self.note_endpoint(role, d);
        self.note(role, d);
    }

    /// Moves past the descriptor, and notes its depth.
    // The depth is the same after the move, and then what decides it needs no second look.
    #[inline(always)]
    fn pass(&mut self, role: Role, d: &[u8])
        requires counted { Counted self.old.position }
        requires room { self.old.position.at + length d.now < 2 ^ 63 }
        ensures { self.new ≡ record self.old { position = position_after role d.now self.old.position; depth = depth_of self.old.position role } }
    {
        self.position.pass(role, d);
        self.depth = self.position.depth(role);
    }

    /// Notes what belongs to a descriptor of this role alone, where the position is after it.
    fn note(&mut self, role: Role, d: &[u8])
        ensures { self.new ≡ with_role role d.now self.old }
    {
        self.owner = 0;
        self.part = part_number(self.position.part());
        match role {
            Role::Device => {
                self.part = 0;
                name_string(&mut self.named, byte_at(d, 14));
                name_string(&mut self.named, byte_at(d, 15));
                name_string(&mut self.named, byte_at(d, 16));
            }
            Role::Qualifier => self.part = 2,
            Role::Configuration => name_string(&mut self.named, byte_at(d, 6)),
            Role::Association => {
                self.owner = self.position.below;
                name_string(&mut self.named, byte_at(d, 7));
            }
            Role::Interface => name_string(&mut self.named, byte_at(d, 8)),
            Role::Endpoint => {}
            Role::Raw => self.owner = self.position.below,
            Role::Languages => {
                self.part = 0;
                self.languages_place = self.place;
            }
            Role::Text => self.part = 0,
        }
    }

    /// Notes what an endpoint says of itself (USB 2.0, 9.6.6); 0 of any other descriptor.
    fn note_endpoint(&mut self, role: Role, d: &[u8])
        ensures { self.new ≡ with_endpoint role d.now self.old }
    {
        match role {
            Role::Endpoint => {
                let max_packet = word_at(d, 4);
                self.attributes = byte_at(d, 3);
                self.packet = max_packet % 2048;
                self.transactions = match max_packet / 2048 % 4 {
                    0 => 1,
                    1 => 2,
                    2 => 3,
                    _ => 0,
                };
                self.interval = byte_at(d, 6);
            }
            _ => {
                self.attributes = 0;
                self.packet = 0;
                self.transactions = 0;
                self.interval = 0;
            }
        }
    }
}

/// Whether there are no more of anything than bytes before.
#[tactic(auto, unfolding(crate::specs::WalkedDescriptors::is_counted))]
fn is_counted(position: &Position) -> bool
    ensures { result ≡ is_counted position.now }
{
    position.strings <= position.at
        && position.main_sets <= position.at
        && position.other_sets <= position.at
        && position.associations <= position.at
        && position.settings <= position.at
        && position.endpoints <= position.at
}

fn string_of_role(role: Role, bytes: &[u8], was: &WalkedDescriptor) -> StringPlace
    ensures { result ≡ string_of_role role bytes.now was.now }
{
    match role {
        Role::Text => string_among(&was.named, bytes, was.languages_place, was.position.strings),
        _ => NO_STRING,
    }
}
