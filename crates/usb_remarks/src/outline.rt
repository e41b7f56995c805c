//! The descriptors of an input, one after another.
ghost use Rattle.std.specs.Prelude.{◌≡◌, ◌≤◌, ◌<◌, ◌+◌, ◌-◌, ◌^◌, drop, length, take};
ghost use Rattle.usb_remarks.specs.Findings.{found_at};
ghost use Rattle.usb_remarks.specs.Outline.{describe, described, outline};
ghost use Rattle.usb_remarks.specs.SetStart.{entered};
ghost use Rattle.usb_remarks.specs.OutlineStates.{AreCounted, passed};
ghost use Rattle.usb_walk.specs.Positions.{position_at};
ghost use Rattle.usb_remarks.specs.inside.Coming.{Awaits};

use crate::associations::has_associations;
use crate::descriptor::Descriptor;
use crate::later_interfaces::LaterInterfaces;
use crate::outline_state::OutlineState;
use crate::speed::SetSpeed;
use std::marker::Model;
use usb_fields::byte_at;
use usb_file_data::Found;
use usb_walk::Role;

/// The descriptors of an input that are left, in the order of its bytes. In a contract it is the list of them.
///
/// Of bytes that are no input it has the descriptors up to where none can stand.
///
/// ```rust
/// let found = found_in_order(rt.alloc(), &input)?;
/// for descriptor in Outline::of(&bytes, None, &found) {
///     println!(rt; "{:?} at {}", descriptor.role, descriptor.at)?;
/// }
/// ```
#[derive(Drop)]
pub struct Outline<'b> {
    running: Option<SetSpeed>,
    state: OutlineState,
    found: &'b [Found],
    ahead: &'b [u8],
    later: LaterInterfaces,
}

impl<'b> Model for Outline<'b> {
    ghost use Rattle.std.specs.Prelude.{◌+◌, ◌<◌, ◌^◌, List, length};
    ghost use Rattle.usb_remarks.specs.Outline.{Described, outline_from};
    ghost use Rattle.usb_remarks.specs.OutlineStates.{AreCounted};
    ghost use Rattle.usb_remarks.specs.inside.Coming.{Awaits};

    ghost Value = { List Described };

    ghost view = { λ o. outline_from o.running o.state o.found.now o.ahead.now };

    ghost invariant = { λ o. AreCounted o.state × (o.state.position.at + length o.ahead.now < 2 ^ 63) × Awaits o.later o.state.position.left o.ahead.now };
}

impl<'b> Outline<'b> {
    /// The outline of these bytes of a device that ran at this speed, if that is known, where these are its findings in the
    /// order of the bytes, as `found_in_order` gives them.
    #[tactic(auto, using(crate::proofs::OutlineStates::start_at))]
    pub fn of(bytes: &'b [u8], running: Option<SetSpeed>, found: &'b [Found]) -> Outline<'b>
        ensures { result ≡ outline running found.now bytes.now }
    {
        Outline {
            running,
            state: OutlineState::start(),
            found,
            ahead: bytes,
            later: LaterInterfaces::none(),
        }
    }
}

impl<'b> Iterator for Outline<'b> {
    ghost use Rattle.std.specs.Iterator.{YieldsFirstBy, item_count};
    ghost use Rattle.usb_remarks.specs.Outline.{described};

    type Item = Descriptor<'b>;

    ghost next_gives = { YieldsFirstBy described (λ o. o) };

    ghost remaining = { item_count (λ o. o) };

    fn next(&mut self) -> Option<Descriptor<'b>> {
        let Some((role, count)) = self.state.position.next_role(self.ahead) else {
            self.ahead = &[];
            return None;
        };
        self.later.pass(role, self.ahead, count);
        let (here, left) = self.state.step_over(
            role,
            self.running,
            self.found,
            self.ahead,
            count,
            &self.later,
        );
        self.found = left;
        (_, self.ahead) = self.ahead.split_at(count);
        Some(here)
    }
}

impl OutlineState {
    /// Passes the descriptor of this role and length with which the bytes begin. Answers it, and the findings that are left.
    fn step_over<'b>(
        &mut self,
        role: Role,
        running: Option<SetSpeed>,
        found: &'b [Found],
        ahead: &'b [u8],
        count: usize,
        later: &LaterInterfaces,
    ) -> (Descriptor<'b>, &'b [Found])
        requires counted { AreCounted self.old }
        requires room { self.old.position.at + length ahead.now < 2 ^ 63 }
        requires most { count ≤ length ahead.now }
        requires later { Awaits later.now ((position_at role ahead.now self.old.position).left - count) (drop count ahead.now) }
        ensures here { described result.0 ≡ describe running (record { state = entered role running ahead.now self.old; role = role; bytes = take count ahead.now; after = drop count ahead.now; found = found.now }) }
        ensures left { result.1.now ≡ drop (length (found_at (entered role running ahead.now self.old) found.now)) found.now }
        ensures state { self.new ≡ passed role (take count ahead.now) (entered role running ahead.now self.old) }
    {
        self.enter(role, running, ahead);
        let (bytes, behind) = ahead.split_at(count);
        let (here, left) = self.descriptor(role, running, found, bytes, behind, later);
        self.pass(role, bytes);
        (here, left)
    }

    /// The descriptor of this role and these bytes, with the bytes after it; and the findings that are left after it.
    #[tactic(auto, using(crate::proofs::Coming::rest_counts), unfolding(crate::specs::Outline::describe))]
    fn descriptor<'b>(
        &self,
        role: Role,
        running: Option<SetSpeed>,
        found: &'b [Found],
        bytes: &'b [u8],
        behind: &'b [u8],
        later: &LaterInterfaces,
    ) -> (Descriptor<'b>, &'b [Found])
        requires { Awaits later.now (self.now.position.left - length bytes.now) behind.now }
        ensures here { described result.0 ≡ describe running (record { state = self.now; role = role; bytes = bytes.now; after = behind.now; found = found.now }) }
        ensures left { result.1.now ≡ drop (length (found_at self.now found.now)) found.now }
    {
        let (findings, left) = self.split_found(found);
        let rest = self.position.rest_of_set(bytes, behind);
        let here = Descriptor {
            at: self.position.at,
            place: self.position.place(role),
            bytes,
            role,
            depth: self.position.depth(role),
            owner: self.position.owner(role, bytes),
            speed: self.speed(running, role, bytes),
            findings,
            associations: self.position.associations,
            association: self.bindings.of(byte_at(bytes, 2)),
            missing: self.interfaces.missing(self.position.codes(), bytes),
            follows: later.follows(self.position.interface_number(role, bytes), rest),
            interface: self.position.codes(),
            string: self.position.strings,
            rest,
            is_late: self.before.is_late(role, bytes),
            has_associations: has_associations(role, bytes, behind),
            one_speed: self.one_speed(role),
        };
        (here, left)
    }

    /// The findings of the descriptor, with which these begin, and those after them.
    #[tactic(auto, using(crate::proofs::Telling::here_within, crate::proofs::Telling::here_front))]
    fn split_found<'b>(&self, found: &'b [Found]) -> (&'b [Found], &'b [Found])
        ensures here { result.0.now ≡ found_at self.now found.now }
        ensures left { result.1.now ≡ drop (length (found_at self.now found.now)) found.now }
    {
        found.split_at(self.count_here(found))
    }

    /// How many of these findings, from the first on, are of the descriptor.
    #[tactic(auto, unfolding(crate::specs::Findings::found_at))]
    fn count_here(&self, found: &[Found]) -> usize
        ensures { result ≡ length (found_at self.now found.now) }
    {
        let mut count = 0;
        for one in found {
            if one.descriptor != self.descriptors {
                return count;
            }
            count += 1;
        }
        count
    }
}
