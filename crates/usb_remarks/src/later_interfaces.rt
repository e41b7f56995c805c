//! Which interfaces are still to come in a set.
ghost use Rattle.std.specs.Prelude.{◌≡◌, ◌≤◌, ◌<◌, ◌+◌, ◌-◌, ◌^◌, [], ℕ, Some, drop, IfSome, if◌then◌else◌, length, slice_index};
ghost use Rattle.std.specs.Option.{option_copied};
ghost use Rattle.usb_walk.specs.declared.position.Position.{Position};
ghost use Rattle.usb_walk.specs.Positions.{position_at};
ghost use Rattle.usb_walk.specs.Roles.{next_role};
ghost use Rattle.usb_remarks.specs.InterfaceNumbers.{follows, is_numbered};
ghost use Rattle.usb_walk.specs.Trees.{descriptors};
ghost use Rattle.usb_remarks.specs.inside.Coming.{Awaits, Counts};

use std::marker::Model;
use usb_fields::{after, byte_at, prefix, word_at};
use usb_walk::{Role, first_descriptor, is_interface};

/// How many descriptors of interfaces are still to come in a set, for each number, so that no remark has to look through it.
#[derive(Drop)]
pub(crate) struct LaterInterfaces {
    counts: [u16; 256],
}

impl Model for LaterInterfaces {
    ghost use Rattle.std.specs.Prelude.{List, ℕ};

    ghost Value = { List ℕ };

    ghost view = { λ later. later.counts };
}

impl LaterInterfaces {
    /// Outside of sets.
    pub(crate) fn none() -> LaterInterfaces
        ensures { Counts result [] }
    {
        LaterInterfaces { counts: [0; 256] }
    }

    /// Moves past a descriptor of this role and length, with which the bytes begin. The first one of a set begins it.
    #[tactic(auto, using(crate::proofs::Coming::awaits_begun, crate::proofs::Coming::awaits_next))]
    pub(crate) fn pass(&mut self, role: Role, ahead: &[u8], count: usize)
        ensures { (p : Position) → next_role p ahead.now ≡ Some (role, count) → Awaits self.old p.left ahead.now → Awaits self.new ((position_at role ahead.now p).left - count) (drop count ahead.now) }
    {
        match role {
            Role::Configuration => {
                let set = prefix(ahead, usize::from(word_at(ahead, 2)));
                self.begin(after(set, count));
            }
            Role::Interface => self.leave(prefix(ahead, count)),
            _ => {}
        }
    }

    /// Counts those of a set.
    fn begin(&mut self, set: &[u8])
        requires { length set.now < 2 ^ 16 }
        ensures { Counts self.new (descriptors set.now) }
    {
        self.counts = [0; 256];
        let mut rest = set;
        while let Some((d, behind)) = first_descriptor(rest) {
            self.add(d);
            rest = behind;
        }
    }

    /// Counts a descriptor, where it is one of an interface.
    fn add(&mut self, d: &[u8])
        requires cells { length self.old ≡ 256 }
        requires room { (n : ℕ) → n < 256 → slice_index self.old n + 1 < 2 ^ 16 }
        ensures cells { length self.new ≡ 256 }
        ensures counts { (n : ℕ) → n < 256 → slice_index self.new n ≡ slice_index self.old n + (if is_numbered n d.now then 1 else 0) }
    {
        if is_interface(d) {
            self.counts[usize::from(byte_at(d, 2))] += 1;
        }
    }

    /// Leaves a descriptor behind, which is counted no more.
    fn leave(&mut self, d: &[u8])
        ensures cells { length self.old ≡ 256 → length self.new ≡ 256 }
        ensures counts { length self.old ≡ 256 → (n : ℕ) → n < 256 → slice_index self.new n ≡ slice_index self.old n - (if is_numbered n d.now then 1 else 0) }
    {
        if is_interface(d) {
            let number = usize::from(byte_at(d, 2));
            self.counts[number] = self.counts[number].saturating_sub(1);
        }
    }

    /// Whether an interface of this number is in the rest of a set, where all of that is there.
    #[tactic(auto, using(crate::proofs::Coming::comes))]
    pub(crate) fn follows(&self, number: u8, rest: Option<&[u8]>) -> bool
        requires { IfSome rest (λ rest. Counts self.now (descriptors rest.now)) }
        ensures { result ≡ follows number (option_copied rest.entry) }
    {
        match rest {
            None => false,
            Some(_) => self.counts[usize::from(number)] > 0,
        }
    }
}
