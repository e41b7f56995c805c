//! What the owner of a device has a say in: requests that the device itself rejects, and the data of writes.
ghost use Rattle.std.specs.Prelude.{◌≡◌, ◌+◌, ◌<◌, ◌≤◌, ◌++◌, ℕ, List, [], true, false, length, if◌then◌else◌, None, Some, OnOk, OnErr, IfErr, IfSome, MatchOption};
ghost use Rattle.usb_fields.specs.Packets.{flipped, AckReply, StallReply};
ghost use Rattle.usb_device.specs.Offers.{offer_in, packet_in};
ghost use Rattle.usb_device.specs.Requests.{answer_to};
ghost use Rattle.usb_device.specs.Step.{Receiving, Sending};
ghost use Rattle.usb_device.specs.Stages.{data_of, request_of, stage_at, toggle_at, written_bytes};

use super::EndpointZero;
use crate::beside::{Unanswered, is_open};
use crate::image::Image;
use crate::stage::{Decision, Source, Stage, toggle_at, toggle_number};
use usb_fields::{Direction, Setup, Toggle, prefix};

impl EndpointZero {
    ghost use Rattle.usb_device.specs.View.{device_of, IsOf};
    ghost use Rattle.usb_device.specs.Beside.{accepted, answered, brings_bytes, carried_out_in, is_left, refused_in, rejected, unaccepted, unanswered, unfit_bytes, written_in, Gives};
    ghost use Rattle.usb_device.specs.inside.Reactions.{has_status_out, received_by};

    /// The request that is rejected, and of whose rejection the host doesn't know yet: as
    /// [`Device::refused`](crate::Device::refused).
    #[inline]
    pub fn refused(&self) -> Option<Setup>
        ensures stage { (image : List ℕ) → (room : List ℕ) → result ≡ refused_in (device_of image room self.now).stage }
        ensures request { IfSome result (λ q. q ≡ request_of self.now) }
    {
        match Stage::of(self.stage) {
            Stage::Halted if !self.settled => Some(self.setup()),
            _ => None,
        }
    }

    /// Answers that request by these bytes, cut to wLength, as
    /// [`Device::answer_with`](crate::Device::answer_with): the room keeps them.
    ///
    /// # Errors
    ///
    /// The first of [`Unanswered`] that applies. Nothing has changed then.
    pub fn answer_with(&mut self, room: &mut [u8], bytes: &[u8]) -> Result<(), Unanswered>
        ensures device { (image : List ℕ) → device_of image room.new self.new ≡ answered (length room.old) (Gives bytes.now) (device_of image room.old self.old) }
        ensures ok { (image : List ℕ) → OnOk result (unanswered (unfit_bytes (length room.old) bytes.now) (refused_in (device_of image room.old self.old).stage) ≡ None) }
        ensures err { (image : List ℕ) → IfErr result (λ why. unanswered (unfit_bytes (length room.old) bytes.now) (refused_in (device_of image room.old self.old).stage) ≡ Some why) }
        ensures same { OnErr result ((self.new ≡ self.old) × (room.new ≡ room.old)) }
        ensures of { (image : List ℕ) → IsOf image room.old self.old → IsOf image room.new self.new }
    {
        let Some(q) = self.refused() else {
            return Err(Unanswered::Nothing);
        };
        if !is_open(q) {
            return Err(Unanswered::Closed);
        }
        let limit = usize::from(q.length);
        if limit == 0 || q.direction() == Direction::Out {
            return Err(Unanswered::Shape);
        }
        let count = bytes.len().min(limit);
        if count > room.len() {
            return Err(Unanswered::Room);
        }
        self.send_kept(room, &bytes[..count]);
        Ok(())
    }

    /// Accepts that request, or the data of a write: as [`Device::accept`](crate::Device::accept), with a room of this many
    /// bytes.
    ///
    /// # Errors
    ///
    /// The first of [`Unanswered`] that applies. Nothing has changed then.
    pub fn accept(&mut self, room_size: usize) -> Result<(), Unanswered>
        ensures device { (image : List ℕ) → (room : List ℕ) → device_of image room self.new ≡ accepted room_size (device_of image room self.old) }
        ensures ok { (image : List ℕ) → (room : List ℕ) → OnOk result (unaccepted room_size (device_of image room self.old).stage ≡ None) }
        ensures err { (image : List ℕ) → (room : List ℕ) → IfErr result (λ why. unaccepted room_size (device_of image room self.old).stage ≡ Some why) }
        ensures same { OnErr result (self.new ≡ self.old) }
        ensures of { (image : List ℕ) → (room : List ℕ) → length room ≡ room_size → IsOf image room self.old → IsOf image room self.new }
    {
        if Stage::of(self.stage) == Stage::Written {
            self.wait(Stage::StatusIn);
            return Ok(());
        }
        let Some(q) = self.refused() else {
            return Err(Unanswered::Nothing);
        };
        if !is_open(q) {
            return Err(Unanswered::Closed);
        }
        let limit = usize::from(q.length);
        if limit == 0 {
            self.wait(Stage::StatusIn);
            return Ok(());
        }
        if q.direction() == Direction::In {
            return Err(Unanswered::Shape);
        }
        if limit > room_size {
            return Err(Unanswered::Room);
        }
        self.begin_write();
        Ok(())
    }

    /// The write whose data have all come, and that isn't answered yet, with them: as
    /// [`Device::written`](crate::Device::written).
    #[inline]
    pub fn written<'a>(&self, room: &'a [u8]) -> Option<(Setup, &'a [u8])>
        ensures { (image : List ℕ) → MatchOption result (written_in (device_of image room.entry.now self.now).stage ≡ None) (λ w. written_in (device_of image room.entry.now self.now).stage ≡ Some (w.0, w.1.now)) }
    {
        match Stage::of(self.stage) {
            Stage::Written => Some((self.setup(), prefix(room, self.offset))),
            _ => None,
        }
    }

    /// Refuses the request that the owner was to answer, or has answered or accepted: as
    /// [`Device::refuse`](crate::Device::refuse).
    pub fn refuse(&mut self, image: Image<'_>)
        ensures device { (room : List ℕ) → device_of image.entry.bytes.now room self.new ≡ rejected (answer_to (offer_in image.entry.bytes.now)) (device_of image.entry.bytes.now room self.old) }
        ensures of { (room : List ℕ) → IsOf image.entry.bytes.now room self.old → IsOf image.entry.bytes.now room self.new }
    {
        let is_owners = match Stage::of(self.stage) {
            Stage::Halted | Stage::Receiving | Stage::Written => true,
            Stage::Sending | Stage::StatusOut => self.is_left(image),
            Stage::StatusIn => !self.settled && self.is_left(image),
            Stage::Idle | Stage::Over => false,
        };
        if is_owners {
            self.stage = Stage::Halted.number();
            self.settled = true;
        }
    }

    /// Whether the request is left to the owner: the device itself rejects it.
    #[inline(never)]
    fn is_left(&self, image: Image<'_>) -> bool
        ensures { result ≡ is_left (answer_to (offer_in image.entry.bytes.now) self.now.state (request_of self.now)) }
    {
        match self.decision(image) {
            Decision::Descriptor => self.found(image).is_none(),
            Decision::Refused => true,
            _ => false,
        }
    }

    /// The request that was carried out, in its status stage: as
    /// [`Device::carried_out`](crate::Device::carried_out).
    #[inline]
    pub fn carried_out(&self) -> Option<Setup>
        ensures { (image : List ℕ) → (room : List ℕ) → result ≡ carried_out_in (device_of image room self.now).stage }
    {
        match Stage::of(self.stage) {
            Stage::StatusIn if self.settled => Some(self.setup()),
            _ => None,
        }
    }

    /// OUT where no status stage to the device can be: in a write, or in a transfer that has no OUT. Whether it is
    /// acknowledged, and else answered by STALL.
    #[inline(never)]
    pub(super) fn takes(
        &mut self,
        image: Image<'_>,
        room: &mut [u8],
        toggle: Toggle,
        bytes: &[u8],
    ) -> bool
        requires other { has_status_out (stage_at self.old.stage) ≡ false }
        requires received { self.old.pending ≡ false }
        ensures reply { IsOf image.entry.bytes.now room.old self.old → (if result then AckReply else StallReply) ≡ (received_by image.entry.bytes.now room.old self.old toggle bytes.now).reply }
        ensures device { IsOf image.entry.bytes.now room.old self.old → device_of image.entry.bytes.now room.new self.new ≡ (received_by image.entry.bytes.now room.old self.old toggle bytes.now).device }
        ensures of { IsOf image.entry.bytes.now room.old self.old → IsOf image.entry.bytes.now room.new self.new }
    {
        match Stage::of(self.stage) {
            Stage::Receiving => self.gathers(image, room, toggle, bytes),
            // The last packet came again.
            Stage::Written if toggle != toggle_at(self.toggle) => true,
            Stage::StatusIn if self.setup().length != 0 => true,
            _ => {
                self.stall();
                false
            }
        }
    }

    /// A packet of a write, whether it is acknowledged: kept, or discarded where it came again. A STALL answers one that is
    /// no whole packet and not all that is left, and one for which the room that is lent has no place.
    #[tactic(auto, using(crate::proofs::WriteLemmas::writes))]
    fn gathers(&mut self, image: Image<'_>, room: &mut [u8], toggle: Toggle, bytes: &[u8]) -> bool
        requires at { stage_at self.old.stage ≡ Stage.Receiving }
        requires received { self.old.pending ≡ false }
        ensures reply { IsOf image.entry.bytes.now room.old self.old → (if result then AckReply else StallReply) ≡ (received_by image.entry.bytes.now room.old self.old toggle bytes.now).reply }
        ensures device { IsOf image.entry.bytes.now room.old self.old → device_of image.entry.bytes.now room.new self.new ≡ (received_by image.entry.bytes.now room.old self.old toggle bytes.now).device }
        ensures of { IsOf image.entry.bytes.now room.old self.old → IsOf image.entry.bytes.now room.new self.new }
    {
        if toggle != toggle_at(self.toggle) {
            return true;
        }
        let limit = usize::from(self.setup().length);
        let left = limit.saturating_sub(self.offset);
        if bytes.len() != image.packet().min(left) || limit > room.len() || self.offset > limit {
            self.stall();
            return false;
        }
        self.keep(room, bytes);
        if bytes.len() == left {
            self.stage = Stage::Written.number();
        }
        true
    }

    /// Begins the data stage of the request with these bytes, which the room keeps.
    #[tactic(auto, using(crate::proofs::StageLemmas::data_begins))]
    #[inline(always)]
    fn send_kept(&mut self, room: &mut [u8], bytes: &[u8])
        requires some { 0 < (request_of self.old).length }
        requires asked { length bytes.now ≤ (request_of self.old).length }
        requires kept { length bytes.now ≤ length room.old }
        ensures device { (image : List ℕ) → device_of image room.new self.new ≡ record (device_of image room.old self.old) { stage = Sending (request_of self.old) bytes.now 0 } }
        ensures of { (image : List ℕ) → 0 < packet_in image → IsOf image room.new self.new }
    {
        room[..bytes.len()].copy_from_slice(bytes);
        self.begin_data(Source::Room, bytes.len());
    }

    /// Begins the data stage of a write.
    #[tactic(auto, using(crate::proofs::WriteLemmas::write_begins))]
    #[inline(always)]
    fn begin_write(&mut self)
        requires { brings_bytes (request_of self.old) ≡ true }
        ensures device { (image : List ℕ) → (room : List ℕ) → device_of image room self.new ≡ record (device_of image room self.old) { stage = Receiving (request_of self.old) [] } }
        ensures of { (image : List ℕ) → (room : List ℕ) → 0 < packet_in image → (request_of self.old).length ≤ length room → IsOf image room self.new }
    {
        self.wait(Stage::Receiving);
        self.offset = 0;
        self.toggle = toggle_number(Toggle::Data1);
    }

    /// Keeps the bytes of a packet after those that have come.
    #[inline(always)]
    fn keep(&mut self, room: &mut [u8], bytes: &[u8])
        requires { self.old.offset + length bytes.now ≤ length room.old }
        ensures toggle { toggle_at self.new.toggle ≡ flipped (toggle_at self.old.toggle) }
        ensures rest { self.new ≡ record self.old { toggle = self.new.toggle; offset = self.old.offset + length bytes.now } }
        ensures bytes { written_bytes room.new (data_of self.new) ≡ written_bytes room.old (data_of self.old) ++ bytes.now }
        ensures room { length room.new ≡ length room.old }
    {
        let end = self.offset + bytes.len();
        room[self.offset..end].copy_from_slice(bytes);
        self.offset = end;
        self.toggle = toggle_number(toggle_at(self.toggle).flip());
    }
}
