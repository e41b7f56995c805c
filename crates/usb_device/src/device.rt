//! A device: a description, and what changes in it.
//!
//! The calls are inlined down to the request of a SETUP, so that an answer, which is of several shapes, needs no room
//! in memory.
ghost use Rattle.std.specs.Prelude.{◌≡◌, None, Some, OnOk, OnErr, IfErr, MatchOption};
ghost use Rattle.std.specs.Borrow.{sem};

use crate::beside::{ROOM, Unanswered};
use crate::description::Description;
use crate::encoded::Encoded;
use crate::endpoint_zero::EndpointZero;
use crate::stage::{Reaction, Stage};
use crate::state::State;
use std::marker::Model;
use usb_fields::{Answer, Setup, Stage as Token, Toggle, Transaction};

/// A device on the bus: it answers each transaction as USB 2.0 says, by its description. It never
/// allocates: the bytes of an [`Answer::Data`] are lent from the description, or from a room in the device, which
/// keeps a status or its owner's answer to a request that the device itself rejects.
///
/// ```rust
/// // GET_DESCRIPTOR of the first 8 bytes of the device descriptor.
/// let mut device = Device::new(&description);
/// let setup = Stage::Setup([0x80, 6, 0, 1, 0, 0, 8, 0]);
/// assert_eq!(rt; device.serve(&Transaction { address: 0, stage: setup }, true), Answer::Ack);
/// let first = [0x12, 1, 0x10, 1, 0, 0, 0, 0x40];
/// let packet = device.serve(&Transaction { address: 0, stage: Stage::In }, true);
/// assert_eq!(rt; packet, Answer::Data(Toggle::Data1, &first));
/// device.acked();
/// ```
#[derive(Debug, Drop)]
pub struct Device<'d> {
    endpoint_zero: EndpointZero,
    room: [u8; ROOM],
    description: &'d Encoded,
}

impl<'d> Model for Device<'d> {
    ghost use Rattle.usb_device.specs.View.{View};

    ghost Value = { View };

    ghost use Rattle.usb_device.specs.inside.Reactions.{view_of, IsDevice};

    ghost view = { view_of };

    ghost invariant = { IsDevice };
}

impl<'d> Device<'d> {
    ghost use Rattle.usb_fields.specs.Packets.{reply_of, sent_of};
    ghost use Rattle.usb_device.specs.Requests.{answer};
    ghost use Rattle.usb_device.specs.Step.{new_device};
    ghost use Rattle.usb_device.specs.Stages.{stage_kind};
    ghost use Rattle.usb_device.specs.View.{acked_by, acknowledged, packet_due, reply_with, served_by};
    ghost use Rattle.usb_device.specs.Lending.{EndsAs};
    ghost use Rattle.usb_device.specs.Beside.{accepted, answered, carried_out_in, refused_in, rejected, room_size, unaccepted, unanswered, unfit_bytes, written_in, Gives};

    /// A device in the Default state, and in no transfer.
    pub fn new(d: &'d Description) -> Device<'d>
        ensures { result ≡ record { description = d.now; device = new_device } }
    {
        Device::of(d.encoded())
    }

    /// The same of a description without its tree.
    pub fn of(d: &'d Encoded) -> Device<'d>
        ensures { result ≡ record { description = d.now; device = new_device } }
    {
        // For the proof alone: packets of its image have bytes.
        let _image = d.image();
        Device {
            endpoint_zero: EndpointZero::new(),
            room: [0; ROOM],
            description: d,
        }
    }

    /// A bus reset: the device is as a new one (USB 2.0, 9.1.1.3).
    pub fn reset(&mut self)
        ensures { self.new ≡ record self.old { device = new_device } }
    {
        self.endpoint_zero.reset();
    }

    /// One transaction, answered as the table of requests and the stages say. Where `ready` is false the device has no
    /// time now: it answers NAK, but to a SETUP, which every device has to take (USB 2.0, 8.4.6.1, 8.4.6.3 and 8.4.6.4).
    #[inline(always)]
    pub fn serve<'a>(&'a mut self, t: &Transaction, ready: bool) -> Answer<'a>
        ensures answer { reply_of result ≡ (served_by self.entry.now.description.file self.entry.now.device (sent_of t.now) ready).reply }
        ensures* after { sem 𝓛 (EndsAs self.entry (record self.old { device = (served_by self.old.description.file self.old.device (sent_of t.now) ready).device })) }
    {
        match self.react(t, ready) {
            Reaction::Ack => Answer::Ack,
            Reaction::Nak => Answer::Nak,
            Reaction::Stall => Answer::Stall,
            Reaction::Packet(toggle) => Answer::Data(toggle, self.packet()),
            Reaction::Empty => Answer::Data(Toggle::Data1, &[]),
            Reaction::Silence => Answer::Silence,
        }
    }

    #[inline(always)]
    fn react(&mut self, t: &Transaction<'_>, ready: bool) -> Reaction
        ensures reply { reply_with (packet_due self.new.description.file.device.packet self.new.device.stage) result ≡ (served_by self.old.description.file self.old.device (sent_of t.now) ready).reply }
        ensures device { self.new ≡ record self.old { device = (served_by self.old.description.file self.old.device (sent_of t.now) ready).device } }
    {
        // The image is read only where the device has time.
        if !ready && !matches!(t.stage, Token::Setup(_)) {
            return self.endpoint_zero.put_off(t);
        }
        self.endpoint_zero
            .serve(self.description.image(), &mut self.room, t, ready)
    }

    #[inline(always)]
    fn packet(&self) -> &[u8]
        ensures { result.now ≡ packet_due self.now.description.file.device.packet self.now.device.stage }
    {
        self.endpoint_zero
            .packet(self.description.image(), &self.room)
    }

    /// Call it when the host has acknowledged the packet, never right after `serve`. If the last answer of
    /// [`Device::serve`] was a data packet, the next packet is then due, or the transfer is over. Anywhere else, and a
    /// second time, it changes nothing.
    #[inline(always)]
    pub fn acked(&mut self)
        ensures { self.new ≡ record self.old { device = acked_by self.old.description.file self.old.device } }
    {
        self.endpoint_zero.acked(self.description.image());
    }

    /// The request that is rejected, and of whose rejection the host doesn't know yet. A SETUP is acknowledged whatever it
    /// asks for, and the STALL comes with the IN or OUT after it: in between the device's owner may answer the
    /// request, where it [`is_open`](crate::is_open), by [`Device::answer_with`] or [`Device::accept`]. A SETUP whose
    /// ACK was lost comes again, and its request is then rejected anew.
    ///
    /// ```rust
    /// let answer = device.serve(&transaction, true);
    /// controller.reply(&answer);
    /// if let Some(q) = device.refused() {
    ///     match (q.request_type, q.request, q.value) {
    ///         // The report descriptor, and SET_IDLE.
    ///         (0x81, 6, 0x2200) => device.answer_with(&REPORT_DESCRIPTOR)?,
    ///         (0x21, 10, _) => device.accept()?,
    ///         _ => {}
    ///     }
    /// }
    /// ```
    #[inline]
    pub fn refused(&self) -> Option<Setup>
        ensures { result ≡ refused_in self.now.device.stage }
    {
        self.endpoint_zero.refused()
    }

    /// Answers the request that is rejected by these bytes, cut to wLength, as if the table had answered so. They are sent
    /// as a descriptor is, with a short or an empty packet last where they are fewer than wLength, and kept for that:
    /// nothing is borrowed.
    ///
    /// # Errors
    ///
    /// The first of [`Unanswered`] that applies. Nothing has changed then.
    pub fn answer_with(&mut self, bytes: &[u8]) -> Result<(), Unanswered>
        ensures device { self.new ≡ record self.old { device = answered room_size (Gives bytes.now) self.old.device } }
        ensures ok { OnOk result (unanswered (unfit_bytes room_size bytes.now) (refused_in self.old.device.stage) ≡ None) }
        ensures err { IfErr result (λ why. unanswered (unfit_bytes room_size bytes.now) (refused_in self.old.device.stage) ≡ Some why) }
        ensures same { OnErr result (self.new ≡ self.old) }
    {
        self.endpoint_zero.answer_with(&mut self.room, bytes)
    }

    /// Accepts the request that is rejected. One without data is answered by its status stage, as if the table had. Of a
    /// write, a request with data to the device, the data are taken: at most [`ROOM`](crate::ROOM) bytes. Once all have
    /// come, [`Device::written`] has them, and `accept` says that they are good: the status stage may come.
    ///
    /// # Errors
    ///
    /// The first of [`Unanswered`] that applies. Nothing has changed then.
    pub fn accept(&mut self) -> Result<(), Unanswered>
        ensures device { self.new ≡ record self.old { device = accepted room_size self.old.device } }
        ensures ok { OnOk result (unaccepted room_size self.old.device.stage ≡ None) }
        ensures err { IfErr result (λ why. unaccepted room_size self.old.device.stage ≡ Some why) }
        ensures same { OnErr result (self.new ≡ self.old) }
    {
        self.endpoint_zero.accept(ROOM)
    }

    /// The write whose data have all come, and that isn't answered yet, with its wLength bytes: from its last packet to
    /// [`Device::accept`] or [`Device::refuse`]. Without an answer the status stage is a STALL. In a transfer it turns
    /// `Some` once, however often a packet comes again, so an owner who answers at once acts once.
    ///
    /// ```rust
    /// let answer = device.serve(&transaction, true);
    /// controller.reply(&answer);
    /// match device.refused() {
    ///     // SET_REPORT of one byte: take it.
    ///     Some(q) if q.request_type == 0x21 && q.request == 9 && q.length == 1 => device.accept()?,
    ///     _ => {}
    /// }
    /// // Its byte has come, once.
    /// if let Some((_, &[lamps])) = device.written() {
    ///     if lamps < 8 {
    ///         keyboard.light(lamps);
    ///         device.accept()?;
    ///     } else {
    ///         device.refuse();
    ///     }
    /// }
    /// ```
    #[inline]
    pub fn written(&self) -> Option<(Setup, &[u8])>
        ensures { MatchOption result (written_in self.now.device.stage ≡ None) (λ w. written_in self.now.device.stage ≡ Some (w.0, w.1.now)) }
    {
        self.endpoint_zero.written(&self.room)
    }

    /// Refuses the request that the owner was to answer, or has answered or accepted: each IN and OUT is answered by STALL
    /// until the next SETUP. It changes nothing once the status stage was answered, nor where the device itself has
    /// answered the request.
    pub fn refuse(&mut self)
        ensures { self.new ≡ record self.old { device = rejected (answer self.old.description.file) self.old.device } }
    {
        self.endpoint_zero.refuse(self.description.image());
    }

    /// The request that was carried out, one of the table's own too: from the first empty packet of its status stage to
    /// the ACK of it. If acting twice matters, act when this becomes `Some`: the host may repeat an accepted request before
    /// that. The address of a SET_ADDRESS takes effect at that ACK.
    #[inline]
    pub fn carried_out(&self) -> Option<Setup>
        ensures { result ≡ carried_out_in self.now.device.stage }
    {
        self.endpoint_zero.carried_out()
    }

    /// The state.
    pub fn state(&self) -> State
        ensures { result ≡ self.now.device.state }
    {
        self.endpoint_zero.state
    }

    /// Its stage in a transfer.
    #[tactic(auto, using(crate::proofs::StageLemmas::kind_back))]
    pub fn stage(&self) -> Stage
        ensures { result ≡ stage_kind self.now.device.stage }
    {
        Stage::of(self.endpoint_zero.stage)
    }

    /// How many bytes of a data stage to the host were sent and acknowledged: 0 in any other stage.
    pub fn acknowledged(&self) -> usize
        ensures { result ≡ acknowledged self.now.description.file.device.packet self.now.device.stage }
    {
        self.endpoint_zero.acknowledged()
    }
}
