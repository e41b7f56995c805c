//! A device under test in a transfer whose outcome is open to it.
ghost use Rattle.std.specs.Prelude.{◌≡◌, true};
ghost use Rattle.usb_fields.specs.Packets.{flipped, reply_of, token_of};
ghost use Rattle.usb_device.specs.Beside.{asks_for_bytes};
ghost use Rattle.usb_device.specs.Conformance.{differs_from_due, open_difference};
ghost use Rattle.usb_device.specs.OpenTransfers.{after_ack, after_answer, is_answered, is_stalled, is_status, may_answer, may_have, may_send, new_transfer, with_packet};

use crate::conformance::Difference;
use usb_fields::{Answer, Direction, Setup, Stage, Toggle};

/// Where a device under test is in such a transfer (USB 2.0, 8.5.3).
#[derive(Clone, Copy, Debug, PartialEq, Eq, Hash)]
pub enum OpenStage {
    /// Its next packet comes, or one of the host's.
    Due,
    /// A packet was sent, and the host hasn't acknowledged it.
    Sent,
    /// The same of the last packet: a short one, or the one with the last of wLength bytes.
    Last,
    /// The host has acknowledged the last packet.
    Over,
    /// The status stage was answered.
    Answered,
    /// STALL was the answer.
    Stalled,
}

/// What a device under test has answered in a transfer whose outcome is open to it. [`judge`](crate::judge) keeps it, and begins it
/// anew at each SETUP that the device took.
///
/// ```rust
/// let mut transfer = OpenTransfer::new();
/// let difference = judge(&mut transfer, is_free, setup, 64, Stage::In, came, has);
/// transfer.acked();
/// ```
#[derive(Clone, Copy, Debug, PartialEq, Eq, Hash)]
pub struct OpenTransfer {
    /// The toggle of the packet that was acknowledged last: at first that of the SETUP, DATA0.
    pub last: Toggle,
    /// How many bytes of the data stage the host has acknowledged.
    pub acknowledged: u16,
    /// The same, and those that were sent after them.
    pub sent: u16,
    /// The stage.
    pub stage: OpenStage,
}

impl OpenTransfer {
    /// The transfer after a SETUP.
    pub fn new() -> OpenTransfer
        ensures { result ≡ new_transfer }
    {
        OpenTransfer {
            last: Toggle::Data0,
            acknowledged: 0,
            sent: 0,
            stage: OpenStage::Due,
        }
    }

    /// The host's ACK of the data packet that came right before has reached the device.
    pub fn acked(&mut self)
        ensures { self.new ≡ after_ack self.old }
    {
        match self.stage {
            OpenStage::Sent => self.acknowledge(OpenStage::Due),
            OpenStage::Last => self.acknowledge(OpenStage::Over),
            OpenStage::Answered => self.stage = OpenStage::Over,
            OpenStage::Due | OpenStage::Over | OpenStage::Stalled => {}
        }
    }

    fn acknowledge(&mut self, next: OpenStage)
        ensures { self.new ≡ record { last = flipped self.old.last; acknowledged = self.old.sent; sent = self.old.sent; stage = next } }
    {
        self.last = self.last.flip();
        self.acknowledged = self.sent;
        self.stage = next;
    }

    /// Whether the device may answer so.
    pub(crate) fn may_answer(
        &self,
        q: Setup,
        packet: usize,
        stage: Stage<'_>,
        came: Answer<'_>,
    ) -> bool
        ensures { result ≡ may_answer q packet self.now (token_of stage.entry) (reply_of came.entry) }
    {
        match (stage, came) {
            (_, Answer::Nak) => true,
            (_, Answer::Stall) => !(self.stage == OpenStage::Answered && is_status(q, stage)),
            (Stage::In, Answer::Data(toggle, bytes)) => self.may_send(q, packet, toggle, bytes),
            (Stage::Out(..), Answer::Ack) => q.length != 0 && self.stage != OpenStage::Stalled,
            _ => false,
        }
    }

    fn may_send(&self, q: Setup, packet: usize, toggle: Toggle, bytes: &[u8]) -> bool
        ensures { result ≡ may_send (asks_for_bytes q) packet q.length self.now toggle bytes.now }
    {
        if asks_for_bytes(q) {
            toggle == self.last.flip() && self.may_have(packet, q.length, bytes.len())
        } else {
            toggle == Toggle::Data1 && bytes.is_empty() && self.stage != OpenStage::Stalled
        }
    }

    /// Whether the next packet may have this many bytes.
    fn may_have(&self, packet: usize, limit: u16, count: usize) -> bool
        ensures { result ≡ may_have packet limit self.now self.now.stage count }
    {
        match self.stage {
            OpenStage::Due => {
                count <= packet.min(usize::from(limit.saturating_sub(self.acknowledged)))
            }
            OpenStage::Sent | OpenStage::Last => {
                self.acknowledged <= self.sent
                    && count == usize::from(self.sent - self.acknowledged)
            }
            OpenStage::Over | OpenStage::Answered | OpenStage::Stalled => false,
        }
    }

    /// Why the device may not answer so.
    pub(crate) fn difference(&self, q: Setup, stage: Stage<'_>, came: Answer<'_>) -> Difference
        ensures { result ≡ open_difference q self.now (token_of stage.entry) (reply_of came.entry) }
    {
        match (stage, came) {
            (_, Answer::Silence) => Difference::Address,
            (_, Answer::Stall) => Difference::Stall,
            _ if self.stage == OpenStage::Stalled => Difference::Refusal,
            (Stage::In, Answer::Data(toggle, bytes)) => self.differs_from_due(q, toggle, bytes),
            _ => Difference::Kind,
        }
    }

    fn differs_from_due(&self, q: Setup, toggle: Toggle, bytes: &[u8]) -> Difference
        ensures { result ≡ differs_from_due (asks_for_bytes q) self.now toggle bytes.now }
    {
        if asks_for_bytes(q) {
            if toggle == self.last.flip() {
                Difference::Bytes
            } else {
                Difference::Toggle
            }
        } else if bytes.is_empty() {
            Difference::Toggle
        } else {
            Difference::Empty
        }
    }

    /// The device has answered so, which it may.
    #[tactic(auto, using(crate::proofs::OpenLemmas::may_have_so))]
    pub(crate) fn answered(&mut self, q: Setup, packet: usize, stage: Stage<'_>, came: Answer<'_>)
        requires { may_answer q packet self.old (token_of stage) (reply_of came) ≡ true }
        ensures { self.new ≡ after_answer q packet self.old (token_of stage.entry) (reply_of came.entry) }
    {
        match came {
            Answer::Stall => self.stage = OpenStage::Stalled,
            Answer::Data(_, bytes) if asks_for_bytes(q) => self.send(packet, q.length, bytes.len()),
            Answer::Data(..) => self.stage = OpenStage::Answered,
            Answer::Ack if is_status(q, stage) => self.stage = OpenStage::Answered,
            Answer::Ack | Answer::Nak | Answer::Silence => {}
        }
    }

    fn send(&mut self, packet: usize, limit: u16, count: usize)
        requires { may_have packet limit self.old self.old.stage count ≡ true }
        ensures { self.new ≡ with_packet packet limit self.old count }
    {
        // For the proof alone: both counts fit.
        let _sent = self.sent;
        self.sent = self.acknowledged + count as u16;
        self.stage = if count < packet || self.sent == limit {
            OpenStage::Last
        } else {
            OpenStage::Sent
        };
    }
}

fn asks_for_bytes(q: Setup) -> bool
    ensures { result ≡ asks_for_bytes q }
{
    q.length != 0 && q.direction() == Direction::In
}

fn is_status(q: Setup, stage: Stage<'_>) -> bool
    ensures { result ≡ is_status q (token_of stage.entry) }
{
    match stage {
        Stage::In => !asks_for_bytes(q),
        Stage::Out(Toggle::Data1, []) => asks_for_bytes(q),
        _ => false,
    }
}
