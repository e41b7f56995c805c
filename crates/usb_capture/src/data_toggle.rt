//! Which data packets are of a control transfer, by their toggle (USB 2.0, 8.5.3 and 8.6).
ghost use Rattle.std.specs.Prelude.{◌≡◌};
ghost use Rattle.usb_capture.specs.BusTransfers.{first_toggle, has_toggle, is_accepted, is_acknowledged, is_stalled, is_wrong_by, is_wrong_in, part_by, part_in, toggle_after};

use crate::ending::Ending;
use crate::transaction::{DataPacket, Transaction};
use usb_fields::{Direction, Toggle};
use usb_wire::{DataKind, Handshake, TokenKind};

/// What a transaction is in the control transfer of its device, by its token, its toggle and its handshake (USB 2.0, 8.5.3).
///
/// Laws of what [`BusTransfers`](crate::BusTransfers) makes of transactions speak of it.
#[derive(Clone, Copy, Debug)]
pub enum Part {
    /// It brought the next packet of the data stage.
    Data,
    /// It ended the transfer so.
    Status(Ending),
    /// It changed nothing: an answer that put it off or didn't come, or a packet that came again.
    Neither,
}

/// Which packet of a data stage comes next (USB 2.0, 8.6).
#[derive(Clone, Copy, Debug)]
pub struct DataToggle {
    /// Its toggle.
    pub next: Toggle,
    /// Whether the packet before it went without an ACK, so that it may come again.
    pub may_repeat: bool,
    /// How many bytes the last packet of the data stage had.
    pub last: usize,
}

impl DataToggle {
    /// What comes after a SETUP: DATA1 (8.5.3).
    pub(crate) fn first() -> DataToggle
        ensures { result ≡ first_toggle }
    {
        DataToggle {
            next: Toggle::Data1,
            may_repeat: false,
            last: 0,
        }
    }

    /// What a transaction is in a transfer whose data go this way.
    pub(crate) fn part_in(self, direction: Direction, transaction: &Transaction) -> Part
        ensures { result ≡ part_in direction self transaction.now }
    {
        if is_stalled(transaction.handshake) {
            return Part::Status(Ending::Stall);
        }
        match &transaction.data {
            Some(packet) => self.part_by(
                direction,
                transaction.token,
                packet.kind,
                is_accepted(transaction.handshake),
            ),
            None => Part::Neither,
        }
    }

    /// The same of a transaction with a data packet.
    fn part_by(
        self,
        direction: Direction,
        token: TokenKind,
        kind: DataKind,
        is_accepted: bool,
    ) -> Part
        ensures { result ≡ part_by direction token (has_toggle kind self.next) (has_toggle kind Toggle.Data1) is_accepted }
    {
        let (is_it, part) = match (direction, token) {
            (Direction::In, TokenKind::In) => (has_toggle(kind, self.next), Part::Data),
            (Direction::Out, TokenKind::Out) => {
                (has_toggle(kind, self.next) && is_accepted, Part::Data)
            }
            (Direction::In, TokenKind::Out) => (
                has_toggle(kind, Toggle::Data1) && is_accepted,
                Part::Status(Ending::Done),
            ),
            (Direction::Out, TokenKind::In) => {
                (has_toggle(kind, Toggle::Data1), Part::Status(Ending::Done))
            }
            (_, TokenKind::Setup | TokenKind::Ping) => (false, Part::Neither),
        };
        if is_it { part } else { Part::Neither }
    }

    /// Whether a transaction in such a transfer has a data packet with the wrong toggle: it is neither the next packet nor one
    /// that may come again.
    pub(crate) fn is_wrong_in(self, direction: Direction, transaction: &Transaction) -> bool
        ensures { result ≡ is_wrong_in direction self transaction.now }
    {
        match &transaction.data {
            Some(packet) => self.is_wrong_by(direction, transaction.token, packet.kind),
            None => false,
        }
    }

    /// The same of a transaction with a data packet.
    fn is_wrong_by(self, direction: Direction, token: TokenKind, kind: DataKind) -> bool
        ensures { result ≡ is_wrong_by direction token (has_toggle kind self.next) (has_toggle kind Toggle.Data1) self.may_repeat }
    {
        match (direction, token) {
            (Direction::In, TokenKind::In) => !has_toggle(kind, self.next) && !self.may_repeat,
            (Direction::Out, TokenKind::Out) => !has_toggle(kind, self.next),
            (Direction::In, TokenKind::Out) | (Direction::Out, TokenKind::In) => {
                !has_toggle(kind, Toggle::Data1)
            }
            (_, TokenKind::Setup | TokenKind::Ping) => false,
        }
    }

    /// What comes next after a transaction that is this part of its transfer.
    pub(crate) fn after(self, part: Part, transaction: &Transaction) -> DataToggle
        ensures { result ≡ toggle_after part transaction.now self }
    {
        DataToggle {
            next: match part {
                Part::Data => self.next.flip(),
                Part::Status(_) | Part::Neither => self.next,
            },
            may_repeat: match &transaction.data {
                Some(_) => !is_acknowledged(transaction.handshake),
                None => self.may_repeat,
            },
            last: match (part, &transaction.data) {
                (Part::Data, Some(packet)) => packet.bytes.len(),
                _ => self.last,
            },
        }
    }
}

/// Whether a data packet has this toggle.
fn has_toggle(kind: DataKind, toggle: Toggle) -> bool
    ensures { result ≡ has_toggle kind toggle }
{
    match (kind, toggle) {
        (DataKind::Data0, Toggle::Data0) | (DataKind::Data1, Toggle::Data1) => true,
        _ => false,
    }
}

/// Whether the data packet was acknowledged.
fn is_acknowledged(handshake: Option<Handshake>) -> bool
    ensures { result ≡ is_acknowledged handshake }
{
    match handshake {
        Some(Handshake::Ack) => true,
        Some(Handshake::Nak | Handshake::Stall | Handshake::Nyet) | None => false,
    }
}

/// Whether a device took the data: with ACK, or with NYET where it has no room for more (8.5.1).
fn is_accepted(handshake: Option<Handshake>) -> bool
    ensures { result ≡ is_accepted handshake }
{
    match handshake {
        Some(Handshake::Ack | Handshake::Nyet) => true,
        Some(Handshake::Nak | Handshake::Stall) | None => false,
    }
}

/// Whether the answer is STALL.
fn is_stalled(handshake: Option<Handshake>) -> bool
    ensures { result ≡ is_stalled handshake }
{
    match handshake {
        Some(Handshake::Stall) => true,
        Some(Handshake::Ack | Handshake::Nak | Handshake::Nyet) | None => false,
    }
}
