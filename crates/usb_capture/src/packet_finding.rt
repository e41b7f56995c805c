//! What chapter 8 of USB 2.0 forbids, in packets and in transactions with endpoint zero.
ghost use Rattle.std.specs.Prelude.{◌≡◌};
ghost use Rattle.usb_capture.specs.PacketFindings.{damage_in, lacks_request, refuses_setup};

use crate::bus_packet::PacketFault;
use crate::bus_transfer::request_of;
use crate::recorded_packet::RecordedPacket;
use crate::transaction::Transaction;
use usb_wire::{Damage, Handshake, TokenKind};

/// What is wrong in a packet or in a transaction with endpoint zero.
#[derive(Clone, Copy, Debug, PartialEq, Eq, Hash)]
pub enum PacketFinding {
    /// A packet is damaged: the check bits of its PID (8.3.1), its CRC (8.3.5) or its length (8.4).
    Damaged(Damage),
    /// No handshake came after a token and its data (8.5).
    NoHandshake,
    /// No DATA0 with eight bytes came after SETUP (8.5.3).
    NoRequest,
    /// The handshake of SETUP isn't ACK (8.4.6.4).
    SetupRefused,
    /// The toggle of a data packet is neither that of the next one nor that of one that may come again (8.5.3, 8.6).
    Toggle,
    /// A data packet has more bytes than the device has said in bMaxPacketSize0 (5.5.3, 9.6.1).
    Long,
    /// The status stage comes after fewer bytes than were asked for and a whole packet, where a shorter or an empty one has to come
    /// first (5.5.3, 8.5.3.2).
    NoShortPacket,
    /// The status stage goes the way of the data stage (8.5.3): one more packet of it comes after its end.
    StatusDirection,
}

impl PacketFinding {
    /// Those that a transaction can have, in the order in which they are reported.
    pub const OF_TRANSACTIONS: [PacketFinding; 7] = [
        PacketFinding::NoHandshake,
        PacketFinding::NoRequest,
        PacketFinding::SetupRefused,
        PacketFinding::Toggle,
        PacketFinding::Long,
        PacketFinding::NoShortPacket,
        PacketFinding::StatusDirection,
    ];

    /// What is wrong in a packet by itself.
    pub fn of_packet(recorded: &RecordedPacket<'_>) -> Option<PacketFinding>
        ensures { result ≡ damage_in recorded.now.packet }
    {
        match recorded.packet {
            Err(PacketFault::Damaged(damage)) => Some(PacketFinding::Damaged(damage)),
            Ok(_) | Err(PacketFault::Link | PacketFault::Cut) => None,
        }
    }
}

/// Whether it is a SETUP that makes no request.
pub(crate) fn lacks_request(transaction: &Transaction) -> bool
    ensures { result ≡ lacks_request transaction.now }
{
    match transaction.token {
        TokenKind::Setup => request_of(transaction).is_none(),
        TokenKind::Out | TokenKind::In | TokenKind::Ping => false,
    }
}

/// Whether it is a SETUP with another handshake than ACK.
pub(crate) fn refuses_setup(transaction: &Transaction) -> bool
    ensures { result ≡ refuses_setup transaction.now }
{
    match (transaction.token, transaction.handshake) {
        (TokenKind::Setup, Some(Handshake::Nak | Handshake::Stall | Handshake::Nyet)) => true,
        _ => false,
    }
}
