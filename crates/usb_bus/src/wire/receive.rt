//! What is received of the packets of a transaction, and what both ends make of it.
ghost use Rattle.std.specs.Prelude.{◌≡◌, ◌==◌, ◌&&◌, ◌<◌, IfSome, Some, option_map};
ghost use Rattle.usb_fields.specs.Packets.{SetupToken, reply_of, sent_of, token_of};
ghost use Rattle.usb_wire.specs.Packets.{IsLegal, view_of};
ghost use Rattle.usb_device.specs.Replies.{HasRoom};
ghost use Rattle.usb_bus.specs.Wire.{Receives, ack_packet, data_kind, data_packet, received_reply, received_sent, received_token, is_ack, reply_packet, token_packet};
ghost use Rattle.usb_bus.specs.Damaged.{HasLegalData, IsTakenOf, arriving, bits_of, fitting, reply_number};

use crate::wire::change::{BitChange, change_bits};
use usb_fields::{Answer, Stage, Toggle, Transaction, known_bytes};
use usb_wire::{AddressFields, DataKind, Handshake, MOST_DATA, Packet, TokenKind};

/// How many bytes the longest packet has.
pub(crate) const LONGEST: usize = MOST_DATA + 3;

/// The changes of bits in one transaction.
#[derive(Clone, Copy)]
pub(crate) struct Damages<'c> {
    pub(crate) changes: &'c [BitChange],
    pub(crate) transaction: u128,
}

impl<'c> Damages<'c> {
    /// Whether this is a change of the packet with this number in the transaction.
    pub(crate) fn has(self, change: &BitChange, number: u8) -> bool
        ensures { result ≡ ((change.now.transaction == self.entry.transaction) && (change.now.packet == number)) }
    {
        u128::from(change.transaction) == self.transaction && change.packet == number
    }
}

/// What is received of the packet with this number in a transaction, where the bus may lose it: what its bytes are with the
/// changed bits, if they are a packet. They are written into this room.
pub(crate) fn receive<'b>(
    packet: Option<Packet<'_>>,
    is_lost: bool,
    damages: Damages<'_>,
    number: u8,
    room: &'b mut [u8; LONGEST],
) -> Option<Packet<'b>>
    requires { IfSome packet (λ p. IsLegal (view_of p)) }
    ensures { IsTakenOf is_lost (bits_of damages.entry.changes.now damages.entry.transaction number) (option_map view_of packet.entry) (option_map view_of result) }
{
    match packet {
        Some(packet) => carry(&packet, is_lost, damages, number, room),
        None => None,
    }
}

#[tactic(auto, using(crate::proofs::DamageLemmas::short, crate::proofs::DamageLemmas::written))]
fn carry<'b>(
    packet: &Packet<'_>,
    is_lost: bool,
    damages: Damages<'_>,
    number: u8,
    room: &'b mut [u8; LONGEST],
) -> Option<Packet<'b>>
    requires { IsLegal (view_of packet.now) }
    ensures { Receives (arriving is_lost (bits_of damages.entry.changes.now damages.entry.transaction number) (view_of packet.now)) (option_map view_of result) }
{
    if is_lost {
        return read(&[]);
    }
    let length = packet.write(room);
    let bytes = &mut room[..length];
    change_bits(damages.changes, damages.transaction, number, bytes);
    read(bytes)
}

/// The packet that these bytes are, if they are one.
fn read<'b>(bytes: &'b [u8]) -> Option<Packet<'b>>
    ensures { Receives bytes.now (option_map view_of result) }
{
    match Packet::parse(bytes) {
        Ok(packet) => Some(packet),
        Err(_) => None,
    }
}

/// The token of a transaction.
pub(crate) fn token_packet(t: &Transaction<'_>) -> Packet<'static>
    requires { t.now.address < 128 }
    ensures packet { view_of result ≡ token_packet (sent_of t.now) }
    ensures legal { IsLegal (view_of result) }
{
    let kind = match t.stage {
        Stage::Setup(_) => TokenKind::Setup,
        Stage::In => TokenKind::In,
        Stage::Out(_, _) => TokenKind::Out,
    };
    Packet::Token(
        kind,
        AddressFields {
            address: t.address,
            endpoint: 0,
        },
    )
}

/// The data packet after it, if there is one.
pub(crate) fn data_packet<'t>(t: &'t Transaction<'_>) -> Option<Packet<'t>>
    requires { HasLegalData (sent_of t.now).token }
    ensures packet { option_map view_of result ≡ data_packet (sent_of t.now).token }
    ensures legal { IfSome result (λ p. IsLegal (view_of p)) }
{
    match &t.stage {
        Stage::Setup(bytes) => {
            known_bytes(bytes);
            Some(Packet::Data(DataKind::Data0, bytes))
        }
        Stage::In => None,
        Stage::Out(toggle, bytes) => {
            known_bytes(bytes);
            Some(Packet::Data(data_kind(*toggle), bytes))
        }
    }
}

/// The packet of an answer.
pub(crate) fn reply_packet<'a>(answer: Answer<'a>) -> Option<Packet<'a>>
    requires { HasRoom (reply_of answer) }
    ensures packet { option_map view_of result ≡ reply_packet (reply_of answer.entry) }
    ensures legal { IfSome result (λ p. IsLegal (view_of p)) }
{
    match answer {
        Answer::Ack => Some(Packet::Handshake(Handshake::Ack)),
        Answer::Nak => Some(Packet::Handshake(Handshake::Nak)),
        Answer::Stall => Some(Packet::Handshake(Handshake::Stall)),
        Answer::Data(toggle, bytes) => {
            known_bytes(bytes);
            Some(Packet::Data(data_kind(toggle), bytes))
        }
        Answer::Silence => None,
    }
}

/// A host's ACK of an answer, where it comes next.
pub(crate) fn ack_packet(came: Answer<'_>) -> Option<Packet<'static>>
    ensures packet { option_map view_of result ≡ ack_packet (reply_of came.entry) }
    ensures legal { IfSome result (λ p. IsLegal (view_of p)) }
{
    match came {
        Answer::Data(_, _) => Some(Packet::Handshake(Handshake::Ack)),
        _ => None,
    }
}

fn data_kind(toggle: Toggle) -> DataKind
    ensures { result ≡ data_kind toggle }
{
    match toggle {
        Toggle::Data0 => DataKind::Data0,
        Toggle::Data1 => DataKind::Data1,
    }
}

/// What a device receives of a token to its endpoint zero, and of what came after it.
pub(crate) fn received<'b>(
    token: Option<Packet<'_>>,
    after: Option<Packet<'b>>,
) -> Option<Transaction<'b>>
    ensures { option_map sent_of result ≡ fitting (received_sent (option_map view_of token.entry) (option_map view_of after.entry)) }
{
    match token {
        Some(Packet::Token(kind, to)) if to.endpoint == 0 => received_after(
            kind, to.address, after,
        ),
        _ => None,
    }
}

fn received_after<'b>(
    kind: TokenKind,
    address: u8,
    after: Option<Packet<'b>>,
) -> Option<Transaction<'b>>
    ensures { option_map sent_of result ≡ fitting (received_token kind address (option_map view_of after.entry)) }
{
    let stage = match (kind, after) {
        (TokenKind::In, _) => Stage::In,
        (TokenKind::Out, Some(Packet::Data(DataKind::Data0, bytes))) => {
            Stage::Out(Toggle::Data0, bytes)
        }
        (TokenKind::Out, Some(Packet::Data(DataKind::Data1, bytes))) => {
            Stage::Out(Toggle::Data1, bytes)
        }
        (TokenKind::Setup, Some(Packet::Data(DataKind::Data0, bytes))) => {
            return received_setup(address, bytes);
        }
        _ => return None,
    };
    Some(Transaction { address, stage })
}

/// A SETUP with these bytes, which are 8.
fn received_setup<'b>(address: u8, bytes: &'b [u8]) -> Option<Transaction<'b>>
    ensures { option_map sent_of result ≡ fitting (Some (record { address = address; token = SetupToken bytes.now })) }
{
    match <&[u8; 8]>::try_from(bytes) {
        Ok(setup) => Some(Transaction {
            address,
            stage: Stage::Setup(*setup),
        }),
        Err(_) => None,
    }
}

/// What a host receives of an answer: what is none is silence.
pub(crate) fn received_answer<'b>(reply: Option<Packet<'b>>) -> Answer<'b>
    ensures { reply_of result ≡ received_reply (option_map view_of reply.entry) }
{
    match reply {
        Some(Packet::Handshake(Handshake::Ack)) => Answer::Ack,
        Some(Packet::Handshake(Handshake::Nak)) => Answer::Nak,
        Some(Packet::Handshake(Handshake::Stall)) => Answer::Stall,
        Some(Packet::Data(DataKind::Data0, bytes)) => Answer::Data(Toggle::Data0, bytes),
        Some(Packet::Data(DataKind::Data1, bytes)) => Answer::Data(Toggle::Data1, bytes),
        _ => Answer::Silence,
    }
}

/// Whether a device receives a host's ACK.
pub(crate) fn is_ack(ack: Option<Packet<'_>>) -> bool
    ensures { result ≡ is_ack (option_map view_of ack.entry) }
{
    matches!(ack, Some(Packet::Handshake(Handshake::Ack)))
}

/// The number of the packet that is the answer.
pub(crate) fn reply_number(stage: Stage<'_>) -> u8
    ensures number { result ≡ reply_number (token_of stage.entry) }
    ensures few { result < 4 }
{
    match stage {
        Stage::In => 2,
        Stage::Setup(_) | Stage::Out(_, _) => 3,
    }
}
