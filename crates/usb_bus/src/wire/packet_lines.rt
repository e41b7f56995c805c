//! The lines of a log that show packets.
ghost use Rattle.std.specs.Prelude.{◌≡◌, ◌≤◌, ◌++◌, ◌↔◌, IsTrue, IfSome, OnOk, Some, length, option_map};
ghost use Rattle.usb_fields.specs.Packets.{reply_of, sent_of, token_of};
ghost use Rattle.usb_host.specs.Transfer.{sent_by};
ghost use Rattle.usb_text.specs.Lines.{column};
ghost use Rattle.usb_wire.specs.Damages.{damage_of};
ghost use Rattle.usb_wire.specs.Packets.{IsLegal, packet_bytes, view_of};
ghost use Rattle.usb_device.specs.Replies.{HasRoom};
ghost use Rattle.usb_bus.specs.Damaged.{HasLegalData, IsLegalSent, bits_of, with_changed};
ghost use Rattle.usb_bus.specs.PacketLines.{bits_words, changed_lines, damage_name, has_bits, head_words, lines_of, listed, packet_line, packet_lines, packet_name, packet_part, packets_below, pid_name, refused_words, transaction_packets, whole_line};
ghost use Rattle.usb_bus.specs.inside.Seeing.{AreLegal};

use crate::data::put_below;
use crate::packets::put_data_column;
use crate::step_lines::{Turn, put_numbered};
use crate::wire::change::change_bits;
use crate::wire::exchange::{is_lost_ack, is_lost_down, is_lost_up};
use crate::wire::receive::{
    Damages, LONGEST, ack_packet, data_packet, reply_number, reply_packet, token_packet,
};
use std::alloc::AllocError;
use usb_fields::{Answer, Stage, Transaction};
use usb_text::Text;
use usb_wire::laws::written_packets_are_read;
use usb_wire::{Damage, DataKind, Handshake, MOST_DATA, Packet, Pid, TokenKind};

/// A transaction that was made: what the host sends, what the device has answered, and what came of that.
#[derive(Clone, Copy)]
pub(crate) struct Made<'a> {
    pub(crate) sent: Option<Transaction<'static>>,
    pub(crate) answer: Answer<'a>,
    pub(crate) came: Answer<'a>,
}

/// The number of a packet in its transaction, and whether the bus loses it.
#[derive(Clone, Copy)]
struct Place {
    number: u8,
    is_lost: bool,
}

/// Puts the lines of a transaction's packets, of all or of those that are changed, where the packets are legal.
pub(crate) fn put_packets_below(
    text: &mut Text,
    all: bool,
    damages: Damages<'_>,
    turn: Turn,
    made: Made<'_>,
) -> Result<(), AllocError>
    ensures { OnOk result (AreLegal (sent_by made.entry.sent) (reply_of made.entry.answer) → text.new ≡ text.old ++ packets_below all turn.fate (bits_of damages.entry.changes.now damages.entry.transaction) (sent_by made.entry.sent) (reply_of made.entry.answer) (reply_of made.entry.came)) }
{
    match made.sent {
        Some(sent) => put_transaction(text, all, damages, turn, &sent, made.answer, made.came),
        None => Ok(()),
    }
}

fn put_transaction(
    text: &mut Text,
    all: bool,
    damages: Damages<'_>,
    turn: Turn,
    sent: &Transaction<'static>,
    answer: Answer<'_>,
    came: Answer<'_>,
) -> Result<(), AllocError>
    ensures { OnOk result (IsLegalSent (sent_of sent.now) × HasRoom (reply_of answer.entry) → text.new ≡ text.old ++ transaction_packets all turn.fate (bits_of damages.entry.changes.now damages.entry.transaction) (sent_of sent.now) (reply_of answer.entry) (reply_of came.entry)) }
{
    if are_legal(sent, answer) {
        put_legal(text, all, damages, turn, sent, answer, came)
    } else {
        Ok(())
    }
}

/// Whether the packets that are sent and answered are legal.
fn are_legal(sent: &Transaction<'static>, answer: Answer<'_>) -> bool
    ensures { IsTrue result ↔ (IsLegalSent (sent_of sent.now) × HasRoom (reply_of answer.entry)) }
{
    sent.address < 128 && are_data_legal(sent.stage) && has_room(answer)
}

fn are_data_legal(stage: Stage<'static>) -> bool
    ensures { IsTrue result ↔ HasLegalData (token_of stage.entry) }
{
    match stage {
        Stage::Out(_, bytes) => bytes.len() <= MOST_DATA,
        Stage::Setup(bytes) => bytes.len() == 8,
        Stage::In => true,
    }
}

/// Whether a device's packets have room for an answer.
fn has_room(answer: Answer<'_>) -> bool
    ensures { IsTrue result ↔ HasRoom (reply_of answer.entry) }
{
    match answer {
        Answer::Data(_, bytes) => bytes.len() <= 64,
        _ => true,
    }
}

fn put_legal(
    text: &mut Text,
    all: bool,
    damages: Damages<'_>,
    turn: Turn,
    sent: &Transaction<'static>,
    answer: Answer<'_>,
    came: Answer<'_>,
) -> Result<(), AllocError>
    requires sent { IsLegalSent (sent_of sent.now) }
    requires room { HasRoom (reply_of answer) }
    ensures { OnOk result (text.new ≡ text.old ++ transaction_packets all turn.fate (bits_of damages.entry.changes.now damages.entry.transaction) (sent_of sent.now) (reply_of answer.entry) (reply_of came.entry)) }
{
    let at = reply_number(sent.stage);
    let down = is_lost_down(turn.fate);
    let token = Place {
        number: 1,
        is_lost: down,
    };
    let data = Place {
        number: 2,
        is_lost: down,
    };
    let reply = Place {
        number: at,
        is_lost: is_lost_up(turn.fate),
    };
    let ack = Place {
        number: at + 1,
        is_lost: is_lost_ack(turn.fate),
    };
    put_packet(text, all, damages, token, Some(token_packet(sent)))?;
    put_packet(text, all, damages, data, data_packet(sent))?;
    put_packet(text, all, damages, reply, reply_packet(answer))?;
    put_packet(text, all, damages, ack, ack_packet(came))
}

/// Puts the lines of a packet, if there is one.
fn put_packet(
    text: &mut Text,
    all: bool,
    damages: Damages<'_>,
    place: Place,
    packet: Option<Packet<'_>>,
) -> Result<(), AllocError>
    requires { IfSome packet (λ p. IsLegal (view_of p)) }
    ensures { OnOk result (text.new ≡ text.old ++ lines_of all place.is_lost (bits_of damages.entry.changes.now damages.entry.transaction place.number) place.number (option_map view_of packet.entry)) }
{
    match packet {
        Some(packet) => put_sent(text, all, damages, place, &packet),
        None => Ok(()),
    }
}

#[tactic(auto, using(crate::proofs::DamageLemmas::short, crate::proofs::DamageLemmas::written))]
fn put_sent(
    text: &mut Text,
    all: bool,
    damages: Damages<'_>,
    place: Place,
    packet: &Packet<'_>,
) -> Result<(), AllocError>
    requires { IsLegal (view_of packet.now) }
    ensures { OnOk result (text.new ≡ text.old ++ packet_lines all place.is_lost (bits_of damages.entry.changes.now damages.entry.transaction place.number) place.number (packet_bytes (view_of packet.now))) }
{
    let mut room = [0; LONGEST];
    let length = packet.write(&mut room);
    put_bytes(text, all, damages, place, &room[..length])
}

/// Puts the lines of a packet with these bytes.
fn put_bytes(
    text: &mut Text,
    all: bool,
    damages: Damages<'_>,
    place: Place,
    sent: &[u8],
) -> Result<(), AllocError>
    requires { length sent.now ≤ 1027 }
    ensures { OnOk result (text.new ≡ text.old ++ packet_lines all place.is_lost (bits_of damages.entry.changes.now damages.entry.transaction place.number) place.number sent.now) }
{
    if place.is_lost || !has_bits(damages, place.number) {
        put_whole(text, all, place, sent)
    } else {
        put_changed(text, damages, place.number, sent)
    }
}

/// Whether bits change in the packet with this number.
fn has_bits(damages: Damages<'_>, number: u8) -> bool
    ensures { result ≡ has_bits (bits_of damages.entry.changes.now damages.entry.transaction number) }
{
    for change in damages.changes {
        if damages.has(change, number) {
            return true;
        }
    }
    false
}

/// Puts the line of a packet in which no bit has changed.
fn put_whole(text: &mut Text, all: bool, place: Place, sent: &[u8]) -> Result<(), AllocError>
    ensures { OnOk result (text.new ≡ text.old ++ whole_line all place.is_lost place.number sent.now) }
{
    if !all {
        return Ok(());
    }
    let words = if place.is_lost { "lost" } else { "arrives" };
    put_line(text, Some(place.number), sent, words)
}

/// Puts a packet's line.
#[tactic(auto, unfolding(crate::specs::PacketLines::packet_line))]
fn put_line(
    text: &mut Text,
    number: Option<u8>,
    bytes: &[u8],
    words: &str,
) -> Result<(), AllocError>
    ensures { OnOk result (text.new ≡ text.old ++ packet_line number bytes.now words.now) }
{
    put_part(text, number, bytes)?;
    text.put(words)?;
    put_below(text, false, Some(bytes))
}

/// Puts a packet in the columns of a line.
#[tactic(auto, unfolding(crate::specs::PacketLines::packet_part))]
fn put_part(text: &mut Text, number: Option<u8>, bytes: &[u8]) -> Result<(), AllocError>
    ensures { OnOk result (text.new ≡ text.old ++ packet_part number bytes.now) }
{
    text.put("        ")?;
    put_name_column(text, number, bytes)?;
    put_data_column(text, Some(bytes))
}

fn put_name_column(text: &mut Text, number: Option<u8>, bytes: &[u8]) -> Result<(), AllocError>
    ensures { OnOk result (text.new ≡ text.old ++ column 15 (head_words number ++ packet_name bytes.now)) }
{
    let start = text.len();
    put_name(text, number, bytes)?;
    text.fill(start, 15)
}

fn put_name(text: &mut Text, number: Option<u8>, bytes: &[u8]) -> Result<(), AllocError>
    ensures { OnOk result (text.new ≡ text.old ++ (head_words number ++ packet_name bytes.now)) }
{
    put_head(text, number)?;
    text.put(packet_name(bytes))
}

fn put_head(text: &mut Text, number: Option<u8>) -> Result<(), AllocError>
    ensures { OnOk result (text.new ≡ text.old ++ head_words number) }
{
    match number {
        Some(number) => {
            text.put_decimal(u64::from(number))?;
            text.put(": ")
        }
        None => text.put("as "),
    }
}

/// Puts the lines of a packet in which bits have changed.
fn put_changed(
    text: &mut Text,
    damages: Damages<'_>,
    number: u8,
    sent: &[u8],
) -> Result<(), AllocError>
    requires { length sent.now ≤ 1027 }
    ensures { let bits = bits_of damages.entry.changes.now damages.entry.transaction number in let arrived = with_changed bits sent.now in OnOk result (text.new ≡ text.old ++ changed_lines (damage_of arrived) bits number sent.now arrived) }
{
    let mut room = [0; LONGEST];
    let arrived = &mut room[..sent.len()];
    arrived.copy_from_slice(sent);
    change_bits(damages.changes, damages.transaction, number, arrived);
    match damage_of(arrived) {
        Some(damage) => put_refused(text, damages, number, sent, damage),
        None => {
            put_unfound(text, damages, number, sent)?;
            put_line(text, None, arrived, "arrives")
        }
    }
}

/// What is wrong with these bytes, if anything is.
fn damage_of(bytes: &[u8]) -> Option<Damage>
    ensures { result ≡ damage_of bytes.now }
{
    // For the proof alone: nothing is wrong with the bytes of a packet.
    written_packets_are_read();
    Packet::parse(bytes).err()
}

/// Puts the line of a packet that is refused for this damage.
#[tactic(auto, unfolding(crate::specs::PacketLines::packet_line))]
fn put_refused(
    text: &mut Text,
    damages: Damages<'_>,
    number: u8,
    sent: &[u8],
    damage: Damage,
) -> Result<(), AllocError>
    ensures { OnOk result (text.new ≡ text.old ++ packet_line (Some number) sent.now (refused_words (bits_of damages.entry.changes.now damages.entry.transaction number) damage)) }
{
    put_part(text, Some(number), sent)?;
    put_refusal(text, damages, number, damage)?;
    put_below(text, false, Some(sent))
}

#[tactic(auto, unfolding(crate::specs::PacketLines::refused_words))]
fn put_refusal(
    text: &mut Text,
    damages: Damages<'_>,
    number: u8,
    damage: Damage,
) -> Result<(), AllocError>
    ensures { OnOk result (text.new ≡ text.old ++ refused_words (bits_of damages.entry.changes.now damages.entry.transaction number) damage) }
{
    put_bits(text, damages, number)?;
    text.put(": refused as ")?;
    text.put(damage_name(damage))
}

/// Puts the line of a packet whose damage no check finds.
#[tactic(auto, unfolding(crate::specs::PacketLines::packet_line))]
fn put_unfound(
    text: &mut Text,
    damages: Damages<'_>,
    number: u8,
    sent: &[u8],
) -> Result<(), AllocError>
    ensures { OnOk result (text.new ≡ text.old ++ packet_line (Some number) sent.now (bits_words (bits_of damages.entry.changes.now damages.entry.transaction number))) }
{
    put_part(text, Some(number), sent)?;
    put_bits(text, damages, number)?;
    put_below(text, false, Some(sent))
}

#[tactic(auto, unfolding(crate::specs::PacketLines::bits_words))]
fn put_bits(text: &mut Text, damages: Damages<'_>, number: u8) -> Result<(), AllocError>
    ensures { OnOk result (text.new ≡ text.old ++ bits_words (bits_of damages.entry.changes.now damages.entry.transaction number)) }
{
    text.put("bits")?;
    put_numbers(text, damages, number)
}

/// Puts the numbers of the bits that change in a packet.
fn put_numbers(text: &mut Text, damages: Damages<'_>, number: u8) -> Result<(), AllocError>
    ensures { OnOk result (text.new ≡ text.old ++ listed (bits_of damages.entry.changes.now damages.entry.transaction number)) }
{
    for change in damages.changes {
        if damages.has(change, number) {
            put_numbered(text, " ", u64::from(change.bit))?;
        }
    }
    Ok(())
}

/// The name of the packet with these bytes.
fn packet_name(bytes: &[u8]) -> &'static str
    ensures { result.now ≡ packet_name bytes.now }
{
    match bytes {
        [] => "",
        [head, ..] => pid_name(Pid::from_byte(*head)),
    }
}

fn pid_name(pid: Result<Pid, Damage>) -> &'static str
    ensures { result.now ≡ pid_name pid }
{
    match pid {
        Ok(Pid::Token(TokenKind::Out)) => "OUT",
        Ok(Pid::Token(TokenKind::In)) => "IN",
        Ok(Pid::Token(TokenKind::Setup)) => "SETUP",
        Ok(Pid::Token(TokenKind::Ping)) => "PING",
        Ok(Pid::StartOfFrame) => "SOF",
        Ok(Pid::Data(DataKind::Data0)) => "DATA0",
        Ok(Pid::Data(DataKind::Data1)) => "DATA1",
        Ok(Pid::Data(DataKind::Data2)) => "DATA2",
        Ok(Pid::Data(DataKind::MData)) => "MDATA",
        Ok(Pid::Handshake(Handshake::Ack)) => "ACK",
        Ok(Pid::Handshake(Handshake::Nak)) => "NAK",
        Ok(Pid::Handshake(Handshake::Stall)) => "STALL",
        Ok(Pid::Handshake(Handshake::Nyet)) => "NYET",
        Ok(Pid::Pre) => "PRE",
        Ok(Pid::Split) => "SPLIT",
        Err(_) => "",
    }
}

fn damage_name(damage: Damage) -> &'static str
    ensures { result.now ≡ damage_name damage }
{
    match damage {
        Damage::Empty => "Empty",
        Damage::Pid => "Pid",
        Damage::Reserved => "Reserved",
        Damage::Length => "Length",
        Damage::Crc5 => "Crc5",
        Damage::Crc16 => "Crc16",
    }
}
