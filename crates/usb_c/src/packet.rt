//! Packets of the bus, from their PID to their CRC.
ghost use Rattle.std.specs.Prelude.{◌≡◌, min};
ghost use Rattle.std.specs.Option.{option_map};
ghost use Rattle.usb_wire.specs.Crc.{data_crc, token_crc};
ghost use Rattle.usb_wire.specs.Damages.{damage_of};
ghost use Rattle.usb_wire.specs.Packets.{IsLegal, view_of};
ghost use Rattle.usb_c.specs.Answers.{AnswersOn};
ghost use Rattle.usb_c.specs.BusPackets.{Parses, WritesPacket, damage_number, damage_reported, fields_of, of_pid, packet_given};

use crate::answer::{Answer, Verdict};
use usb_wire::laws::written_packets_are_read;
use usb_wire::{AddressFields, Damage, Packet, Pid, crc5, crc16};

/// A packet of the bus as numbers: the struct `nzg_packet_fields` of nozzlegorse.h. What it does not have is 0.
#[repr(C)]
#[derive(Drop)]
pub struct NzgPacketFields {
    /// Of a SPLIT: its 19 bits.
    pub split: u32,
    /// Of a start of frame: the number of the frame.
    pub frame: u16,
    /// Of a data packet: the place of its data among its bytes.
    pub place: u16,
    /// Of a data packet: how many bytes of data it has.
    pub length: u16,
    /// Its first byte.
    pub pid: u8,
    /// Of a token: the device's address.
    pub address: u8,
    /// Of a token: the number of the endpoint.
    pub endpoint: u8,
}

/// The packet that these bytes are. The number of the damage where they are none, and 0 else: 1 no byte, 2 the check bits of the
/// PID, 3 a reserved PID, 4 the number of bytes, 5 the 5-bit CRC, 6 the 16-bit CRC. Then the packet is as it was.
#[unsafe(no_mangle)]
pub extern "C" fn nzg_packet_parse(bytes: &[u8], packet: &mut NzgPacketFields) -> u8
    ensures damage { result ≡ damage_reported (damage_of bytes.now) }
    ensures packet { Parses bytes.now (damage_of bytes.now) packet.old packet.new }
{
    written_packets_are_read();
    match Packet::parse(bytes) {
        Ok(found) => {
            *packet = fields_of(&found);
            0
        }
        Err(damage) => damage_number(damage),
    }
}

pub(crate) fn damage_number(damage: Damage) -> u8
    ensures { result ≡ damage_number damage }
{
    match damage {
        Damage::Empty => 1,
        Damage::Pid => 2,
        Damage::Reserved => 3,
        Damage::Length => 4,
        Damage::Crc5 => 5,
        Damage::Crc16 => 6,
    }
}

fn of_pid(pid: Pid) -> NzgPacketFields
    ensures { result ≡ of_pid pid }
{
    NzgPacketFields {
        split: 0,
        frame: 0,
        place: 0,
        length: 0,
        pid: pid.byte(),
        address: 0,
        endpoint: 0,
    }
}

fn fields_of(packet: &Packet<'_>) -> NzgPacketFields
    requires { IsLegal (view_of packet.now) }
    ensures { result ≡ fields_of (view_of packet.now) }
{
    match *packet {
        Packet::Token(kind, to) => NzgPacketFields {
            address: to.address,
            endpoint: to.endpoint,
            ..of_pid(Pid::Token(kind))
        },
        Packet::StartOfFrame(number) => NzgPacketFields {
            frame: number,
            ..of_pid(Pid::StartOfFrame)
        },
        Packet::Data(kind, bytes) => NzgPacketFields {
            place: 1,
            length: bytes.len() as u16,
            ..of_pid(Pid::Data(kind))
        },
        Packet::Handshake(kind) => of_pid(Pid::Handshake(kind)),
        Packet::Split(fields) => NzgPacketFields {
            split: fields,
            ..of_pid(Pid::Split)
        },
        Packet::Pre => of_pid(Pid::Pre),
    }
}

/// Puts the bytes of a packet into the buffer, where its PID is one and each field fits into its bits, and the data into a
/// packet. Data are looked at in a data packet alone, and each other field where the packet has it.
#[unsafe(no_mangle)]
pub extern "C" fn nzg_packet_write(packet: &NzgPacketFields, bytes: &[u8], out: &mut [u8]) -> Answer
    ensures { AnswersOn (WritesPacket (packet_given packet.now bytes.now) out.old out.new) result }
{
    put_reported(packet_given(packet, bytes), out).answer()
}

/// The packet that numbers are, with these data, or `None` where they begin with no PID.
fn packet_given<'d>(fields: &NzgPacketFields, bytes: &'d [u8]) -> Option<Packet<'d>>
    ensures { option_map view_of result ≡ packet_given fields.now bytes.now }
{
    match Pid::from_byte(fields.pid) {
        Ok(Pid::Token(kind)) => Some(Packet::Token(
            kind,
            AddressFields {
                address: fields.address,
                endpoint: fields.endpoint,
            },
        )),
        Ok(Pid::StartOfFrame) => Some(Packet::StartOfFrame(fields.frame)),
        Ok(Pid::Data(kind)) => Some(Packet::Data(kind, bytes)),
        Ok(Pid::Handshake(kind)) => Some(Packet::Handshake(kind)),
        Ok(Pid::Split) => Some(Packet::Split(fields.split)),
        Ok(Pid::Pre) => Some(Packet::Pre),
        Err(_) => None,
    }
}

fn put_reported(packet: Option<Packet<'_>>, out: &mut [u8]) -> Verdict
    ensures { WritesPacket (option_map view_of packet.entry) out.old out.new result }
{
    match packet {
        Some(packet) => put_packet(&packet, out),
        None => Verdict::BadArgument(12),
    }
}

/// Puts the bytes of a packet into the buffer, where it is legal and there is room.
fn put_packet(packet: &Packet<'_>, out: &mut [u8]) -> Verdict
    ensures { WritesPacket (Some (view_of packet.now)) out.old out.new result }
{
    if !packet.is_legal() {
        return Verdict::BadArgument(12);
    }
    let length = packet.length();
    if out.len() < length {
        return Verdict::NoRoom(length);
    }
    Verdict::Done(packet.write(out))
}

/// The 5-bit CRC of the lowest bits of a number, at most 32 of them: 11 in a token and in a start of frame, 19 in a SPLIT.
#[unsafe(no_mangle)]
pub extern "C" fn nzg_crc5(fields: u32, width: u32) -> u8
    ensures { result ≡ token_crc (min width 32) fields }
{
    crc5(fields, width.min(32))
}

/// The 16-bit CRC of data.
#[unsafe(no_mangle)]
pub extern "C" fn nzg_crc16(bytes: &[u8]) -> u16
    ensures { result ≡ data_crc bytes.now }
{
    crc16(bytes)
}
