//! Rows on packets of the bus and their CRCs.
use crate::words::bytes_of;
use anyhow::{Context, Result, bail, ensure};
use std::alloc::Global;
use usb_wire::{AddressFields, DataKind, Handshake, Packet, TokenKind, crc5, crc16};

/// The packet that bytes are, which gives them again, or their damage.
pub(crate) fn packet(alloc: Global, words: &[String]) -> Result<String> {
    read_again(alloc, &bytes_of(alloc, words)?)
}

/// The same of bytes of which these bits are changed: they are counted from 0 in the order in which they are sent.
pub(crate) fn changed_packet(alloc: Global, words: &[String]) -> Result<String> {
    let [bits, words @ ..] = words else {
        bail!("no bits");
    };
    let mut bytes = bytes_of(alloc, words)?;
    for bit in bits.as_str().split(',') {
        change(&mut bytes, bit.parse::<usize>()?)?;
    }
    read_again(alloc, &bytes)
}

fn change(bytes: &mut Vec<u8>, bit: usize) -> Result<()> {
    let byte = bytes.get_mut(bit / 8).context("no such bit")?;
    *byte ^= 1 << (bit % 8);
    Ok(())
}

fn read_again(alloc: Global, bytes: &[u8]) -> Result<String> {
    match Packet::parse(bytes) {
        Ok(packet) => {
            ensure!(
                written(alloc, &packet)?.as_slice() == bytes,
                "other bytes are written"
            );
            shown(alloc, &packet)
        }
        Err(damage) => Ok(format!(in alloc; "damage {damage:?}")?),
    }
}

/// The bytes of a packet whose fields fit.
fn written(alloc: Global, packet: &Packet<'_>) -> Result<Vec<u8>> {
    if !packet.is_legal() {
        bail!("no packet");
    }
    let length = packet.length();
    let mut bytes = vec![in alloc; 0; length]?;
    let count = packet.write(&mut bytes);
    ensure!(count == length, "{count} bytes, not {length}");
    Ok(bytes)
}

fn shown(alloc: Global, packet: &Packet<'_>) -> Result<String> {
    Ok(match *packet {
        Packet::Token(kind, to) => { format!(in alloc; "{kind:?} {} {}", to.address, to.endpoint)? }
        Packet::StartOfFrame(number) => format!(in alloc; "StartOfFrame {number}")?,
        Packet::Data(kind, []) => format!(in alloc; "{kind:?} -")?,
        Packet::Data(kind, bytes) => {
            let digits = hex::encode(alloc, bytes)?;
            format!(in alloc; "{kind:?} {digits}")?
        }
        Packet::Handshake(kind) => format!(in alloc; "{kind:?}")?,
        Packet::Split(fields) => format!(in alloc; "Split {fields}")?,
        Packet::Pre => format!(in alloc; "Pre")?,
    })
}

/// The bytes of a packet with this name and these fields, or `no packet` where one doesn't fit.
pub(crate) fn write_packet(alloc: Global, words: &[String]) -> Result<String> {
    let [name, fields @ ..] = words else {
        bail!("no name");
    };
    let name = name.as_str();
    if let Some(kind) = token_named(name) {
        return write_token(alloc, kind, fields);
    }
    if let Some(kind) = data_named(name) {
        return put(alloc, &Packet::Data(kind, &bytes_of(alloc, fields)?));
    }
    match (name, fields) {
        ("StartOfFrame", [number]) => put(alloc, &Packet::StartOfFrame(number.parse::<u16>()?)),
        ("Split", [bits]) => put(alloc, &Packet::Split(bits.parse::<u32>()?)),
        ("Pre", []) => put(alloc, &Packet::Pre),
        (name, []) => put(alloc, &Packet::Handshake(handshake_named(name)?)),
        _ => bail!("no packet has this name and so many fields"),
    }
}

fn write_token(alloc: Global, kind: TokenKind, fields: &[String]) -> Result<String> {
    let [address, endpoint] = fields else {
        bail!("a token has two fields");
    };
    let to = AddressFields {
        address: address.parse::<u8>()?,
        endpoint: endpoint.parse::<u8>()?,
    };
    put(alloc, &Packet::Token(kind, to))
}

fn put(alloc: Global, packet: &Packet<'_>) -> Result<String> {
    if !packet.is_legal() {
        return Ok(String::from_str(alloc, "no packet")?);
    }
    Ok(hex::encode(alloc, &written(alloc, packet)?)?)
}

fn token_named(name: &str) -> Option<TokenKind> {
    match name {
        "Out" => Some(TokenKind::Out),
        "In" => Some(TokenKind::In),
        "Setup" => Some(TokenKind::Setup),
        "Ping" => Some(TokenKind::Ping),
        _ => None,
    }
}

fn data_named(name: &str) -> Option<DataKind> {
    match name {
        "Data0" => Some(DataKind::Data0),
        "Data1" => Some(DataKind::Data1),
        "Data2" => Some(DataKind::Data2),
        "MData" => Some(DataKind::MData),
        _ => None,
    }
}

fn handshake_named(name: &str) -> Result<Handshake> {
    Ok(match name {
        "Ack" => Handshake::Ack,
        "Nak" => Handshake::Nak,
        "Stall" => Handshake::Stall,
        "Nyet" => Handshake::Nyet,
        _ => bail!("no packet is named {name}"),
    })
}

/// The 5-bit CRC of this many bits of a number.
pub(crate) fn short_crc(alloc: Global, words: &[String]) -> Result<String> {
    let [width, number] = words else {
        bail!("not two numbers");
    };
    let (width, number) = (width.parse::<u32>()?, number.parse::<u32>()?);
    ensure!(width <= 32, "at most 32 bits");
    Ok(format!(in alloc; "{:02x}", crc5(number, width))?)
}

/// The 16-bit CRC of bytes.
pub(crate) fn long_crc(alloc: Global, words: &[String]) -> Result<String> {
    let bytes = bytes_of(alloc, words)?;
    Ok(format!(in alloc; "{:04x}", crc16(&bytes))?)
}
