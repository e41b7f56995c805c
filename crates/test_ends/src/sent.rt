//! What a host sends, in words.
use crate::words::{packet_text, read_bytes, read_toggle};
use hex::FromHex;
use std::alloc::{AllocError, Global};
use usb_fields::{Stage, Toggle, Transaction};

/// What a host sends in a transaction.
#[derive(Drop)]
pub enum Sent {
    /// SETUP with these bytes.
    Setup([u8; 8]),
    /// IN.
    In,
    /// OUT with a data packet.
    Out(Toggle, Vec<u8>),
}

impl Sent {
    /// What the words say, if they are a transaction: `setup HEX`, `in`, `out data0 HEX` or `out data1 HEX`.
    pub fn read(alloc: Global, words: &[&str]) -> Option<Sent> {
        match words {
            [verb] if *verb == "in" => Some(Sent::In),
            [verb, packet] if *verb == "setup" => {
                Some(Sent::Setup(<[u8; 8] as FromHex>::from_hex(*packet).ok()?))
            }
            [verb, toggle, packet] if *verb == "out" => {
                let toggle = read_toggle(toggle)?;
                Some(Sent::Out(toggle, read_bytes(alloc, packet)?))
            }
            _ => None,
        }
    }

    /// The transaction's stage.
    pub fn stage(&self) -> Stage<'_> {
        match self {
            Sent::Setup(packet) => Stage::Setup(*packet),
            Sent::In => Stage::In,
            Sent::Out(toggle, bytes) => Stage::Out(*toggle, bytes),
        }
    }
}

/// The next transaction, as in `send 5 in`: the address, and the words that [`Sent::read`] reads.
pub fn due_text(alloc: Global, transaction: &Transaction<'_>) -> Result<String, AllocError> {
    let address = transaction.address;
    match transaction.stage {
        Stage::Setup(packet) => {
            let packet = hex::encode(alloc, packet)?;
            format!(in alloc; "send {address} setup {packet}")
        }
        Stage::In => format!(in alloc; "send {address} in"),
        Stage::Out(toggle, bytes) => {
            let packet = packet_text(alloc, toggle, bytes)?;
            format!(in alloc; "send {address} out {packet}")
        }
    }
}
