//! One control transfer of a host, reply by reply.
use crate::answer::Said;
use crate::outcome::Outcome;
use crate::sent::due_text;
use crate::words::{bytes_text, read_bytes};
use anyhow::Result;
use hex::FromHex;
use std::alloc::{AllocError, Global};
use usb_fields::{Direction, Setup};
use usb_host::{Heard, Transfer, Write};

/// A current transfer.
#[derive(Drop)]
pub enum TransferInWork {
    /// One without data for the device.
    Transfer(Transfer),
    /// One that sends these data to it.
    Write(Write, Vec<u8>),
}

impl TransferInWork {
    /// A transfer by its address, packet size, NAKs that are retried and setup packet, and wLength bytes of data to the device
    /// where there is a fifth word.
    pub fn read(alloc: Global, words: &[&str]) -> Option<TransferInWork> {
        match words {
            [address, packet, naks, setup] => {
                let (address, packet, naks, request) = read_numbers(address, packet, naks, setup)?;
                if packet == 0 {
                    return None;
                }
                Some(TransferInWork::Transfer(Transfer::new(address, packet, naks, request)))
            }
            [address, packet, naks, setup, data] => {
                let (address, packet, naks, request) = read_numbers(address, packet, naks, setup)?;
                let bytes = read_bytes(alloc, data)?;
                if packet == 0
                    || request.direction() == Direction::In
                    || request.length == 0
                    || bytes.len() != usize::from(request.length)
                {
                    return None;
                }
                let write = Write::new(address, packet, naks, request);
                Some(TransferInWork::Write(write, bytes))
            }
            _ => None,
        }
    }

    /// What an answer means to the transfer.
    pub fn take(&mut self, alloc: Global, said: &Said) -> Result<Outcome> {
        let received = match self {
            TransferInWork::Transfer(transfer) => transfer.take(said.answer()),
            TransferInWork::Write(write, _) => write.take(said.answer()),
        };
        Ok(Outcome::Text(match received {
            Heard::Again => self.due(alloc)?,
            Heard::Bytes(bytes) => {
                let bytes = bytes_text(alloc, bytes)?;
                let due = self.due(alloc)?;
                format!(in alloc; "new {bytes}, {due}")?
            }
            Heard::Complete => return Ok(Outcome::Word("complete")),
            Heard::Failed(why) => {
                let number = why.number();
                format!(in alloc; "failed {number}")?
            }
        }))
    }

    /// The next transaction.
    pub fn due(&self, alloc: Global) -> Result<String, AllocError> {
        let due = match self {
            TransferInWork::Transfer(transfer) => transfer.next(),
            TransferInWork::Write(write, bytes) => {
                // A write has wLength bytes of data, as `read` has seen to.
                if bytes.len() == usize::from(write.request().length) {
                    write.next(bytes)
                } else {
                    None
                }
            }
        };
        match due {
            Some(transaction) => due_text(alloc, &transaction),
            None => String::from_str(alloc, "over"),
        }
    }
}

/// An address, a packet size, the NAKs that are retried, and a setup packet.
fn read_numbers(
    address: &str,
    packet: &str,
    naks: &str,
    setup: &str,
) -> Option<(u8, u8, u16, Setup)> {
    let address = address.parse::<u8>().ok()?;
    let packet = packet.parse::<u8>().ok()?;
    let naks = naks.parse::<u16>().ok()?;
    let setup = <[u8; 8] as FromHex>::from_hex(setup).ok()?;
    Some((address, packet, naks, Setup::from_bytes(&setup)))
}
