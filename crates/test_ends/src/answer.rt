//! Answers of a device, in words.
use crate::words::{packet_text, read_bytes, read_toggle};
use std::alloc::{AllocError, Global};
use usb_fields::{Answer, Toggle};

/// An answer that a line says.
#[derive(Drop)]
pub enum Said {
    /// ACK.
    Ack,
    /// NAK.
    Nak,
    /// STALL.
    Stall,
    /// Nothing.
    Silence,
    /// A data packet.
    Data(Toggle, Vec<u8>),
}

impl Said {
    /// The answer that the words are, if they are one: `ack`, `nak`, `stall`, `silence`, or a data packet as in
    /// `data1 1201`.
    pub fn read(alloc: Global, words: &[&str]) -> Option<Said> {
        match words {
            [word] => match *word {
                "ack" => Some(Said::Ack),
                "nak" => Some(Said::Nak),
                "stall" => Some(Said::Stall),
                "silence" => Some(Said::Silence),
                _ => None,
            },
            [toggle, packet] => {
                let toggle = read_toggle(toggle)?;
                Some(Said::Data(toggle, read_bytes(alloc, packet)?))
            }
            _ => None,
        }
    }

    /// The answer.
    pub fn answer(&self) -> Answer<'_> {
        match self {
            Said::Ack => Answer::Ack,
            Said::Nak => Answer::Nak,
            Said::Stall => Answer::Stall,
            Said::Silence => Answer::Silence,
            Said::Data(toggle, bytes) => Answer::Data(*toggle, bytes),
        }
    }
}

/// An answer, in the words that [`Said::read`] reads.
pub fn answer_text(alloc: Global, answer: &Answer<'_>) -> Result<String, AllocError> {
    match answer {
        Answer::Ack => String::from_str(alloc, "ack"),
        Answer::Nak => String::from_str(alloc, "nak"),
        Answer::Stall => String::from_str(alloc, "stall"),
        Answer::Silence => String::from_str(alloc, "silence"),
        Answer::Data(toggle, bytes) => packet_text(alloc, *toggle, bytes),
    }
}
