//! The packets of a USB 2.0 bus as bytes, and what their check bits find (USB 2.0, 8.3 and 8.4).
//!
//! - [`Packet`], from its PID to its CRC: [`parse`](Packet::parse) takes exactly the bytes of a legal packet, and refuses any
//!   others by the first [`Damage`] that holds; [`write`](Packet::write) puts its bytes into a caller's buffer.
//! - [`Pid`] with [`TokenKind`], [`DataKind`] and [`Handshake`], the packet identifiers of table 8-1.
//! - [`crc5`] and [`crc16`], the CRCs of tokens and of data.
//! - [`laws`]: a written packet is read as itself; the CRCs are those of 8.3.5, with its residuals; and which changed bits
//!   are always found: one, two and three of data, any odd number of them, and any that lie among 16 in a row; one and
//!   two of a token; one of a PID. More may be missed: two changed bits make a NAK of an ACK.
//!
//! A packet here is whole bytes. Synchronization, bit stuffing and the end of a packet (7.1) aren't part of it, so no law
//! speaks of bits that are added or left out. Nothing allocates.
#![tactic(auto)]

mod address;
mod body;
mod crc;
mod damage;
pub mod laws;
mod packet;
mod pid;
mod tables;

pub use address::AddressFields;
pub use body::MOST_DATA;
pub use crc::{crc5, crc16};
pub use damage::Damage;
pub use packet::Packet;
pub use pid::{DataKind, Handshake, Pid, TokenKind};
