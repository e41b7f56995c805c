//! A bus between a host and a device that loses packets and handshakes, and the enumeration of a device over it.
//!
//! Each transaction has a [`Fate`]. [`converse`] makes control transfers, one after another, between a real host's end
//! and a real device's end under any list of fates. [`enumerate`] joins a real host and a real device: the host resets
//! the device, reads its descriptors, gives it an address and configures it; its answer is a [`Run`]. [`step`] is one
//! step of it, for a caller that looks at both ends on the way, [`step_seen`] shows an [`Observer`] what the device has
//! answered, and [`enumerate_logged`] writes a log, a line for each bus reset, each transfer and each transaction, and one
//! that counts losses.
//!
//! [`laws`] says what holds, whatever is lost:
//!
//! - In a transfer both ends stay together: the host has kept as many packets as the device counts acknowledged, or one
//!   more, and each strike has a loss of its own. Of data to the device it has them as the host counts, or a packet more.
//! - A transfer that completes brought what the device's table of requests answers, and the device is in the state that
//!   the table gives. One loss is excepted: where the ACK of a SET_ADDRESS's status stage is lost, the host goes to the
//!   new address while the device stays at the old one, and nothing answers the host any more.
//! - A write that completes gave its owner just the data that the host sent, once, and he accepted them.
//! - A transfer that fails does so for a cause: three losses, that lost ACK, or more busy transactions than the NAK
//!   limit.
//! - An enumeration that succeeds has read just the descriptors of the device. Any other end has a cause: for each
//!   attempt a loss of its own, or one busy transaction more than the NAK limit; or out of memory. There are at most as
//!   many attempts and transactions as the limits allow.
//! - So does an enumeration of a device under test, each of whose answers is allowed beside a device of known
//!   descriptors.
//!
//! [`wire`] says the same of a bus of bytes, which loses packets and changes few bits of others: whoever receives such a
//! packet ignores it, so that it is a lost one. [`enumerate_on_the_wire`] is an enumeration over a bus on which given bits
//! change, [`enumerate_encoded_on_the_wire_logged`] with a log that shows packets.
//!
//! One transaction is `specs/Bus.antt`, a talk `specs/Converse.antt`, a run of both ends `specs/Enumerate.antt`, one
//! with a device under test `specs/UnderTest.antt`, all of them over bytes `specs/Wire.antt`, where given bits change
//! `specs/Damaged.antt`, and a log `specs/Log.antt` with its lines in `specs/Lines.antt`, over bytes `specs/LogOnWire.antt` with
//! `specs/PacketLines.antt`.
#![tactic(auto)]

mod asked;
mod conversation;
mod data;
mod ends;
mod enumeration;
mod exchange;
mod fate;
pub mod laws;
mod lemmas;
mod log;
mod packets;
mod sender;
mod step_lines;
mod steps;
mod tally;
pub mod wire;

pub use asked::Asked;
pub use conversation::{Conversation, Talk, converse, converse_asked};
pub use enumeration::{Run, enumerate, enumerate_encoded, enumerate_with, step, step_seen};
pub use fate::Fate;
pub use log::{enumerate_encoded_logged, enumerate_logged, enumerate_logged_with};
pub use steps::Observer;
pub use usb_file_data::NoMemory;
pub use usb_host::Reply;
pub use wire::{
    BitChange, Logging, enumerate_encoded_on_the_wire, enumerate_encoded_on_the_wire_logged,
    enumerate_on_the_wire, enumerate_on_the_wire_logged_with, enumerate_on_the_wire_with,
};
