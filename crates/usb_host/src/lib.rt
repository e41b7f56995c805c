//! The host's end of a USB 2.0 control pipe, and a host that reads all descriptors of a device and configures it.
//!
//! [`Transfer`] is one control transfer (USB 2.0, 8.5.3): [`Transfer::next`] is the next transaction,
//! [`Transfer::take`] gets the reply, [`Heard`] is what that means to the caller, and [`Why`] has the reasons for which
//! a transfer fails. It moves by one function of its view and the reply, written out in `specs/Transfer.antt` as the
//! standard's table of stages: SETUP, data stage, status stage. Progress, a strike (no reply, or a packet that came
//! before) and a NAK each have a name there. Whatever a device replies, a transfer ends: its view gives a number of
//! transactions, at most `(naks + 3) * (wLength / packet size + 3)` at the start, and each reply lowers it. [`Write`] is a
//! transfer with data to the device, which each ACK of a data packet moves on (`specs/Write.antt`).
//!
//! [`Host`] says what comes next in an enumeration, a bus reset or a transaction, and takes what came back, within
//! [`Limits`] of the NAKs in a transfer and of the attempts. It drives no bus and knows no device. Its steps are
//! definitions (`specs/Steps.antt`, `specs/Order.antt`), and [`laws`] says what holds of them whatever a device
//! answers.
//!
//! A transfer asks for no memory; a host does for what it keeps.
#![tactic(auto)]

mod choice;
mod current_read;
mod draft;
mod due;
mod held;
mod host;
pub mod laws;
mod limits;
mod next_place;
mod read;
mod reply;
mod request;
mod step;
mod transfer;
mod transfer_fields;
mod why;
mod write;

pub use choice::{Choice, NamedStrings};
pub use host::Host;
pub use limits::{LimitFault, Limits};
pub use reply::Reply;
pub use step::{Action, Step, Trouble};
pub use transfer::{Heard, Transfer, TransferStage};
pub use transfer_fields::TransferFields;
pub use why::Why;
pub use write::Write;
