//! A USB 2.0 device made of a descriptor file: it answers each transaction on endpoint zero as chapter 9 says.
//!
//! A [`Description`] is made of the descriptors and a speed, where a device of that speed can have them, and else
//! [`DescriptionFault`] is why not. It encodes each descriptor once, a set as one, so that no answer copies a byte. A
//! [`Device`] borrows it: [`Device::serve`] answers a transaction, and lends what it sends from the description, so
//! that a device never allocates and can't fail. [`Device::acked`] is the host's ACK of a data packet,
//! [`Device::state`] is what it keeps between requests, [`State::device_state`] in which [`DeviceState`] it then is,
//! and [`Device::stage`] its stage in a transfer. What a device rejects its owner may answer: [`Device::refused`].
//!
//! A device needs no tree of its descriptors: all that it answers from is an *image*, one byte string. [`write_image`] writes
//! it, and [`Image`] reads it where it lies, whatever bytes it is: the law [`laws::an_image_is_read_back`] is that it offers
//! what the file does. [`Encoded`] is a description without the tree: it owns an image, and proofs alone see its file.
//!
//! [`EndpointZero`] is what changes in a device, as numbers that a program in another language can hold: its calls are lent an
//! image and a room.
//!
//! What is allowed of a device under test, beside a device of the same descriptors, [`judge`] says, transaction by
//! transaction.
//!
//! - Which descriptors make a device is `specs/Accepted.antt`, and which one a request asks for `specs/Descriptors.antt`.
//! - The format of an image is `specs/Images.antt`, that of a file `specs/FileImages.antt`, and what a device offers its
//!   host, by either, `specs/Offers.antt`.
//! - What comes of each request is `specs/Requests.antt`, a definition for each row of the table, over
//!   `specs/Offers.antt` and `specs/States.antt`; what may be answered beside the table is `specs/Beside.antt`, and
//!   what is allowed of a device under test `specs/Conformance.antt` and `specs/OpenTransfers.antt`.
//! - How a device goes through a control transfer is `specs/Step.antt`, whatever the table is.
//! - What the parts of a device mean is `specs/View.antt` and `specs/Stages.antt`: the code has a place in the image, an
//!   offset and a toggle where the definition has a list of packets.
#![tactic(auto)]

mod acceptance;
mod beside;
mod conformance;
mod description;
mod device;
mod encoded;
mod endpoint_zero;
mod file_image;
mod halts;
mod image;
pub mod laws;
mod open_transfer;
mod piece;
mod request;
mod sets;
mod stage;
mod state;
mod string_table;

pub use acceptance::DescriptionFault;
pub use beside::{ROOM, Unanswered, is_open};
pub use conformance::{Difference, is_ready, judge};
pub use description::Description;
pub use device::Device;
pub use encoded::Encoded;
pub use endpoint_zero::EndpointZero;
pub use file_image::write_image;
pub use image::Image;
pub use open_transfer::{OpenStage, OpenTransfer};
pub use request::is_set_address;
pub use stage::{Reaction, Stage as DeviceStage};
pub use state::{DeviceState, State};
