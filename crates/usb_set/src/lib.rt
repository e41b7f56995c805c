//! Configuration sets of USB 2.0: a configuration descriptor and all that follows it, as a tree.
//!
//! A device hands out each of its configurations as one run of bytes, the configuration descriptor first, then
//! interface, endpoint, class and vendor descriptors (USB 2.0, 9.4.3 and 9.6.3 to 9.6.6). This crate reads such a set
//! in pieces of any length ([`Decoder`]) or from one slice ([`read_set`]), keeps each of its bytes in plain data
//! ([`Configuration`]), and writes it again ([`encode`], [`encode_onto`]) or says why it has no bytes ([`refusal`]).
//!
//! - What the bytes of a set are, and which sets have bytes, is `specs/Layout.antt`; what is wrong with bytes, and
//!   where, is `specs/Faults.antt`. The decoder's answers are those of these two, whatever the pieces.
//! - [`Configuration::endpoints`], [`Configuration::all_extras`] and [`Configuration::associations`] go over a set in
//!   the order of its bytes, with what each part belongs to: `specs/Owners.antt`.
//! - [`laws`] states what holds of layouts and faults, whoever reads them: a decoder reads back what is written.
#![tactic(auto)]

mod attachment;
mod builder;
mod decoder;
mod descriptor_check;
mod encoder;
mod endpoint;
mod extra;
mod fault;
mod fields;
pub mod laws;
mod lengths;
mod owner;
mod partial;
mod parts;
mod reader;
mod tree;

pub use builder::{add_descriptor, begin_set, next_fault};
pub use decoder::{Decoder, Progress, read_set};
pub use encoder::{encode, encode_onto, refusal};
pub use endpoint::TransferType;
pub use extra::{ASSOCIATION_WIDTHS, Association, Extra, Raw, is_typed};
pub use fault::{EncodeFault, SetFault, SetWhy};
pub use fields::{CONFIGURATION_WIDTHS, ENDPOINT_WIDTHS, INTERFACE_WIDTHS};
pub use owner::{Associations, Endpoints, Extras, Owner};
pub use tree::{Configuration, Endpoint, SetKind, Setting};
pub use usb_fields::{Direction, Sequence};
