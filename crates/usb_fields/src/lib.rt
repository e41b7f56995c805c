//! What both ends of a USB 2.0 bus and descriptor files have in common: bytes, single descriptors and packets.
//!
//! - [`Sequence`], the list type of public fields: in a contract it is its elements in order, so that a whole tree of
//!   structs is plain data there, compared by one equation. [`Marks`] is a set of bytes.
//! - [`byte_at`], [`prefix`] and [`after`], parts of a list of bytes; [`word_at`] and [`word_bytes`], fields of two
//!   bytes, little-endian (8.1).
//! - [`DeviceDescriptor`] (9.6.1) and [`Qualifier`] (9.6.2), the descriptors of fixed length; [`read_units`] and
//!   [`write_units`] for string descriptors and language lists (9.6.7), and [`text_of`], the text of a string's units.
//! - [`Setup`], the eight bytes that begin each control transfer (9.3), with the [`Direction`], [`Class`] and
//!   [`Recipient`] of its bmRequestType (table 9-2).
//! - [`Transaction`], [`Stage`], [`Toggle`] and [`Answer`], what passes between a host and a device (8.4 to 8.6), and
//!   [`Speed`].
//! - [`request`], [`request_type`], [`feature`], [`descriptor_type`] and [`descriptor_length`], the numbers of tables
//!   9-2, 9-4 to 9-6 and 9-8 to 9-13.
//!
//! Numbers keep the value that the bytes have: no field is checked for its meaning here. Reading and writing undo each
//! other on exactly the legal bytes: [`laws`] has a law for each pair, and that of the packets of a data stage, on
//! which both ends rest. Only `read_units`, `write_units` and `text_of` allocate.
#![tactic(auto)]

mod bytes;
pub mod descriptor_length;
pub mod descriptor_type;
mod device;
mod fault;
pub mod feature;
mod field;
pub mod field_name;
pub mod laws;
pub mod list_laws;
mod marks;
mod packet;
mod qualifier;
pub mod request;
pub mod request_type;
mod sequence;
mod setup;
mod units;

pub use bytes::{after, byte_at, known_bytes, prefix, word_at, word_bytes};
pub use device::{DEVICE_WIDTHS, DeviceDescriptor, USB_2_0};
pub use fault::{FieldFault, UnitFault};
pub use field::Width;
pub use marks::Marks;
pub use packet::{Answer, Speed, Stage, Toggle, Transaction};
pub use qualifier::{QUALIFIER_WIDTHS, Qualifier};
pub use sequence::Sequence;
pub use setup::{Class, Direction, Recipient, Setup};
pub use units::{MOST_UNITS, read_units, text_of, write_units, write_units_onto};
