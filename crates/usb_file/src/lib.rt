//! Descriptor files: all descriptors that a USB 2.0 device can be asked for, as one run of bytes.
//!
//! A file begins with the device descriptor and the configuration sets that bNumConfigurations counts. Then
//! come, where the device has a second speed, its qualifier with the sets of that speed, and where a string is
//! named, the language list and the strings (USB 2.0, 9.4.3 and 9.6). [`read_file`] reads it into plain data,
//! [`DescriptorFile`], and [`write_file`] writes it again, each byte as it was. [`named`] has the strings that a file
//! names. [`read_input`] also reads what is less than a file: one set, or a dump of Linux.
//!
//! - The data, what its bytes are and which strings it names are in the crate usb_file_data, whose types are named here
//!   too.
//! - What is wrong with bytes, and where, is `usb_file_data/specs/FileFaults.antt`: the fault is that of the part which
//!   comes next after a prefix of a file, `usb_file_data/specs/Front.antt`.
//! - The module [`laws`] states what holds of files and faults, whoever reads them.
#![tactic(auto)]

mod completed;
mod file_reader;
mod file_writer;
mod input;
pub mod laws;
mod sets;
mod strings;

pub use completed::read_completed;
pub use file_reader::read_file;
pub use file_writer::{write_file, write_without_strings};
pub use input::read_input;
pub use usb_file_data::{
    DescriptorFile, FILE_LIMIT, FileFault, FileWhy, Finding, Input, InputFault, Likeness, NoMemory,
    Other, Part, Rule, Strings, WriteFault, check, check_dump, check_input, check_set, likeness_of,
    named, write_refusal,
};
pub use usb_listing::{
    LISTING_LIMIT, ListFault, ListWhy, assemble, assemble_commented, list, list_set,
};
pub use usb_text::OutFault;
