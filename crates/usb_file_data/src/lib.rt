//! What a descriptor file says, as plain data, and what chapter 9 of USB 2.0 says of it.
//!
//! A file is the device descriptor and the configuration sets that bNumConfigurations counts (USB 2.0, 9.4.3 and 9.6).
//! Where the device has a second speed, its qualifier follows with the sets of that speed, and where a string is named,
//! the language list and the strings. [`DescriptorFile`] holds all of it, and [`named`] has the indices of the strings
//! that it names. [`Input`] is a file or what is less, one set or a dump of Linux.
//!
//! - What the bytes of a file are, and which strings are named, is `specs/File.antt`; [`WriteFault`] is why a file has
//!   no bytes.
//! - [`FileFault`] and [`InputFault`] are why bytes are no file or no input (`specs/FileFaults.antt`,
//!   `specs/Inputs.antt`), and [`Likeness`] is what they look like then (`specs/Likeness.antt`).
//! - [`check`] reports all that breaks a rule of chapter 9, each [`Finding`] at its place: counts that do not match,
//!   settings that occur twice, addresses that two interfaces claim. [`check_dump`] and [`check_set`] do so of what is
//!   less than a file, and [`check_input`] of any of the three. What breaks each rule is `specs/Rules.antt`. What is found
//!   at each descriptor, as from [`found_in_order`] with its [`Cause`], and that sorted by rule is `specs/Findings.antt`.
//! - [`laws`] says how long a file can be, and that a copy of a file is that file.
#![tactic(auto)]

mod addresses;
mod all_findings;
mod association;
mod cause;
mod configuration;
mod device;
mod endpoint;
mod fault;
mod file;
mod finding;
mod interface;
mod interfaces;
pub mod laws;
mod likeness;
mod order;
mod place;
mod refusal;
mod report;
mod rule;
mod set;
mod string;
mod string_marks;

pub use all_findings::{check, check_dump, check_input, check_set, found_in_order};
pub use cause::{Cause, Found, PacketFault};
pub use fault::{FileFault, FileWhy, InputFault};
pub use file::{DescriptorFile, Input, Other, Strings};
pub use finding::{Finding, Part, findings_text};
pub use laws::FILE_LIMIT;
pub use likeness::{Likeness, after_sets, likeness_of, names_languages};
pub use refusal::{
    WriteFault, are_wrong_strings, has_wrong_count, has_wrong_kind, is_other_kind, write_refusal,
};
pub use rule::{MESSAGES, Rule};
pub use string::{NoMemory, count_named, named};
