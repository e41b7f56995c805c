//! The fields of descriptors as values, and their explanation: lines that say in words what each is.
//!
//! [`Fields`] are the fields of a descriptor, each at its place. A byte that isn't there is read as 0, so that all of it is defined
//! for any bytes. [`explain`] puts the lines of each descriptor: its heading, what it breaks, what is remarked of it, and its fields.
//! What each is, and what is remarked of it, is said by `usb_remarks`.
//!
//! - Fields are `specs/Fields.antt`, by the layouts of `specs/Layouts.antt` and the rows of `specs/Headers.antt`.
//! - What is said of an explanation is what its lines show: numbers, bytes, and names of tables, each in its line
//!   (`specs/Descriptors.antt`, `specs/Explanations.antt`). The words between them are free.
//!
//! [`laws`] says what holds of each explanation beside what `usb_remarks::laws` says of its descriptors: every byte of a descriptor
//! is in one field, and every byte of a fragment in one descriptor; a brief explanation leaves out the lines of fields alone, and
//! that of a broken input has the line of its fault.
#![tactic(auto)]

mod class_rows;
mod container;
mod descriptor_lines;
mod explanation;
mod fault_line;
mod fault_words;
mod field;
mod field_line;
mod fields;
mod finding;
mod form;
mod fragment;
mod heading;
pub mod laws;
mod line;
mod manner;
mod names;
mod remark_line;
mod rest_lines;
mod setup_lines;
mod speed_words;
mod string_names;
mod subject;

pub use explanation::explain;
pub use fault_words::FaultWords;
pub use field::Field;
pub use fields::Fields;
pub use finding::put_finding_words;
pub use fragment::explain_fragment;
pub use manner::{Look, Manner};
pub use remark_line::put_remark_words;
pub use usb_names::{ClassCodes, Form};
pub use usb_remarks::SetSpeed;
