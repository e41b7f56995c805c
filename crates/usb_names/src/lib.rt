//! Names of class codes, and of the descriptors that classes define, their terminals and their bits.
//!
//! Each table stands once, as a static, and the definitions read it. So that they can, a struct that stands in a table
//! holds no reference by itself: each of its texts and lists is of a type that is a parameter.
#![tactic(auto)]

mod bits;
mod class;
mod codes;
mod field;
mod named;
mod row;
mod rows;
mod terminal;
mod word;

pub use bits::{abstract_control_bits, call_management_bits, firmware_upgrade_bits};
pub use class::{class_name, protocol_name, subclass_name};
pub use codes::ClassCodes;
pub use field::{ClassField, Form};
pub use named::Names;
pub use row::{ClassDescriptor, ClassRow, class_descriptor};
pub use terminal::{audio_terminals, video_terminals};
pub use word::Word;
