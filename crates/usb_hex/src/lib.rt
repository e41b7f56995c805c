//! Hexadecimal text, as people copy it, read. Nothing here knows a descriptor.
//!
//! A person has the bytes of a descriptor as text: digits of a web page, the dump of a debugger, an array of a program.
//! [`parse`] gives those bytes. It tells by the text alone in which form it is, since nobody says; where two readings would
//! give other bytes, it refuses the text, with the line and the column at which it stops, and never guesses.
//!
//! - `specs/Hexadecimal.antt` says which bytes a text has (`HexText`), and of one that is refused where it stops
//!   (`HexFaulty`). It is read as it is, or else as the source of a program. [`HexFault`] is that place, or want of memory.
//! - As it is: digits alone or with marks and commas (`specs/HexText.antt`, whose items are in `specs/HexItems.antt`), the
//!   columns of dumps and debuggers, with the bytes at their offsets (`specs/Columns.antt`), and literals
//!   (`specs/Literals.antt`). Two readings differ where `specs/TwoReadings.antt` says so.
//! - As a source: comments go (`specs/Comments.antt`), then labels, directives and declarations (`specs/Labels.antt`), then all
//!   that is outside brackets (`specs/Brackets.antt`). What is left is numbers (`specs/SourceItems.antt`).
//! - [`put_stop`] says in words where a text stops (`specs/Stops.antt`).
//! - Laws: no text has two readings, the digits that `usbdesc` writes are read as they are, and no text that begins as a
//!   descriptor does is hexadecimal.
#![tactic(auto)]

mod bracket;
mod column;
mod comment;
mod hex_digit;
mod hex_text;
mod hexadecimal;
mod in_order;
mod label;
mod laws;
mod literal;
mod named;
mod offset;
mod reading;
mod source_item;
mod stop;
mod symbol;
mod two_readings;

pub use hex_text::HexFault;
pub use hexadecimal::parse;
pub use laws::{
    hexadecimal_text_has_one_reading, hexadecimal_text_is_no_descriptor,
    hexadecimal_text_is_read_as_it_is,
};
pub use stop::put_stop;
