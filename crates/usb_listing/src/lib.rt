//! Listings: a descriptor file, or one set, as text with a line for each descriptor, written and read.
//!
//! - [`list`] writes the listing of a file, and [`list_set`] that of one set alone (`specs/Listing.antt`). The form of
//!   a line and the table of lines are `specs/Table.antt`. [`laws`] says that a set's lines are those of its
//!   descriptors, and how long a listing can be.
//! - [`assemble`] gives the file that a listing lists, or the first line at fault (`specs/Listings.antt`), and
//!   [`assemble_commented`] takes comments, empty lines and carriage returns too (`specs/Comments.antt`). A line
//!   becomes the bytes of its descriptor, which usb_set and usb_fields read. [`assemble_bytes`] and
//!   [`assemble_bytes_commented`] give the bytes of that file, of which they hold no more than two sets at a time.
//!   [`reader_laws`] and [`comment_laws`] state what holds of texts, files and faults, whoever reads them.
#![tactic(auto)]

mod assembly;
mod byte_assembly;
pub mod comment_laws;
mod draft;
mod fault;
mod fields;
pub mod laws;
mod line;
mod listing;
mod order;
pub mod reader_laws;
mod row;
mod set_listing;
mod step;
mod string_listing;
mod thinning;
mod word;

pub use assembly::{assemble, assemble_commented};
pub use byte_assembly::{assemble_bytes, assemble_bytes_commented};
pub use fault::{ListFault, ListWhy};
pub use laws::LISTING_LIMIT;
pub use listing::{list, list_input};
pub use set_listing::list_set;
