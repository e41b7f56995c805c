//! Text, as it is put and written. Nothing here knows a descriptor.
//!
//! - [`Text`] grows at its end and is written into columns (`specs/Lines.antt`); each function `put_*` puts exactly the
//!   text that a definition says: numbers `specs/Numbers.antt`, UTF-16 units of a string `specs/Characters.antt`,
//!   escaped as a listing has them or with the characters beyond ASCII that are shown.
//! - [`Lines`] are a text of which is promised that each line is one, and how many there are (`specs/Written.antt`). Those
//!   who put them see a [`Page`], of which is promised what its lines show, and in which order (`specs/Shown.antt`).
//! - [`write_all`] writes bytes to a writer that may take a part of them at a time; [`OutFault`] is why it failed
//!   (`specs/Output.antt`).
#![tactic(auto)]

mod characters;
mod digits;
mod lines;
mod numbers;
mod output;
mod page;
mod shown;
mod text;

pub use characters::{is_plain, put_units, put_units_in};
pub use digits::digits_of;
pub use lines::Lines;
pub use numbers::{
    begin_byte_meaning, begin_word_meaning, put_byte_code, put_count, put_release, put_word_code,
};
pub use output::{OutFault, write_all};
pub use page::Page;
pub use text::Text;
