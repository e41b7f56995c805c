//! Why a text is no listing.
ghost use Rattle.std.specs.Prelude.{◌≡◌, Some};
ghost use Rattle.usb_listing.specs.Listings.{why_message, why_number};

use std::{error, fmt};
use thiserror::Error;

/// What is wrong with a line of a listing. Of several that hold of one line the first is reported. Its `Display` is a message
/// for people.
///
/// ```rust
/// assert_eq!(rt; ListWhy::TooLong.number(), 5);
/// ```
#[derive(Clone, Copy, Debug, Drop, PartialEq, Eq, Hash)]
pub enum ListWhy {
    /// The last line lacks its line feed, or a byte is none of 20 to 7e hexadecimal.
    Line,
    /// The line begins with none of the ten words.
    Word,
    /// The word isn't allowed here.
    Place,
    /// A field is missing, superfluous or not in its form.
    Field,
    /// The descriptor takes its set over 65,535 bytes.
    TooLong,
    /// The text ended and something is still due: the line is the one after the last.
    Missing,
    /// Out of memory on this line.
    Memory,
}

impl ListWhy {
    /// The fault's number, from 1 to 7.
    pub fn number(self) -> u8
        ensures { result ≡ why_number self }
    {
        self as u8 + 1
    }

    /// The message, for people.
    pub fn message(self) -> &'static str
        ensures { result.now ≡ why_message self }
    {
        LIST_MESSAGES[usize::from(self.number()) - 1]
    }
}

/// The messages, in the order of the numbers.
const LIST_MESSAGES: [&str; 7] = [
    "no whole line of printable text",
    "no known word",
    "the word can't stand here",
    "a field is missing, superfluous or not in its form",
    "the set is over 65,535 bytes",
    "the text ends before the file does",
    "out of memory",
];

impl fmt::Display for ListWhy {
    ghost output = { λ why. Some (why_message why) };

    fn fmt<W: fmt::Write>(&self, f: &mut fmt::Formatter<W>) -> fmt::Result {
        f.write_str(self.message())
    }
}

impl error::Error for ListWhy {}

/// A fault of a listing, and the line where it is.
///
/// ```rust
/// // A raw descriptor can't come first.
/// if let Err(fault) = assemble(alloc, b"raw 21 -\n") {
///     assert_eq!(rt; (fault.number(), fault.line), (3, 1));
/// }
/// ```
#[derive(Clone, Copy, Debug, Drop, Error, PartialEq, Eq, Hash)]
#[error("line {line}: {why}")]
pub struct ListFault {
    /// The line, counted from 1.
    pub line: usize,
    /// What is wrong with it.
    #[source]
    pub why: ListWhy,
}

impl ListFault {
    /// The fault's number, from 1 to 7.
    pub fn number(self) -> u8
        ensures { result ≡ why_number self.why }
    {
        self.why.number()
    }
}
