//! Why bytes are no descriptor file, or no input at all.
ghost use Rattle.std.specs.Prelude.{◌≡◌, ◌+◌, ◌<◌, ◌^◌};
ghost use Rattle.usb_file_data.specs.FileFaults.{why_message, why_number};
ghost use Rattle.usb_file_data.specs.declared.fault.InputFault.TheVariants as inputs;

use std::fmt;
use thiserror::Error;
use usb_set::{SetFault, SetWhy};

/// What is wrong with the bytes of a file.
#[derive(Clone, Copy, Debug, Drop, PartialEq, Eq, Hash)]
pub enum FileWhy {
    /// The first 18 bytes are no device descriptor.
    Device,
    /// The bytes of a configuration set are at fault.
    Set(SetWhy),
    /// A configuration set where an other-speed set is expected, or the other way round.
    SetKind,
    /// Ten bytes that begin as a qualifier are none.
    Qualifier,
    /// Where a language list or a string is expected there is another descriptor, or a language list with no
    /// language.
    Text,
    /// The bytes end before the file does.
    Truncated,
    /// The bytes go on after the end of the file.
    Trailing,
    /// Out of memory.
    Memory,
}

impl FileWhy {
    /// The fault's number, from 1 to 8.
    ///
    /// ```rust
    /// assert_eq!(rt; FileWhy::Truncated.number(), 6);
    /// ```
    pub fn number(self) -> u8
        ensures { result ≡ why_number self }
    {
        match self {
            FileWhy::Device => 1,
            FileWhy::Set(_) => 2,
            FileWhy::SetKind => 3,
            FileWhy::Qualifier => 4,
            FileWhy::Text => 5,
            FileWhy::Truncated => 6,
            FileWhy::Trailing => 7,
            FileWhy::Memory => 8,
        }
    }

    /// The message, for people: of `Set` what comes before the message of the set's fault.
    pub fn message(self) -> &'static str
        ensures { result.now ≡ why_message self }
    {
        FILE_MESSAGES[usize::from(self.number()) - 1]
    }
}

/// The messages, in the order of the numbers.
const FILE_MESSAGES: [&str; 8] = [
    "no device descriptor",
    "in a set",
    "a set of the other kind",
    "no qualifier",
    "no string descriptor",
    "the bytes end before the file does",
    "bytes after the end of the file",
    "out of memory",
];

impl fmt::Display for FileWhy {
    fn fmt<W: fmt::Write>(&self, f: &mut fmt::Formatter<W>) -> fmt::Result {
        f.write_str(self.message())?;
        if let FileWhy::Set(why) = self {
            write!(f, ", {why}")?;
        }
        Ok(())
    }
}

impl std::error::Error for FileWhy {}

/// A fault of a file, and the place where it is.
///
/// ```rust
/// if let Err(fault) = read_file(alloc, &[18, 1, 0]) {
///     assert_eq!(rt; (fault.number(), fault.at), (6, 3));
/// }
/// ```
#[derive(Clone, Copy, Debug, Drop, Error, PartialEq, Eq, Hash)]
#[error("{why} at {at}")]
pub struct FileFault {
    /// The place, in bytes from the first byte of the file. Of `Set` it is that of the fault in the set, of
    /// `SetKind` that of the set's bDescriptorType, and of `Truncated` the length of the file. Of every other
    /// fault it is the place where the part starts.
    pub at: usize,
    /// What is wrong there.
    #[source]
    pub why: FileWhy,
}

impl FileFault {
    /// The fault of this reason, at this place in the file.
    pub fn new(at: usize, why: FileWhy) -> FileFault
        ensures { result ≡ record { at = at; why = why } }
    {
        FileFault { at, why }
    }

    /// The fault, counted from the first byte of the file, where it was counted from its part's, which
    /// is at this place.
    pub fn moved(self, place: usize) -> FileFault
        requires { place + self.at < 2 ^ 64 }
        ensures { result ≡ record { at = place + self.at; why = self.why } }
    {
        FileFault::new(place + self.at, self.why)
    }

    /// The fault's number, from 1 to 8.
    pub fn number(self) -> u8
        ensures { result ≡ why_number self.why }
    {
        self.why.number()
    }
}

/// Why bytes are no input.
#[derive(Clone, Copy, Debug, Drop, Error, PartialEq, Eq, Hash)]
pub enum InputFault {
    /// The second byte is that of a set, and this is the set's fault.
    #[error("{0}")]
    Set(#[source] SetFault),
    /// The bytes go on after their set: the place of the first byte after it.
    #[error("bytes after the set at {0}")]
    Trailing(usize),
    /// The bytes are no set, no file and no dump: the fault of a file.
    #[error("{0}")]
    File(#[source] FileFault),
}

impl From<SetFault> for InputFault {
    ghost from_gives = { λ e fault. fault ≡ inputs.Set e };

    fn from(e: SetFault) -> InputFault {
        InputFault::Set(e)
    }
}

impl From<FileFault> for InputFault {
    ghost from_gives = { λ e fault. fault ≡ inputs.File e };

    fn from(e: FileFault) -> InputFault {
        InputFault::File(e)
    }
}
