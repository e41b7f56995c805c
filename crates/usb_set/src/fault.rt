//! Why a set could not be read, or written.
ghost use Rattle.std.specs.Prelude.{◌≡◌, Some};
ghost use Rattle.usb_set.specs.Numbers.{encode_number, encode_message, fault_message, why_number, why_message};
ghost use Rattle.usb_set.specs.declared.fault.EncodeFault.TheVariants.{Memory};

use std::alloc::AllocError;
use std::error::Error;
use std::fmt;

/// What is wrong with the bytes of a set. Of several cases that apply the first is reported. Its `Display` is a
/// message for people.
///
/// ```rust
/// // wTotalLength is 8, below bLength.
/// if let Err(fault) = read_set(alloc, &[9, 2, 8, 0]) {
///     assert_eq!(rt; (fault.why, fault.why.number()), (SetWhy::Total, 3));
/// }
/// ```
#[derive(Clone, Copy, Debug, PartialEq, Eq, Hash)]
pub enum SetWhy {
    /// The first bLength is below 9.
    HeaderLength,
    /// The first bDescriptorType is neither 2 nor 7.
    HeaderKind,
    /// wTotalLength is below the first bLength.
    Total,
    /// A later bLength is below 2.
    ItemLength,
    /// A later descriptor would end past wTotalLength.
    Over,
    /// A later descriptor has type 2 or 7.
    Nested,
    /// An interface descriptor with a bLength below 9, an endpoint descriptor below 7, or an interface
    /// association descriptor below 8.
    ItemShort,
    /// An endpoint descriptor before any interface descriptor.
    Stray,
    /// The bytes ended before the set was whole.
    Truncated,
    /// Out of memory.
    Memory,
}

impl SetWhy {
    /// The fault's number, from 1 to 10, in the order in which the cases are taken.
    pub fn number(self) -> u8
        ensures { result ≡ why_number self }
    {
        self as u8 + 1
    }

    /// The message, for people.
    pub fn message(self) -> &'static str
        ensures { result.now ≡ why_message self }
    {
        SET_MESSAGES[usize::from(self.number()) - 1]
    }
}

/// The messages of faults of bytes, in the order of their numbers.
const SET_MESSAGES: [&str; 10] = [
    "the first bLength is below 9",
    "the first descriptor is no configuration",
    "wTotalLength is below the first bLength",
    "a bLength is below 2",
    "a descriptor ends past wTotalLength",
    "a configuration inside a set",
    "an interface, endpoint or association descriptor is too short",
    "an endpoint before any interface",
    "the bytes end before the set does",
    "out of memory",
];

impl fmt::Display for SetWhy {
    ghost output = { λ why. Some (why_message why) };

    fn fmt<W: fmt::Write>(&self, f: &mut fmt::Formatter<W>) -> fmt::Result {
        f.write_str(self.message())
    }
}

impl Error for SetWhy {}

/// A fault, and the place where it is.
///
/// ```rust
/// if let Err(fault) = read_set(alloc, &[9, 2, 33, 0]) {
///     assert_eq!(rt; (fault.number(), fault.at), (9, 4));
/// }
/// ```
#[derive(Clone, Copy, Debug, PartialEq, Eq, Hash)]
pub struct SetFault {
    /// The place, in bytes from the first byte of the set: that of bLength, bDescriptorType or
    /// wTotalLength in the first descriptor, else that of the descriptor at fault; of `Truncated` the
    /// count of bytes taken.
    pub at: u32,
    /// What is wrong there.
    pub why: SetWhy,
}

impl SetFault {
    /// The number of what is wrong, from 1 to 10: [`SetWhy::number`].
    pub fn number(self) -> u8
        ensures { result ≡ why_number self.why }
    {
        self.why.number()
    }
}

impl fmt::Display for SetFault {
    ghost output = { λ fault. Some (fault_message fault) };

    fn fmt<W: fmt::Write>(&self, f: &mut fmt::Formatter<W>) -> fmt::Result {
        let why = self.why;
        let at = self.at;
        write!(f, "{why} at {at}")
    }
}

impl Error for SetFault {}

/// Why a set has no bytes. Of several that apply the first is reported, and `Memory` only where none of
/// the others does.
///
/// ```rust
/// set.extras.push(Extra::Raw(Raw { kind: 5, body: Sequence::new(alloc) }))?;
/// assert_eq!(rt; refusal(&set), Some(EncodeFault::RawKind));
/// ```
#[derive(Clone, Copy, Debug, PartialEq, Eq, Hash)]
pub enum EncodeFault {
    /// A descriptor would be over 255 bytes: the tail of a configuration or an interface is over 246
    /// bytes, that of an association over 247, that of an endpoint over 248, or the body of a raw
    /// descriptor over 253.
    Tail,
    /// A raw descriptor has type 2, 4, 5, 7 or 11.
    RawKind,
    /// The set would be over 65,535 bytes.
    TooLong,
    /// Out of memory.
    Memory,
}

impl EncodeFault {
    /// The fault's number, from 1 to 4, in the order in which the cases are taken.
    pub fn number(self) -> u8
        ensures { result ≡ encode_number self }
    {
        self as u8 + 1
    }

    /// The message, for people.
    pub fn message(self) -> &'static str
        ensures { result.now ≡ encode_message self }
    {
        ENCODE_MESSAGES[usize::from(self.number()) - 1]
    }
}

/// The messages of refusals to write, in the order of their numbers.
const ENCODE_MESSAGES: [&str; 4] = [
    "a descriptor would be over 255 bytes",
    "a raw descriptor of a type that a set reads",
    "the set would be over 65535 bytes",
    "out of memory",
];

impl fmt::Display for EncodeFault {
    ghost output = { λ fault. Some (encode_message fault) };

    fn fmt<W: fmt::Write>(&self, f: &mut fmt::Formatter<W>) -> fmt::Result {
        f.write_str(self.message())
    }
}

impl Error for EncodeFault {}

impl From<AllocError> for EncodeFault {
    ghost from_gives = { λ _ fault. fault ≡ Memory };

    fn from(_e: AllocError) -> EncodeFault {
        EncodeFault::Memory
    }
}
