//! Why a transfer, or a whole enumeration, ended without success.
ghost use Rattle.std.specs.Prelude.{◌≡◌, Some};

use std::{error, fmt};

/// Why a transfer or an enumeration ended without success.
///
/// The first two blame the bus, and are worth a retry. The rest blame the device, except `Memory`.
#[derive(Clone, Copy, Debug, PartialEq, Eq, Hash)]
pub enum Why {
    /// Three strikes with no progress between them: transactions that brought no reply, or a packet that came before.
    NoAnswer,
    /// More NAKs without progress than the limit allows.
    Busy,
    /// The device answered by STALL.
    Stalled,
    /// A packet longer than the packet size, bytes past wLength, or a status packet that is not empty.
    TooLong,
    /// A reply that cannot follow.
    Unexpected,
    /// What was read is not what was asked for.
    Malformed,
    /// Out of memory.
    Memory,
}

impl Why {
    ghost use Rattle.usb_host.specs.Order.{lacks_string as lacks_string_of};
    ghost use Rattle.usb_host.specs.Why.{why_number};

    /// The reason's number, 1 to 7.
    ///
    /// ```rust
    /// assert_eq!(rt; Why::Busy.number(), 2);
    /// ```
    pub fn number(self) -> u8
        ensures { result ≡ why_number self }
    {
        self as u8 + 1
    }

    /// Whether a device gave no string, and nothing else is wrong.
    pub(crate) fn lacks_string(self) -> bool
        ensures { result ≡ lacks_string_of self }
    {
        match self {
            Why::Stalled | Why::Malformed => true,
            Why::NoAnswer | Why::Busy | Why::TooLong | Why::Unexpected | Why::Memory => false,
        }
    }
}

impl fmt::Display for Why {
    ghost use Rattle.usb_host.specs.Why.{why_message};

    ghost output = { λ why. Some (why_message why) };

    fn fmt<W: fmt::Write>(&self, f: &mut fmt::Formatter<W>) -> fmt::Result {
        match self {
            Why::NoAnswer => f.write_str("no answer, three times in a row"),
            Why::Busy => f.write_str("busy for longer than the limit"),
            Why::Stalled => f.write_str("the device stalled the request"),
            Why::TooLong => f.write_str("more bytes than were asked for"),
            Why::Unexpected => f.write_str("an answer that cannot follow"),
            Why::Malformed => f.write_str("not what was asked for"),
            Why::Memory => f.write_str("out of memory"),
        }
    }
}

impl error::Error for Why {}
