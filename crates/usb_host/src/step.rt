//! The steps of an enumeration, and what a host wants done.
ghost use Rattle.std.specs.Prelude.{Some};
ghost use Rattle.usb_host.specs.Why.{step_text, trouble_message, two_digits};

use crate::why::Why;
use std::{error, fmt};
use usb_fields::Transaction;

/// What the caller of a [`Host`](crate::Host) does next.
#[derive(Clone, Copy, Debug, PartialEq, Eq, Hash)]
pub enum Action {
    /// A bus reset, reported by `reset_done`.
    Reset,
    /// This transaction, whose answer goes to `take`.
    Send(Transaction<'static>),
    /// Nothing: there is an outcome.
    Ended,
}

/// What a host does in an enumeration, one control transfer a step (USB 2.0, 9.1.2 and 9.4).
#[derive(Clone, Copy, Debug, PartialEq, Eq, Hash)]
pub enum Step {
    /// The first eight bytes of the device descriptor, from which the packet size is taken.
    First,
    /// SET_ADDRESS.
    Address,
    /// The whole device descriptor.
    Device,
    /// The first nine bytes of the set with this index.
    Header(u8),
    /// The whole set with this index.
    Set(u8),
    /// The device qualifier.
    Qualifier,
    /// The first nine bytes of the other-speed set with this index.
    OtherHeader(u8),
    /// The whole other-speed set with this index.
    OtherSet(u8),
    /// The language list, string 0.
    Languages,
    /// A string.
    Text {
        /// The language's code, wIndex.
        language: u16,
        /// The string's index.
        index: u8,
    },
    /// SET_CONFIGURATION.
    Configure,
}

/// A byte in two lower-case hexadecimal digits.
#[derive(Clone, Copy)]
struct TwoDigits(u8);

impl fmt::Display for TwoDigits {
    ghost output = { λ byte. Some (two_digits byte.0) };

    fn fmt<W: fmt::Write>(&self, f: &mut fmt::Formatter<W>) -> fmt::Result {
        let byte = self.0;
        write!(f, "{byte:02x}")
    }
}

/// A word, with the index in decimal where the step is of a set; of a string its language in four hexadecimal digits
/// and its index in two.
impl fmt::Display for Step {
    ghost output = { λ step. Some (step_text step) };

    fn fmt<W: fmt::Write>(&self, f: &mut fmt::Formatter<W>) -> fmt::Result {
        match *self {
            Step::First => write!(f, "first"),
            Step::Address => write!(f, "address"),
            Step::Device => write!(f, "device"),
            Step::Header(index) => write!(f, "header {index}"),
            Step::Set(index) => write!(f, "set {index}"),
            Step::Qualifier => write!(f, "qualifier"),
            Step::OtherHeader(index) => write!(f, "other_header {index}"),
            Step::OtherSet(index) => write!(f, "other_set {index}"),
            Step::Languages => write!(f, "languages"),
            Step::Text { language, index } => {
                let [high, low] = language.to_be_bytes();
                let (high, low, index) = (TwoDigits(high), TwoDigits(low), TwoDigits(index));
                write!(f, "text {high}{low} {index}")
            }
            Step::Configure => write!(f, "configure"),
        }
    }
}

/// Why an enumeration ended without success, and at which step.
#[derive(Clone, Copy, Debug, PartialEq, Eq, Hash)]
pub struct Trouble {
    /// The step that was current.
    pub step: Step,
    /// The reason.
    pub why: Why,
}

/// The reason's message, and the step.
impl fmt::Display for Trouble {
    ghost output = { λ trouble. Some (trouble_message trouble) };

    fn fmt<W: fmt::Write>(&self, f: &mut fmt::Formatter<W>) -> fmt::Result {
        let Trouble { step, why } = *self;
        write!(f, "{why}, at step {step}")
    }
}

impl error::Error for Trouble {}
