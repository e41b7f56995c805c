//! How an enumeration ends, and what that means.
ghost use Rattle.std.specs.Prelude.{◌≡◌, ◌++◌, Some};
ghost use Rattle.usb_host.specs.Why.{trouble_message};
ghost use Rattle.usb_tool.specs.EnumerationEnds.{end_of, end_status, refusal_hint, trouble_hint};

use crate::meaning::Hint;
use std::fmt;
use usb_device::DescriptionFault;
use usb_file_data::DescriptorFile;
use usb_host::{Trouble, Why};

/// How an enumeration ends.
#[derive(Clone, Copy, Debug, PartialEq, Eq, Hash)]
pub enum EnumerationEnd {
    /// The host has read the descriptors of the device and configured it.
    Success,
    /// No device of the speed has such descriptors.
    Refused(DescriptionFault),
    /// The host has given up.
    Trouble(Trouble),
}

impl EnumerationEnd {
    /// The end of a run with this outcome.
    pub(crate) fn of(outcome: &Result<DescriptorFile, Trouble>) -> EnumerationEnd
        ensures { result ≡ end_of outcome.now }
    {
        match outcome {
            Ok(_) => EnumerationEnd::Success,
            Err(trouble) => EnumerationEnd::Trouble(*trouble),
        }
    }

    /// The exit status: 0 after success, and else 1.
    ///
    /// ```rust
    /// assert_eq!(rt; EnumerationEnd::Refused(DescriptionFault::Speed).status(), 1);
    /// ```
    pub fn status(self) -> u8
        ensures { result ≡ end_status self }
    {
        match self {
            EnumerationEnd::Success => 0,
            EnumerationEnd::Refused(_) | EnumerationEnd::Trouble(_) => 1,
        }
    }
}

/// What to try where descriptors are refused.
pub(crate) fn refusal_hint(fault: DescriptionFault) -> Hint
    ensures { result ≡ refusal_hint fault }
{
    match fault {
        DescriptionFault::Finding(_) => Hint::Check,
        DescriptionFault::Speed => Hint::Speed,
        DescriptionFault::Texts | DescriptionFault::Unwritable => Hint::Explain,
        DescriptionFault::Memory => Hint::Nothing,
    }
}

/// What to try after trouble, where a log was asked for or wasn't.
pub(crate) fn trouble_hint(why: Why, is_logged: bool) -> Hint
    ensures { result ≡ trouble_hint why is_logged }
{
    match why {
        Why::Busy => Hint::Naks,
        Why::Memory => Hint::Nothing,
        _ => if is_logged { Hint::Nothing } else { Hint::Log },
    }
}

/// What a trouble means, and what to try.
#[derive(Clone, Copy)]
pub(crate) struct TroubleMeaning {
    pub(crate) trouble: Trouble,
    pub(crate) hint: &'static str,
}

impl fmt::Display for TroubleMeaning {
    ghost output = { λ line. Some (trouble_message line.trouble ++ line.hint.now) };

    fn fmt<W: fmt::Write>(&self, f: &mut fmt::Formatter<W>) -> fmt::Result {
        let TroubleMeaning { trouble, hint } = *self;
        write!(f, "{trouble}{hint}")
    }
}
