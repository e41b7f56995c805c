//! What a command came to.
ghost use Rattle.std.specs.Prelude.{◌≡◌};
ghost use Rattle.usb_tool.specs.Outcomes.{enumerate_hint, outcome_of, outcome_of_enumeration, outcome_status};

use crate::enumeration_end::EnumerationEnd;
use crate::fault::ToolFault;
use crate::meaning::Hint;
use crate::settings::{EnumerateFlags, SettingsFault};

/// What a command came to.
#[derive(Clone, Copy, Debug, PartialEq, Eq, Hash)]
pub enum Outcome {
    /// It did its work, with this exit status.
    Done(u8),
    /// An enumeration ended so, with a log or without.
    Enumerated {
        end: EnumerationEnd,
        is_logged: bool,
    },
    /// It failed. The hint says what to try where its input is at fault.
    Failed {
        fault: ToolFault,
        hint: Hint,
    },
    /// Its options say nothing. Nothing was read, and nothing written.
    Refused(SettingsFault),
}

/// The exit status of a command that failed.
const FAULT: u8 = 3;

impl Outcome {
    /// That of a command with this answer.
    pub(crate) fn of(answer: Result<u8, ToolFault>, hint: Hint) -> Outcome
        ensures { result ≡ outcome_of hint answer }
    {
        match answer {
            Ok(number) => Outcome::Done(number),
            Err(fault) => Outcome::Failed { fault, hint },
        }
    }

    /// That of an enumeration with this answer.
    pub(crate) fn of_enumeration(
        answer: Result<EnumerationEnd, ToolFault>,
        flags: EnumerateFlags,
    ) -> Outcome
        ensures { result ≡ outcome_of_enumeration flags answer }
    {
        match answer {
            Ok(end) => Outcome::Enumerated {
                end,
                is_logged: flags.log,
            },
            Err(fault) => Outcome::Failed {
                fault,
                hint: enumerate_hint(flags.with_strings),
            },
        }
    }

    /// The exit status.
    pub(crate) fn status(self) -> u8
        ensures { result ≡ outcome_status self }
    {
        match self {
            Outcome::Done(number) => number,
            Outcome::Enumerated { end, .. } => end.status(),
            Outcome::Failed { .. } => FAULT,
            Outcome::Refused(fault) => fault.status(),
        }
    }
}

/// What to try where the input of `enumerate` is at fault.
fn enumerate_hint(with_strings: bool) -> Hint
    ensures { result ≡ enumerate_hint with_strings }
{
    if with_strings {
        Hint::Explain
    } else {
        Hint::WithStrings
    }
}
