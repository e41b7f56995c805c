//! What fails, and when.
ghost use Rattle.std.specs.Prelude.{◌≡◌, IfOk};

use std::fmt;
use std::io::{Error, ErrorKind, Result};

/// What a reader or a writer does once.
#[derive(Clone, Copy, PartialEq, Eq)]
pub(crate) enum Fault {
    /// It fails.
    Fails,
    /// It fails, and says that it was interrupted.
    IsInterrupted,
    /// It gives or takes nothing.
    Nothing,
    /// All calls succeed, but for a writer's flush.
    NoFlush,
}

impl Fault {
    /// What the call answers.
    pub(crate) fn result(self) -> Result<usize>
        ensures { IfOk result (λ count. count ≡ 0) }
    {
        match self {
            Fault::Fails => Err(Error::from(ErrorKind::Other)),
            Fault::IsInterrupted => Err(Error::from(ErrorKind::Interrupted)),
            Fault::Nothing | Fault::NoFlush => Ok(0),
        }
    }
}

/// When a fault comes: this many bytes go through a call, and this many calls are made before it.
#[derive(Clone, Copy)]
pub(crate) struct Plan {
    /// How many bytes a call gives or takes at most.
    pub step: usize,
    /// How many calls there are before the fault.
    pub calls: usize,
    /// What comes then.
    pub fault: Fault,
}

impl fmt::Display for Plan {
    fn fmt<W: fmt::Write>(&self, f: &mut fmt::Formatter<W>) -> fmt::Result {
        let Plan { step, calls, fault } = self;
        let name = match fault {
            Fault::Fails => "fails",
            Fault::IsInterrupted => "interrupted",
            Fault::Nothing => "nothing",
            Fault::NoFlush => "no flush",
        };
        write!(f, "{step} a call, {name} after {calls}")
    }
}
