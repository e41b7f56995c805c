//! What came of a call.

/// What a call answered.
#[derive(Clone, Copy, Debug, PartialEq, Eq)]
pub(crate) enum Answer {
    /// What it answers where memory is there.
    Right,
    /// That memory is wanting, as it must, and what must hold then holds.
    Memory,
    /// Anything else.
    Wrong,
}

/// A call in words, its name and what it is made on, with its answer.
pub(crate) type Call = (&'static str, Answer);

/// The answer of a call that didn't refuse.
pub(crate) fn right(holds: bool) -> Answer {
    if holds { Answer::Right } else { Answer::Wrong }
}

/// The answer of a call that refused, out of memory.
pub(crate) fn refused(holds: bool) -> Answer {
    if holds { Answer::Memory } else { Answer::Wrong }
}

/// The answer of a call, which is made once more where memory is wanting: then it must be right.
macro_rules! again {
    ($call:expr) => {
        match $call {
            $crate::answer::Answer::Memory => {
                $crate::answer::refused($call == $crate::answer::Answer::Right)
            }
            answer => answer,
        }
    };
}

pub(crate) use again;
