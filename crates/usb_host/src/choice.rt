//! What an enumeration asks for.
ghost use Rattle.std.specs.Prelude.{◌≡◌};
ghost use Rattle.usb_host.specs.Terms.{everything as all_asked, forgives_any, is_asked};

use usb_fields::Speed;

/// What becomes of the strings whose indices the descriptors name.
#[derive(Clone, Copy, Debug, PartialEq, Eq, Hash)]
pub enum NamedStrings {
    /// Each must be there: one that the device refuses ends the enumeration.
    Needed,
    /// One may be missing. Where the device stalls the language list or a string, or gives what is none, the enumeration
    /// goes on with a stand-in: the one language 0x0409, or the empty string.
    Wanted,
    /// None is asked for.
    Skipped,
}

impl NamedStrings {
    /// Whether they are asked for.
    pub(crate) fn are_asked(self) -> bool
        ensures { result ≡ is_asked self }
    {
        match self {
            NamedStrings::Needed | NamedStrings::Wanted => true,
            NamedStrings::Skipped => false,
        }
    }

    /// Whether one may be missing.
    pub(crate) fn may_be_missing(self) -> bool
        ensures { result ≡ forgives_any self }
    {
        match self {
            NamedStrings::Wanted => true,
            NamedStrings::Needed | NamedStrings::Skipped => false,
        }
    }
}

/// What a host asks a device for beside its device descriptor and its configurations.
#[derive(Clone, Copy, Debug, PartialEq, Eq, Hash)]
pub struct Choice {
    /// The strings.
    pub strings: NamedStrings,
    /// Whether the device qualifier and the other-speed configurations are asked for, where there may be some
    /// (USB 2.0, 9.6.2 and 9.6.4).
    pub other_speed: bool,
}

impl Choice {
    /// All that a descriptor file has, and each string must be there.
    ///
    /// ```rust
    /// let choice = Choice { strings: NamedStrings::Wanted, ..Choice::everything() };
    /// ```
    pub fn everything() -> Choice
        ensures { result ≡ all_asked }
    {
        Choice {
            strings: NamedStrings::Needed,
            other_speed: true,
        }
    }
}

/// What the order of the reads depends on, beside what is read.
#[derive(Clone, Copy, Debug)]
pub struct Terms {
    /// The speed of the bus.
    pub speed: Speed,
    /// What is asked for.
    pub choice: Choice,
}
