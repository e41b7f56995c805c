//! What a fault means, for a person, and what to try then.
ghost use Rattle.std.specs.Prelude.{◌≡◌, ◌++◌, Some};
ghost use Rattle.usb_tool.specs.Faults.{fault_meaning, hint_at, hint_words};

use crate::fault::ToolFault;
use std::fmt;
use usb_capture_lines::capture_meaning;
use usb_explain::FaultWords;

/// What to try where the input is at fault, or an enumeration had no success.
#[derive(Clone, Copy, Debug, PartialEq, Eq, Hash)]
pub enum Hint {
    /// The option `--any`.
    Any,
    /// The option `--with-strings`.
    WithStrings,
    /// The option `--comments`.
    Comments,
    /// The command `explain`.
    Explain,
    /// The command `check --any`.
    Check,
    /// The option `--speed`.
    Speed,
    /// The option `--naks`.
    Naks,
    /// The option `--log`.
    Log,
    /// Nothing.
    Nothing,
}

impl Hint {
    /// The words of the hint.
    pub(crate) fn words(self) -> &'static str
        ensures { result.now ≡ hint_words self }
    {
        match self {
            Hint::Any => "; --any takes sets and dumps too",
            Hint::WithStrings => "; --with-strings takes a dump too",
            Hint::Comments => "; --comments drops comments and empty lines",
            Hint::Explain => "; see 'usbdesc explain' of it",
            Hint::Check => "; see 'usbdesc check --any' of it",
            Hint::Speed => "; try another --speed",
            Hint::Naks => "; --naks sets the limit",
            Hint::Log => "; --log shows each transaction",
            Hint::Nothing => "",
        }
    }

    /// The words of the hint, where the input is at fault.
    pub(crate) fn words_at(self, fault: ToolFault) -> &'static str
        ensures { result.now ≡ hint_at self fault }
    {
        match fault {
            ToolFault::File(_) | ToolFault::List(_) | ToolFault::Set(_) | ToolFault::Trailing(_) =>
                { self.words() }
            _ => "",
        }
    }
}

/// What a fault means.
pub(crate) fn fault_meaning(fault: ToolFault) -> &'static str
    ensures { result.now ≡ fault_meaning fault }
{
    match fault {
        ToolFault::Read => "standard input can't be read",
        ToolFault::Write => "standard output can't be written",
        ToolFault::TooLarge => "no file is that long",
        ToolFault::File(fault) => FaultWords::of_file(fault.why).why,
        ToolFault::List(fault) => fault.why.message(),
        ToolFault::Set(fault) => fault.why.message(),
        ToolFault::Trailing(_) => "bytes after the end of the set",
        ToolFault::Memory => "there was not enough memory",
        ToolFault::Hex { .. } => "no hexadecimal text",
        ToolFault::Capture { why, .. } => capture_meaning(why),
        ToolFault::Lack { .. } => "not all of it came in the recording",
    }
}

/// The line below that of a fault.
#[derive(Clone, Copy)]
pub(crate) struct MeaningLine {
    pub(crate) meaning: &'static str,
    pub(crate) hint: &'static str,
}

impl fmt::Display for MeaningLine {
    ghost output = { λ line. Some (line.meaning.now ++ line.hint.now) };

    fn fmt<W: fmt::Write>(&self, f: &mut fmt::Formatter<W>) -> fmt::Result {
        f.write_str(self.meaning)?;
        f.write_str(self.hint)
    }
}
