//! Why a command of the program failed, and the line that says so.
ghost use Rattle.std.specs.Prelude.{◌≡◌, Some};
ghost use Rattle.usb_tool.specs.Faults.{fault_line, fault_number, fault_of_device, fault_of_file, fault_of_input, fault_of_list, fault_of_output, fault_of_recording, fault_of_set, status_of};
ghost use Rattle.usb_tool.specs.declared.fault.ToolFault.TheVariants.{Memory};
ghost use Rattle.std.specs.Prelude.{IfSome};
ghost use Rattle.usb_tool.specs.Outcomes.{ReportsLine};

use crate::lack_line::LackLine;
use arrayvec::ArrayString;
use std::alloc::AllocError;
use std::error::Error;
use std::fmt;
use std::fmt::{Display, Write as _};
use std::io::Write;
use usb_capture::{CaptureFault, FileLack};
use usb_capture_lines::{DeviceAddress, DeviceFault, RecordingFault};
use usb_file_data::{FileFault, FileWhy, InputFault};
use usb_listing::{ListFault, ListWhy};
use usb_set::{SetFault, SetWhy};
use usb_text::{OutFault, write_all};

/// Why a command did not do its work.
///
/// ```rust
/// let fault = ToolFault::Trailing(34);
/// assert_eq!(rt; format!(in alloc; "{fault}")?.as_str(), "usbdesc: trailing bytes at 34");
/// ```
#[derive(Clone, Copy, Debug, PartialEq, Eq, Hash)]
pub enum ToolFault {
    /// The reader answered an error.
    Read,
    /// The writer answered an error, or took none of some bytes.
    Write,
    /// The input is longer than the command reads.
    TooLarge,
    /// The input is no descriptor file, and no dump where the command takes one.
    File(FileFault),
    /// The input is no listing of a descriptor file.
    List(ListFault),
    /// The input is no configuration set.
    Set(SetFault),
    /// The input goes on after its set: the place of the first byte after it.
    Trailing(usize),
    /// Out of memory.
    Memory,
    /// The input is no hexadecimal text: the line and the column of what is none.
    Hex {
        line: usize,
        column: usize,
    },
    /// The input is no recording: why, and the place of the part that has the fault.
    Capture {
        why: CaptureFault,
        at: u64,
    },
    /// No file can be made of a device's descriptors: what lacks of them in the recording.
    Lack {
        device: DeviceAddress,
        lack: FileLack,
    },
}

impl ToolFault {
    /// The fault's number, from 1 to 11.
    ///
    /// ```rust
    /// assert_eq!(rt; ToolFault::Trailing(34).number(), 7);
    /// ```
    pub fn number(&self) -> u8
        ensures { result ≡ fault_number self.now }
    {
        match self {
            ToolFault::Read => 1,
            ToolFault::Write => 2,
            ToolFault::TooLarge => 3,
            ToolFault::File(_) => 4,
            ToolFault::List(_) => 5,
            ToolFault::Set(_) => 6,
            ToolFault::Trailing(_) => 7,
            ToolFault::Memory => 8,
            ToolFault::Hex { .. } => 9,
            ToolFault::Capture { .. } => 10,
            ToolFault::Lack { .. } => 11,
        }
    }
}

/// The line that the program prints on standard error, without its line feed.
impl fmt::Display for ToolFault {
    ghost output = { λ fault. Some (fault_line fault) };

    fn fmt<W: fmt::Write>(&self, f: &mut fmt::Formatter<W>) -> fmt::Result {
        match self {
            ToolFault::Read => write!(f, "usbdesc: read failed"),
            ToolFault::Write => write!(f, "usbdesc: write failed"),
            ToolFault::TooLarge => write!(f, "usbdesc: input too large"),
            ToolFault::File(fault) => {
                let number = fault.why.number();
                let at = fault.at;
                write!(f, "usbdesc: file fault {number} at {at}")
            }
            ToolFault::List(fault) => {
                let number = fault.why.number();
                let line = fault.line;
                write!(f, "usbdesc: listing fault {number} line {line}")
            }
            ToolFault::Set(fault) => {
                let number = fault.why.number();
                let at = fault.at;
                write!(f, "usbdesc: set fault {number} at {at}")
            }
            ToolFault::Trailing(at) => write!(f, "usbdesc: trailing bytes at {at}"),
            ToolFault::Memory => write!(f, "usbdesc: out of memory"),
            ToolFault::Hex { line, column } => {
                write!(f, "usbdesc: hexadecimal fault line {line} column {column}")
            }
            ToolFault::Capture { why, at } => {
                let number = why.number();
                write!(f, "usbdesc: capture fault {number} at {at}")
            }
            ToolFault::Lack { device, lack } => {
                let (device, lack) = (*device, *lack);
                write!(f, "{}", LackLine { device, lack })
            }
        }
    }
}

impl Error for ToolFault {}

impl From<AllocError> for ToolFault {
    ghost from_gives = { λ _ fault. fault ≡ Memory };

    fn from(_e: AllocError) -> ToolFault {
        ToolFault::Memory
    }
}

/// *Out of memory* is the program's own fault, wherever it came.
impl From<SetFault> for ToolFault {
    ghost from_gives = { λ e fault. fault ≡ fault_of_set e };

    fn from(e: SetFault) -> ToolFault {
        match e.why {
            SetWhy::Memory => ToolFault::Memory,
            _ => ToolFault::Set(e),
        }
    }
}

/// *Out of memory* is the program's own fault here too.
impl From<FileFault> for ToolFault {
    ghost from_gives = { λ e fault. fault ≡ fault_of_file e };

    fn from(e: FileFault) -> ToolFault {
        match e.why {
            FileWhy::Memory => ToolFault::Memory,
            _ => ToolFault::File(e),
        }
    }
}

/// And of an input in any of its forms.
impl From<InputFault> for ToolFault {
    ghost from_gives = { λ e fault. fault ≡ fault_of_input e };

    fn from(e: InputFault) -> ToolFault {
        match e {
            InputFault::Set(fault) => ToolFault::from(fault),
            InputFault::Trailing(at) => ToolFault::Trailing(at),
            InputFault::File(fault) => ToolFault::from(fault),
        }
    }
}

/// And as a listing is read.
impl From<ListFault> for ToolFault {
    ghost from_gives = { λ e fault. fault ≡ fault_of_list e };

    fn from(e: ListFault) -> ToolFault {
        match e.why {
            ListWhy::Memory => ToolFault::Memory,
            _ => ToolFault::List(e),
        }
    }
}

impl From<OutFault> for ToolFault {
    ghost from_gives = { λ e fault. fault ≡ fault_of_output e };

    fn from(e: OutFault) -> ToolFault {
        match e {
            OutFault::Write => ToolFault::Write,
            OutFault::Memory => ToolFault::Memory,
        }
    }
}

/// That of a recording that was reported no further.
impl From<RecordingFault> for ToolFault {
    ghost from_gives = { λ e fault. fault ≡ fault_of_recording e };

    fn from(e: RecordingFault) -> ToolFault {
        match e {
            RecordingFault::Read => ToolFault::Read,
            RecordingFault::TooLarge => ToolFault::TooLarge,
            RecordingFault::Write => ToolFault::Write,
            RecordingFault::Memory => ToolFault::Memory,
            RecordingFault::Capture { why, at } => ToolFault::Capture { why, at },
        }
    }
}

/// The program's fault for one of making a file of a device.
pub(crate) fn fault_of_device(device: DeviceAddress, fault: DeviceFault) -> ToolFault
    ensures { result ≡ fault_of_device device fault }
{
    match fault {
        DeviceFault::Recording(fault) => ToolFault::from(fault),
        DeviceFault::Lack(lack) => ToolFault::Lack { device, lack },
    }
}

/// The exit status of the program: the command's own number, or 3 after a fault.
///
/// ```rust
/// assert_eq!(rt; verdict(&Ok(1)), 1);
/// assert_eq!(rt; verdict(&Err(ToolFault::Memory)), 3);
/// ```
pub fn verdict(r: &Result<u8, ToolFault>) -> u8
    ensures { result ≡ status_of r.now }
{
    match r {
        Ok(number) => *number,
        Err(_) => 3,
    }
}

/// The bytes that a line of a fault has at most, and more.
const ROOM: usize = 192;

/// Writes the line of a fault and a line feed to standard error, as far as that takes them. This takes no memory: there may
/// be none.
pub(crate) fn tell_line<D: Display + Drop, E: Write>(fault: D, e: &mut E)
    ensures { IfSome (D.output fault) (λ line. ReportsLine line (E.contents e.old) (E.contents e.new)) }
{
    let mut line = ArrayString::<ROOM>::new();
    match writeln!(line, "{fault}") {
        Ok(()) => {
            let _ = write_all(e, line.as_str().as_bytes());
        }
        Err(_) => {}
    }
}
