//! What the bytes of an input are taken for.
ghost use Rattle.std.specs.Prelude.{◌≡◌, IfErr, IfOk};
ghost use Rattle.usb_file_data.specs.Inputs.{InputFaulty, IsInput};
ghost use Rattle.usb_tool.specs.Inputs.{FileShows, IsFile, IsSetOrFile, SetOrFileShows};
ghost use Rattle.usb_tool.specs.Works.{form_of, shows_of, taken_with};
ghost use Rattle.usb_tool.specs.inside.Taking.{IsNone};

use crate::fault::ToolFault;
use crate::intake::Intake;
use std::alloc::Global;
use usb_file::{Input, read_file, read_input};

/// What the bytes of an input are taken for.
#[derive(Clone, Copy, Debug, PartialEq, Eq, Hash)]
pub enum Taken {
    /// A descriptor file.
    File,
    /// One configuration set where the second byte is 2 or 7, the type of a configuration descriptor or an other-speed one
    /// (USB 2.0, table 9-5), and else a descriptor file.
    SetOrFile,
    /// One configuration set, a descriptor file or a dump: the device descriptor and its configuration sets alone.
    Any,
}

impl Taken {
    /// With `--any` any input, and else this.
    pub(crate) fn with_flag(self, any: bool) -> Taken
        ensures { result ≡ taken_with any self }
    {
        if any { Taken::Any } else { self }
    }

    /// What the bytes are.
    ///
    /// # Errors
    ///
    /// Of a set `Set` with the fault that the bytes show, and `Trailing` where they go on after the set; else `File` with the
    /// fault of a file. `Memory` when out of memory.
    pub(crate) fn input_of(self, alloc: Global, bytes: &[u8]) -> Result<Input, ToolFault>
        ensures ok { IfOk result (λ input. form_of self input bytes.now) }
        ensures err { IfErr result (IsNone (shows_of self) bytes.now) }
    {
        match self {
            Taken::File => file_of(alloc, bytes),
            Taken::SetOrFile => set_or_file_of(alloc, bytes),
            Taken::Any => any_of(alloc, bytes),
        }
    }
}

/// The descriptor file that the bytes are.
fn file_of(alloc: Global, bytes: &[u8]) -> Result<Input, ToolFault>
    ensures ok { IfOk result (λ input. IsFile input bytes.now) }
    ensures err { IfErr result (IsNone FileShows bytes.now) }
{
    let file = read_file(alloc, bytes)?;
    Ok(Input::File(file))
}

/// The set that the bytes are, where the second one is that of a set, and else the file.
fn set_or_file_of(alloc: Global, bytes: &[u8]) -> Result<Input, ToolFault>
    ensures ok { IfOk result (λ input. IsSetOrFile input bytes.now) }
    ensures err { IfErr result (IsNone SetOrFileShows bytes.now) }
{
    let intake = Intake::begin(alloc, bytes)?;
    intake.finish(alloc, bytes.len())
}

/// The set, the file or the dump that the bytes are.
fn any_of(alloc: Global, bytes: &[u8]) -> Result<Input, ToolFault>
    ensures ok { IfOk result (λ input. IsInput input bytes.now) }
    ensures err { IfErr result (IsNone InputFaulty bytes.now) }
{
    let input = read_input(alloc, bytes)?;
    Ok(input)
}
