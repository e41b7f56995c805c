//! The input that bytes are: one set, a descriptor file, or a dump of Linux.
ghost use Rattle.std.specs.Prelude.{◌≡◌, IfErr, IfOk, true};
ghost use Rattle.usb_set.specs.Layout.{Layout};
ghost use Rattle.usb_file_data.specs.Inputs.{InputRefused, IsInput, is_one_set};

use crate::file_reader::{Form, read_file_or_dump};
use std::alloc::Global;
use usb_fields::descriptor_type::{CONFIGURATION, OTHER_SPEED_CONFIGURATION};
use usb_file_data::{Input, InputFault};
use usb_set::{Configuration, read_set};

/// The set, the file or the dump that the bytes are, exactly where they are one. They are read as one set where the
/// second byte is 2 or 7, the type of a configuration descriptor or of an other-speed one (USB 2.0, table 9-5).
///
/// ```rust
/// match read_input(alloc, &[9, 2, 9, 0, 0, 1, 0, 0x80, 0x32])? {
///     Input::Set(set) => println!(rt; "configuration {}", set.value)?, // configuration 1
///     Input::File(file) | Input::Dump(file) => println!(rt; "{} configurations", file.sets.len())?,
/// }
/// ```
///
/// # Errors
///
/// `Set` with the fault of the set or `Trailing` where the bytes are read as one, and else `File` with the fault
/// of [`read_file`](crate::read_file), where they are no dump. Each of the two can be out of memory.
pub fn read_input(alloc: Global, b: &[u8]) -> Result<Input, InputFault>
    ensures ok { IfOk result (λ input. IsInput input b.now) }
    ensures err { IfErr result (InputRefused b.now) }
{
    if is_one_set(b) {
        return Ok(Input::Set(read_whole_set(alloc, b)?));
    }
    let (file, form) = read_file_or_dump(alloc, b)?;
    match form {
        Form::File => Ok(Input::File(file)),
        Form::Dump => Ok(Input::Dump(file)),
    }
}

/// Whether the bytes are read as one set.
fn is_one_set(b: &[u8]) -> bool
    ensures { result ≡ is_one_set b.now }
{
    matches!(b, [_, CONFIGURATION | OTHER_SPEED_CONFIGURATION, ..])
}

/// The set, if it is exactly as long as the bytes.
fn read_whole_set(alloc: Global, b: &[u8]) -> Result<Configuration, InputFault>
    ensures ok { IfOk result (λ set. Layout set b.now) }
    ensures err { IfErr result (λ fault. is_one_set b.now ≡ true → InputRefused b.now fault) }
{
    let (set, used) = read_set(alloc, b)?;
    if used < b.len() {
        return Err(InputFault::Trailing(used));
    }
    Ok(set)
}
