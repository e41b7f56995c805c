//! What `show`, `check` and `build` take.
ghost use Rattle.std.specs.Prelude.{IfErr, IfOk, false};
ghost use Rattle.usb_listing.specs.Listings.{Lists};
ghost use Rattle.usb_c.specs.Texts.{IsChecked, IsShown, kept_text};
ghost use Rattle.usb_c.specs.inside.Taking.{BuildRefused, CheckRefused, ShowRefused};

use std::alloc::Global;
use usb_file::laws::no_dump_is_a_file;
use usb_file::{DescriptorFile, Input, read_file, read_input};
use usb_file_data::{FileFault, FileWhy, InputFault};
use usb_listing::{ListFault, assemble, assemble_commented};

/// One set where the second byte is that of one, and else a file; with `any` a dump too.
pub(crate) fn read_shown(alloc: Global, bytes: &[u8], any: bool) -> Result<Input, InputFault>
    ensures ok { IfOk result (λ input. IsShown any input bytes.now) }
    ensures err { IfErr result (ShowRefused any bytes.now) }
{
    if any {
        read_input(alloc, bytes)
    } else {
        read_set_or_file(alloc, bytes)
    }
}

/// A dump is no file: it ends where the language list comes next.
#[tactic(auto, using(crate::proofs::Taking::refused_without, crate::proofs::Taking::dump_ends))]
fn read_set_or_file(alloc: Global, bytes: &[u8]) -> Result<Input, InputFault>
    ensures ok { IfOk result (λ input. IsShown false input bytes.now) }
    ensures err { IfErr result (ShowRefused false bytes.now) }
{
    no_dump_is_a_file();
    let input = read_input(alloc, bytes)?;
    match input {
        Input::Dump(_) => Err(InputFault::File(FileFault {
            at: bytes.len(),
            why: FileWhy::Truncated,
        })),
        Input::Set(set) => Ok(Input::Set(set)),
        Input::File(file) => Ok(Input::File(file)),
    }
}

/// A file; with `any` one set or a dump too.
pub(crate) fn read_checked(alloc: Global, bytes: &[u8], any: bool) -> Result<Input, InputFault>
    ensures ok { IfOk result (λ input. IsChecked any input bytes.now) }
    ensures err { IfErr result (CheckRefused any bytes.now) }
{
    if any {
        read_input(alloc, bytes)
    } else {
        read_file_alone(alloc, bytes)
    }
}

fn read_file_alone(alloc: Global, bytes: &[u8]) -> Result<Input, InputFault>
    ensures ok { IfOk result (λ input. IsChecked false input bytes.now) }
    ensures err { IfErr result (CheckRefused false bytes.now) }
{
    let file = read_file(alloc, bytes)?;
    Ok(Input::File(file))
}

/// The file that a text lists; with `comments` lines that are empty or begin with `#` are dropped, and so is a carriage return
/// before a line feed.
pub(crate) fn read_listing(
    alloc: Global,
    text: &[u8],
    comments: bool,
) -> Result<DescriptorFile, ListFault>
    ensures ok { IfOk result (λ file. Lists (kept_text comments text.now) file) }
    ensures err { IfErr result (λ fault. BuildRefused comments text.now fault.line fault.why) }
{
    if comments {
        assemble_commented(alloc, text)
    } else {
        assemble(alloc, text)
    }
}
