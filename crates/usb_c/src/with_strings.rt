//! A dump made a file.
ghost use Rattle.usb_c.specs.Answers.{AnswersOn};
ghost use Rattle.usb_c.specs.Facts.{Completes};

use crate::answer::{Answer, Verdict, refused_file};
use crate::text::build_file;
use std::alloc::Global;
use usb_file::read_completed;

/// Puts the bytes of the file that is made of a dump into the buffer: with the text `string 3` for index 3 and so on, in the
/// language 0409. A file stays as it is.
#[unsafe(no_mangle)]
pub extern "C" fn nzg_with_strings(alloc: Global, dump: &[u8], file: &mut [u8]) -> Answer
    ensures { AnswersOn (Completes dump.now file.old file.new) result }
{
    complete(alloc, dump, file).answer()
}

fn complete(alloc: Global, dump: &[u8], out: &mut [u8]) -> Verdict
    ensures { Completes dump.now out.old out.new result }
{
    match read_completed(alloc, dump) {
        Ok(file) => build_file(alloc, &file, out),
        Err(fault) => refused_file(fault),
    }
}
