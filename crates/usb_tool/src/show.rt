//! The command `show`.
ghost use Rattle.std.specs.Prelude.{IfErr, IfOk};
ghost use Rattle.usb_tool.specs.Works.{WorkFails, Worked, show_task};

use crate::fault::ToolFault;
use crate::taken::Taken;
use crate::task::{Task, run_work};
use crate::work::Work;
use std::alloc::Global;
use std::io::{Read, Write};

/// Reads the input to its end, and writes its listing: a line for each descriptor, in the order of the
/// input. The input is one configuration set where its second byte is 2 or 7, the type of a
/// configuration descriptor or an other-speed one (USB 2.0, table 9-5), and else a descriptor file. Of a set no byte is
/// kept. The number in `Ok` is 0.
///
/// ```rust
/// let mut input: &[u8] = &[9, 2, 9, 0, 0, 1, 0, 0x80, 0x32];
/// let mut lines = Vec::new(alloc);
/// run_show(alloc, &mut input, &mut lines)?;
/// assert_eq!(rt; lines.as_slice(), b"configuration 00 01 00 80 32 -\n");
/// ```
///
/// # Errors
///
/// `Read` where the reader failed and `TooLarge` at the first byte over [`FILE_LIMIT`](usb_file::FILE_LIMIT). Of a set `Set` with
/// the fault of the whole input, and `Trailing` where it goes on after the set; else `File` with the
/// fault of a file. Nothing is written then. `Write` where the writer or its flush failed; a prefix
/// of the listing is written then, and may be all of it. `Memory` when out of memory; at least the
/// last byte of the listing is not written then.
pub fn run_show<R: Read, W: Write>(alloc: Global, r: &mut R, w: &mut W) -> Result<u8, ToolFault>
    ensures shown { IfOk result (Worked show_task (R.remaining r.old) (R.remaining r.new) (W.contents w.old) (W.contents w.new)) }
    ensures err { IfErr result (WorkFails show_task (R.remaining r.old) (R.remaining r.new) (W.contents w.old) (W.contents w.new)) }
{
    run_work(alloc, r, w, Task::of_bytes(Taken::SetOrFile, Work::List))
}
