//! The command `check`.
ghost use Rattle.std.specs.Prelude.{IfErr, IfOk};
ghost use Rattle.usb_tool.specs.Works.{WorkFails, Worked, check_task};

use crate::fault::ToolFault;
use crate::taken::Taken;
use crate::task::{Task, run_work};
use crate::work::Work;
use std::alloc::Global;
use std::io::{Read, Write};

/// Reads a descriptor file to its end, and writes a line for each thing in it that breaks a rule of chapter 9, or `no findings`.
/// The number in `Ok` is 1 where there is a finding, and else 0.
///
/// ```rust
/// let mut input: &[u8] = &[18, 1, 0, 2, 0, 0, 0, 64, 0x34, 0x12, 0x78, 0x56, 0, 1, 0, 0, 0, 0];
/// let mut lines = Vec::new(alloc);
/// assert_eq!(rt; run_check(alloc, &mut input, &mut lines)?, 1);
/// assert_eq!(rt; lines.as_slice(), b"V10 main 0 0 0\n");
/// ```
///
/// # Errors
///
/// `Read` where the reader failed, `TooLarge` at the first byte over [`FILE_LIMIT`](usb_file::FILE_LIMIT), and `File` with the fault of the whole
/// input. `Memory` when out of memory. Nothing is written then. `Write` where the writer or its flush failed; a prefix of
/// the text is written then.
pub fn run_check<R: Read, W: Write>(alloc: Global, r: &mut R, w: &mut W) -> Result<u8, ToolFault>
    ensures checked { IfOk result (Worked check_task (R.remaining r.old) (R.remaining r.new) (W.contents w.old) (W.contents w.new)) }
    ensures err { IfErr result (WorkFails check_task (R.remaining r.old) (R.remaining r.new) (W.contents w.old) (W.contents w.new)) }
{
    run_work(alloc, r, w, Task::of_bytes(Taken::File, Work::Check))
}
