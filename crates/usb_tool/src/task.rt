//! The commands `show` and `check` over any input.
ghost use Rattle.std.specs.Prelude.{◌≡◌, IfErr, IfOk};
ghost use Rattle.std.specs.Io.KnownBytes.{Appends};
ghost use Rattle.usb_tool.specs.Endings.{Refuses, Writes};
ghost use Rattle.usb_tool.specs.Works.{RefusesWork, TellsWork, WorkFails, Worked, show_task, task_of, work_extent};
ghost use Rattle.usb_tool.specs.declared.source.Source.TheVariants.{Bytes};

use crate::fault::ToolFault;
use crate::input::{read_all, take_set_or_file};
use crate::source::Source;
use crate::taken::Taken;
use crate::work::Work;
use std::alloc::Global;
use std::io::{Read, Write};
use usb_file::FILE_LIMIT;

/// What a command does with its input.
#[derive(Clone, Copy, Debug, PartialEq, Eq, Hash)]
pub struct Task {
    /// Where the bytes come from.
    pub source: Source,
    /// What they are taken for.
    pub taken: Taken,
    /// What is made of them.
    pub work: Work,
}

impl Task {
    /// Bytes are taken for this, and this is made of them.
    pub(crate) fn of_bytes(taken: Taken, work: Work) -> Task
        ensures { result ≡ task_of Bytes taken work }
    {
        let source = Source::Bytes;
        Task {
            source,
            taken,
            work,
        }
    }
}

/// Reads the input to its end, and writes what the task makes of it. The number in `Ok` is 1 where there is a finding or a
/// remark, and else 0. Of a set that is listed no byte is kept, unless it comes as hexadecimal text or a dump is taken too.
///
/// ```rust
/// let mut input: &[u8] = b"09 02 09 00 00 01 00 80 ff\n";
/// let mut lines = Vec::new(alloc);
/// let task = Task { source: Source::Hexadecimal, taken: Taken::Any, work: Work::Remark(None) };
/// assert_eq!(rt; run_work(alloc, &mut input, &mut lines, task)?, 1);
/// assert_eq!(rt; lines.as_slice(), b"R10 main 0 0 0\n");
/// ```
///
/// # Errors
///
/// `Read` where the reader failed and `TooLarge` at the first byte over [`FILE_LIMIT`]. `Hex` where the input has to be
/// hexadecimal text and is none. Of a set `Set` with the fault of all its bytes, and `Trailing` where they go on after the set;
/// else `File` with the fault of a file. Nothing is written then. `Write` where the writer or its flush failed; a prefix of the
/// text is written then, and may be all of it. `Memory` when out of memory: of a listing at least the last byte is not written
/// then, and of findings nothing is.
pub fn run_work<R: Read, W: Write>(
    alloc: Global,
    r: &mut R,
    w: &mut W,
    task: Task,
) -> Result<u8, ToolFault>
    ensures worked { IfOk result (Worked task (R.remaining r.old) (R.remaining r.new) (W.contents w.old) (W.contents w.new)) }
    ensures err { IfErr result (WorkFails task (R.remaining r.old) (R.remaining r.new) (W.contents w.old) (W.contents w.new)) }
{
    match task {
        Task {
            source: Source::Bytes,
            taken: Taken::SetOrFile,
            work: Work::List,
        } => list_as_read(alloc, r, w),
        _ => {
            let input = read_all(alloc, r, FILE_LIMIT)?;
            work_on(alloc, input, w, task)
        }
    }
}

/// Lists the set or the file that the input is. Of a set no byte is kept.
fn list_as_read<R: Read, W: Write>(alloc: Global, r: &mut R, w: &mut W) -> Result<u8, ToolFault>
    ensures worked { IfOk result (Worked show_task (R.remaining r.old) (R.remaining r.new) (W.contents w.old) (W.contents w.new)) }
    ensures err { IfErr result (WorkFails show_task (R.remaining r.old) (R.remaining r.new) (W.contents w.old) (W.contents w.new)) }
{
    let input = take_set_or_file(alloc, r)?;
    Work::List.write(alloc, &input, &[], w)
}

/// Writes what the task makes of an input that was read.
fn work_on<W: Write>(alloc: Global, input: Vec<u8>, w: &mut W, task: Task) -> Result<u8, ToolFault>
    ensures worked { IfOk result (Writes Appends (TellsWork task) input.items (W.contents w.old) (W.contents w.new)) }
    ensures err { IfErr result (Refuses (work_extent task.work) (TellsWork task) (RefusesWork task) input.items (W.contents w.old) (W.contents w.new)) }
{
    let bytes = task.source.bytes_of(alloc, input)?;
    let taken = task.taken.input_of(alloc, &bytes)?;
    task.work.write(alloc, &taken, &bytes, w)
}
