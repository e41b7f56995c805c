//! The command `enumerate`.
ghost use Rattle.std.specs.Prelude.{◌≡◌, ◌≢◌, ◌++◌, [], IfErr, IfOk, false, true};
ghost use Rattle.usb_listing.specs.Listing.{file_lines};
ghost use Rattle.usb_tool.specs.Enumerations.{EnumerateFails, Enumerated, EnumeratedTo, IsNotTaken, IsTaken, RefusesToEnumerate, WritesResult, conditions_at, conditions_by, conditions_of, has_bytes, no_flags, run_text, unchanged, under, refused_line, success_line, trouble_line};
ghost use Rattle.usb_tool.specs.EnumerationEnds.{end_of};
ghost use Rattle.usb_tool.specs.declared.enumeration_end.EnumerationEnd.TheVariants.{Refused, Success, Trouble as TroubleEnd};
ghost use Rattle.usb_tool.specs.inside.Telling.{BreaksRun, EndsWith, IsCutShort, MakesRun};
ghost use Rattle.usb_file_data.specs.declared.fault.FileWhy.TheVariants as files;

use crate::enumerate_options::EnumerationSettings;
use crate::enumeration_end::EnumerationEnd;
use crate::fault::ToolFault;
use crate::input::read_all;
use crate::output::write_flushed;
use crate::result_line::{RefusedLine, SuccessLine, TroubleLine};
use crate::settings::EnumerateFlags;
use std::alloc::Global;
use std::io::{Read, Write};
use usb_bus::{
    BitChange, Fate, Logging, Run, enumerate_logged_with, enumerate_on_the_wire_logged_with,
    enumerate_on_the_wire_with, enumerate_with,
};
use usb_device::{DescriptionFault, Encoded};
use usb_fields::Speed;
use usb_file::{DescriptorFile, FILE_LIMIT, read_completed, read_file};
use usb_file_data::FileFault;
use usb_host::{Choice, Limits, Trouble};
use usb_listing::list;
use usb_text::write_all;

/// What an enumeration is made under.
#[derive(Clone, Copy, Debug)]
pub struct Enumeration<'a> {
    /// The limits of the host's retries, and the address that it gives.
    pub limits: Limits,
    /// The speed of the device.
    pub speed: Speed,
    /// What the bus does to each transaction; after the last one all arrives.
    pub fates: &'a [Fate],
    /// The bits that change on the bus.
    pub changes: &'a [BitChange],
    /// What is taken, written and asked for.
    pub flags: EnumerateFlags,
}

impl<'a> Enumeration<'a> {
    /// What these settings say.
    pub(crate) fn of(given: &'a EnumerationSettings) -> Enumeration<'a>
        ensures { conditions_of result ≡ conditions_by given.entry.now }
    {
        Enumeration {
            limits: given.settings.limits,
            speed: given.settings.speed,
            fates: &given.settings.fates,
            changes: &given.changes,
            flags: given.flags,
        }
    }
}

/// Reads a descriptor file to its end, and enumerates a device of this speed that has these descriptors, over a bus with
/// these fates. It writes a line of what came of that, and after success the listing of the file that the host has read.
/// The number in `Ok` is 0 after success. It is 1 where the enumeration had trouble, and where no device of this speed
/// can have the descriptors.
///
/// ```rust
/// let mut input: &[u8] = &[18, 1, 0, 2, 0, 0, 0, 64, 0x34, 0x12, 0x78, 0x56, 0, 1, 0, 0, 0, 0];
/// let mut lines = Vec::new(alloc);
/// let limits = Limits::new(1, 16, 3)?;
/// assert_eq!(rt; run_enumerate(alloc, &mut input, &mut lines, limits, Speed::Full, &[])?, 1);
/// // A device has a configuration.
/// assert_eq!(rt; lines.as_slice(), b"refused 1 V10 main 0 0 0\n");
/// ```
///
/// # Errors
///
/// `Read` where the reader failed, `TooLarge` at the first byte over [`FILE_LIMIT`], and `File` with the fault of
/// the whole input. Nothing is written then. `Write` where the writer or its flush failed; a prefix of the text is
/// written then, and may be all of it. `Memory` if an allocation fails outside the host, and in the host it is the outcome
/// of the enumeration; at least the last byte of the text is not written then.
pub fn run_enumerate<R: Read, W: Write>(
    alloc: Global,
    r: &mut R,
    w: &mut W,
    l: Limits,
    s: Speed,
    fates: &[Fate],
) -> Result<u8, ToolFault>
    ensures enumerated { IfOk result (Enumerated (under l s fates.now [] no_flags) (R.remaining r.old) (R.remaining r.new) (W.contents w.old) (W.contents w.new)) }
    ensures err { IfErr result (EnumerateFails (under l s fates.now [] no_flags) (R.remaining r.old) (R.remaining r.new) (W.contents w.old) (W.contents w.new)) }
{
    let flags = EnumerateFlags {
        log: false,
        brief: false,
        packets: false,
        with_strings: false,
        choice: Choice::everything(),
    };
    let enumeration = Enumeration {
        limits: l,
        speed: s,
        fates,
        changes: &[],
        flags,
    };
    match run_enumeration(alloc, r, w, &enumeration) {
        Ok(end) => Ok(end.status()),
        Err(fault) => Err(fault),
    }
}

/// The same with all that an enumeration is made under, and answers how it has ended. Where the flags say so a dump is taken too, and
/// a log is written, of which a line for each bus reset, each transfer and each transaction comes before the result, as soon as
/// it is done. A brief log has no lines of data. One that shows packets, or over a bus that changes bits, is of a bus of bytes:
/// it shows the packets in which bits change.
///
/// ```rust
/// let mut dump: &[u8] = &[18, 1, 0, 2, 0, 0, 0, 64, 0x34, 0x12, 0x78, 0x56, 0, 1, 1, 0, 0, 0];
/// let mut lines = Vec::new(alloc);
/// let limits = Limits::new(1, 16, 3)?;
/// let choice = Choice::everything();
/// let flags = EnumerateFlags { log: false, brief: false, packets: false, with_strings: true, choice };
/// let enumeration = Enumeration { limits, speed: Speed::Full, fates: &[], changes: &[], flags };
/// let end = run_enumeration(alloc, &mut dump, &mut lines, &enumeration)?;
/// assert_eq!(rt; end.status(), 1);
/// // A device has a configuration.
/// assert_eq!(rt; lines.as_slice(), b"refused 1 V10 main 0 0 0\n");
/// ```
///
/// # Errors
///
/// Those of [`run_enumerate`]. Where one comes within the log, the enumeration goes no further: the log was written up to
/// a step, and of that step's lines a prefix, or nothing out of memory.
pub fn run_enumeration<R: Read, W: Write>(
    alloc: Global,
    r: &mut R,
    w: &mut W,
    enumeration: &Enumeration<'_>,
) -> Result<EnumerationEnd, ToolFault>
    ensures enumerated { IfOk result (EnumeratedTo (conditions_of enumeration.now) (R.remaining r.old) (R.remaining r.new) (W.contents w.old) (W.contents w.new)) }
    ensures err { IfErr result (EnumerateFails (conditions_of enumeration.now) (R.remaining r.old) (R.remaining r.new) (W.contents w.old) (W.contents w.new)) }
{
    let bytes = read_all(alloc, r, FILE_LIMIT)?;
    enumerate_bytes(alloc, bytes, w, enumeration)
}

/// Writes what comes of the file that the bytes are, and flushes the writer. The bytes are let go as soon as they are read, and
/// the file before the enumeration, so that it is there once at a time: the device keeps the bytes of its descriptors alone.
fn enumerate_bytes<W: Write>(
    alloc: Global,
    bytes: Vec<u8>,
    w: &mut W,
    enumeration: &Enumeration<'_>,
) -> Result<EnumerationEnd, ToolFault>
    ensures ok { IfOk result (WritesResult (conditions_of enumeration.now) bytes.items (W.contents w.old) (W.contents w.new)) }
    ensures err { IfErr result (RefusesToEnumerate (conditions_of enumeration.now) bytes.items (W.contents w.old) (W.contents w.new)) }
{
    let file = file_of(alloc, &bytes, enumeration.flags.with_strings)?;
    drop(bytes);
    let description = match Encoded::new(alloc, &file, enumeration.speed) {
        Ok(description) => description,
        Err(fault) => {
            if fault == DescriptionFault::Memory {
                return Err(ToolFault::Memory);
            }
            return tell_refusal(alloc, fault, w);
        }
    };
    drop(file);
    let run = run_over(alloc, &description, enumeration, w)?;
    tell_run(alloc, &run, w)
}

/// The file that the bytes are, or, where strings are asked for, the one that is made of a dump.
fn file_of(alloc: Global, bytes: &[u8], with_strings: bool) -> Result<DescriptorFile, FileFault>
    ensures ok { IfOk result (λ f. IsTaken with_strings f bytes.now) }
    ensures err { IfErr result (λ fault. fault.why ≢ files.Memory → IsNotTaken with_strings bytes.now fault) }
{
    if with_strings {
        read_completed(alloc, bytes)
    } else {
        read_file(alloc, bytes)
    }
}

/// The enumeration of a device, whose speed is the description's, over a bus of bytes where bits change on it.
fn run_over<W: Write>(
    alloc: Global,
    d: &Encoded,
    enumeration: &Enumeration<'_>,
    w: &mut W,
) -> Result<Run, ToolFault>
    ensures ok { IfOk result (MakesRun (conditions_at d.now.speed enumeration.now) d.now.file (W.contents w.old) (W.contents w.new)) }
    ensures err { IfErr result (BreaksRun (conditions_at d.now.speed enumeration.now) d.now.file (W.contents w.old) (W.contents w.new)) }
{
    if has_bytes(enumeration.changes, enumeration.flags) {
        run_on_the_wire(alloc, d, enumeration, w)
    } else {
        run_losing(alloc, d, enumeration, w)
    }
}

/// Whether the bus carries bytes.
fn has_bytes(changes: &[BitChange], flags: EnumerateFlags) -> bool
    ensures { result ≡ has_bytes changes.now flags }
{
    match changes {
        [] => flags.packets,
        [_, ..] => true,
    }
}

/// The enumeration over a bus of bytes, and its log where one is asked for.
fn run_on_the_wire<W: Write>(
    alloc: Global,
    d: &Encoded,
    enumeration: &Enumeration<'_>,
    w: &mut W,
) -> Result<Run, ToolFault>
    requires { has_bytes enumeration.now.changes.now enumeration.now.flags ≡ true }
    ensures ok { IfOk result (MakesRun (conditions_at d.now.speed enumeration.now) d.now.file (W.contents w.old) (W.contents w.new)) }
    ensures err { IfErr result (BreaksRun (conditions_at d.now.speed enumeration.now) d.now.file (W.contents w.old) (W.contents w.new)) }
{
    let Enumeration {
        limits,
        fates,
        changes,
        flags,
        ..
    } = *enumeration;
    if flags.log {
        let logging = Logging {
            fates,
            changes,
            brief: flags.brief,
            packets: flags.packets,
        };
        let run = enumerate_on_the_wire_logged_with(alloc, d, limits, flags.choice, logging, w)?;
        Ok(run)
    } else {
        Ok(enumerate_on_the_wire_with(alloc, d, limits, flags.choice, fates, changes))
    }
}

/// The enumeration over a bus that loses packets alone, and its log where one is asked for.
fn run_losing<W: Write>(
    alloc: Global,
    d: &Encoded,
    enumeration: &Enumeration<'_>,
    w: &mut W,
) -> Result<Run, ToolFault>
    requires { enumeration.now.flags.packets ≡ false }
    ensures ok { IfOk result (MakesRun (unchanged d.now.speed enumeration.now) d.now.file (W.contents w.old) (W.contents w.new)) }
    ensures err { IfErr result (BreaksRun (unchanged d.now.speed enumeration.now) d.now.file (W.contents w.old) (W.contents w.new)) }
{
    let Enumeration {
        limits,
        fates,
        flags,
        ..
    } = *enumeration;
    if flags.log {
        let run = enumerate_logged_with(alloc, d, limits, flags.choice, fates, flags.brief, w)?;
        Ok(run)
    } else {
        Ok(enumerate_with(alloc, d, limits, flags.choice, fates))
    }
}

fn tell_refusal<W: Write>(
    alloc: Global,
    fault: DescriptionFault,
    w: &mut W,
) -> Result<EnumerationEnd, ToolFault>
    ensures ok { IfOk result (EndsWith (refused_line fault) (Refused fault) (W.contents w.old) (W.contents w.new)) }
    ensures err { IfErr result (IsCutShort (refused_line fault) (W.contents w.old) (W.contents w.new)) }
{
    let line = RefusedLine(fault).to_string(alloc)?;
    tell_line(line.as_bytes(), EnumerationEnd::Refused(fault), w)
}

fn tell_run<W: Write>(alloc: Global, run: &Run, w: &mut W) -> Result<EnumerationEnd, ToolFault>
    ensures ok { IfOk result (EndsWith (run_text run.now.outcome run.now) (end_of run.now.outcome) (W.contents w.old) (W.contents w.new)) }
    ensures err { IfErr result (IsCutShort (run_text run.now.outcome run.now) (W.contents w.old) (W.contents w.new)) }
{
    match &run.outcome {
        Ok(file) => tell_success(alloc, run, file, w),
        Err(trouble) => tell_trouble(alloc, run, *trouble, w),
    }
}

fn tell_success<W: Write>(
    alloc: Global,
    run: &Run,
    file: &DescriptorFile,
    w: &mut W,
) -> Result<EnumerationEnd, ToolFault>
    ensures ok { IfOk result (EndsWith (success_line run.now ++ file_lines file.now) Success (W.contents w.old) (W.contents w.new)) }
    ensures err { IfErr result (IsCutShort (success_line run.now ++ file_lines file.now) (W.contents w.old) (W.contents w.new)) }
{
    let line = SuccessLine(run).to_string(alloc)?;
    write_all(w, line.as_bytes())?;
    list(alloc, file, w)?;
    match w.flush() {
        Ok(()) => Ok(EnumerationEnd::Success),
        Err(_) => Err(ToolFault::Write),
    }
}

fn tell_trouble<W: Write>(
    alloc: Global,
    run: &Run,
    trouble: Trouble,
    w: &mut W,
) -> Result<EnumerationEnd, ToolFault>
    ensures ok { IfOk result (EndsWith (trouble_line trouble run.now) (TroubleEnd trouble) (W.contents w.old) (W.contents w.new)) }
    ensures err { IfErr result (IsCutShort (trouble_line trouble run.now) (W.contents w.old) (W.contents w.new)) }
{
    let line = TroubleLine(trouble, run).to_string(alloc)?;
    tell_line(line.as_bytes(), EnumerationEnd::Trouble(trouble), w)
}

/// Writes a line that is the whole output, and flushes the writer.
fn tell_line<W: Write>(
    line: &[u8],
    end: EnumerationEnd,
    w: &mut W,
) -> Result<EnumerationEnd, ToolFault>
    ensures ok { IfOk result (EndsWith line.now end (W.contents w.old) (W.contents w.new)) }
    ensures err { IfErr result (IsCutShort line.now (W.contents w.old) (W.contents w.new)) }
{
    match write_flushed(w, line) {
        Ok(()) => Ok(end),
        Err(_) => Err(ToolFault::Write),
    }
}
