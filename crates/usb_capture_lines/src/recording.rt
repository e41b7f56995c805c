//! Reading a recording of any length.
ghost use Rattle.std.specs.Prelude.{◌≡◌, ◌∷◌, ℕ, List, [], IfErr, IfOk, OnOk};
ghost use Rattle.std.specs.Io.KnownBytes.{IsAtEnd, Keeps};
ghost use Rattle.usb_text.specs.Output.{Held};
ghost use Rattle.usb_capture_lines.specs.RecordingRuns.{EndsBroken, EndsWhole, HasNoFile, IsWriteFault, Left, MakesFile, Pours, PoursInVain, ReadsByte, ReadsOn, RecordingStops, RecordingReported, Stops, StopsTelling, ReportedAfter, device_fault_of, first_byte, recording_fault_of};
ghost use Rattle.usb_capture_lines.specs.RecordingTellers.{HasReported, ReportedUpTo};
ghost use Rattle.usb_capture_lines.specs.declared.recording.RecordingFault.TheVariants as faults;
ghost use Rattle.usb_capture_lines.specs.declared.selection.Selection.{Selection};

use crate::recording_teller::{RecordingTeller, TellFault};
use crate::selection::{DeviceAddress, Selection};
use std::alloc::Global;
use std::io;
use std::io::{Read, Write};
use usb_capture::{CaptureFault, DeviceFile, FileLack};
use usb_text::OutFault;

/// How many bytes are asked of the reader at a time.
const CHUNK: usize = 4096;

/// Why a recording was reported no further.
#[derive(Clone, Copy, Debug, PartialEq, Eq, Hash)]
pub enum RecordingFault {
    /// The reader answered an error.
    Read,
    /// There were 2^64 - 1 pieces.
    TooLarge,
    /// The writer answered an error, or took none of some bytes.
    Write,
    /// Out of memory.
    Memory,
    /// The bytes are no recording: why, and the place of the part that has the fault.
    Capture { why: CaptureFault, at: u64 },
}

/// Why there is no file of a device.
#[derive(Clone, Copy, Debug, PartialEq, Eq, Hash)]
pub enum DeviceFault {
    /// The recording wasn't read to its end.
    Recording(RecordingFault),
    /// This lacks in it.
    Lack(FileLack),
}

/// Reads a recording to its end, and writes its lines as its bytes come. At last the writer is flushed. It answers whether
/// something was found in the transfers and packets of a device whose lines are wanted; where those of all are, also in packets
/// of none that is known.
///
/// # Errors
///
/// `Read` where the reader failed, and `TooLarge` after 2^64 - 1 pieces: the lines of what came before are written then.
/// `Capture` with a fault of the recording; the last lines are written too then, if a frame came before. `Write` where the
/// writer or its flush failed, and `Memory`.
pub fn tell_recording<R: Read, W: Write>(
    alloc: Global,
    selection: Selection,
    r: &mut R,
    w: &mut W,
) -> Result<bool, RecordingFault>
    ensures ok { IfOk result (RecordingReported selection (R.remaining r.old) (R.remaining r.new) (W.contents w.old) (W.contents w.new)) }
    ensures err { IfErr result (RecordingStops selection (R.remaining r.old) (R.remaining r.new) (W.contents w.old) (W.contents w.new)) }
{
    match read_byte(r) {
        Ok(Some(first)) => tell_rest(alloc, selection, first, r, w),
        Ok(None) => end(&RecordingTeller::new(alloc, selection, 0), w),
        Err(_) => Err(RecordingFault::Read),
    }
}

/// Does so after the first byte.
fn tell_rest<R: Read, W: Write>(
    alloc: Global,
    selection: Selection,
    first: u8,
    r: &mut R,
    w: &mut W,
) -> Result<bool, RecordingFault>
    ensures ok { IfOk result (ReportedAfter selection (first ∷ []) (R.remaining r.old) (R.remaining r.new) (W.contents w.old) (W.contents w.new)) }
    ensures err { IfErr result (λ fault. ReadsOn (first ∷ []) (λ bytes. StopsTelling selection bytes (W.contents w.old) (W.contents w.new) fault) (R.remaining r.old) (R.remaining r.new)) }
{
    let mut recording = RecordingTeller::new(alloc, selection, first);
    match read_recording(&mut recording, first, r, w) {
        Ok(()) => end(&recording, w),
        Err(stop) => Err(stopped(&recording, stop, w)),
    }
}

/// Writes the last lines of a recording that was read to its end, and answers whether something was found.
fn end<W: Write>(recording: &RecordingTeller, w: &mut W) -> Result<bool, RecordingFault>
    ensures ok { IfOk result (EndsWhole recording.now (W.contents w.old) (W.contents w.new)) }
    ensures err { IfErr result IsWriteFault }
{
    match recording.finish(w) {
        Ok(found) => {
            flush(w)?;
            Ok(found)
        }
        Err(OutFault::Write) => Err(RecordingFault::Write),
        Err(OutFault::Memory) => Err(RecordingFault::Memory),
    }
}

/// The fault of a recording that was read no further, after what is still to be written.
fn stopped<W: Write>(recording: &RecordingTeller, stop: RecordingFault, w: &mut W) -> RecordingFault
    ensures { (s : Selection) (bytes : List ℕ) (held : Held) → Stops s (first_byte bytes) bytes recording.now held (W.contents w.old) stop
        → StopsTelling s bytes held (W.contents w.new) result }
{
    match stop {
        RecordingFault::Read => RecordingFault::Read,
        RecordingFault::TooLarge => RecordingFault::TooLarge,
        RecordingFault::Write => RecordingFault::Write,
        RecordingFault::Memory => RecordingFault::Memory,
        RecordingFault::Capture { why, at } => end_at(recording, why, at, w),
    }
}

/// The fault of a recording, after the last lines of what came before it.
fn end_at<W: Write>(
    recording: &RecordingTeller,
    why: CaptureFault,
    at: u64,
    w: &mut W,
) -> RecordingFault
    ensures { (s : Selection) (first : ℕ) (bytes : List ℕ) (held : Held) → ReportedUpTo s first bytes why at recording.now held (W.contents w.old)
        → EndsBroken s first bytes why at held (W.contents w.new) result }
{
    match recording.finish_at(at, w) {
        Ok(()) => match flush(w) {
            Ok(()) => RecordingFault::Capture { why, at },
            Err(_) => RecordingFault::Write,
        },
        Err(OutFault::Write) => RecordingFault::Write,
        Err(OutFault::Memory) => RecordingFault::Memory,
    }
}

/// Flushes a writer after all was written.
fn flush<W: Write>(w: &mut W) -> Result<(), RecordingFault>
    ensures kept { Keeps (W.contents w.old) (W.contents w.new) }
    ensures err { IfErr result (λ fault. fault ≡ faults.Write) }
{
    match w.flush() {
        Ok(()) => Ok(()),
        Err(_) => Err(RecordingFault::Write),
    }
}

/// Reads a recording to its end, after its first byte, and writes what is to be reported of its frames.
fn read_recording<R: Read, W: Write>(
    recording: &mut RecordingTeller,
    first: u8,
    r: &mut R,
    w: &mut W,
) -> Result<(), RecordingFault>
    ensures ended { OnOk result (IsAtEnd (R.remaining r.new)) }
    ensures ok { OnOk result ((s : Selection) (held : Held) → HasReported s first [] recording.old held (W.contents w.old)
        → Pours s first (first ∷ []) (R.remaining r.old) (R.remaining r.new) recording.new held (W.contents w.new)) }
    ensures err { IfErr result (λ stop. (s : Selection) (held : Held) → HasReported s first [] recording.old held (W.contents w.old)
        → PoursInVain s first (first ∷ []) (R.remaining r.old) (R.remaining r.new) recording.new held (W.contents w.new) stop) }
{
    match recording.take(&[first], w) {
        Ok(()) => read_rest(recording, r, w),
        Err(fault) => Err(recording_fault_of(fault)),
    }
}

/// Reads it to its end from here.
fn read_rest<R: Read, W: Write>(
    recording: &mut RecordingTeller,
    r: &mut R,
    w: &mut W,
) -> Result<(), RecordingFault>
    ensures ended { OnOk result (IsAtEnd (R.remaining r.new)) }
    ensures ok { OnOk result ((s : Selection) (first : ℕ) (before : List ℕ) (held : Held) → HasReported s first before recording.old held (W.contents w.old)
        → Pours s first before (R.remaining r.old) (R.remaining r.new) recording.new held (W.contents w.new)) }
    ensures err { IfErr result (λ stop. (s : Selection) (first : ℕ) (before : List ℕ) (held : Held) → HasReported s first before recording.old held (W.contents w.old)
        → PoursInVain s first before (R.remaining r.old) (R.remaining r.new) recording.new held (W.contents w.new) stop) }
{
    let mut buffer = [0u8; CHUNK];
    for _ in 0..u64::MAX {
        let read = match r.read(&mut buffer) {
            Ok(0) => return Ok(()),
            Ok(read) => read,
            Err(_) => return Err(RecordingFault::Read),
        };
        match recording.take(&buffer[..read], w) {
            Ok(()) => {}
            Err(fault) => return Err(recording_fault_of(fault)),
        }
    }
    Err(RecordingFault::TooLarge)
}

/// The next byte, if there is one.
fn read_byte<R: Read>(r: &mut R) -> Result<Option<u8>, RecordingFault>
    ensures ok { IfOk result (ReadsByte (R.remaining r.old) (R.remaining r.new)) }
    ensures err { IfErr result (λ fault. Keeps (R.remaining r.old) (R.remaining r.new)) }
{
    let mut byte = [0u8];
    match r.read(&mut byte) {
        Ok(0) => Ok(None),
        Ok(_) => Ok(Some(byte[0])),
        Err(_) => Err(RecordingFault::Read),
    }
}

/// Reads a recording to its end, and makes a file or a dump of the descriptors of one of its devices.
///
/// # Errors
///
/// `Recording` as [`tell_recording`] has it, and `Lack` with what lacks for a dump.
pub fn read_device<R: Read>(
    alloc: Global,
    device: DeviceAddress,
    r: &mut R,
) -> Result<DeviceFile, DeviceFault>
    ensures ended { OnOk result (IsAtEnd (R.remaining r.new)) }
    ensures ok { IfOk result (λ file. ReadsOn [] (λ bytes. MakesFile device bytes file) (R.remaining r.old) (R.remaining r.new)) }
    ensures err { IfErr result (λ fault. ReadsOn [] (λ bytes. HasNoFile device (R.remaining r.new) bytes fault) (R.remaining r.old) (R.remaining r.new)) }
{
    match read_byte(r) {
        Ok(Some(first)) => read_device_rest(alloc, device, first, r),
        Ok(None) => file_of(&RecordingTeller::new(alloc, BRIEF, 0), device),
        Err(_) => Err(DeviceFault::Recording(RecordingFault::Read)),
    }
}

/// No line of a transfer.
const BRIEF: Selection = Selection {
    brief: true,
    data: false,
    device: None,
    from: None,
    to: None,
};

/// Does so after the first byte.
fn read_device_rest<R: Read>(
    alloc: Global,
    device: DeviceAddress,
    first: u8,
    r: &mut R,
) -> Result<DeviceFile, DeviceFault>
    ensures ended { OnOk result (IsAtEnd (R.remaining r.new)) }
    ensures ok { IfOk result (λ file. ReadsOn (first ∷ []) (λ bytes. MakesFile device bytes file) (R.remaining r.old) (R.remaining r.new)) }
    ensures err { IfErr result (λ fault. ReadsOn (first ∷ []) (λ bytes. HasNoFile device (R.remaining r.new) bytes fault) (R.remaining r.old) (R.remaining r.new)) }
{
    let mut recording = RecordingTeller::new(alloc, BRIEF, first);
    match read_recording(&mut recording, first, r, &mut io::sink()) {
        Ok(()) => file_of(&recording, device),
        Err(stop) => Err(DeviceFault::Recording(stop)),
    }
}

/// What is made of the descriptors of a device.
fn file_of(recording: &RecordingTeller, device: DeviceAddress) -> Result<DeviceFile, DeviceFault>
    ensures ok { IfOk result (λ file. (s : Selection) (first : ℕ) (bytes : List ℕ) (held holds : Held) → HasReported s first bytes recording.now held holds → MakesFile device bytes file) }
    ensures err { IfErr result (λ fault. (s : Selection) (first : ℕ) (bytes : List ℕ) (held holds : Held) (to : Left) → HasReported s first bytes recording.now held holds → IsAtEnd to
        → HasNoFile device to bytes fault) }
{
    match recording.file(device) {
        Ok(file) => Ok(file),
        Err(lack) => Err(device_fault_of(lack)),
    }
}

/// *Out of memory* is one fault, wherever it came.
fn device_fault_of(lack: FileLack) -> DeviceFault
    ensures { result ≡ device_fault_of lack }
{
    match lack {
        FileLack::Memory => DeviceFault::Recording(RecordingFault::Memory),
        _ => DeviceFault::Lack(lack),
    }
}

fn recording_fault_of(fault: TellFault) -> RecordingFault
    ensures { result ≡ recording_fault_of fault }
{
    match fault {
        TellFault::Write => RecordingFault::Write,
        TellFault::Memory => RecordingFault::Memory,
        TellFault::Capture { why, at } => RecordingFault::Capture { why, at },
    }
}
