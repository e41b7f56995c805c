//! The command `capture`.
ghost use Rattle.std.specs.Prelude.{◌≡◌, IfErr, IfOk};
ghost use Rattle.usb_tool.specs.Captures.{CaptureDone, CaptureFails, made_bytes};
ghost use Rattle.usb_tool.specs.declared.capture_options.CaptureCommand.TheVariants as commands;

use crate::capture_options::CaptureCommand;
use crate::fault::{ToolFault, fault_of_device};
use crate::output::write_flushed;
use std::alloc::Global;
use std::io::{Read, Write};
use usb_capture::DeviceFile;
use usb_capture_lines::{DeviceAddress, Selection, read_device, tell_recording};

/// Reads a recording of a bus to its end, however long it is, and writes its lines as its bytes come, or the descriptors of
/// one of its devices. It keeps no more of a recording than a
/// [`RecordingTeller`](usb_capture_lines::RecordingTeller). The number in `Ok` is 1 where a device whose lines are wanted,
/// or a packet without one, breaks a rule of chapter 8 or 9, and else 0.
///
/// ```rust
/// let mut input: &[u8] = b"ffff8800 1000000 S Ci:1:005:0 s 80 06 0100 0000 0012 18 <
/// ffff8800 1000250 C Ci:1:005:0 -32 0
/// ";
/// let mut text = Vec::new(alloc);
/// let selection = Selection { brief: false, data: false, device: None, from: None, to: None };
/// run_capture(alloc, &mut input, &mut text, CaptureCommand::Lines(selection))?;
/// assert_eq!(rt; text.as_slice(), b"capture: text, usbmon
/// 0.000250   1.5   GET_DESCRIPTOR device 0, 18 bytes           STALL
///            ! the device has it: all devices do (9.4.3)
/// 2 frames, 0.000250 seconds
/// device 1.5   no device descriptor came, no configuration came, 1 finding
/// ");
/// ```
///
/// # Errors
///
/// `Read` where the reader failed, `TooLarge` after 2^64 - 1 pieces, and `Capture` with a fault of the recording: what is to be
/// reported of what came before is written then. `Lack` with what lacks for a file; nothing is written then. `Write` where the
/// writer or its flush failed, and `Memory`.
pub fn run_capture<R: Read, W: Write>(
    alloc: Global,
    r: &mut R,
    w: &mut W,
    command: CaptureCommand,
) -> Result<u8, ToolFault>
    ensures done { IfOk result (CaptureDone command (R.remaining r.old) (R.remaining r.new) (W.contents w.old) (W.contents w.new)) }
    ensures err { IfErr result (CaptureFails command (R.remaining r.old) (R.remaining r.new) (W.contents w.old) (W.contents w.new)) }
{
    match command {
        CaptureCommand::Lines(selection) => tell(alloc, selection, r, w),
        CaptureCommand::File(device) => write_file(alloc, device, r, w),
    }
}

/// Writes the lines of a recording.
fn tell<R: Read, W: Write>(
    alloc: Global,
    selection: Selection,
    r: &mut R,
    w: &mut W,
) -> Result<u8, ToolFault>
    ensures done { IfOk result (CaptureDone (commands.Lines selection) (R.remaining r.old) (R.remaining r.new) (W.contents w.old) (W.contents w.new)) }
    ensures err { IfErr result (CaptureFails (commands.Lines selection) (R.remaining r.old) (R.remaining r.new) (W.contents w.old) (W.contents w.new)) }
{
    match tell_recording(alloc, selection, r, w) {
        Ok(found) => Ok(u8::from(found)),
        Err(fault) => Err(ToolFault::from(fault)),
    }
}

/// Writes the descriptors of a device, as a file or a dump.
fn write_file<R: Read, W: Write>(
    alloc: Global,
    device: DeviceAddress,
    r: &mut R,
    w: &mut W,
) -> Result<u8, ToolFault>
    ensures done { IfOk result (CaptureDone (commands.File device) (R.remaining r.old) (R.remaining r.new) (W.contents w.old) (W.contents w.new)) }
    ensures err { IfErr result (CaptureFails (commands.File device) (R.remaining r.old) (R.remaining r.new) (W.contents w.old) (W.contents w.new)) }
{
    match read_device(alloc, device, r) {
        Ok(file) => match write_flushed(w, bytes_of(&file)) {
            Ok(()) => Ok(0),
            Err(_) => Err(ToolFault::Write),
        },
        Err(fault) => Err(fault_of_device(device, fault)),
    }
}

/// The bytes of a file or a dump.
fn bytes_of(file: &DeviceFile) -> &[u8]
    ensures { result.now ≡ made_bytes file.now }
{
    match file {
        DeviceFile::File(bytes) => bytes,
        DeviceFile::Dump(bytes) => bytes,
    }
}
