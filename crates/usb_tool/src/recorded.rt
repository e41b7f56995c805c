//! Recordings among the inputs of `explain`.
ghost use Rattle.std.specs.Prelude.{◌≡◌, Some, IfErr, IfOk};
ghost use Rattle.usb_tool.specs.Captures.{CaptureDone, CaptureFails};
ghost use Rattle.usb_tool.specs.Endings.{Left};
ghost use Rattle.usb_tool.specs.Explains.{every_line, is_recording};

use crate::capture::run_capture;
use crate::capture_options::CaptureCommand;
use crate::fault::ToolFault;
use std::alloc::Global;
use std::io::Write;
use usb_capture::begins_recording;
use usb_capture_lines::Selection;

/// Whether bytes are reported as a recording: the options don't say what they are, and they begin as one does.
pub(crate) fn is_recording(bytes: &[u8], hex: bool, loose: bool) -> bool
    ensures { result ≡ is_recording loose hex bytes.now }
{
    !loose && !hex && begins_recording(bytes)
}

/// What `capture` tells where it has no option.
const EVERY_LINE: CaptureCommand = CaptureCommand::Lines(Selection {
    brief: false,
    data: false,
    device: None,
    from: None,
    to: None,
});

/// Writes what `capture` tells of the recording that the bytes are.
pub(crate) fn tell_recording<W: Write>(
    alloc: Global,
    bytes: &[u8],
    w: &mut W,
) -> Result<u8, ToolFault>
    ensures done { IfOk result (λ status. (to : Left) × CaptureDone every_line (Some bytes.now) to (W.contents w.old) (W.contents w.new) status) }
    ensures err { IfErr result (λ fault. (to : Left) × CaptureFails every_line (Some bytes.now) to (W.contents w.old) (W.contents w.new) fault) }
{
    let mut rest = bytes;
    run_capture(alloc, &mut rest, w, EVERY_LINE)
}
