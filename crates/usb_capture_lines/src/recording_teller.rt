//! A recording, as far as it was read, and what was said of it.
ghost use Rattle.std.specs.Prelude.{◌≡◌, ◌≤◌, ◌<◌, ◌++◌, ℕ, List, [], IfErr, IfOk, OnOk, length, take};
ghost use Rattle.std.specs.Io.KnownBytes.{Appends};
ghost use Rattle.std.specs.Option.{option_to_list};
ghost use Rattle.usb_capture.specs.declared.fault.CaptureFault.{CaptureFault};
ghost use Rattle.usb_capture.specs.declared.frame.Frame.{Frame};
ghost use Rattle.usb_capture.specs.DeviceFiles.{IsLack, IsMade};
ghost use Rattle.usb_text.specs.Output.{Held};
ghost use Rattle.usb_capture_lines.specs.Recordings.{asked_at};
ghost use Rattle.usb_capture_lines.specs.RecordingTellers.{Halts, HasReported, TellerReported, ReportedBroken, ReportedUpTo, ReportedWhole, readings_of, tell_fault_of};
ghost use Rattle.usb_capture_lines.specs.declared.selection.Selection.{Selection};

use crate::selection::{DeviceAddress, Selection};
use crate::teller::Teller;
use std::alloc::Global;
use std::io::Write;
use usb_capture::{CaptureFault, CaptureReader, DeviceFile, FileLack, Frame};
use usb_fields::after;
use usb_text::OutFault;

/// Why a recording is reported no further.
#[derive(Clone, Copy, Debug, PartialEq, Eq, Hash)]
pub enum TellFault {
    /// The writer answered an error.
    Write,
    /// Out of memory.
    Memory,
    /// The bytes are no recording: why, and the place of the part that has the fault.
    Capture { why: CaptureFault, at: u64 },
}

impl From<OutFault> for TellFault {
    ghost use Rattle.usb_capture_lines.specs.RecordingTellers.{fault_of_output};

    ghost from_gives = { λ e fault. fault ≡ fault_of_output e };

    fn from(e: OutFault) -> TellFault {
        match e {
            OutFault::Write => TellFault::Write,
            OutFault::Memory => TellFault::Memory,
        }
    }
}

/// Takes the bytes of a recording in pieces of any length, and writes the lines of a [`Teller`] as frames are whole.
///
/// ```rust
/// let mut recording = RecordingTeller::new(alloc, selection, first);
/// for piece in pieces {
///     recording.take(piece, &mut writer)?;
/// }
/// recording.finish(&mut writer)?;
/// ```
#[derive(Debug, Drop)]
pub struct RecordingTeller {
    reader: CaptureReader,
    teller: Teller,
}

impl RecordingTeller {
    /// One that has taken nothing of a recording with this first byte.
    pub fn new(alloc: Global, selection: Selection, first: u8) -> RecordingTeller
        ensures { (held : Held) → HasReported selection first [] result held held }
    {
        RecordingTeller {
            reader: CaptureReader::new(alloc),
            teller: Teller::new(alloc, selection, first),
        }
    }

    /// Takes the next bytes, and writes what is to be said of the frames that are whole then.
    ///
    /// # Errors
    ///
    /// `Capture` with a fault of the recording, `Write` where the writer failed, and `Memory`.
    pub fn take<W: Write>(&mut self, piece: &[u8], w: &mut W) -> Result<(), TellFault>
        ensures ok { OnOk result ((s : Selection) (first : ℕ) (bytes : List ℕ) (held : Held) → HasReported s first bytes self.old held (W.contents w.old)
            → HasReported s first (bytes ++ piece.now) self.new held (W.contents w.new)) }
        ensures err { IfErr result (λ fault. (s : Selection) (first : ℕ) (bytes : List ℕ) (held : Held) → HasReported s first bytes self.old held (W.contents w.old)
            → Halts s first (bytes ++ piece.now) self.new held (W.contents w.new) fault) }
    {
        let mut rest = piece;
        for _ in 0..piece.len() {
            if rest.is_empty() {
                return Ok(());
            }
            match self.take_front(rest, w) {
                Ok(used) => rest = after(rest, used),
                Err(fault) => return Err(fault),
            }
        }
        Ok(())
    }

    /// Takes bytes from the beginning of a piece, one at least if there is one, up to the end of a part. Answers how many.
    fn take_front<W: Write>(&mut self, piece: &[u8], w: &mut W) -> Result<usize, TellFault>
        ensures within { IfOk result (λ used. used ≤ length piece.now) }
        ensures ok { IfOk result (λ used. (s : Selection) (first : ℕ) (bytes : List ℕ) (held : Held) → HasReported s first bytes self.old held (W.contents w.old)
            → (0 < length piece.now → 0 < used) × HasReported s first (bytes ++ take used piece.now) self.new held (W.contents w.new)) }
        ensures err { IfErr result (λ fault. (s : Selection) (first : ℕ) (bytes : List ℕ) (held : Held) → HasReported s first bytes self.old held (W.contents w.old)
            → Halts s first (bytes ++ piece.now) self.new held (W.contents w.new) fault) }
    {
        match self.reader.feed(piece) {
            Ok(step) => match tell(&mut self.teller, step.frame, w) {
                Ok(()) => Ok(step.used),
                Err(fault) => Err(TellFault::from(fault)),
            },
            Err(why) => Err(fault_at(why, self.reader.place())),
        }
    }

    /// Writes the last lines of a recording that has ended here, and answers whether something was found.
    ///
    /// # Errors
    ///
    /// `Write` and `Memory`.
    pub fn finish<W: Write>(&self, w: &mut W) -> Result<bool, OutFault>
        ensures { IfOk result (λ found. (s : Selection) (first : ℕ) (bytes : List ℕ) (held : Held) → HasReported s first bytes self.now held (W.contents w.old)
            → ReportedWhole s first bytes held (W.contents w.new) found) }
    {
        self.teller
            .finish(self.reader.place(), self.reader.pending(), w)?;
        Ok(self.teller.finds_any())
    }

    /// Writes them after a fault at this place, if a frame came before.
    ///
    /// # Errors
    ///
    /// `Write` and `Memory`.
    pub fn finish_at<W: Write>(&self, at: u64, w: &mut W) -> Result<(), OutFault>
        ensures { OnOk result ((s : Selection) (first : ℕ) (bytes : List ℕ) (why : CaptureFault) (held : Held) → ReportedUpTo s first bytes why at self.now held (W.contents w.old)
            → ReportedBroken s first bytes why at held (W.contents w.new)) }
    {
        if self.teller.has_begun() {
            self.teller.finish(at, 0, w)
        } else {
            Ok(())
        }
    }

    /// The descriptors of a device that came, as a file or a dump.
    ///
    /// # Errors
    ///
    /// What lacks for a dump, or out of memory.
    pub fn file(&self, device: DeviceAddress) -> Result<DeviceFile, FileLack>
        ensures ok { IfOk result (IsMade (readings_of self.now) (asked_at device)) }
        ensures err { IfErr result (IsLack (readings_of self.now) (asked_at device)) }
    {
        self.teller.file(device)
    }
}

/// Writes what is to be said with a frame, if there is one.
fn tell<W: Write>(teller: &mut Teller, frame: Option<Frame>, w: &mut W) -> Result<(), OutFault>
    ensures { OnOk result ((s : Selection) (first : ℕ) (frames : List Frame) (held : Held) → TellerReported s first frames teller.old held (W.contents w.old)
        → TellerReported s first (frames ++ option_to_list frame) teller.new held (W.contents w.new)) }
{
    match frame {
        Some(frame) => teller.take(&frame, w),
        None => Ok(()),
    }
}

/// Why a recording with this fault is reported no further.
fn fault_at(why: CaptureFault, at: u64) -> TellFault
    ensures { result ≡ tell_fault_of why at }
{
    match why {
        CaptureFault::Memory => TellFault::Memory,
        _ => TellFault::Capture { why, at },
    }
}
