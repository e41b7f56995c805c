//! A recording, read from pieces of any length.
ghost use Rattle.std.specs.Prelude.{◌≡◌, [], ℕ, List, IfErr, IfOk, length};
ghost use Rattle.std.specs.Option.{option_map};
ghost use Rattle.usb_capture.specs.declared.frame.Frame.{Frame};
ghost use Rattle.usb_capture.specs.DeviceFiles.{IsLack, IsMade};
ghost use Rattle.usb_capture_lines.specs.Following.{HasRead, Takes, readings_of, unended_in};
ghost use Rattle.usb_capture_lines.specs.Observations.{Observed};
ghost use Rattle.usb_capture_lines.specs.Recordings.{asked_at};

use crate::follower::Follower;
use crate::seen_device::SeenDevice;
use crate::selection::DeviceAddress;
use crate::shown::Shown;
use std::alloc::Global;
use usb_capture::{CaptureFault, CaptureReader, ControlTransfer, DeviceFile, FileLack};

/// Takes the bytes of a recording in pieces of any length, and shows what is over with each frame: a control transfer, and what USB
/// 2.0 forbids in it and in packets. It keeps what is open, what devices said of themselves, the last whole reading of each
/// descriptor of the devices that have their addresses now, and which devices there were, however long the recording is.
///
/// ```rust
/// let mut recording = RecordingReader::new(alloc);
/// let mut rest = piece;
/// while !rest.is_empty() {
///     let used = recording.feed(rest)?;
///     rest = &rest[used..];
///     if let Some(transfer) = &recording.shown().transfer {
///         println!(rt; "{} bytes", transfer.length)?;
///     }
/// }
/// ```
#[derive(Debug, Drop)]
pub struct RecordingReader {
    alloc: Global,
    reader: CaptureReader,
    follower: Follower,
    shown: Shown,
}

impl RecordingReader {
    /// One that has taken no byte.
    pub fn new(alloc: Global) -> RecordingReader
        ensures { HasRead [] [] [] result }
    {
        RecordingReader {
            alloc,
            reader: CaptureReader::new(alloc),
            follower: Follower::new(alloc),
            shown: Shown::nothing(alloc),
        }
    }

    /// Takes bytes from the beginning of a piece, one at least if there is one, up to the end of a part of the file, and shows what
    /// the frame of that part shows. Answers how many.
    ///
    /// # Errors
    ///
    /// The fault of the first part that has one, and from then on the same; what is known of the frames before stays. `Memory`:
    /// what is known isn't said then.
    pub fn feed(&mut self, piece: &[u8]) -> Result<usize, CaptureFault>
        ensures { Takes self.old piece.now result self.new }
    {
        match self.reader.feed(piece) {
            Ok(step) => {
                self.shown = self.follower.follow(step.frame)?;
                Ok(step.used)
            }
            Err(fault) => Err(fault),
        }
    }

    /// How many bytes have come of a part that isn't whole: where the file ends now, it is cut if this isn't 0.
    pub fn pending(&self) -> u64
        ensures { (bytes : List ℕ) (frames : List Frame) (observed : List Observed) (read : HasRead bytes frames observed self.now) → result ≡ length read.read.1 }
    {
        self.reader.pending()
    }

    /// Where the part begins that is being read or has the fault.
    pub fn place(&self) -> u64
        ensures { result ≡ self.now.reader.place }
    {
        self.reader.place()
    }

    /// What the last piece has shown.
    pub fn shown(&self) -> &Shown
        ensures { result.now ≡ self.now.shown }
    {
        &self.shown
    }

    /// The transfer with this number, from 0 on, of those whose end hasn't come: those of hosts first, then those of the bus.
    pub fn unended(&self, number: usize) -> Option<&ControlTransfer>
        ensures { option_map (λ t. t.now) result ≡ unended_in self.now number }
    {
        let hosts = self.follower.observer.unended();
        let on_bus = self.follower.observer.unended_on_bus();
        let open = hosts
            .get(number)
            .or(on_bus.get(number.saturating_sub(hosts.len())))?;
        Some(&open.transfer)
    }

    /// The devices so far, in the order in which they are first seen, each with how many findings it has.
    pub fn devices(&self) -> &[SeenDevice]
        ensures { result.now ≡ self.now.follower.devices.items }
    {
        &self.follower.devices
    }

    /// The descriptors of a device that came, as a file or a dump.
    ///
    /// # Errors
    ///
    /// What lacks for a dump, or out of memory.
    pub fn file(&self, device: DeviceAddress) -> Result<DeviceFile, FileLack>
        ensures ok { IfOk result (IsMade (readings_of self.now) (asked_at device)) }
        ensures err { IfErr result (IsLack (readings_of self.now) (asked_at device)) }
    {
        self.follower
            .readings
            .file(self.alloc, device.bus, device.device)
    }
}
