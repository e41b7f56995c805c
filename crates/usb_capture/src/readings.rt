//! Whole readings of devices' descriptors.
ghost use Rattle.std.specs.Prelude.{◌≡◌, ◌/◌, ◌++◌, ◌∷◌, [], List, OnOk, OnErr};
ghost use Rattle.usb_capture.specs.declared.control_transfer.ControlTransfer.{ControlTransfer};
ghost use Rattle.usb_capture.specs.Readings.{HasRead, full_length, is_again, is_done, is_reading, is_whole, kept_with, last_of_length, reads_descriptor, without_again};

use crate::control_transfer::ControlTransfer;
use crate::ending::Ending;
use std::alloc::{AllocError, Global};
use usb_fields::{Setup, byte_at, word_at};

/// Keeps of control transfers, taken in order, the last by which all of a descriptor came, for each descriptor of each
/// device: those of a device's GET_DESCRIPTOR (USB 2.0, 9.4.3) that were done, weren't cut and gave a descriptor of the type
/// that was asked for, with as many bytes as it says that it has.
#[derive(Debug, Drop)]
pub struct Readings {
    pub(crate) kept: Vec<ControlTransfer>,
}

impl Readings {
    /// One that has taken no transfer.
    pub fn new(alloc: Global) -> Readings
        ensures { HasRead [] result }
    {
        Readings {
            kept: Vec::new(alloc),
        }
    }

    /// Takes a transfer, and keeps it if it is a reading, in place of an earlier one of the same descriptor.
    ///
    /// # Errors
    ///
    /// Out of memory; neither of them is kept then.
    pub fn take(&mut self, transfer: ControlTransfer) -> Result<(), AllocError>
        ensures ok { OnOk result ((transfers : List ControlTransfer) → HasRead transfers self.old → HasRead (transfers ++ transfer ∷ []) self.new) }
        ensures err { OnErr result (self.new.kept.items ≡ without_again transfer self.old.kept.items) }
    {
        self.keep(transfer)
    }

    /// The readings, in order of time.
    pub fn as_slice(&self) -> &[ControlTransfer]
        ensures { result.now ≡ self.now.kept.items }
    {
        &self.kept
    }

    /// The same as [`Readings::take`], by what is kept.
    pub(crate) fn keep(&mut self, transfer: ControlTransfer) -> Result<(), AllocError>
        ensures ok { OnOk result (self.new.kept.items ≡ kept_with transfer self.old.kept.items) }
        ensures err { OnErr result (self.new.kept.items ≡ without_again transfer self.old.kept.items) }
    {
        if !is_reading(&transfer) {
            return Ok(());
        }
        self.forget(&transfer);
        self.kept.push(transfer)?;
        Ok(())
    }

    /// Forgets earlier readings of the same descriptor.
    fn forget(&mut self, transfer: &ControlTransfer)
        ensures { self.new.kept.items ≡ without_again transfer.now self.old.kept.items }
    {
        self.kept.retain(|old| !is_again(transfer, old));
    }
}

/// Whether all of a descriptor came by a transfer.
pub(crate) fn is_reading(transfer: &ControlTransfer) -> bool
    ensures { result ≡ is_reading transfer.now }
{
    reads_descriptor(&transfer.setup)
        && is_done(transfer.ending)
        && !transfer.is_cut
        && is_whole(transfer.setup.value, transfer.data.as_slice())
}

/// Whether it is a device's GET_DESCRIPTOR.
pub(crate) fn reads_descriptor(setup: &Setup) -> bool
    ensures { result ≡ reads_descriptor setup.now }
{
    setup.request_type == 0x80 && setup.request == 6
}

/// Whether all stages of a transfer were done.
pub(crate) fn is_done(ending: Ending) -> bool
    ensures { result ≡ is_done ending }
{
    match ending {
        Ending::Done => true,
        Ending::Unseen | Ending::Stall | Ending::Failed(_) | Ending::Refused(_) => false,
    }
}

/// Whether these are all bytes of a descriptor of the type that a wValue asks for.
fn is_whole(value: u16, bytes: &[u8]) -> bool
    ensures { result ≡ is_whole (value / 256) bytes.now }
{
    let kind = (value / 256) as u8;
    bytes.len() > last_of_length(kind)
        && byte_at(bytes, 1) == kind
        && bytes.len() == full_length(kind, bytes)
}

/// Which byte completes what a descriptor says of its type and its length.
fn last_of_length(kind: u8) -> usize
    ensures { result ≡ last_of_length kind }
{
    if kind == 2 || kind == 7 { 3 } else { 1 }
}

/// How many bytes the descriptor of this type has that begins so (USB 2.0, 9.6).
pub(crate) fn full_length(kind: u8, bytes: &[u8]) -> usize
    ensures { result ≡ full_length kind bytes.now }
{
    if kind == 2 || kind == 7 {
        usize::from(word_at(bytes, 2))
    } else {
        usize::from(byte_at(bytes, 0))
    }
}

/// Whether two transfers are of the same descriptor of the same device.
pub(crate) fn is_again(new: &ControlTransfer, old: &ControlTransfer) -> bool
    ensures { result ≡ is_again new.now old.now }
{
    old.bus == new.bus
        && old.device == new.device
        && old.setup.value == new.setup.value
        && old.setup.index == new.setup.index
}
