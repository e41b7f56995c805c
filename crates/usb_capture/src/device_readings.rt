//! Whole readings of the descriptors of the devices that have their addresses now.
ghost use Rattle.std.specs.Prelude.{◌≡◌, ◌++◌, ◌∷◌, [], List, OnOk, filter, not};
ghost use Rattle.std.specs.List.{list_any};
ghost use Rattle.usb_capture.specs.declared.control_transfer.ControlTransfer.{ControlTransfer};
ghost use Rattle.usb_capture.specs.DeviceReadings.{HasCurrent, current_with, gives_address, is_other_descriptor, is_other_device, is_past, reads_device};

use crate::answer::differ;
use crate::change::sets_address;
use crate::control_transfer::ControlTransfer;
use crate::readings::{Readings, is_again, is_reading};
use std::alloc::{AllocError, Global};

/// Keeps of control transfers, taken in order, the last by which all of a descriptor came, as [`Readings`] does, but of the
/// device that has its address now: where SET_ADDRESS gives an address (USB 2.0, 9.4.6), or another device descriptor comes
/// from it, what came from that address before is forgotten.
#[derive(Debug, Drop)]
pub struct DeviceReadings {
    pub(crate) readings: Readings,
}

impl DeviceReadings {
    /// One that has taken no transfer.
    pub fn new(alloc: Global) -> DeviceReadings
        ensures { HasCurrent [] result }
    {
        DeviceReadings {
            readings: Readings::new(alloc),
        }
    }

    /// Takes a transfer, and keeps it if it is a reading, in place of an earlier one of the same descriptor.
    ///
    /// # Errors
    ///
    /// Out of memory; the transfer isn't kept then.
    pub fn take(&mut self, transfer: ControlTransfer) -> Result<(), AllocError>
        ensures { OnOk result ((transfers : List ControlTransfer) → HasCurrent transfers self.old → HasCurrent (transfers ++ transfer ∷ []) self.new) }
    {
        self.keep(transfer)
    }

    /// The readings, in order of time.
    pub fn as_slice(&self) -> &[ControlTransfer]
        ensures { result.now ≡ self.now.readings.kept.items }
    {
        self.readings.as_slice()
    }

    /// The same as [`DeviceReadings::take`], by what is kept.
    fn keep(&mut self, transfer: ControlTransfer) -> Result<(), AllocError>
        ensures { OnOk result (self.new.readings.kept.items ≡ current_with transfer self.old.readings.kept.items) }
    {
        let is_other = is_other_device(&transfer, self.readings.as_slice());
        self.forget_past(&transfer, is_other);
        self.readings.keep(transfer)
    }

    /// Forgets what is another device's, or its who had the address before, from a transfer on.
    fn forget_past(&mut self, transfer: &ControlTransfer, is_other: bool)
        ensures { self.new.readings.kept.items ≡ filter (λ old. not (is_past is_other transfer.now old)) self.old.readings.kept.items }
    {
        self.readings
            .kept
            .retain(|old| !is_past(is_other, transfer, old));
    }
}

/// Whether it is another device descriptor than the one that is kept of its device.
fn is_other_device(transfer: &ControlTransfer, kept: &[ControlTransfer]) -> bool
    ensures { result ≡ is_other_device transfer.now kept.now }
{
    reads_device(transfer) && differs_from_any(transfer, kept)
}

/// Whether it is a reading of the device descriptor.
fn reads_device(transfer: &ControlTransfer) -> bool
    ensures { result ≡ reads_device transfer.now }
{
    is_reading(transfer) && transfer.setup.value == 0x0100
}

/// Whether it differs from a reading of the same descriptor.
fn differs_from_any(transfer: &ControlTransfer, kept: &[ControlTransfer]) -> bool
    ensures { result ≡ list_any (is_other_descriptor transfer.now) kept.now }
{
    kept.iter().any(|old| is_other_descriptor(transfer, old))
}

/// Whether two readings of one descriptor differ.
fn is_other_descriptor(transfer: &ControlTransfer, old: &ControlTransfer) -> bool
    ensures { result ≡ is_other_descriptor transfer.now old.now }
{
    is_again(transfer, old)
        && (transfer.data.len() != old.data.len()
            || differ(transfer.data.as_slice(), old.data.as_slice()))
}

/// Whether a reading is one of those that are forgotten.
fn is_past(is_other: bool, transfer: &ControlTransfer, old: &ControlTransfer) -> bool
    ensures { result ≡ is_past is_other transfer.now old.now }
{
    gives_address(transfer, old)
        || (is_other && transfer.bus == old.bus && transfer.device == old.device)
}

/// Whether it is SET_ADDRESS of the address from which an earlier reading came.
fn gives_address(transfer: &ControlTransfer, old: &ControlTransfer) -> bool
    ensures { result ≡ gives_address transfer.now old.now }
{
    sets_address(&transfer.setup) && transfer.bus == old.bus && transfer.setup.value == old.device
}
