//! Which descriptor GET_DESCRIPTOR asks for.
ghost use Rattle.std.specs.Prelude.{◌≡◌};
ghost use Rattle.usb_capture.specs.Findings.{asked_of, beside, is_same};

use crate::control_transfer::ControlTransfer;

/// A descriptor, as GET_DESCRIPTOR asks a device for it (USB 2.0, 9.4.3).
#[derive(Clone, Copy, Debug)]
pub struct Asked {
    /// The number of the device's bus.
    pub bus: u16,
    /// The address of the device.
    pub device: u16,
    /// wValue: the descriptor's type in the high byte, its index in the low byte.
    pub value: u16,
    /// wIndex: the language of a string, and else 0.
    pub index: u16,
}

impl Asked {
    /// What a transfer asks for.
    pub(crate) fn of(transfer: &ControlTransfer) -> Asked
        ensures { result ≡ asked_of transfer.now }
    {
        Asked {
            bus: transfer.bus,
            device: transfer.device,
            value: transfer.setup.value,
            index: transfer.setup.index,
        }
    }

    /// Another descriptor of the same device, with no language.
    pub(crate) fn beside(self, value: u16) -> Asked
        ensures { result ≡ beside self value }
    {
        Asked {
            bus: self.bus,
            device: self.device,
            value,
            index: 0,
        }
    }

    /// Whether it is the same descriptor of the same device.
    pub(crate) fn is_same(self, other: Asked) -> bool
        ensures { result ≡ is_same self other }
    {
        self.bus == other.bus
            && self.device == other.device
            && self.value == other.value
            && self.index == other.index
    }
}
