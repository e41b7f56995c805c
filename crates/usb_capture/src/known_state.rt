//! The state to which a device's control transfers have led it.
ghost use Rattle.std.specs.Prelude.{◌≡◌};
ghost use Rattle.usb_capture.specs.Conversations.{device_of, is_of_device, leaves};

use crate::asked::Asked;
use crate::change::may_change;
use crate::compared::changes_state;
use crate::control_transfer::ControlTransfer;
use crate::conversations::DEVICE;
use usb_device::State;

/// The state of a device (USB 2.0, 9.1.1), where its control transfers tell it.
#[derive(Clone, Copy, Debug, Drop)]
pub(crate) struct KnownState {
    /// The number of the device's bus.
    pub(crate) bus: u16,
    /// The address of the device.
    pub(crate) device: u16,
    /// Its state.
    pub(crate) state: State,
}

impl KnownState {
    /// Whether it is the state of the device that has this descriptor.
    pub(crate) fn is_of_device(&self, asked: Asked) -> bool
        ensures { result ≡ is_of_device asked self.now }
    {
        self.bus == asked.bus && self.device == asked.device
    }

    /// Whether the device may be in another state after a transfer.
    pub(crate) fn leaves(&self, transfer: &ControlTransfer) -> bool
        ensures { result ≡ leaves transfer.now self.now }
    {
        may_change(transfer, self.device_descriptor())
            || (changes_state(&transfer.setup) && self.is_of_device(Asked::of(transfer)))
    }

    /// The device descriptor of the device.
    fn device_descriptor(&self) -> Asked
        ensures { result ≡ device_of self.now }
    {
        Asked {
            bus: self.bus,
            device: self.device,
            value: DEVICE,
            index: 0,
        }
    }
}
