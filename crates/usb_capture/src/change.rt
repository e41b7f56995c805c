//! What may change what a device says of itself.
ghost use Rattle.std.specs.Prelude.{◌≡◌};
ghost use Rattle.usb_capture.specs.Findings.{may_change, resets_port, sets_address, sets_descriptor};

use crate::asked::Asked;
use crate::control_transfer::ControlTransfer;
use usb_fields::Setup;

/// Whether what a device said of this descriptor may not hold after a transfer: a device of its bus has been reset, and it may be
/// this one (USB 2.0, 9.1.1.3), it takes another address, or its descriptors are set.
pub(crate) fn may_change(transfer: &ControlTransfer, asked: Asked) -> bool
    ensures { result ≡ may_change transfer.now asked }
{
    transfer.bus == asked.bus
        && (transfer.device == 0
            || resets_port(&transfer.setup)
            || (transfer.device == asked.device
                && (sets_address(&transfer.setup) || sets_descriptor(&transfer.setup))))
}

/// Whether it is SET_ADDRESS (USB 2.0, 9.4.6).
pub(crate) fn sets_address(setup: &Setup) -> bool
    ensures { result ≡ sets_address setup.now }
{
    setup.request_type == 0 && setup.request == 5
}

/// Whether it is SET_DESCRIPTOR of a device (USB 2.0, 9.4.8).
fn sets_descriptor(setup: &Setup) -> bool
    ensures { result ≡ sets_descriptor setup.now }
{
    setup.request_type == 0 && setup.request == 7
}

/// Whether it is SET_FEATURE of a hub's port with PORT_RESET (USB 2.0, 11.24.2.13).
fn resets_port(setup: &Setup) -> bool
    ensures { result ≡ resets_port setup.now }
{
    setup.request_type == 0x23 && setup.request == 3 && setup.value == 4
}
