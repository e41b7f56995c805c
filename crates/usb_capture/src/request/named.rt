//! What a request names, and what its device has.
ghost use Rattle.std.specs.Prelude.{◌≡◌, find, length, slice_index, Some, None, if◌then◌else◌};
ghost use Rattle.usb_fields.specs.Setup.{recipient_of};
ghost use Rattle.usb_device.specs.Requests.{attributes_of, has_value, is_device, is_interface, names_endpoint, names_endpoint_zero, names_interface, selected_settings, shown_attributes};
ghost use Rattle.usb_device.specs.States.{has_address, is_configured};
ghost use Rattle.usb_capture.specs.DeviceStates.{settings_said};
ghost use Rattle.usb_capture.specs.Expected.{offered};

use super::Request;
use crate::said_settings::{has_endpoint, has_interface};
use usb_fields::{Recipient, byte_at};

impl<'r> Request<'r> {
    /// Whether the device has an address (9.1.1.4).
    pub(super) fn has_address(&self) -> bool
        ensures { result ≡ has_address self.now.state.now }
    {
        self.state.address != 0
    }

    /// Whether the device is in the Configured state (9.1.1.5).
    pub(super) fn is_configured(&self) -> bool
        ensures { result ≡ is_configured self.now.state.now }
    {
        self.has_address() && self.state.selected != 0
    }

    /// Whether the recipient is the device.
    pub(super) fn is_to_device(&self) -> bool
        ensures { result ≡ is_device (recipient_of self.now.setup.request_type) }
    {
        matches!(self.setup.recipient(), Recipient::Device)
    }

    /// Whether the recipient is an interface.
    pub(super) fn is_to_interface(&self) -> bool
        ensures { result ≡ is_interface (recipient_of self.now.setup.request_type) }
    {
        matches!(self.setup.recipient(), Recipient::Interface)
    }

    /// What the device said of the selected configuration, and nothing where there is no such.
    pub(super) fn selected_set(&self) -> &[u8]
        ensures settings { settings_said (length result.now) result.now ≡ selected_settings (offered self.now) self.now.state.now }
        ensures attributes { slice_index result.now 7 ≡ attributes_of (find (has_value self.now.state.now.selected) (offered self.now).sets) }
    {
        self.conversations
            .configuration_with(self.asked, self.state.selected)
    }

    /// bmAttributes of the selected configuration, and where none is selected of the first.
    pub(super) fn shown_attributes(&self) -> u8
        ensures { result ≡ shown_attributes (offered self.now) self.now.state.now }
    {
        if self.is_configured() {
            byte_at(self.selected_set(), 7)
        } else {
            self.conversations.first_attributes(self.asked)
        }
    }

    /// Whether wIndex is an interface of the selected configuration.
    pub(super) fn names_interface(&self) -> bool
        ensures { result ≡ names_interface (offered self.now) self.now.state.now self.now.setup.index }
    {
        self.setup.index < 256 && has_interface(self.selected_set(), self.setup.index as u8)
    }

    /// Whether wIndex is endpoint zero.
    pub(super) fn names_endpoint_zero(&self) -> bool
        ensures { result ≡ names_endpoint_zero self.now.setup.index }
    {
        self.setup.index == 0 || self.setup.index == 0x80
    }

    /// wIndex, where it is an endpoint of a setting that is chosen in the selected configuration.
    pub(super) fn endpoint(&self) -> Option<u8>
        ensures { result ≡ (if names_endpoint (offered self.now) self.now.state.now self.now.setup.index then Some self.now.setup.index else None) }
    {
        if self.setup.index >= 256 {
            return None;
        }
        let address = self.setup.index as u8;
        if has_endpoint(self.selected_set(), &self.state.alternates, address) {
            Some(address)
        } else {
            None
        }
    }
}
