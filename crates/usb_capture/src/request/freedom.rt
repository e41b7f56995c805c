//! Requests that a device may carry out or refuse.
ghost use Rattle.std.specs.Prelude.{◌≡◌};
ghost use Rattle.usb_fields.specs.Setup.{recipient_of};
ghost use Rattle.usb_device.specs.Freedoms.{by_code, is_either_to, is_endpoint, may_halt, may_set, names_isochronous};
ghost use Rattle.usb_capture.specs.DeviceStates as states;
ghost use Rattle.usb_capture.specs.DeviceStates.{is_either, may_wake};
ghost use Rattle.usb_capture.specs.Expected.{offered};

use super::Request;
use crate::compared::changes_feature;
use crate::said_settings::{has_alternate, has_of_type, has_other_setting};
use usb_fields::{Class, Recipient, feature, request};

impl<'r> Request<'r> {
    /// Whether a device may do either.
    pub(crate) fn is_either(&self) -> bool
        ensures { result ≡ is_either (offered self.now) self.now.state.now self.now.setup }
    {
        self.is_either_to() || self.may_wake() || self.may_halt_control()
    }

    /// Whether a device under test may.
    fn is_either_to(&self) -> bool
        ensures { result ≡ is_either_to (offered self.now) self.now.state.now self.now.setup }
    {
        self.by_code() && self.setup.length == 0 && self.setup.class() == Class::Standard
    }

    /// Remote wakeup, where one configuration has it and another doesn't (9.6.3).
    fn may_wake(&self) -> bool
        ensures { result ≡ may_wake (offered self.now) self.now.setup }
    {
        self.setup.request_type == 0
            && changes_feature(&self.setup)
            && self.conversations.can_wake(self.asked)
            && !self.conversations.can_always_wake(self.asked)
    }

    /// ENDPOINT_HALT of a control endpoint (9.4.5).
    fn may_halt_control(&self) -> bool
        ensures { result ≡ states.may_halt (offered self.now) self.now.state.now self.now.setup }
    {
        self.setup.request_type == 2
            && changes_feature(&self.setup)
            && has_of_type(
                self.selected_set(),
                &self.state.alternates,
                self.setup.index as u8,
                0,
            )
    }

    /// Whether that is so of a request of this code.
    fn by_code(&self) -> bool
        ensures { result ≡ by_code (offered self.now) self.now.state.now self.now.setup }
    {
        match self.setup.request {
            request::SET_INTERFACE => self.may_set(),
            request::CLEAR_FEATURE | request::SET_FEATURE => self.may_halt(),
            _ => false,
        }
    }

    /// SET_INTERFACE of the only setting of an interface (9.4.10).
    fn may_set(&self) -> bool
        ensures { result ≡ may_set (offered self.now) self.now.state.now self.now.setup }
    {
        if !self.is_to_interface() || !self.is_configured() {
            return false;
        }
        if self.setup.index >= 256 || self.setup.value >= 256 {
            return false;
        }
        let number = self.setup.index as u8;
        let alternate = self.setup.value as u8;
        let set = self.selected_set();
        has_alternate(set, number, alternate) && !has_other_setting(set, number, alternate)
    }

    /// ENDPOINT_HALT of endpoint zero, or of an isochronous endpoint (9.4.5).
    fn may_halt(&self) -> bool
        ensures { result ≡ may_halt (offered self.now) self.now.state.now self.now.setup }
    {
        self.is_to_endpoint()
            && self.setup.value == feature::ENDPOINT_HALT
            && ((self.has_address() && self.names_endpoint_zero())
                || (self.is_configured() && self.names_isochronous()))
    }

    /// Whether the recipient is an endpoint.
    fn is_to_endpoint(&self) -> bool
        ensures { result ≡ is_endpoint (recipient_of self.now.setup.request_type) }
    {
        matches!(self.setup.recipient(), Recipient::Endpoint)
    }

    /// Whether wIndex is an isochronous endpoint of a setting that is chosen in the selected configuration.
    fn names_isochronous(&self) -> bool
        ensures { result ≡ names_isochronous (offered self.now) self.now.state.now self.now.setup.index }
    {
        let index = self.setup.index;
        index < 256 && has_of_type(self.selected_set(), &self.state.alternates, index as u8, 1)
    }
}
