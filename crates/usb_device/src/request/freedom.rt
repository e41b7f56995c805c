//! Requests that a device may carry out or refuse.
ghost use Rattle.std.specs.Prelude.{◌≡◌};

use super::Request;
use usb_fields::{Class, Recipient, feature, request};

impl<'r> Request<'r> {
    ghost use Rattle.usb_device.specs.Offers.{offer_in};
    ghost use Rattle.usb_fields.specs.Setup.{recipient_of};
    ghost use Rattle.usb_device.specs.Freedoms.{by_code, is_either_to, is_endpoint, may_halt, may_set, names_isochronous};

    /// Whether a device may do either.
    pub(crate) fn is_either(&self) -> bool
        ensures { result ≡ is_either_to (offer_in self.now.image.bytes.now) self.now.state.now self.now.setup }
    {
        self.by_code() && self.setup.length == 0 && self.setup.class() == Class::Standard
    }

    fn by_code(&self) -> bool
        ensures { result ≡ by_code (offer_in self.now.image.bytes.now) self.now.state.now self.now.setup }
    {
        match self.setup.request {
            request::SET_INTERFACE => self.may_set(),
            request::CLEAR_FEATURE | request::SET_FEATURE => self.may_halt(),
            _ => false,
        }
    }

    /// SET_INTERFACE of the only setting of an interface (9.4.10).
    fn may_set(&self) -> bool
        ensures { result ≡ may_set (offer_in self.now.image.bytes.now) self.now.state.now self.now.setup }
    {
        if !self.is_to_interface() || !self.state.is_configured() {
            return false;
        }
        if self.setup.index >= 256 || self.setup.value >= 256 {
            return false;
        }
        let number = self.setup.index as u8;
        let alternate = self.setup.value as u8;
        let settings = self.settings();
        settings.has_alternate(number, alternate) && !settings.has_other(number, alternate)
    }

    /// ENDPOINT_HALT of endpoint zero, or of an isochronous endpoint (9.4.5).
    fn may_halt(&self) -> bool
        ensures { result ≡ may_halt (offer_in self.now.image.bytes.now) self.now.state.now self.now.setup }
    {
        self.is_to_endpoint()
            && self.setup.value == feature::ENDPOINT_HALT
            && ((self.state.has_address() && self.names_endpoint_zero())
                || (self.state.is_configured() && self.names_isochronous()))
    }

    fn is_to_endpoint(&self) -> bool
        ensures { result ≡ is_endpoint (recipient_of self.now.setup.request_type) }
    {
        matches!(self.setup.recipient(), Recipient::Endpoint)
    }

    fn names_isochronous(&self) -> bool
        ensures { result ≡ names_isochronous (offer_in self.now.image.bytes.now) self.now.state.now self.now.setup.index }
    {
        let index = self.setup.index;
        index < 256
            && self
                .settings()
                .has_isochronous(&self.state.alternates, index as u8)
    }
}
