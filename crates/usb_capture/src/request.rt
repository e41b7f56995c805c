//! The table of standard requests, over what a device said: a function for each row (USB 2.0, 9.4).
ghost use Rattle.std.specs.Prelude.{◌≡◌, ◌∷◌, []};
ghost use Rattle.usb_fields.specs.Setup.{recipient_of};
ghost use Rattle.usb_device.specs.Requests.{answer_to, does, feature_of, get_configuration, get_interface, get_status, halt_feature, row, set_address, set_configuration, set_interface, status_of_device, status_of_endpoint, status_of_interface, tells, wakeup_feature};
ghost use Rattle.usb_capture.specs.Expected.{offered, outcome_of};

mod freedom;
mod named;

use crate::asked::Asked;
use crate::conversations::Conversations;
use crate::expected::Expected;
use crate::said_settings::{has_alternate, without_interface};
use usb_device::State;
use usb_fields::{Class, Direction, Recipient, Setup, feature, request};

/// A request to a device, of which it is known what it said and in which state it is.
#[derive(Clone, Copy)]
pub(crate) struct Request<'r> {
    /// What devices said.
    pub(crate) conversations: &'r Conversations,
    /// A descriptor of the device.
    pub(crate) asked: Asked,
    /// Its state.
    pub(crate) state: &'r State,
    /// The request.
    pub(crate) setup: Setup,
}

impl<'r> Request<'r> {
    /// The answer. No descriptor is given.
    #[tactic(auto, unfolding(usb_device::specs::Requests::answer_to, usb_device::specs::Requests::answer_of))]
    pub(crate) fn answer(&self) -> Expected
        ensures { outcome_of result ≡ answer_to (offered self.now) self.now.state.now self.now.setup }
    {
        match self.setup.class() {
            Class::Standard => self.by_request(),
            _ => Expected::Refused,
        }
    }

    /// The answer to a standard request, by bRequest (table 9-4).
    fn by_request(&self) -> Expected
        ensures { outcome_of result ≡ row (offered self.now) self.now.state.now self.now.setup }
    {
        match self.setup.request {
            request::GET_STATUS => self.get_status(),
            request::CLEAR_FEATURE => self.change_feature(false),
            request::SET_FEATURE => self.change_feature(true),
            request::SET_ADDRESS => self.set_address(),
            request::GET_CONFIGURATION => self.get_configuration(),
            request::SET_CONFIGURATION => self.set_configuration(),
            request::GET_INTERFACE => self.get_interface(),
            request::SET_INTERFACE => self.set_interface(),
            _ => Expected::Refused,
        }
    }

    /// GET_STATUS (9.4.5).
    fn get_status(&self) -> Expected
        ensures { outcome_of result ≡ get_status (offered self.now) self.now.state.now self.now.setup }
    {
        if self.setup.value != 0 {
            return Expected::Refused;
        }
        match self.setup.recipient() {
            Recipient::Device => self.status_of_device(),
            Recipient::Interface => self.status_of_interface(),
            Recipient::Endpoint => self.status_of_endpoint(),
            Recipient::Other | Recipient::Reserved => Expected::Refused,
        }
    }

    /// Bit 0 self-powered, bit 1 remote wakeup (figure 9-4).
    fn status_of_device(&self) -> Expected
        ensures { outcome_of result ≡ status_of_device (offered self.now) self.now.state.now self.now.setup }
    {
        if !self.has_address() || self.setup.index != 0 {
            return Expected::Refused;
        }
        self.status(self.shown_attributes() / 64 % 2 + 2 * u8::from(self.state.wakeup))
    }

    /// Two zero bytes (figure 9-5).
    fn status_of_interface(&self) -> Expected
        ensures { outcome_of result ≡ status_of_interface (offered self.now) self.now.state.now self.now.setup }
    {
        if self.is_configured() && self.names_interface() {
            self.status(0)
        } else {
            Expected::Refused
        }
    }

    /// Bit 0 the endpoint's halt (figure 9-6).
    #[tactic(auto, using(crate::proofs::StateLemmas::halted_or_not))]
    fn status_of_endpoint(&self) -> Expected
        ensures { outcome_of result ≡ status_of_endpoint (offered self.now) self.now.state.now self.now.setup }
    {
        if self.names_endpoint_zero() {
            return if self.has_address() {
                self.status(0)
            } else {
                Expected::Refused
            };
        }
        match self.endpoint() {
            Some(endpoint) if self.is_configured() => {
                self.status(u8::from(self.state.is_halted(endpoint)))
            }
            _ => Expected::Refused,
        }
    }

    /// CLEAR_FEATURE and SET_FEATURE (9.4.1 and 9.4.9).
    fn change_feature(&self, on: bool) -> Expected
        ensures { outcome_of result ≡ feature_of (recipient_of self.now.setup.request_type) on (offered self.now) self.now.state.now self.now.setup }
    {
        match self.setup.recipient() {
            Recipient::Device => self.change_wakeup(on),
            Recipient::Endpoint => self.change_halt(on),
            Recipient::Interface | Recipient::Other | Recipient::Reserved => Expected::Refused,
        }
    }

    /// DEVICE_REMOTE_WAKEUP (table 9-6).
    fn change_wakeup(&self, on: bool) -> Expected
        ensures { outcome_of result ≡ wakeup_feature on (offered self.now) self.now.state.now self.now.setup }
    {
        if self.has_address()
            && self.setup.value == feature::DEVICE_REMOTE_WAKEUP
            && self.setup.index == 0
            && self.conversations.can_wake(self.asked)
        {
            let mut next = *self.state;
            next.wakeup = on;
            self.done(next)
        } else {
            Expected::Refused
        }
    }

    /// ENDPOINT_HALT (table 9-6).
    fn change_halt(&self, on: bool) -> Expected
        ensures { outcome_of result ≡ halt_feature on (offered self.now) self.now.state.now self.now.setup }
    {
        if !self.is_configured()
            || self.setup.value != feature::ENDPOINT_HALT
            || self.names_endpoint_zero()
        {
            return Expected::Refused;
        }
        match self.endpoint() {
            Some(endpoint) => {
                let mut next = *self.state;
                next.set_halt(endpoint, on);
                self.done(next)
            }
            None => Expected::Refused,
        }
    }

    /// SET_ADDRESS (9.4.6).
    fn set_address(&self) -> Expected
        ensures { outcome_of result ≡ set_address (offered self.now) self.now.state.now self.now.setup }
    {
        if self.is_to_device()
            && !self.is_configured()
            && self.setup.value < 128
            && self.setup.index == 0
        {
            let mut next = *self.state;
            next.address = self.setup.value as u8;
            self.done(next)
        } else {
            Expected::Refused
        }
    }

    /// GET_CONFIGURATION (9.4.2).
    fn get_configuration(&self) -> Expected
        ensures { outcome_of result ≡ get_configuration (offered self.now) self.now.state.now self.now.setup }
    {
        if self.is_to_device()
            && self.has_address()
            && self.setup.value == 0
            && self.setup.index == 0
        {
            self.byte(self.state.selected)
        } else {
            Expected::Refused
        }
    }

    /// SET_CONFIGURATION (9.4.7).
    #[tactic(auto, unfolding(usb_device::specs::States::first_alternates))]
    fn set_configuration(&self) -> Expected
        ensures { outcome_of result ≡ set_configuration (offered self.now) self.now.state.now self.now.setup }
    {
        if !self.is_to_device() || !self.has_address() || self.setup.index != 0 {
            return Expected::Refused;
        }
        let value = self.setup.value;
        if value < 256 && (value == 0 || self.conversations.has_value(self.asked, value)) {
            let mut next = *self.state;
            next.selected = value as u8;
            next.alternates = [0; 256];
            next.halts = 0;
            self.done(next)
        } else {
            Expected::Refused
        }
    }

    /// GET_INTERFACE (9.4.4).
    fn get_interface(&self) -> Expected
        ensures { outcome_of result ≡ get_interface (offered self.now) self.now.state.now self.now.setup }
    {
        if self.is_to_interface()
            && self.is_configured()
            && self.setup.value == 0
            && self.names_interface()
        {
            self.byte(self.state.alternates[usize::from(self.setup.index)])
        } else {
            Expected::Refused
        }
    }

    /// SET_INTERFACE (9.4.10).
    fn set_interface(&self) -> Expected
        ensures { outcome_of result ≡ set_interface (offered self.now) self.now.state.now self.now.setup }
    {
        if !self.is_to_interface() || !self.is_configured() {
            return Expected::Refused;
        }
        if self.setup.index >= 256 || self.setup.value >= 256 {
            return Expected::Refused;
        }
        let number = self.setup.index as u8;
        let alternate = self.setup.value as u8;
        if has_alternate(self.selected_set(), number, alternate) {
            let mut next = *self.state;
            next.alternates[usize::from(number)] = alternate;
            next.halts = without_interface(self.selected_set(), next.halts, number);
            self.done(next)
        } else {
            Expected::Refused
        }
    }

    /// What is done where no data stage is asked for.
    fn done(&self, next: State) -> Expected
        ensures { outcome_of result ≡ does self.now.setup next }
    {
        if self.setup.length == 0 {
            Expected::Done(next)
        } else {
            Expected::Refused
        }
    }

    /// A byte, where one is asked for.
    fn byte(&self, byte: u8) -> Expected
        ensures { outcome_of result ≡ tells self.now.setup (byte ∷ []) }
    {
        match self.setup.direction() {
            Direction::In if self.setup.length == 1 => Expected::Byte(byte),
            _ => Expected::Refused,
        }
    }

    /// A status with this first byte, where two are asked for.
    fn status(&self, first: u8) -> Expected
        ensures { outcome_of result ≡ tells self.now.setup (first ∷ 0 ∷ []) }
    {
        match self.setup.direction() {
            Direction::In if self.setup.length == 2 => Expected::Status(first),
            _ => Expected::Refused,
        }
    }
}
