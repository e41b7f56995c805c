//! The table of standard requests: a function for each row (USB 2.0, 9.4).
//!
//! On x86-64 the functions are inlined, so that a decision needs no room in memory; where flash is small, only those for the commonest
//! reads are.
ghost use Rattle.std.specs.Prelude.{◌≡◌, ◌∷◌, [], find, IfSome, if◌then◌else◌};
ghost use Rattle.usb_device.specs.Step.{is_set_address};

mod freedom;

use crate::halts;
use crate::image::Image;
use crate::piece::{Place, find_inlined};
use crate::sets::Settings;
use crate::stage::{Change, Decision};
use crate::state::State;
use usb_fields::{Class, Direction, Recipient, Setup, descriptor_type, feature, request};

/// bmRequestType of a standard request to the device, which answers by data (9.3.1).
const READ_OF_DEVICE: u8 = 0x80;

/// A request, and the device that it is made to.
#[derive(Clone, Copy)]
pub(crate) struct Request<'r> {
    pub(crate) image: Image<'r>,
    pub(crate) state: &'r State,
    pub(crate) setup: Setup,
}

impl<'r> Request<'r> {
    ghost use Rattle.usb_device.specs.Requests.{answer_to, does, feature_of, get_configuration, get_descriptor, get_interface, get_status, halt_feature, has_value, is_device, is_interface, names_endpoint, names_endpoint_zero, names_interface, row, selected_settings, shown_attributes, set_address, set_configuration, set_interface, status_of_device, status_of_endpoint, status_of_interface, tells, wakeup_feature};
    ghost use Rattle.usb_device.specs.Offers.{offer_in};
    ghost use Rattle.usb_fields.specs.Setup.{recipient_of};
    ghost use Rattle.usb_device.specs.inside.Sets.{settings_left};
    ghost use Rattle.usb_device.specs.inside.Places.{IsPlace};
    ghost use Rattle.usb_device.specs.inside.Reactions.{changed, found_outcome, says, AsksFor};

    /// The answer.
    #[tactic(auto, unfolding(crate::specs::Requests::answer_to, crate::specs::Requests::answer_of))]
    #[inline(always)]
    pub(crate) fn decide(&self) -> Decision
        ensures answer { says self.now result ≡ answer_to (offer_in self.now.image.bytes.now) self.now.state.now self.now.setup }
        ensures asked { AsksFor self.now result }
    {
        match self.setup.class() {
            Class::Standard => self.by_request(),
            _ => Decision::Refused,
        }
    }

    /// What GET_DESCRIPTOR finds for a device descriptor or a set, and `None` for any other request.
    #[tactic(auto, unfolding(crate::specs::Requests::answer_to, crate::specs::Requests::answer_of))]
    #[inline(always)]
    pub(crate) fn find_read(&self) -> Option<Option<Place>>
        ensures answer { IfSome result (λ found. found_outcome self.now.image.bytes.now self.now.state.now self.now.setup found ≡ answer_to (offer_in self.now.image.bytes.now) self.now.state.now self.now.setup) }
        ensures within { IfSome result (λ found. IfSome found (IsPlace self.now.image.bytes.now)) }
    {
        let [index, kind] = self.setup.value.to_le_bytes();
        let is_read = self.setup.request_type == READ_OF_DEVICE
            && self.setup.request == request::GET_DESCRIPTOR
            && (kind == descriptor_type::DEVICE || kind == descriptor_type::CONFIGURATION);
        if is_read {
            Some(find_inlined(self.image.bytes, kind, index, 0))
        } else {
            None
        }
    }

    /// The answer to a standard request, by bRequest (table 9-4).
    #[inline(always)]
    fn by_request(&self) -> Decision
        ensures answer { says self.now result ≡ row (offer_in self.now.image.bytes.now) self.now.state.now self.now.setup }
        ensures asked { AsksFor self.now result }
    {
        match self.setup.request {
            request::GET_STATUS => self.get_status(),
            request::CLEAR_FEATURE => self.change_feature(false),
            request::SET_FEATURE => self.change_feature(true),
            request::SET_ADDRESS => self.set_address(),
            request::GET_DESCRIPTOR => Decision::Descriptor,
            request::GET_CONFIGURATION => self.get_configuration(),
            request::SET_CONFIGURATION => self.set_configuration(),
            request::GET_INTERFACE => self.get_interface(),
            request::SET_INTERFACE => self.set_interface(),
            _ => Decision::Refused,
        }
    }

    /// GET_STATUS (9.4.5).
    #[inline(always)]
    fn get_status(&self) -> Decision
        ensures answer { says self.now result ≡ get_status (offer_in self.now.image.bytes.now) self.now.state.now self.now.setup }
        ensures asked { AsksFor self.now result }
    {
        if self.setup.value != 0 {
            return Decision::Refused;
        }
        match self.setup.recipient() {
            Recipient::Device => self.status_of_device(),
            Recipient::Interface => self.status_of_interface(),
            Recipient::Endpoint => self.status_of_endpoint(),
            Recipient::Other | Recipient::Reserved => Decision::Refused,
        }
    }

    /// Bit 0 self-powered, bit 1 remote wakeup (figure 9-4).
    #[inline(always)]
    fn status_of_device(&self) -> Decision
        ensures answer { says self.now result ≡ status_of_device (offer_in self.now.image.bytes.now) self.now.state.now self.now.setup }
        ensures asked { AsksFor self.now result }
    {
        if !self.state.has_address() || self.setup.index != 0 {
            return Decision::Refused;
        }
        let self_powered = (self.shown_attributes() / 64 % 2) as u8;
        self.status(self_powered + 2 * u8::from(self.state.wakeup))
    }

    /// Two zero bytes (figure 9-5).
    #[inline(always)]
    fn status_of_interface(&self) -> Decision
        ensures answer { says self.now result ≡ status_of_interface (offer_in self.now.image.bytes.now) self.now.state.now self.now.setup }
        ensures asked { AsksFor self.now result }
    {
        if self.state.is_configured() && self.names_interface() {
            self.status(0)
        } else {
            Decision::Refused
        }
    }

    /// Bit 0 the endpoint's halt (figure 9-6).
    #[inline(always)]
    fn status_of_endpoint(&self) -> Decision
        ensures answer { says self.now result ≡ status_of_endpoint (offer_in self.now.image.bytes.now) self.now.state.now self.now.setup }
        ensures asked { AsksFor self.now result }
    {
        if self.names_endpoint_zero() {
            return if self.state.has_address() {
                self.status(0)
            } else {
                Decision::Refused
            };
        }
        match self.endpoint() {
            Some(endpoint) if self.state.is_configured() => self.status(halts::halt_bit(
                self.state.halts,
                endpoint,
            )),
            _ => Decision::Refused,
        }
    }

    /// CLEAR_FEATURE and SET_FEATURE (9.4.1 and 9.4.9).
    #[inline(always)]
    fn change_feature(&self, on: bool) -> Decision
        ensures answer { says self.now result ≡ feature_of (recipient_of self.now.setup.request_type) on (offer_in self.now.image.bytes.now) self.now.state.now self.now.setup }
        ensures asked { AsksFor self.now result }
    {
        match self.setup.recipient() {
            Recipient::Device => self.change_wakeup(on),
            Recipient::Endpoint => self.change_halt(on),
            Recipient::Interface | Recipient::Other | Recipient::Reserved => Decision::Refused,
        }
    }

    /// DEVICE_REMOTE_WAKEUP (table 9-6).
    #[inline(always)]
    fn change_wakeup(&self, on: bool) -> Decision
        ensures answer { says self.now result ≡ wakeup_feature on (offer_in self.now.image.bytes.now) self.now.state.now self.now.setup }
        ensures asked { AsksFor self.now result }
    {
        if self.state.has_address()
            && self.setup.value == feature::DEVICE_REMOTE_WAKEUP
            && self.setup.index == 0
            && self.image.sets().can_wake()
        {
            self.done(Change::Wakeup(on))
        } else {
            Decision::Refused
        }
    }

    /// ENDPOINT_HALT (table 9-6).
    #[inline(always)]
    fn change_halt(&self, on: bool) -> Decision
        ensures answer { says self.now result ≡ halt_feature on (offer_in self.now.image.bytes.now) self.now.state.now self.now.setup }
        ensures asked { AsksFor self.now result }
    {
        if !self.state.is_configured()
            || self.setup.value != feature::ENDPOINT_HALT
            || self.names_endpoint_zero()
        {
            return Decision::Refused;
        }
        match self.endpoint() {
            Some(endpoint) => self.done(Change::Halt(endpoint, on)),
            None => Decision::Refused,
        }
    }

    /// SET_ADDRESS (9.4.6).
    #[inline(always)]
    fn set_address(&self) -> Decision
        ensures answer { says self.now result ≡ set_address (offer_in self.now.image.bytes.now) self.now.state.now self.now.setup }
        ensures asked { AsksFor self.now result }
    {
        if self.is_to_device()
            && !self.state.is_configured()
            && self.setup.value < 128
            && self.setup.index == 0
        {
            self.done(Change::Address(self.setup.value as u8))
        } else {
            Decision::Refused
        }
    }

    /// GET_DESCRIPTOR (9.4.3): where that is, or `None` where it is refused.
    #[inline(always)]
    pub(crate) fn get_descriptor(&self) -> Option<Place>
        ensures answer { found_outcome self.now.image.bytes.now self.now.state.now self.now.setup result ≡ get_descriptor (offer_in self.now.image.bytes.now) self.now.state.now self.now.setup }
        ensures within { IfSome result (IsPlace self.now.image.bytes.now) }
    {
        let brings = self.setup.length != 0 && self.setup.direction() == Direction::Out;
        if brings || !self.is_to_device() {
            return None;
        }
        let [index, kind] = self.setup.value.to_le_bytes();
        self.image.find(kind, index, self.setup.index)
    }

    /// GET_CONFIGURATION (9.4.2).
    #[inline(always)]
    fn get_configuration(&self) -> Decision
        ensures answer { says self.now result ≡ get_configuration (offer_in self.now.image.bytes.now) self.now.state.now self.now.setup }
        ensures asked { AsksFor self.now result }
    {
        if self.is_to_device()
            && self.state.has_address()
            && self.setup.value == 0
            && self.setup.index == 0
        {
            self.byte(self.state.selected)
        } else {
            Decision::Refused
        }
    }

    /// SET_CONFIGURATION (9.4.7).
    #[inline(always)]
    fn set_configuration(&self) -> Decision
        ensures answer { says self.now result ≡ set_configuration (offer_in self.now.image.bytes.now) self.now.state.now self.now.setup }
        ensures asked { AsksFor self.now result }
    {
        if !self.is_to_device() || !self.state.has_address() || self.setup.index != 0 {
            return Decision::Refused;
        }
        if self.setup.value >= 256 {
            return Decision::Refused;
        }
        let value = self.setup.value as u8;
        if value == 0 || self.image.sets().has_value(value) {
            self.done(Change::Configuration(value))
        } else {
            Decision::Refused
        }
    }

    /// GET_INTERFACE (9.4.4).
    #[inline(always)]
    fn get_interface(&self) -> Decision
        ensures answer { says self.now result ≡ get_interface (offer_in self.now.image.bytes.now) self.now.state.now self.now.setup }
        ensures asked { AsksFor self.now result }
    {
        if self.is_to_interface()
            && self.state.is_configured()
            && self.setup.value == 0
            && self.names_interface()
        {
            self.byte(self.state.alternates[usize::from(self.setup.index)])
        } else {
            Decision::Refused
        }
    }

    /// SET_INTERFACE (9.4.10).
    #[inline(always)]
    fn set_interface(&self) -> Decision
        ensures answer { says self.now result ≡ set_interface (offer_in self.now.image.bytes.now) self.now.state.now self.now.setup }
        ensures asked { AsksFor self.now result }
    {
        if !self.is_to_interface() || !self.state.is_configured() {
            return Decision::Refused;
        }
        if self.setup.index >= 256 || self.setup.value >= 256 {
            return Decision::Refused;
        }
        let number = self.setup.index as u8;
        let alternate = self.setup.value as u8;
        if self.settings().has_alternate(number, alternate) {
            self.done(Change::Alternate(number, alternate))
        } else {
            Decision::Refused
        }
    }

    /// What is done where no data stage is asked for.
    #[inline(always)]
    fn done(&self, change: Change) -> Decision
        ensures answer { says self.now result ≡ does self.now.setup (changed self.now.image.bytes.now self.now.state.now change) }
        ensures asked { AsksFor self.now result }
    {
        if self.setup.length == 0 {
            Decision::Done(change)
        } else {
            Decision::Refused
        }
    }

    /// A byte, where one is asked for.
    #[inline(always)]
    fn byte(&self, byte: u8) -> Decision
        ensures answer { says self.now result ≡ tells self.now.setup (byte ∷ []) }
        ensures asked { AsksFor self.now result }
    {
        match self.setup.direction() {
            Direction::In if self.setup.length == 1 => Decision::Byte(byte),
            _ => Decision::Refused,
        }
    }

    /// A status with this first byte, where two are asked for.
    #[inline(always)]
    fn status(&self, first: u8) -> Decision
        ensures answer { says self.now result ≡ tells self.now.setup (first ∷ 0 ∷ []) }
        ensures asked { AsksFor self.now result }
    {
        match self.setup.direction() {
            Direction::In if self.setup.length == 2 => Decision::Status(first),
            _ => Decision::Refused,
        }
    }

    /// Whether the recipient is the device.
    fn is_to_device(&self) -> bool
        ensures { result ≡ is_device (recipient_of self.now.setup.request_type) }
    {
        matches!(self.setup.recipient(), Recipient::Device)
    }

    /// Whether the recipient is an interface.
    fn is_to_interface(&self) -> bool
        ensures { result ≡ is_interface (recipient_of self.now.setup.request_type) }
    {
        matches!(self.setup.recipient(), Recipient::Interface)
    }

    /// The settings of the selected configuration.
    #[inline(always)]
    fn settings(&self) -> Settings<'r>
        ensures { settings_left result ≡ selected_settings (offer_in self.now.image.bytes.now) self.now.state.now }
    {
        self.state.settings(self.image)
    }

    /// bmAttributes of the selected configuration, and where none is selected of the first.
    fn shown_attributes(&self) -> u16
        ensures { result ≡ shown_attributes (offer_in self.now.image.bytes.now) self.now.state.now }
    {
        let mut sets = self.image.sets();
        if self.state.is_configured() {
            return sets.attributes_of(self.state.selected);
        }
        match sets.next() {
            Some(c) => c.attributes,
            None => 0,
        }
    }

    /// Whether wIndex is an interface of the selected configuration.
    fn names_interface(&self) -> bool
        ensures { result ≡ names_interface (offer_in self.now.image.bytes.now) self.now.state.now self.now.setup.index }
    {
        self.setup.index < 256 && self.settings().has_interface(self.setup.index as u8)
    }

    /// Whether wIndex is endpoint zero.
    fn names_endpoint_zero(&self) -> bool
        ensures { result ≡ names_endpoint_zero self.now.setup.index }
    {
        self.setup.index == 0 || self.setup.index == 0x80
    }

    /// wIndex, where it is an endpoint of a setting that is chosen in the selected configuration.
    fn endpoint(&self) -> Option<u8>
        ensures { result ≡ (if names_endpoint (offer_in self.now.image.bytes.now) self.now.state.now self.now.setup.index then Some self.now.setup.index else None) }
    {
        if self.setup.index >= 256 {
            return None;
        }
        let address = self.setup.index as u8;
        if self
            .settings()
            .has_endpoint(&self.state.alternates, address)
        {
            Some(address)
        } else {
            None
        }
    }
}

/// Whether the request is SET_ADDRESS, the standard request 5 to the device: bits 6 to 0 of bmRequestType are zero
/// (USB 2.0, tables 9-2 and 9-4). Bit 7, the direction, is not looked at. A device carries it out after the status
/// stage and not before (9.4.6).
///
/// ```rust
/// assert!(rt; is_set_address(Setup::from_bytes(&[0, 5, 9, 0, 0, 0, 0, 0])));
/// // A vendor request with the same bRequest.
/// assert!(rt; !is_set_address(Setup::from_bytes(&[0x40, 5, 9, 0, 0, 0, 0, 0])));
/// ```
pub fn is_set_address(q: Setup) -> bool
    ensures { result ≡ is_set_address q }
{
    q.request_type % 128 == 0 && q.request == request::SET_ADDRESS
}
