//! What a device keeps from one request to the next.
ghost use Rattle.std.specs.Prelude.{◌≡◌};

use crate::halts::{changed as changed_halts, halt_bit};
use crate::image::Image;
use crate::sets::Settings;
use crate::stage::Change;

/// The state of a device (USB 2.0, 9.1.1): with address 0 it is in the Default state, with another
/// address and no configuration in the Address state, and with both in the Configured state.
///
/// ```rust
/// // A new device is in the Default state.
/// let state = Device::new(&description).state();
/// assert_eq!(rt; state.address, 0);
/// assert_eq!(rt; state.selected, 0);
/// assert_eq!(rt; state.halts, 0);
/// ```
#[repr(C)]
#[derive(Clone, Copy, Debug, Drop, PartialEq, Eq, Hash)]
pub struct State {
    /// The address that the device answers at, 0 to 127.
    pub address: u8,
    /// bConfigurationValue of the selected configuration, or 0 for none.
    pub selected: u8,
    /// The chosen alternate setting of each interface, by interface number.
    pub alternates: [u8; 256],
    /// The halted endpoints: bit n for endpoint n OUT, bit 16 + n for endpoint n IN.
    pub halts: u32,
    /// Whether remote wakeup is enabled.
    pub wakeup: bool,
}

impl State {
    ghost use Rattle.usb_device.specs.States.{zero, has_address, is_configured};
    ghost use Rattle.usb_device.specs.inside.Sets.{settings_left};
    ghost use Rattle.usb_device.specs.Requests.{changed_halts, selected_settings};
    ghost use Rattle.usb_device.specs.Offers.{offer_in};
    ghost use Rattle.usb_device.specs.inside.Reactions.{changed};

    /// The state of a new device, and of one after a bus reset.
    ///
    /// ```rust
    /// let state = State::zero();
    /// assert_eq!(rt; state.address, 0);
    /// assert_eq!(rt; state.device_state(), DeviceState::Default);
    /// ```
    #[tactic(auto, unfolding(crate::specs::States::first_alternates))]
    pub fn zero() -> State
        ensures { result ≡ zero }
    {
        State {
            address: 0,
            selected: 0,
            alternates: [0; 256],
            halts: 0,
            wakeup: false,
        }
    }

    /// Makes it that one, in place.
    #[tactic(auto, unfolding(crate::specs::States::first_alternates))]
    pub(crate) fn reset(&mut self)
        ensures { self.new ≡ zero }
    {
        self.address = 0;
        self.selected = 0;
        self.alternates = [0; 256];
        self.halts = 0;
        self.wakeup = false;
    }

    /// Whether the device is past the Default state.
    pub(crate) fn has_address(&self) -> bool
        ensures { result ≡ has_address self.now }
    {
        self.address != 0
    }

    /// Whether the device is in the Configured state.
    pub(crate) fn is_configured(&self) -> bool
        ensures { result ≡ is_configured self.now }
    {
        self.has_address() && self.selected != 0
    }

    /// Carries out what a request asks for.
    #[tactic(auto, unfolding(crate::specs::States::first_alternates))]
    pub(crate) fn change(&mut self, image: Image<'_>, change: Change)
        ensures { self.new ≡ changed image.entry.bytes.now self.old change }
    {
        match change {
            Change::Address(address) => self.address = address,
            Change::Configuration(value) => {
                self.selected = value;
                self.alternates = [0; 256];
                self.halts = 0;
            }
            Change::Wakeup(on) => self.wakeup = on,
            Change::Halt(endpoint, on) => self.set_halt(endpoint, on),
            Change::Alternate(number, alternate) => {
                let settings = self.settings(image);
                self.halts = settings.without_interface(self.halts, number);
                self.alternates[usize::from(number)] = alternate;
            }
        }
    }

    /// Halts the endpoint with this address, or ends its halt (USB 2.0, 9.4.5).
    ///
    /// ```rust
    /// // Endpoint 1 IN.
    /// let mut state = State::zero();
    /// state.set_halt(0x81, true);
    /// assert!(rt; state.is_halted(0x81));
    /// assert!(rt; !state.is_halted(0x01));
    /// state.set_halt(0x81, false);
    /// assert!(rt; !state.is_halted(0x81));
    /// ```
    #[inline]
    pub fn set_halt(&mut self, endpoint: u8, on: bool)
        ensures { self.new ≡ record self.old { halts = changed_halts on self.old.halts endpoint } }
    {
        self.halts = changed_halts(self.halts, endpoint, on);
    }

    /// The settings of the selected configuration.
    #[inline(never)]
    pub(crate) fn settings<'a>(&self, image: Image<'a>) -> Settings<'a>
        ensures { settings_left result ≡ selected_settings (offer_in image.entry.bytes.now) self.now }
    {
        image.sets().settings_of(self.selected)
    }
}

/// The states of a device on its way to work (USB 2.0, table 9-1), of which a [`State`] is one.
#[derive(Clone, Copy, Debug, PartialEq, Eq, Hash)]
pub enum DeviceState {
    /// It was reset, and answers at address 0 (USB 2.0, 9.1.1.3).
    Default,
    /// It has an address and no configuration (USB 2.0, 9.1.1.4).
    Address,
    /// It has an address and a configuration (USB 2.0, 9.1.1.5).
    Configured,
}

impl State {
    ghost use Rattle.usb_device.specs.States.{device_state, is_halted};

    /// Whether the device is in the Default, the Address or the Configured state.
    ///
    /// ```rust
    /// let state = Device::new(&description).state();
    /// assert_eq!(rt; state.device_state(), DeviceState::Default);
    /// ```
    pub fn device_state(&self) -> DeviceState
        ensures { result ≡ device_state self.now }
    {
        match (self.address, self.selected) {
            (0, _) => DeviceState::Default,
            (_, 0) => DeviceState::Address,
            _ => DeviceState::Configured,
        }
    }

    /// Whether the endpoint with this address is halted: its number is in bits 3..0, and its direction in bit 7 (USB
    /// 2.0, 9.4.5 and 9.6.6).
    ///
    /// ```rust
    /// // Endpoint 1 IN.
    /// let state = Device::new(&description).state();
    /// assert!(rt; !state.is_halted(0x81));
    /// ```
    pub fn is_halted(&self, endpoint: u8) -> bool
        ensures { result ≡ is_halted self.now.halts endpoint }
    {
        halt_bit(self.halts, endpoint) == 1
    }
}
