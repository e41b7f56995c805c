//! Whether a device takes its address, and its configurations by what it said of them.
ghost use Rattle.std.specs.Prelude.{◌≡◌, ◌<◌, ◌/◌, ◌%◌, ◌==◌, true, find, length, nat_lt, slice_get, slice_index};
ghost use Rattle.std.specs.List.{list_all, list_any, range_with_len};
ghost use Rattle.usb_device.specs.Requests.{attributes_of, can_wake, has_value, settings_of};
ghost use Rattle.usb_capture.specs.Conversations.{held_of};
ghost use Rattle.usb_capture.specs.DeviceStates.{are_all_said, is_all_said, offer_said, settings_said};
ghost use Rattle.usb_capture.specs.Findings.{all_are_known, configuration, configuration_count, gives_address, has_other_configuration, is_configuration_value, is_no_value, is_uncounted, reads_configuration, refuses_address, refuses_configuration, sets_configuration, takes_configuration, tells_no_value};

use crate::answer::is_stall;
use crate::asked::Asked;
use crate::change::sets_address;
use crate::control_transfer::ControlTransfer;
use crate::conversations::{CONFIGURATION, Conversations, DEVICE};
use crate::readings::is_done;
use crate::said_settings::is_all_said;
use usb_fields::{Setup, byte_at};

impl Conversations {
    /// Whether SET_CONFIGURATION with 0 or the value of a configuration is answered with STALL.
    pub(crate) fn refuses_configuration(&self, transfer: &ControlTransfer) -> bool
        ensures { result ≡ refuses_configuration (held_of self.now.held.items) transfer.now }
    {
        let value = transfer.setup.value;
        is_stall(transfer.ending)
            && sets_configuration(&transfer.setup)
            && transfer.device > 0
            && (value == 0 || self.is_configuration_value(Asked::of(transfer), value))
    }

    /// Whether SET_CONFIGURATION is done with a value that no configuration has.
    pub(crate) fn takes_configuration(&self, transfer: &ControlTransfer) -> bool
        ensures { result ≡ takes_configuration (held_of self.now.held.items) transfer.now }
    {
        is_done(transfer.ending)
            && sets_configuration(&transfer.setup)
            && transfer.device > 0
            && self.is_no_value(Asked::of(transfer), transfer.setup.value)
    }

    /// Whether GET_CONFIGURATION isn't answered, or with a value that no configuration has.
    pub(crate) fn has_other_configuration(&self, transfer: &ControlTransfer) -> bool
        ensures { result ≡ has_other_configuration (held_of self.now.held.items) transfer.now }
    {
        reads_configuration(&transfer.setup)
            && transfer.device > 0
            && (is_stall(transfer.ending) || self.tells_no_value(transfer))
    }

    /// Whether one byte came that is the value of no configuration.
    fn tells_no_value(&self, transfer: &ControlTransfer) -> bool
        ensures { result ≡ tells_no_value (held_of self.now.held.items) transfer.now }
    {
        let data = transfer.data.as_slice();
        is_done(transfer.ending)
            && !transfer.is_cut
            && data.len() == 1
            && self.is_no_value(Asked::of(transfer), u16::from(byte_at(data, 0)))
    }

    /// Whether it is a configuration that bNumConfigurations doesn't count (USB 2.0, 9.4.3 and 9.6.1).
    pub(crate) fn is_uncounted(&self, asked: Asked) -> bool
        ensures { result ≡ is_uncounted (held_of self.now.held.items) asked }
    {
        let count = u16::from(self.configuration_count(asked));
        asked.index == 0 && asked.value / 256 == 2 && count > 0 && count <= asked.value % 256
    }

    /// Whether no configuration can have this value.
    fn is_no_value(&self, asked: Asked, value: u16) -> bool
        ensures { result ≡ is_no_value (held_of self.now.held.items) asked value }
    {
        value != 0 && self.all_are_known(asked) && !self.is_configuration_value(asked, value)
    }

    /// Whether a configuration has this value.
    fn is_configuration_value(&self, asked: Asked, value: u16) -> bool
        ensures { result ≡ is_configuration_value (held_of self.now.held.items) asked value }
    {
        let count = self.configuration_count(asked);
        (0..count).any(|i| u16::from(byte_at(self.configuration(asked, i), 5)) == value)
    }

    /// Whether the device has configurations, and said the value of each.
    fn all_are_known(&self, asked: Asked) -> bool
        ensures { result ≡ all_are_known (held_of self.now.held.items) asked }
    {
        let count = self.configuration_count(asked);
        count > 0 && self.are_known(asked, count)
    }

    /// Whether the device said the values of this many configurations.
    fn are_known(&self, asked: Asked, count: u8) -> bool
        ensures { result ≡ list_all (λ i. nat_lt 5 (length (configuration (held_of self.now.held.items) asked i))) (range_with_len 0 count) }
    {
        (0..count).all(|i| self.configuration(asked, i).len() > 5)
    }

    /// Whether the device has configurations, and said all of each.
    pub(crate) fn are_all_said(&self, asked: Asked) -> bool
        ensures { result ≡ are_all_said (held_of self.now.held.items) asked }
    {
        let count = self.configuration_count(asked);
        count > 0 && self.are_said(asked, count)
    }

    /// Whether the device said all of this many configurations.
    fn are_said(&self, asked: Asked, count: u8) -> bool
        ensures { result ≡ list_all (λ i. is_all_said (configuration (held_of self.now.held.items) asked i)) (range_with_len 0 count) }
    {
        (0..count).all(|i| is_all_said(self.configuration(asked, i)))
    }

    /// Whether a configuration has this value.
    #[tactic(auto, using(crate::proofs::StateLemmas::any_of))]
    pub(crate) fn has_value(&self, asked: Asked, value: u16) -> bool
        ensures { result ≡ list_any (has_value value) (offer_said (held_of self.now.held.items) asked).sets }
    {
        self.is_configuration_value(asked, value)
    }

    /// Whether a configuration has remote wakeup (USB 2.0, 9.6.3).
    #[tactic(auto, using(crate::proofs::StateLemmas::any_of))]
    pub(crate) fn can_wake(&self, asked: Asked) -> bool
        ensures { result ≡ list_any can_wake (offer_said (held_of self.now.held.items) asked).sets }
    {
        let count = self.configuration_count(asked);
        self.can_one_wake(asked, count)
    }

    /// Whether one of this many configurations has remote wakeup.
    fn can_one_wake(&self, asked: Asked, count: u8) -> bool
        ensures { result ≡ list_any (λ i. slice_index (configuration (held_of self.now.held.items) asked i) 7 / 32 % 2 == 1) (range_with_len 0 count) }
    {
        (0..count).any(|i| byte_at(self.configuration(asked, i), 7) / 32 % 2 == 1)
    }

    /// Whether each of its configurations has it.
    #[tactic(auto, using(crate::proofs::StateLemmas::all_of))]
    pub(crate) fn can_always_wake(&self, asked: Asked) -> bool
        ensures { result ≡ list_all can_wake (offer_said (held_of self.now.held.items) asked).sets }
    {
        let count = self.configuration_count(asked);
        self.can_all_wake(asked, count)
    }

    /// Whether each of this many configurations has remote wakeup.
    fn can_all_wake(&self, asked: Asked, count: u8) -> bool
        ensures { result ≡ list_all (λ i. slice_index (configuration (held_of self.now.held.items) asked i) 7 / 32 % 2 == 1) (range_with_len 0 count) }
    {
        (0..count).all(|i| byte_at(self.configuration(asked, i), 7) / 32 % 2 == 1)
    }

    /// What the device said of the first configuration of this value, and nothing where there is no such.
    pub(crate) fn configuration_with(&self, asked: Asked, value: u8) -> &[u8]
        ensures settings { settings_said (length result.now) result.now ≡ settings_of (find (has_value value) (offer_said (held_of self.now.held.items) asked).sets) }
        ensures attributes { slice_index result.now 7 ≡ attributes_of (find (has_value value) (offer_said (held_of self.now.held.items) asked).sets) }
    {
        for index in 0..self.configuration_count(asked) {
            let set = self.configuration(asked, index);
            if byte_at(set, 5) == value {
                return set;
            }
        }
        &[]
    }

    /// bmAttributes of the first configuration, and 0 where there is none.
    pub(crate) fn first_attributes(&self, asked: Asked) -> u8
        ensures { result ≡ attributes_of (slice_get (offer_said (held_of self.now.held.items) asked).sets 0) }
    {
        if self.configuration_count(asked) > 0 {
            byte_at(self.configuration(asked, 0), 7)
        } else {
            0
        }
    }

    /// bNumConfigurations of the device, as far as it said it.
    fn configuration_count(&self, asked: Asked) -> u8
        ensures { result ≡ configuration_count (held_of self.now.held.items) asked }
    {
        byte_at(self.said(asked.beside(DEVICE)), 17)
    }

    /// What the device said of the configuration of this index.
    fn configuration(&self, asked: Asked, index: u8) -> &[u8]
        ensures { result.now ≡ configuration (held_of self.now.held.items) asked index }
    {
        self.said(asked.beside(CONFIGURATION + u16::from(index)))
    }
}

/// Whether a device that has address 0 answers SET_ADDRESS with STALL.
pub(crate) fn refuses_address(transfer: &ControlTransfer) -> bool
    ensures { result ≡ refuses_address transfer.now }
{
    is_stall(transfer.ending) && gives_address(&transfer.setup) && transfer.device == 0
}

/// Whether it is SET_ADDRESS with an address that there is (USB 2.0, 9.4.6).
pub(crate) fn gives_address(setup: &Setup) -> bool
    ensures value { result ≡ gives_address setup.now }
    ensures within { result ≡ true → setup.now.value < 128 }
{
    sets_address(setup) && setup.value < 128 && setup.index == 0 && setup.length == 0
}

/// Whether it is SET_CONFIGURATION of a device (USB 2.0, 9.4.7 and table 9-4).
fn sets_configuration(setup: &Setup) -> bool
    ensures { result ≡ sets_configuration setup.now }
{
    setup.request_type == 0
        && setup.request == 9
        && setup.value < 256
        && setup.index == 0
        && setup.length == 0
}

/// Whether it is GET_CONFIGURATION of a device (USB 2.0, 9.4.2 and table 9-4).
pub(crate) fn reads_configuration(setup: &Setup) -> bool
    ensures { result ≡ reads_configuration setup.now }
{
    setup.request_type == 0x80
        && setup.request == 8
        && setup.value == 0
        && setup.index == 0
        && setup.length == 1
}
