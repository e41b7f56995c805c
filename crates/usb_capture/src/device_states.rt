//! To which states control transfers lead devices, and whether they answer otherwise than they do in these.
ghost use Rattle.std.specs.Prelude.{◌≡◌, ◌<◌, true, Some, None, if◌then◌else◌};
ghost use Rattle.usb_capture.specs.Conversations.{addressed, answers_in, assigns, held_of, next_state, state_of};
ghost use Rattle.usb_capture.specs.DeviceStates.{are_all_said, differs_by, differs_in, offer_said, state_changed};
ghost use Rattle.usb_capture.specs.Findings.{asked_of};

use crate::answer::is_stall;
use crate::asked::Asked;
use crate::change::may_change;
use crate::compared::{changes_state, is_compared};
use crate::configured::gives_address;
use crate::control_transfer::ControlTransfer;
use crate::conversations::Conversations;
use crate::expected::Expected;
use crate::known_state::KnownState;
use crate::readings::is_done;
use crate::request::Request;
use usb_device::State;

impl Conversations {
    /// Whether a device answers otherwise than one with the descriptors that it said, in its state (USB 2.0, 9.4).
    pub(crate) fn answers_otherwise(&self, transfer: &ControlTransfer) -> bool
        ensures { result ≡ answers_in (held_of self.now.held.items) (state_of self.now.states.held.items (asked_of transfer.now)) transfer.now }
    {
        is_compared(&transfer.setup) && self.differs(transfer)
    }

    /// Whether it does, where its state is known and it said all of its configurations.
    fn differs(&self, transfer: &ControlTransfer) -> bool
        ensures { result ≡ differs_in (held_of self.now.held.items) (state_of self.now.states.held.items (asked_of transfer.now)) transfer.now }
    {
        let asked = Asked::of(transfer);
        match self.state(asked) {
            Some(state) => self.are_all_said(asked) && self.differs_by(transfer, state),
            None => false,
        }
    }

    /// Whether it does in this state.
    fn differs_by(&self, transfer: &ControlTransfer, state: &State) -> bool
        ensures { result ≡ differs_by (offer_said (held_of self.now.held.items) (asked_of transfer.now)) state.now transfer.now }
    {
        let request = self.request(transfer, state);
        (is_done(transfer.ending) || is_stall(transfer.ending))
            && !request.is_either()
            && !request.answer().is_shown_by(transfer)
    }

    /// The device that a transfer leads to another state, in that state.
    pub(crate) fn next_state(&self, transfer: &ControlTransfer) -> Option<KnownState>
        ensures { result ≡ next_state (held_of self.now.held.items) transfer.now (state_of self.now.states.held.items (asked_of transfer.now)) }
    {
        if let Some(next) = addressed(transfer) {
            return Some(next);
        }
        let asked = Asked::of(transfer);
        if !changes_state(&transfer.setup) || may_change(transfer, asked) {
            return None;
        }
        let before = self.state(asked)?;
        let state = self.changed(transfer, before)?;
        Some(KnownState {
            bus: transfer.bus,
            device: transfer.device,
            state,
        })
    }

    /// The state after a request that changes it: this one where that is refused, and that of USB 2.0 where it is done.
    fn changed(&self, transfer: &ControlTransfer, state: &State) -> Option<State>
        ensures { result ≡ state_changed (are_all_said (held_of self.now.held.items) (asked_of transfer.now)) (offer_said (held_of self.now.held.items) (asked_of transfer.now)) transfer.now state.now }
    {
        if is_stall(transfer.ending) {
            return Some(*state);
        }
        if !is_done(transfer.ending) || !self.are_all_said(Asked::of(transfer)) {
            return None;
        }
        match self.request(transfer, state).answer() {
            Expected::Done(next) => Some(next),
            Expected::Byte(_) | Expected::Status(_) | Expected::Refused => None,
        }
    }

    /// The request of a transfer, to a device in this state.
    fn request<'r>(&'r self, transfer: &ControlTransfer, state: &'r State) -> Request<'r>
        ensures conversations { result.conversations.now ≡ self.now }
        ensures asked { result.asked ≡ asked_of transfer.now }
        ensures state { result.state.now ≡ state.now }
        ensures setup { result.setup ≡ transfer.now.setup }
    {
        Request {
            conversations: self,
            asked: Asked::of(transfer),
            state,
            setup: transfer.setup,
        }
    }
}

/// The device to which SET_ADDRESS gave its address (USB 2.0, 9.4.6): it is in the Address state, as it was reset before (9.1.1.4).
fn addressed(transfer: &ControlTransfer) -> Option<KnownState>
    ensures { result ≡ (if assigns transfer.now then Some (addressed transfer.now) else None) }
{
    if !assigns(transfer) {
        return None;
    }
    let mut state = State::zero();
    state.address = transfer.setup.value as u8;
    Some(KnownState {
        bus: transfer.bus,
        device: transfer.setup.value,
        state,
    })
}

/// Whether SET_ADDRESS gave a device its address.
fn assigns(transfer: &ControlTransfer) -> bool
    ensures value { result ≡ assigns transfer.now }
    ensures within { result ≡ true → transfer.now.setup.value < 128 }
{
    is_done(transfer.ending)
        && gives_address(&transfer.setup)
        && transfer.device == 0
        && transfer.setup.value > 0
}
