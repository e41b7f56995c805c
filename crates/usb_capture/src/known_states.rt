//! The states to which control transfers have led the devices of a recording.
ghost use Rattle.std.specs.Prelude.{◌≡◌, ◌≤◌, [], not, filter, OnErr, OnOk, vec_capacity, vec_len};
ghost use Rattle.std.specs.Option.{option_copied};
ghost use Rattle.usb_capture.specs.Conversations.{leaves, state_of, states_after};

use crate::asked::Asked;
use crate::control_transfer::ControlTransfer;
use crate::known_state::KnownState;
use std::alloc::{AllocError, Global};
use usb_device::State;

/// The state of each device of which it is known.
#[derive(Debug, Drop)]
pub(crate) struct KnownStates {
    held: Vec<KnownState>,
}

impl KnownStates {
    /// Those of no device.
    pub(crate) fn new(alloc: Global) -> KnownStates
        ensures { result.held.items ≡ [] }
    {
        KnownStates {
            held: Vec::new(alloc),
        }
    }

    /// The state of the device that has this descriptor.
    pub(crate) fn get(&self, asked: Asked) -> Option<&State>
        ensures { option_copied result ≡ state_of self.now.held.items asked }
    {
        match self.held.iter().find(|one| one.is_of_device(asked)) {
            Some(one) => Some(&one.state),
            None => None,
        }
    }

    /// Forgets the states that devices may have left by a transfer, and holds the one to which it leads.
    pub(crate) fn change(
        &mut self,
        transfer: &ControlTransfer,
        next: Option<KnownState>,
    ) -> Result<(), AllocError>
        ensures ok { OnOk result (self.new.held.items ≡ states_after transfer.now next self.old.held.items) }
        ensures err { OnErr result (self.new.held.items ≡ self.old.held.items) }
    {
        let Some(next) = next else {
            self.forget_left(transfer);
            return Ok(());
        };
        self.held.reserve(1)?;
        self.forget_left(transfer);
        self.held.push_reserved(next);
        Ok(())
    }

    /// Forgets the states that devices may have left by a transfer.
    fn forget_left(&mut self, transfer: &ControlTransfer)
        ensures items { self.new.held.items ≡ filter (λ one. not (leaves transfer.now one)) self.old.held.items }
        ensures bound { vec_len self.new.held ≤ vec_len self.old.held }
        ensures capacity { vec_capacity self.new.held ≡ vec_capacity self.old.held }
    {
        self.held.retain(|one| !one.leaves(transfer));
    }
}
