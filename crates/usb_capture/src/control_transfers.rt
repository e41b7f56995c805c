//! The control transfers of a recording.
ghost use Rattle.std.specs.Prelude.{◌≡◌, ◌++◌, ◌≤◌, ◌∷◌, [], List, IfOk, OnOk, OnErr, length};
ghost use Rattle.std.specs.Option.{option_map, option_to_list};
ghost use Rattle.usb_capture.specs.declared.control_transfer.ControlTransfer.{ControlTransfer};
ghost use Rattle.usb_capture.specs.declared.event.Event.{Event};
ghost use Rattle.usb_capture.specs.Transfers.{HasTaken, begun, ended, gone_on, is_of_default_pipe, open_with, opened, place_with, seen, without};

use crate::control_transfer::ControlTransfer;
use crate::event::Event;
use crate::open_transfer::OpenTransfer;
use std::alloc::{AllocError, Global};
use usb_fields::Setup;
use usb_set::TransferType;

/// Makes control transfers of the events of a recording, taken in order.
///
/// It holds what is known of the transfers whose end hasn't come, and nothing of others.
#[derive(Debug, Drop)]
pub struct ControlTransfers {
    alloc: Global,
    held: Vec<OpenTransfer>,
}

impl ControlTransfers {
    /// One that has taken no event.
    pub fn new(alloc: Global) -> ControlTransfers
        ensures { HasTaken [] [] result }
    {
        ControlTransfers {
            alloc,
            held: Vec::new(alloc),
        }
    }

    /// Takes an event, and gives the transfer that is over with it: one that it ends, or one whose end wasn't seen and of
    /// which the host uses the id again.
    ///
    /// # Errors
    ///
    /// Out of memory; the transfer of the event is then forgotten.
    pub fn take(&mut self, event: &Event<'_>) -> Result<Option<ControlTransfer>, AllocError>
        ensures ok { IfOk result (λ over. (events : List Event) (transfers : List ControlTransfer) → HasTaken events transfers self.old
            → HasTaken (events ++ event.now ∷ []) (transfers ++ option_to_list over) self.new) }
        ensures err { OnErr result (self.new.held.items ≡ without event.now.id self.old.held.items) }
    {
        self.step(event)
    }

    /// Those whose end hasn't come, in the order in which they were last seen.
    pub fn unended(&self) -> &[OpenTransfer]
        ensures { result.now ≡ self.now.held.items }
    {
        &self.held
    }

    /// The same as [`ControlTransfers::take`], by what is open.
    fn step(&mut self, event: &Event<'_>) -> Result<Option<ControlTransfer>, AllocError>
        ensures held { IfOk result (λ over. self.new.held.items ≡ (seen event.now self.old.held.items).held) }
        ensures over { IfOk result (λ over. over ≡ (seen event.now self.old.held.items).over) }
        ensures err { OnErr result (self.new.held.items ≡ without event.now.id self.old.held.items) }
    {
        if !is_of_default_pipe(event) {
            return Ok(None);
        }
        let earlier = self.remove(event.id);
        match (event.setup, event.ends) {
            (Some(setup), _) => {
                self.begin(event, setup)?;
                Ok(earlier)
            }
            (None, true) => end(earlier, event),
            (None, false) => {
                self.go_on(earlier, event)?;
                Ok(None)
            }
        }
    }

    /// Forgets the transfer with this id, and gives it.
    pub(crate) fn remove(&mut self, id: u64) -> Option<ControlTransfer>
        ensures was { result ≡ open_with id self.old.held.items }
        ensures held { self.new.held.items ≡ without id self.old.held.items }
    {
        let place = place_of(&self.held, id);
        if place >= self.held.len() {
            return None;
        }
        Some(self.held.remove(place).transfer)
    }

    /// The transfer with this id.
    pub(crate) fn get(&self, id: u64) -> Option<&ControlTransfer>
        ensures { option_map (λ t. t.now) result ≡ open_with id self.now.held.items }
    {
        let place = place_of(&self.held, id);
        if place >= self.held.len() {
            return None;
        }
        Some(&self.held[place].transfer)
    }

    /// Holds a transfer that begins with this setup packet.
    fn begin(&mut self, event: &Event<'_>, setup: Setup) -> Result<(), AllocError>
        ensures ok { OnOk result (self.new.held.items ≡ self.old.held.items ++ opened event.now.id (begun event.now setup) ∷ []) }
        ensures err { OnErr result (self.new.held.items ≡ self.old.held.items) }
    {
        let transfer = ControlTransfer::begin(self.alloc, event, setup)?;
        self.hold(event.id, transfer)
    }

    /// Holds a transfer that goes on, if it is known.
    fn go_on(
        &mut self,
        earlier: Option<ControlTransfer>,
        event: &Event<'_>,
    ) -> Result<(), AllocError>
        ensures ok { OnOk result (self.new.held.items ≡ self.old.held.items ++ option_to_list (option_map (λ t. opened event.now.id (gone_on event.now t)) earlier)) }
        ensures err { OnErr result (self.new.held.items ≡ self.old.held.items) }
    {
        let Some(transfer) = earlier else {
            return Ok(());
        };
        let transfer = transfer.go_on(event)?;
        self.hold(event.id, transfer)
    }

    /// Holds a transfer more.
    pub(crate) fn hold(&mut self, id: u64, transfer: ControlTransfer) -> Result<(), AllocError>
        ensures ok { OnOk result (self.new.held.items ≡ self.old.held.items ++ opened id transfer ∷ []) }
        ensures err { OnErr result (self.new.held.items ≡ self.old.held.items) }
    {
        self.held.push(OpenTransfer { id, transfer })?;
        Ok(())
    }
}

/// The end of a transfer, if it is known.
fn end(
    earlier: Option<ControlTransfer>,
    event: &Event<'_>,
) -> Result<Option<ControlTransfer>, AllocError>
    ensures { IfOk result (λ over. over ≡ option_map (ended event.now) earlier) }
{
    match earlier {
        Some(transfer) => Ok(Some(transfer.end(event)?)),
        None => Ok(None),
    }
}

/// Where the transfer with this id is, or how many there are.
fn place_of(opens: &[OpenTransfer], id: u64) -> usize
    ensures is { result ≡ place_with id opens.now }
    ensures within { result ≤ length opens.now }
{
    let mut place = 0;
    for held in opens {
        if held.id == id {
            return place;
        }
        place += 1;
    }
    place
}

/// Whether an event is of a device's default control pipe (USB 2.0, 5.3.1.1).
fn is_of_default_pipe(event: &Event<'_>) -> bool
    ensures { result ≡ is_of_default_pipe event.now }
{
    match event.transfer {
        TransferType::Control => event.endpoint % 128 == 0,
        _ => false,
    }
}
