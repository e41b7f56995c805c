//! What goes on at the default control pipes of devices.
ghost use Rattle.std.specs.Prelude.{◌≡◌, ◌++◌, ◌∷◌, [], IfOk, OnOk, OnErr};
ghost use Rattle.usb_capture.specs.BusTransfers.{first_toggles, gone_on, none_open, over_with_part, part_at, pipes_after, pipes_of, transfer_over, with_open};
ghost use Rattle.usb_capture.specs.PacketFindings.{has_wrong_toggle, is_complete_in, is_data_part, is_done_part, is_early, is_early_in, is_misdirected, is_misdirected_in, is_reading_data};
ghost use Rattle.usb_capture.specs.Transfers.{without};

use crate::bus_transfer::{begin, data_direction, end, put_packet, request_of};
use crate::control_transfer::ControlTransfer;
use crate::control_transfers::ControlTransfers;
use crate::data_toggle::{DataToggle, Part};
use crate::ending::Ending;
use crate::open_transfer::OpenTransfer;
use crate::transaction::Transaction;
use std::alloc::{AllocError, Global};
use usb_fields::Direction;

/// For each address the transfer whose end hasn't come, and which packet of its data stage comes next.
#[derive(Debug, Drop)]
pub(crate) struct ControlPipes {
    alloc: Global,
    held: ControlTransfers,
    toggles: [DataToggle; 256],
}

impl ControlPipes {
    /// None is open.
    #[tactic(auto, unfolding(crate::specs::BusTransfers::first_toggles))]
    pub(crate) fn new(alloc: Global) -> ControlPipes
        ensures { pipes_of result ≡ none_open }
    {
        ControlPipes {
            alloc,
            held: ControlTransfers::new(alloc),
            toggles: [DataToggle::first(); 256],
        }
    }

    /// Those whose end hasn't come, in the order in which they were last seen.
    pub(crate) fn unended(&self) -> &[OpenTransfer]
        ensures { result.now ≡ self.now.held.held.items }
    {
        self.held.unended()
    }

    /// Whether a transaction that comes next has a data packet with the wrong toggle.
    pub(crate) fn has_wrong_toggle(&self, transaction: &Transaction) -> bool
        ensures { result ≡ has_wrong_toggle transaction.now (pipes_of self.now) }
    {
        let address = transaction.to.address;
        match (request_of(transaction), self.held.get(u64::from(address))) {
            (None, Some(transfer)) => self.toggles[usize::from(address)].is_wrong_in(
                data_direction(&transfer.setup),
                transaction,
            ),
            _ => false,
        }
    }

    /// Whether a transaction that comes next ends a transfer before its data stage is complete, of a device with this size.
    pub(crate) fn is_early(&self, size: u8, transaction: &Transaction) -> bool
        ensures { result ≡ is_early size transaction.now (pipes_of self.now) }
    {
        let address = transaction.to.address;
        match (request_of(transaction), self.held.get(u64::from(address))) {
            (None, Some(transfer)) => {
                is_early_in(
                    transfer,
                    self.toggles[usize::from(address)],
                    size,
                    transaction,
                )
            }
            _ => false,
        }
    }

    /// Whether a transaction that comes next goes on with a data stage that is complete, of a device with this size.
    pub(crate) fn is_misdirected(&self, size: u8, transaction: &Transaction) -> bool
        ensures { result ≡ is_misdirected size transaction.now (pipes_of self.now) }
    {
        let address = transaction.to.address;
        match (request_of(transaction), self.held.get(u64::from(address))) {
            (None, Some(transfer)) => {
                is_misdirected_in(
                    transfer,
                    self.toggles[usize::from(address)],
                    size,
                    transaction,
                )
            }
            _ => false,
        }
    }

    /// Takes a transaction, and gives the transfer that is over with it.
    ///
    /// # Errors
    ///
    /// Out of memory; the transfer of the device is then forgotten.
    pub(crate) fn take(
        &mut self,
        transaction: &Transaction,
    ) -> Result<Option<ControlTransfer>, AllocError>
        ensures pipes { IfOk result (λ over. pipes_of self.new ≡ pipes_after transaction.now (pipes_of self.old)) }
        ensures over { IfOk result (λ over. over ≡ transfer_over transaction.now (pipes_of self.old)) }
        ensures err { OnErr result (self.new.held.held.items ≡ without transaction.now.to.address self.old.held.held.items) }
    {
        let earlier = self.held.remove(u64::from(transaction.to.address));
        match (request_of(transaction), earlier) {
            (Some(setup), earlier) => {
                let transfer = begin(self.alloc, transaction, setup);
                self.hold(transaction, transfer, DataToggle::first())?;
                Ok(earlier)
            }
            (None, Some(transfer)) => self.go_on(transaction, transfer),
            (None, None) => Ok(None),
        }
    }

    /// Goes on with a transfer, which isn't held now.
    fn go_on(
        &mut self,
        transaction: &Transaction,
        transfer: ControlTransfer,
    ) -> Result<Option<ControlTransfer>, AllocError>
        ensures pipes { IfOk result (λ over. pipes_of self.new ≡ gone_on transaction.now transfer (pipes_of self.old)) }
        ensures over { IfOk result (λ over. over ≡ over_with_part (part_at transaction.now transfer (pipes_of self.old)) transaction.now transfer) }
        ensures err { OnErr result (self.new.held.held.items ≡ self.old.held.held.items) }
    {
        let toggle = self.toggles[usize::from(transaction.to.address)];
        let part = toggle.part_in(data_direction(&transfer.setup), transaction);
        let toggle = toggle.after(part, transaction);
        match part {
            Part::Data => {
                let transfer = put_packet(transfer, transaction)?;
                self.hold(transaction, transfer, toggle)?;
                Ok(None)
            }
            Part::Neither => {
                self.hold(transaction, transfer, toggle)?;
                Ok(None)
            }
            Part::Status(ending) => {
                self.toggles[usize::from(transaction.to.address)] = toggle;
                Ok(Some(end(transfer, transaction, ending)))
            }
        }
    }

    /// Holds the transfer of an address, of whose data stage this comes next.
    fn hold(
        &mut self,
        transaction: &Transaction,
        transfer: ControlTransfer,
        toggle: DataToggle,
    ) -> Result<(), AllocError>
        ensures ok { OnOk result (pipes_of self.new ≡ with_open transaction.now.to.address transfer toggle (pipes_of self.old)) }
        ensures err { OnErr result (self.new.held.held.items ≡ self.old.held.held.items) }
    {
        let address = transaction.to.address;
        self.held.hold(u64::from(address), transfer)?;
        self.toggles[usize::from(address)] = toggle;
        Ok(())
    }
}

/// Whether a transaction ends this transfer before its data stage is complete.
fn is_early_in(
    transfer: &ControlTransfer,
    toggle: DataToggle,
    size: u8,
    transaction: &Transaction,
) -> bool
    ensures { result ≡ is_early_in transfer.now toggle size transaction.now }
{
    let direction = data_direction(&transfer.setup);
    is_reading_data(direction)
        && transfer.length < u32::from(transfer.setup.length)
        && size != 0
        && toggle.last >= usize::from(size)
        && is_done_part(toggle.part_in(direction, transaction))
}

/// Whether a transaction goes on with the data stage of this transfer, which is complete.
fn is_misdirected_in(
    transfer: &ControlTransfer,
    toggle: DataToggle,
    size: u8,
    transaction: &Transaction,
) -> bool
    ensures { result ≡ is_misdirected_in transfer.now toggle size transaction.now }
{
    let direction = data_direction(&transfer.setup);
    is_complete_in(transfer, toggle, size) && is_data_part(toggle.part_in(direction, transaction))
}

/// Whether the data stage of a transfer is complete: with all bytes that were asked for, or with a shorter packet from the device.
fn is_complete_in(transfer: &ControlTransfer, toggle: DataToggle, size: u8) -> bool
    ensures { result ≡ is_complete_in transfer.now toggle size }
{
    transfer.length >= u32::from(transfer.setup.length)
        || (is_reading_data(data_direction(&transfer.setup))
            && transfer.length > 0
            && toggle.last < usize::from(size))
}

/// Whether the data of a transfer come from the device.
fn is_reading_data(direction: Direction) -> bool
    ensures { result ≡ is_reading_data direction }
{
    match direction {
        Direction::In => true,
        Direction::Out => false,
    }
}

/// Whether it is the next packet of the data stage.
fn is_data_part(part: Part) -> bool
    ensures { result ≡ is_data_part part }
{
    match part {
        Part::Data => true,
        _ => false,
    }
}

/// Whether it ends a transfer whose stages were all done.
fn is_done_part(part: Part) -> bool
    ensures { result ≡ is_done_part part }
{
    match part {
        Part::Status(Ending::Done) => true,
        _ => false,
    }
}
