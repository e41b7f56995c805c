//! The stages of a control transfer, of the transactions that they consist of (USB 2.0, 8.5.3).
ghost use Rattle.std.specs.Prelude.{◌≡◌, IfOk};
ghost use Rattle.usb_capture.specs.BusTransfers.{begun_by, data_direction, ended_so, request_of, setup_in, with_bytes, with_packet};

use crate::control_transfer::ControlTransfer;
use crate::ending::Ending;
use crate::transaction::{DataPacket, Transaction};
use crate::usbmon::setup_at;
use std::alloc::{AllocError, Global};
use usb_fields::{Direction, Sequence, Setup};
use usb_wire::{DataKind, TokenKind};

/// The most bytes of a data stage, which are kept (9.3.5).
const MOST_KEPT: usize = 65_535;

/// The setup packet of a transaction that begins a transfer: a SETUP with eight bytes of DATA0.
pub(crate) fn request_of(transaction: &Transaction) -> Option<Setup>
    ensures { result ≡ request_of transaction.now }
{
    match (transaction.token, &transaction.data) {
        (TokenKind::Setup, Some(packet)) => setup_in(packet),
        _ => None,
    }
}

/// The setup packet that the data after a SETUP are.
fn setup_in(packet: &DataPacket) -> Option<Setup>
    ensures { result ≡ setup_in packet.now }
{
    match packet.kind {
        DataKind::Data0 if packet.bytes.len() == 8 => Some(setup_at(packet.bytes.as_slice(), 0)),
        _ => None,
    }
}

/// Which way the data of a transfer go. Where there are none to come, the status stage goes as after data to the device.
pub(crate) fn data_direction(setup: &Setup) -> Direction
    ensures { result ≡ data_direction setup.now }
{
    if setup.length == 0 {
        Direction::Out
    } else {
        setup.direction()
    }
}

/// A transfer that begins with this setup packet.
pub(crate) fn begin(alloc: Global, transaction: &Transaction, setup: Setup) -> ControlTransfer
    ensures { result ≡ begun_by transaction.now setup }
{
    ControlTransfer {
        bus: 0,
        device: u16::from(transaction.to.address),
        begun: transaction.time,
        setup,
        data: Sequence::new(alloc),
        length: 0,
        is_cut: false,
        ended: None,
        ending: Ending::Unseen,
    }
}

/// The transfer after the next packet of its data stage.
pub(crate) fn put_packet(
    transfer: ControlTransfer,
    transaction: &Transaction,
) -> Result<ControlTransfer, AllocError>
    ensures { IfOk result (λ after. after ≡ with_packet transaction.now.«data» transfer) }
{
    match &transaction.data {
        Some(packet) => put_bytes(transfer, packet.bytes.as_slice()),
        None => Ok(transfer),
    }
}

/// The transfer after these bytes more. Of those that have no room none is kept.
fn put_bytes(transfer: ControlTransfer, bytes: &[u8]) -> Result<ControlTransfer, AllocError>
    ensures { IfOk result (λ after. after ≡ with_bytes bytes.now transfer) }
{
    let length = (u64::from(transfer.length) + bytes.len() as u64).min(u64::from(u32::MAX)) as u32;
    let has_room = transfer.data.len() + bytes.len() <= MOST_KEPT;
    let mut after = transfer;
    after.length = length;
    if has_room {
        let mut kept = after.data.into_vec();
        kept.extend_from_slice(bytes)?;
        after.data = Sequence::from_vec(kept);
    } else {
        after.is_cut = true;
    }
    Ok(after)
}

/// The transfer after the transaction that ends it.
pub(crate) fn end(
    transfer: ControlTransfer,
    transaction: &Transaction,
    ending: Ending,
) -> ControlTransfer
    ensures { result ≡ ended_so transaction.now ending transfer }
{
    let mut after = transfer;
    after.ended = transaction.time;
    after.ending = ending;
    after
}
