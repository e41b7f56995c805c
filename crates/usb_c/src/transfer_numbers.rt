//! A control transfer as numbers.
ghost use Rattle.std.specs.Prelude.{IfSome, Some, true, ◌≡◌, ◌<◌};
ghost use Rattle.usb_c.specs.Transactions.{toggle_given};
ghost use Rattle.usb_fields.specs.Setup.{setup_of};
ghost use Rattle.usb_host.specs.Transfer.{begun, is_transfer};
ghost use Rattle.usb_c.specs.Transfers.{fields_in, stage_in, stage_of, transfer_in, why_in};

use crate::transaction::{toggle_number, toggle_of};
use usb_fields::Setup;
use usb_host::{Transfer, TransferFields, TransferStage, Why, Write};

/// A control transfer at the host's end, as numbers: the struct `nzg_transfer` of nozzlegorse.h. Any numbers are allowed.
#[repr(C)]
#[derive(Clone, Copy, Drop)]
pub struct NzgTransfer {
    /// How many NAKs without progress are retried.
    pub naks: u16,
    /// The NAKs since the last progress.
    pub nak_count: u16,
    /// How many bytes of the data stage were kept, or were acknowledged by the device.
    pub kept: u16,
    /// The address of the device.
    pub address: u8,
    /// The packet size of its endpoint zero, in bytes.
    pub packet: u8,
    /// The number of its stage, 6 where it failed.
    pub stage: u8,
    /// The number of the reason for which it failed, else 0.
    pub why: u8,
    /// The toggle of the next data packet.
    pub toggle: u8,
    /// The strikes since the last progress.
    pub strikes: u8,
    /// The bytes of its request.
    pub setup: [u8; 8],
}

impl NzgTransfer {
    /// A transfer that has done nothing.
    pub(crate) fn begun(address: u8, packet: u8, naks: u16, setup: [u8; 8]) -> NzgTransfer
        requires { 0 < packet }
        ensures { transfer_in result ≡ Some (begun address packet naks (setup_of setup)) }
    {
        NzgTransfer {
            naks,
            nak_count: 0,
            kept: 0,
            address,
            packet,
            stage: 0,
            why: 0,
            toggle: 1,
            strikes: 0,
            setup,
        }
    }

    /// The transfer with these numbers, if they are those of one.
    pub(crate) fn transfer(&self) -> Option<Transfer>
        ensures value { result ≡ transfer_in self.now }
        ensures request { IfSome result (λ t. t.request ≡ setup_of self.now.setup) }
    {
        match self.fields() {
            Some(fields) => Transfer::from_fields(fields),
            None => None,
        }
    }

    /// The write with these numbers, if they are those of one.
    pub(crate) fn write(&self) -> Option<Write>
        ensures value { result ≡ transfer_in self.now }
        ensures request { IfSome result (λ t. t.request ≡ setup_of self.now.setup) }
    {
        match self.fields() {
            Some(fields) => Write::from_fields(fields),
            None => None,
        }
    }

    /// The fields, if the stage, the reason and the toggle have a meaning.
    fn fields(&self) -> Option<TransferFields>
        ensures value { result ≡ fields_in self.now }
        ensures request { IfSome result (λ t. t.request ≡ setup_of self.now.setup) }
    {
        let (Some(stage), Some(awaited)) = (stage_in(self.stage, self.why), toggle_of(self.toggle))
        else {
            return None;
        };
        Some(TransferFields {
            address: self.address,
            packet: self.packet,
            naks: self.naks,
            request: Setup::from_bytes(&self.setup),
            stage,
            awaited,
            kept: self.kept,
            strikes: self.strikes,
            nak_count: self.nak_count,
        })
    }

    /// Becomes the numbers of a transfer of the same request.
    pub(crate) fn set_fields(&mut self, fields: TransferFields)
        requires request { fields.request ≡ setup_of self.old.setup }
        requires whole { is_transfer fields ≡ true }
        ensures { transfer_in self.new ≡ Some fields }
    {
        let (stage, why) = stage_numbers(fields.stage);
        *self = NzgTransfer {
            naks: fields.naks,
            nak_count: fields.nak_count,
            kept: fields.kept,
            address: fields.address,
            packet: fields.packet,
            stage,
            why,
            toggle: toggle_number(fields.awaited),
            strikes: fields.strikes,
            setup: self.setup,
        };
    }
}

/// The stage of these numbers, if they have a meaning.
fn stage_in(stage: u8, why: u8) -> Option<TransferStage>
    ensures { result ≡ stage_in stage why }
{
    if stage == 6 {
        return match why_in(why) {
            Some(why) => Some(TransferStage::Failed(why)),
            None => None,
        };
    }
    if why == 0 { stage_of(stage) } else { None }
}

/// The stage of this number, if it is one of a transfer that has not failed.
fn stage_of(stage: u8) -> Option<TransferStage>
    ensures { result ≡ stage_of stage }
{
    match stage {
        0 => Some(TransferStage::Setup),
        1 => Some(TransferStage::DataIn),
        2 => Some(TransferStage::DataOut),
        3 => Some(TransferStage::StatusOut),
        4 => Some(TransferStage::StatusIn),
        5 => Some(TransferStage::Completed),
        _ => None,
    }
}

/// The reason of this number.
pub(crate) fn why_in(number: u8) -> Option<Why>
    ensures { result ≡ why_in number }
{
    match number {
        1 => Some(Why::NoAnswer),
        2 => Some(Why::Busy),
        3 => Some(Why::Stalled),
        4 => Some(Why::TooLong),
        5 => Some(Why::Unexpected),
        6 => Some(Why::Malformed),
        7 => Some(Why::Memory),
        _ => None,
    }
}

/// The number of a stage, and that of the reason of a failure.
fn stage_numbers(stage: TransferStage) -> (u8, u8)
    ensures { stage_in result.0 result.1 ≡ Some stage }
{
    match stage {
        TransferStage::Setup => (0, 0),
        TransferStage::DataIn => (1, 0),
        TransferStage::DataOut => (2, 0),
        TransferStage::StatusOut => (3, 0),
        TransferStage::StatusIn => (4, 0),
        TransferStage::Completed => (5, 0),
        TransferStage::Failed(why) => (6, why.number()),
    }
}
