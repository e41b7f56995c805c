//! The host's end of a request: a write where data go to the device, else a transfer.
ghost use Rattle.std.specs.Prelude.{◌≡◌, ◌<◌, ◌^◌};
ghost use Rattle.usb_fields.specs.Packets.{reply_of};
ghost use Rattle.usb_host.specs.Transfer.{begun, due, due_of, left, sent_by};
ghost use Rattle.usb_bus.specs.Attempt.{AreDataOf};
ghost use Rattle.usb_bus.specs.Bus.{has_data, taken_by};
ghost use Rattle.usb_bus.specs.inside.Running.{is_write, transfer_of};

use crate::exchange::TakesAnswer;
use std::alloc::AllocError;
use usb_fields::{Answer, Setup, Transaction};
use usb_host::{Heard, Transfer, Why, Write};

/// The host's end of a request.
#[derive(Clone, Copy)]
pub(crate) enum Sender {
    /// Of one without data to the device.
    Transfer(Transfer),
    /// Of one with data to the device.
    Write(Write),
}

impl Sender {
    ghost use Rattle.std.specs.Prelude.{IsSome};
    ghost use Rattle.usb_host.specs.Heard.{heard_of};

    /// It begins with this setup packet, where these are the data that are sent: none, or the wLength bytes that the
    /// request brings to the device.
    pub(crate) fn new(address: u8, packet: u8, naks: u16, request: Setup, sent: &[u8]) -> Sender
        requires packet { 0 < packet }
        requires bytes { AreDataOf request sent.now }
        ensures view { transfer_of result ≡ begun address packet naks request }
        ensures kind { is_write result ≡ has_data sent.now }
        ensures few { left (transfer_of result) < 2 ^ 33 }
    {
        if sent.is_empty() {
            Sender::Transfer(Transfer::new(address, packet, naks, request))
        } else {
            Sender::Write(Write::new(address, packet, naks, request))
        }
    }

    /// The next transaction, where these are the data that are sent.
    pub(crate) fn next<'a>(&self, sent: &'a [u8]) -> Option<Transaction<'a>>
        requires kind { is_write self.now ≡ has_data sent.now }
        requires bytes { AreDataOf (transfer_of self.now).request sent.now }
        ensures { sent_by result ≡ due_of (transfer_of self.now) sent.now }
    {
        match self {
            Sender::Transfer(transfer) => transfer.next(),
            Sender::Write(write) => write.next(sent),
        }
    }

    /// Takes what came back.
    fn take<'a>(&mut self, answer: Answer<'a>) -> Heard<'a>
        ensures received { heard_of result ≡ (taken_by (is_write self.old) (transfer_of self.old) (transfer_of self.old).stage (reply_of answer.entry)).received }
        ensures after { transfer_of self.new ≡ (taken_by (is_write self.old) (transfer_of self.old) (transfer_of self.old).stage (reply_of answer.entry)).transfer }
        ensures kind { is_write self.new ≡ is_write self.old }
        ensures request { (transfer_of self.new).request ≡ (transfer_of self.old).request }
        ensures fewer { IsSome (due (transfer_of self.old)) → left (transfer_of self.new) < left (transfer_of self.old) }
    {
        match self {
            Sender::Transfer(transfer) => transfer.take(answer),
            Sender::Write(write) => write.take(answer),
        }
    }
}

/// The bytes that are new are kept. Comes to why the transfer has failed, if it has.
impl TakesAnswer<Vec<u8>> for Sender {
    ghost use Rattle.std.specs.Prelude.{◌≡◌, ◌<◌, IfOk, IsSome, OnOk};
    ghost use Rattle.usb_host.specs.Transfer.{due, left};
    ghost use Rattle.usb_bus.specs.Bus.{receives_reply};
    ghost use Rattle.usb_bus.specs.inside.Running.{failure_of, is_write, transfer_of};

    type Outcome = Result<Option<Why>, AllocError>;

    ghost receives_reply = { λ came _ old got new bytes result. OnOk result (record { transfer = transfer_of new; got = bytes.items } ≡ receives_reply (is_write old) (record { transfer = transfer_of old; got = got.items }) came) × IfOk result (λ failure. failure ≡ failure_of (transfer_of new).stage) × ((transfer_of new).request ≡ (transfer_of old).request) × (IsSome (due (transfer_of old)) → left (transfer_of new) < left (transfer_of old)) × (is_write new ≡ is_write old) };

    fn take_answer(
        &mut self,
        came: Answer<'_>,
        _answer: Answer<'_>,
        bytes: &mut Vec<u8>,
    ) -> Result<Option<Why>, AllocError> {
        match self.take(came) {
            Heard::Again | Heard::Complete => Ok(None),
            Heard::Bytes(more) => {
                bytes.extend_from_slice(more)?;
                Ok(None)
            }
            Heard::Failed(why) => Ok(Some(why)),
        }
    }
}
