//! One control transfer with data to the device (USB 2.0, 8.5.3).
ghost use Rattle.std.specs.Prelude.{IsSome, None, Some, if◌then◌else◌, length, true, ◌≡◌, ◌<◌, ◌≤◌, ◌^◌};
ghost use Rattle.usb_fields.specs.Packets.{reply_of};

use crate::transfer::{Heard, Transfer};
use crate::transfer_fields::TransferFields;
use std::marker::Model;
use usb_fields::{Answer, Setup, Transaction};

/// One control transfer with data to the device, as the host drives it.
///
/// Its caller has the data, and gives them to each [`Write::next`]; what came back goes to [`Write::take`]. Each ACK of a
/// data packet counts its bytes. All else is as in a [`Transfer`](crate::Transfer).
///
/// ```rust
/// // SET_LINE_CODING: 7 bytes to the interface.
/// let coding = [0x80, 0x25, 0, 0, 0, 0, 8];
/// let mut write = Write::new(5, 64, 16, Setup::from_bytes(&[0x21, 0x20, 0, 0, 0, 0, 7, 0]));
/// while let Some(transaction) = write.next(&coding) {
///     if let Heard::Failed(why) = write.take(send(&transaction)) {
///         return Err(why);
///     }
/// }
/// ```
#[derive(Clone, Copy, Debug)]
pub struct Write {
    transfer: Transfer,
}

impl Model for Write {
    ghost use Rattle.usb_host.specs.Transfer.{TransferView};

    ghost Value = { TransferView };

    ghost view = { λ write. write.transfer };

    ghost inverse = { λ t. record { transfer = t } };
}

impl Write {
    ghost use Rattle.usb_host.specs.Heard.{heard_of};
    ghost use Rattle.usb_fields.specs.Setup.{direction_of};
    ghost use Rattle.usb_fields.specs.declared.setup.Direction.TheVariants.{Out};
    ghost use Rattle.usb_host.specs.Transfer.{begun, due, due_of, is_transfer, is_untried, left, most_transactions, packet_due, sent_by};
    ghost use Rattle.usb_host.specs.Write.{packet_length, written};

    /// A write that begins with this setup packet, with no byte, no strike and no NAK.
    ///
    /// `packet` is the packet size of the device's endpoint zero, in bytes, and `naks` the number of NAKs without
    /// progress after which one more ends the write.
    ///
    /// ```rust
    /// let write = Write::new(5, 64, 16, Setup::from_bytes(&[0x21, 0x20, 0, 0, 0, 0, 7, 0]));
    /// ```
    ///
    /// # Requires
    ///
    /// The packet size is above 0, and the request has data to the device: its direction is OUT and its wLength above 0.
    pub fn new(address: u8, packet: u8, naks: u16, setup: Setup) -> Write
        requires packet { 0 < packet }
        requires out { direction_of setup.request_type ≡ Out }
        requires some { 0 < setup.length }
        ensures view { result ≡ begun address packet naks setup }
        ensures most { left result ≤ most_transactions packet naks setup }
        ensures few { left result < 2 ^ 33 }
    {
        Write {
            transfer: Transfer::new(address, packet, naks, setup),
        }
    }

    /// The write with these fields, if they are those of a transfer ([`Transfer::from_fields`]).
    pub fn from_fields(fields: TransferFields) -> Option<Write>
        ensures { result ≡ if is_transfer fields then Some fields else None }
    {
        match Transfer::from_fields(fields) {
            Some(transfer) => Some(Write { transfer }),
            None => None,
        }
    }

    /// Its fields.
    pub fn fields(&self) -> TransferFields
        ensures value { result ≡ self.now }
        ensures whole { is_transfer result ≡ true }
    {
        self.transfer.fields()
    }

    /// The next transaction, by the stage, the address and the request; `None` once the write has ended. A data
    /// packet has the bytes from the first on that was not acknowledged: a whole packet, or all that is left (USB 2.0,
    /// 8.5.3).
    ///
    /// ```rust
    /// while let Some(transaction) = write.next(&data) {
    ///     if let Heard::Failed(why) = write.take(send(&transaction)) {
    ///         return Err(why);
    ///     }
    /// }
    /// ```
    ///
    /// # Requires
    ///
    /// The data are wLength bytes.
    #[inline(always)]
    pub fn next<'a>(&self, data: &'a [u8]) -> Option<Transaction<'a>>
        requires { length «data».now ≡ self.now.request.length }
        ensures due { sent_by result ≡ due_of self.now «data».now }
        ensures whole { length (packet_due self.now «data».now) ≡ packet_length self.now }
    {
        self.transfer.with_data(data)
    }

    /// The setup packet with which it began.
    #[inline(always)]
    pub fn request(&self) -> Setup
        ensures { result ≡ self.now.request }
    {
        self.transfer.request()
    }

    /// How many bytes of the data the device has acknowledged so far, at most wLength.
    ///
    /// ```rust
    /// assert_eq!(rt; write.acknowledged(), 7);
    /// ```
    #[inline(always)]
    pub fn acknowledged(&self) -> u16
        ensures count { result ≡ self.now.kept }
        ensures most { result ≤ self.now.request.length }
    {
        self.transfer.kept()
    }

    /// The strikes since the last progress, at most 2.
    pub fn strikes(&self) -> u8
        ensures { result ≡ self.now.strikes }
    {
        self.transfer.strikes()
    }

    /// The NAKs since the last progress, at most the limit.
    pub fn nak_count(&self) -> u16
        ensures { result ≡ self.now.nak_count }
    {
        self.transfer.nak_count()
    }

    /// Whether there was no transaction yet.
    pub fn is_untried(&self) -> bool
        ensures { result ≡ is_untried self.now.stage self.now.strikes }
    {
        self.transfer.is_untried()
    }

    /// Takes the reply to the transaction that came next, which moves the write as the table of stages says. A write that
    /// has ended answers the same `Complete` or `Failed` from then on, and does not change. Whatever is replied, at most
    /// `(naks + 3) * (wLength / packet size + 3)` transactions are due. The request stays.
    ///
    /// ```rust
    /// match write.take(answer) {
    ///     Heard::Again | Heard::Bytes(_) => {}
    ///     Heard::Complete => return Ok(()),
    ///     Heard::Failed(why) => return Err(why),
    /// }
    /// ```
    #[inline(always)]
    pub fn take<'a>(&mut self, answer: Answer<'a>) -> Heard<'a>
        ensures received { heard_of result ≡ (written self.old (reply_of answer.entry)).received }
        ensures after { self.new ≡ (written self.old (reply_of answer.entry)).transfer }
        ensures request { self.new.request ≡ self.old.request }
        ensures fewer { IsSome (due self.old) → left self.new < left self.old }
    {
        match answer {
            Answer::Ack if self.transfer.is_sending() => self.transfer.count_sent(),
            _ => self.transfer.take(answer),
        }
    }
}
