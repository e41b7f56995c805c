//! One control transfer, driven reply by reply (USB 2.0, 8.5.3).
ghost use Rattle.std.specs.Prelude.{IsSome, None, Some, if◌then◌else◌, length, true, ◌≡◌, ◌<◌, ◌≤◌, ◌+◌, ◌^◌};
ghost use Rattle.usb_fields.specs.Packets.{reply_of};
ghost use Rattle.usb_host.specs.Transfer.{stage_after_setup};

use crate::transfer_fields::TransferFields;
use crate::why::Why;
use std::marker::Model;
use usb_fields::{Answer, Direction, Setup, Stage, Toggle, Transaction};

/// What a reply meant to a [`Transfer`](crate::Transfer).
#[derive(Clone, Copy, Debug, PartialEq, Eq, Hash)]
pub enum Heard<'a> {
    /// The transfer goes on, and no byte was kept.
    Again,
    /// The transfer goes on, and these bytes of the data stage are new.
    Bytes(&'a [u8]),
    /// The transfer has completed.
    Complete,
    /// The transfer has failed.
    Failed(Why),
}

/// The stage that a control transfer is in, or its end (USB 2.0, 8.5.3).
#[derive(Clone, Copy, Debug, PartialEq, Eq, Hash)]
pub enum TransferStage {
    /// The setup packet is not acknowledged yet.
    Setup,
    /// Data packets come from the device.
    DataIn,
    /// Data packets go to the device.
    DataOut,
    /// After data from the device: an empty packet goes to it.
    StatusOut,
    /// After data to the device, or with no data stage: an empty packet comes from the device.
    StatusIn,
    /// All stages are done.
    Completed,
    /// It ended before that.
    Failed(Why),
}

/// The strikes that a transfer retries with no progress between them: one more ends it.
const STRIKES: u8 = 2;

/// One control transfer, as the host drives it.
///
/// The caller sends what [`Transfer::next`] says, hands what came back to [`Transfer::take`], and goes on until
/// `next` says `None`. Data packets are kept by their toggle (USB 2.0, 8.6): one that comes again is acknowledged and
/// discarded. It has no data for the device: of a request that brings some, [`Write`](crate::Write) is the transfer.
///
/// ```rust
/// let mut transfer = Transfer::new(0, 64, 16, Setup::from_bytes(&[0x80, 6, 0, 1, 0, 0, 2, 0]));
/// transfer.take(Answer::Ack);
/// let received = transfer.take(Answer::Data(Toggle::Data1, &[18, 1]));
/// assert_eq!(rt; received, Heard::Bytes(&[18, 1]));
/// assert_eq!(rt; transfer.take(Answer::Ack), Heard::Complete);
/// assert_eq!(rt; transfer.next(), None);
/// ```
#[derive(Clone, Copy, Debug)]
pub struct Transfer {
    fields: TransferFields,
}

impl Model for Transfer {
    ghost use Rattle.usb_host.specs.Transfer.{IsTransfer, TransferView};

    ghost Value = { TransferView };

    ghost view = { λ t. t.fields };

    ghost invariant = { λ t. IsTransfer t.fields };

    ghost inverse = { λ fields. record { fields = fields } };
}

impl Transfer {
    ghost use Rattle.usb_host.specs.Heard.{heard_of};
    ghost use Rattle.usb_host.specs.declared.transfer.TransferStage.TheVariants.{DataIn, DataOut};
    ghost use Rattle.usb_host.specs.Transfer.{begun, due, due_of, is_transfer, packet_due, sent_by, taken, taken_data, taken_status, moved, completed, failed, struck, delayed, with_packet, is_untried, left, most_transactions};
    ghost use Rattle.usb_host.specs.Write.{acknowledged, is_sending};

    /// A transfer that begins with this setup packet, with no byte, no strike and no NAK.
    ///
    /// `packet` is the packet size of the device's endpoint zero, in bytes, and `naks` the number of NAKs without
    /// progress after which one more ends the transfer.
    ///
    /// ```rust
    /// let transfer = Transfer::new(5, 64, 16, Setup::from_bytes(&[0x80, 6, 0, 1, 0, 0, 18, 0]));
    /// ```
    ///
    /// # Requires
    ///
    /// The packet size is above 0.
    pub fn new(address: u8, packet: u8, naks: u16, s: Setup) -> Transfer
        requires { 0 < packet }
        ensures view { result ≡ begun address packet naks s }
        ensures most { left result ≤ most_transactions packet naks s }
        ensures few { left result < 2 ^ 33 }
    {
        Transfer {
            fields: TransferFields {
                address,
                packet,
                naks,
                request: s,
                stage: TransferStage::Setup,
                awaited: Toggle::Data1,
                kept: 0,
                strikes: 0,
                nak_count: 0,
            },
        }
    }

    /// The transfer with these fields, if they are those of one: the packet size is above 0, no more was kept than
    /// wLength, and the strikes and the NAKs are within their limits.
    ///
    /// ```rust
    /// assert!(rt; Transfer::from_fields(transfer.fields()).is_some());
    /// assert!(rt; Transfer::from_fields(TransferFields { packet: 0, ..transfer.fields() }).is_none());
    /// ```
    pub fn from_fields(fields: TransferFields) -> Option<Transfer>
        ensures { result ≡ if is_transfer fields then Some fields else None }
    {
        if fields.packet > 0
            && fields.kept <= fields.request.length
            && fields.strikes <= STRIKES
            && fields.nak_count <= fields.naks
        {
            Some(Transfer { fields })
        } else {
            None
        }
    }

    /// Its fields.
    pub fn fields(&self) -> TransferFields
        ensures value { result ≡ self.now }
        ensures whole { is_transfer result ≡ true }
    {
        self.fields
    }

    /// The next transaction, by the stage, the address and the request; `None` once the transfer has ended.
    ///
    /// In DataOut it is an empty DATA1, since a transfer has no data for the device. No device takes that as a packet of
    /// them, and its ACK is [`Why::Unexpected`].
    ///
    /// ```rust
    /// while let Some(transaction) = transfer.next() {
    ///     transfer.take(send(&transaction));
    /// }
    /// ```
    #[inline(always)]
    pub fn next(&self) -> Option<Transaction<'static>>
        ensures { sent_by result ≡ due self.now }
    {
        self.with_data(&[])
    }

    /// The same where these are the data to the device, from the first byte on.
    #[inline(always)]
    pub(crate) fn with_data<'a>(&self, bytes: &'a [u8]) -> Option<Transaction<'a>>
        ensures { sent_by result ≡ due_of self.now bytes.now }
    {
        let stage = match self.fields.stage {
            TransferStage::Setup => Stage::Setup(self.fields.request.to_bytes()),
            TransferStage::DataIn | TransferStage::StatusIn => Stage::In,
            TransferStage::DataOut => Stage::Out(self.fields.awaited, self.packet_of(bytes)),
            TransferStage::StatusOut => Stage::Out(Toggle::Data1, &[]),
            TransferStage::Completed | TransferStage::Failed(_) => return None,
        };
        Some(Transaction {
            address: self.fields.address,
            stage,
        })
    }

    /// The next data packet, of these data.
    #[inline(always)]
    fn packet_of<'a>(&self, bytes: &'a [u8]) -> &'a [u8]
        ensures { result.now ≡ packet_due self.now bytes.now }
    {
        let start = usize::from(self.fields.kept).min(bytes.len());
        let left = &bytes[start..];
        &left[..left.len().min(usize::from(self.fields.packet))]
    }

    /// The setup packet with which it began.
    ///
    /// ```rust
    /// assert_eq!(rt; transfer.request().length, 18);
    /// ```
    #[inline(always)]
    pub fn request(&self) -> Setup
        ensures { result ≡ self.now.request }
    {
        self.fields.request
    }

    /// How many bytes of the data stage were kept so far, at most wLength.
    ///
    /// ```rust
    /// assert_eq!(rt; transfer.kept(), 18);
    /// ```
    #[inline(always)]
    pub fn kept(&self) -> u16
        ensures count { result ≡ self.now.kept }
        ensures most { result ≤ self.now.request.length }
    {
        self.fields.kept
    }

    /// The strikes since the last progress, at most 2: transactions that brought nothing, or a packet that came before.
    ///
    /// ```rust
    /// assert_eq!(rt; transfer.strikes(), 0);
    /// ```
    pub fn strikes(&self) -> u8
        ensures { result ≡ self.now.strikes }
    {
        self.fields.strikes
    }

    /// The NAKs since the last progress, at most the limit.
    ///
    /// ```rust
    /// assert_eq!(rt; transfer.nak_count(), 0);
    /// ```
    pub fn nak_count(&self) -> u16
        ensures { result ≡ self.now.nak_count }
    {
        self.fields.nak_count
    }

    /// Whether a data packet to the device comes next.
    #[inline(always)]
    pub(crate) fn is_sending(&self) -> bool
        ensures { result ≡ is_sending self.now.stage }
    {
        self.fields.stage == TransferStage::DataOut
    }

    /// Whether there was no transaction yet.
    ///
    /// ```rust
    /// let mut transfer = Transfer::new(0, 64, 16, setup);
    /// assert!(rt; transfer.is_untried());
    /// transfer.take(Answer::Silence);
    /// assert!(rt; !transfer.is_untried());
    /// ```
    pub fn is_untried(&self) -> bool
        ensures { result ≡ is_untried self.now.stage self.now.strikes }
    {
        self.fields.stage == TransferStage::Setup && self.fields.strikes == 0
    }

    /// Takes the reply to the transaction that came next, which moves the transfer as the table of stages says. A transfer
    /// that has ended answers the same `Complete` or `Failed` from then on, and does not change. Whatever is replied, at
    /// most `(naks + 3) * (wLength / packet size + 3)` transactions are due. The request stays.
    ///
    /// ```rust
    /// match transfer.take(answer) {
    ///     Heard::Again => {}
    ///     Heard::Bytes(bytes) => data.extend_from_slice(bytes)?,
    ///     Heard::Complete => return Ok(data),
    ///     Heard::Failed(why) => return Err(why),
    /// }
    /// ```
    #[inline(always)]
    pub fn take<'a>(&mut self, a: Answer<'a>) -> Heard<'a>
        ensures received { heard_of result ≡ (taken self.old (reply_of a.entry)).received }
        ensures after { self.new ≡ (taken self.old (reply_of a.entry)).transfer }
        ensures request { self.new.request ≡ self.old.request }
        ensures fewer { IsSome (due self.old) → left self.new < left self.old }
    {
        // For the proof alone: a field that is read brings in what holds of a transfer.
        let _packet = self.fields.packet;
        self.take_at(a)
    }

    /// The same by the stage.
    #[inline(always)]
    fn take_at<'a>(&mut self, a: Answer<'a>) -> Heard<'a>
        ensures received { heard_of result ≡ (taken self.old (reply_of a.entry)).received }
        ensures after { self.new ≡ (taken self.old (reply_of a.entry)).transfer }
    {
        match self.fields.stage {
            TransferStage::Setup => match a {
                Answer::Ack => {
                    let stage = after_setup(self.fields.request);
                    self.go_on(stage)
                }
                Answer::Silence => self.strike(),
                Answer::Nak | Answer::Stall | Answer::Data(_, _) => self.fail(Why::Unexpected),
            },
            TransferStage::DataIn => match a {
                Answer::Data(toggle, bytes) => self.take_data(toggle, bytes),
                Answer::Nak => self.delay(),
                Answer::Silence => self.strike(),
                Answer::Stall => self.fail(Why::Stalled),
                Answer::Ack => self.fail(Why::Unexpected),
            },
            TransferStage::DataOut => match a {
                Answer::Nak => self.delay(),
                Answer::Silence => self.strike(),
                Answer::Stall => self.fail(Why::Stalled),
                Answer::Ack | Answer::Data(_, _) => self.fail(Why::Unexpected),
            },
            TransferStage::StatusOut => match a {
                Answer::Ack => self.complete(),
                Answer::Nak => self.delay(),
                Answer::Silence => self.strike(),
                Answer::Stall => self.fail(Why::Stalled),
                Answer::Data(_, _) => self.fail(Why::Unexpected),
            },
            TransferStage::StatusIn => match a {
                Answer::Data(toggle, bytes) => self.take_status(toggle, bytes),
                Answer::Nak => self.delay(),
                Answer::Silence => self.strike(),
                Answer::Stall => self.fail(Why::Stalled),
                Answer::Ack => self.fail(Why::Unexpected),
            },
            TransferStage::Completed => Heard::Complete,
            TransferStage::Failed(why) => Heard::Failed(why),
        }
    }

    /// A packet in the data stage. Its length is tested before its toggle: a packet over the packet size is none of
    /// this device's, whether it came before or not.
    #[inline(always)]
    fn take_data<'a>(&mut self, toggle: Toggle, bytes: &'a [u8]) -> Heard<'a>
        requires { self.old.stage ≡ DataIn }
        ensures received { heard_of result ≡ (taken_data self.old toggle bytes.now).received }
        ensures after { self.new ≡ (taken_data self.old toggle bytes.now).transfer }
    {
        if bytes.len() > usize::from(self.fields.packet) {
            return self.fail(Why::TooLong);
        }
        if toggle != self.fields.awaited {
            return self.strike();
        }
        if usize::from(self.fields.kept) + bytes.len() > usize::from(self.fields.request.length) {
            return self.fail(Why::TooLong);
        }
        self.keep(bytes.len() as u16);
        Heard::Bytes(bytes)
    }

    /// A packet in the status stage.
    #[inline(always)]
    fn take_status(&mut self, toggle: Toggle, bytes: &[u8]) -> Heard<'static>
        ensures received { heard_of result ≡ (taken_status self.old toggle bytes.now).received }
        ensures after { self.new ≡ (taken_status self.old toggle bytes.now).transfer }
    {
        if !bytes.is_empty() {
            return self.fail(Why::TooLong);
        }
        match toggle {
            Toggle::Data0 => self.strike(),
            Toggle::Data1 => self.complete(),
        }
    }

    /// Progress: on to this stage.
    #[inline(always)]
    fn go_on(&mut self, stage: TransferStage) -> Heard<'static>
        ensures received { heard_of result ≡ (moved self.old stage).received }
        ensures after { self.new ≡ (moved self.old stage).transfer }
    {
        self.fields.stage = stage;
        self.fields.strikes = 0;
        self.fields.nak_count = 0;
        Heard::Again
    }

    /// Progress to the end.
    #[inline(always)]
    fn complete(&mut self) -> Heard<'static>
        ensures received { heard_of result ≡ (completed self.old).received }
        ensures after { self.new ≡ (completed self.old).transfer }
    {
        self.fields.stage = TransferStage::Completed;
        self.fields.strikes = 0;
        self.fields.nak_count = 0;
        Heard::Complete
    }

    /// Progress by a data packet of this many bytes.
    #[inline(always)]
    fn keep(&mut self, count: u16)
        requires stage { self.old.stage ≡ DataIn }
        requires within { self.old.kept + count ≤ self.old.request.length }
        ensures { self.new ≡ with_packet self.old count }
    {
        let is_short = count < u16::from(self.fields.packet);
        self.fields.kept += count;
        if is_short || self.fields.kept == self.fields.request.length {
            self.fields.stage = TransferStage::StatusOut;
        }
        self.fields.awaited = self.fields.awaited.flip();
        self.fields.strikes = 0;
        self.fields.nak_count = 0;
    }

    /// Progress of a write by the data packet that came next.
    #[inline(always)]
    pub(crate) fn count_sent(&mut self) -> Heard<'static>
        ensures received { heard_of result ≡ (acknowledged self.old).received }
        ensures after { self.new ≡ (acknowledged self.old).transfer }
        ensures fewer { self.old.stage ≡ DataOut → left self.new < left self.old }
    {
        let count = u16::from(self.fields.packet).min(
            self.fields.request.length - self.fields.kept,
        );
        self.fields.kept += count;
        self.fields.stage = if self.fields.kept == self.fields.request.length {
            TransferStage::StatusIn
        } else {
            TransferStage::DataOut
        };
        self.fields.awaited = self.fields.awaited.flip();
        self.fields.strikes = 0;
        self.fields.nak_count = 0;
        Heard::Again
    }

    /// The end, for this reason.
    #[inline(always)]
    fn fail(&mut self, why: Why) -> Heard<'static>
        ensures received { heard_of result ≡ (failed self.old why).received }
        ensures after { self.new ≡ (failed self.old why).transfer }
    {
        self.fields.stage = TransferStage::Failed(why);
        Heard::Failed(why)
    }

    /// No reply, or a packet that came before.
    #[inline(always)]
    fn strike(&mut self) -> Heard<'static>
        ensures received { heard_of result ≡ (struck self.old).received }
        ensures after { self.new ≡ (struck self.old).transfer }
    {
        if self.fields.strikes < STRIKES {
            self.fields.strikes += 1;
            Heard::Again
        } else {
            self.fail(Why::NoAnswer)
        }
    }

    /// A NAK.
    #[inline(always)]
    fn delay(&mut self) -> Heard<'static>
        ensures received { heard_of result ≡ (delayed self.old).received }
        ensures after { self.new ≡ (delayed self.old).transfer }
    {
        if self.fields.nak_count < self.fields.naks {
            self.fields.nak_count += 1;
            Heard::Again
        } else {
            self.fail(Why::Busy)
        }
    }
}

/// The stage that an acknowledged setup packet leads to.
#[inline(always)]
fn after_setup(request: Setup) -> TransferStage
    ensures { result ≡ stage_after_setup request }
{
    if request.length == 0 {
        return TransferStage::StatusIn;
    }
    match request.direction() {
        Direction::In => TransferStage::DataIn,
        Direction::Out => TransferStage::DataOut,
    }
}
