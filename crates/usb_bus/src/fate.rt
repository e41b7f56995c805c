//! What happens to one transaction.
ghost use Rattle.std.specs.Prelude.{◌≡◌, ◌≤◌};
ghost use Rattle.usb_fields.specs.Packets.{reply_of};

use usb_fields::Answer;

/// What a bus does to one transaction.
///
/// ```rust
/// // A read of one packet. SETUP is lost once, and the device is not ready once: five transactions in place of three.
/// let setup = Setup::from_bytes(&[0x80, 6, 0, 1, 0, 0, 18, 0]);
/// let talk = converse(alloc, &description, 16, &[setup], &[Fate::LostDown, Fate::Pass, Fate::Busy])?;
/// assert_eq!(rt; talk.transactions, 5);
/// ```
#[derive(Clone, Copy, Debug, PartialEq, Eq, Hash)]
pub enum Fate {
    /// All packets arrive.
    Pass,
    /// All packets arrive, and the device is not ready. It answers NAK to all but a SETUP.
    Busy,
    /// What the host sends does not arrive.
    LostDown,
    /// What the device answers does not arrive.
    LostUp,
    /// The host's ACK of a data packet does not arrive. Where the answer is no data, all arrives.
    LostAck,
}

impl Fate {
    ghost use Rattle.usb_bus.specs.Bus.{acknowledges, brought, busy, lost, readiness};
    ghost use Rattle.usb_bus.specs.Run.{fate_at};

    /// The fate of a transaction by its number, counted from 0. After the list's end all pass.
    ///
    /// ```rust
    /// assert_eq!(rt; Fate::at(&[Fate::LostAck], 0), Fate::LostAck);
    /// assert_eq!(rt; Fate::at(&[Fate::LostAck], 1), Fate::Pass);
    /// ```
    pub fn at(fates: &[Fate], number: u128) -> Fate
        ensures { result ≡ fate_at fates.now number }
    {
        if number < fates.len() as u128 {
            fates[number as usize]
        } else {
            Fate::Pass
        }
    }

    /// 1 where something is lost.
    pub(crate) fn lost(self) -> u64
        ensures lost { result ≡ lost self }
        ensures most { result ≤ 1 }
    {
        match self {
            Fate::Pass | Fate::Busy => 0,
            Fate::LostDown | Fate::LostUp | Fate::LostAck => 1,
        }
    }

    /// 1 where the device is not ready.
    pub(crate) fn busy(self) -> u64
        ensures busy { result ≡ busy self }
        ensures most { result ≤ 1 }
    {
        match self {
            Fate::Busy => 1,
            Fate::Pass | Fate::LostDown | Fate::LostUp | Fate::LostAck => 0,
        }
    }

    /// Whether a device is ready, where it receives what the host sends: the argument of
    /// [`Device::serve`](usb_device::Device::serve).
    ///
    /// ```rust
    /// assert_eq!(rt; Fate::Busy.readiness(), Some(false));
    /// assert_eq!(rt; Fate::LostDown.readiness(), None);
    /// ```
    #[inline(always)]
    pub fn readiness(self) -> Option<bool>
        ensures { result ≡ readiness self }
    {
        match self {
            Fate::LostDown => None,
            Fate::Busy => Some(false),
            Fate::LostUp | Fate::LostAck | Fate::Pass => Some(true),
        }
    }

    /// What of the device's answer reaches the host.
    ///
    /// ```rust
    /// assert_eq!(rt; Fate::LostUp.brought(Answer::Ack), Answer::Silence);
    /// ```
    #[inline(always)]
    pub fn brought<'a>(self, answer: Answer<'a>) -> Answer<'a>
        ensures { reply_of result ≡ brought self (reply_of answer.entry) }
    {
        match self {
            Fate::LostUp => Answer::Silence,
            Fate::LostDown | Fate::LostAck | Fate::Busy | Fate::Pass => answer,
        }
    }

    /// Whether the host's ACK of the device's answer reaches the device:
    /// [`Device::acked`](usb_device::Device::acked) is then the next call.
    ///
    /// ```rust
    /// assert!(rt; !Fate::Pass.acknowledges(Answer::Nak));
    /// ```
    #[inline(always)]
    pub fn acknowledges(self, answer: Answer<'_>) -> bool
        ensures { result ≡ acknowledges self (reply_of answer.entry) }
    {
        match self {
            Fate::LostUp | Fate::LostAck => false,
            Fate::LostDown | Fate::Busy | Fate::Pass => matches!(answer, Answer::Data(_, _)),
        }
    }
}
