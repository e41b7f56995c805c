//! What passes between a host and a device in one transaction, and at which speed (USB 2.0, 8.4 to 8.6).
ghost use Rattle.std.specs.Prelude.{◌≡◌};

/// The speed that a device runs at (USB 2.0, 4.2.1).
#[derive(Clone, Copy, Debug, PartialEq, Eq, Hash)]
pub enum Speed {
    /// 1.5 Mb/s.
    Low,
    /// 12 Mb/s.
    Full,
    /// 480 Mb/s.
    High,
}

/// The PID of a data packet: the two alternate, so that a packet that comes again is known (USB 2.0, 8.6).
///
/// ```rust
/// assert_eq!(rt; Toggle::Data1.flip(), Toggle::Data0);
/// ```
#[derive(Clone, Copy, Debug, PartialEq, Eq, Hash)]
pub enum Toggle {
    /// DATA0.
    Data0,
    /// DATA1, with which each data stage and each status stage begins (8.5.3).
    Data1,
}

impl Toggle {
    ghost use Rattle.usb_fields.specs.Packets.{flipped};

    /// The other toggle.
    pub fn flip(self) -> Toggle
        ensures { result ≡ flipped self }
    {
        match self {
            Toggle::Data0 => Toggle::Data1,
            Toggle::Data1 => Toggle::Data0,
        }
    }
}

/// What the host sends in a transaction: its token, with the data of a SETUP or an OUT.
#[derive(Clone, Copy, Debug, PartialEq, Eq, Hash)]
pub enum Stage<'a> {
    /// SETUP with the bytes of a [`Setup`](crate::Setup). Its data packet is always DATA0.
    Setup([u8; 8]),
    /// IN: the device is asked for a data packet.
    In,
    /// OUT with a data packet.
    Out(Toggle, &'a [u8]),
}

/// One transaction with endpoint zero, as the host begins it.
///
/// ```rust
/// let transaction = Transaction {
///     address: 5,
///     stage: Stage::Setup(setup.to_bytes()),
/// };
/// ```
#[derive(Clone, Copy, Debug, PartialEq, Eq, Hash)]
pub struct Transaction<'a> {
    /// The device's address, 0 to 127.
    pub address: u8,
    /// What is sent to it.
    pub stage: Stage<'a>,
}

/// What comes back in a transaction.
///
/// ```rust
/// match answer {
///     Answer::Data(toggle, bytes) => take(toggle, bytes),
///     Answer::Nak => ask_again(),
///     _ => give_up(),
/// }
/// ```
#[derive(Clone, Copy, Debug, PartialEq, Eq, Hash)]
pub enum Answer<'a> {
    /// ACK: the data was taken.
    Ack,
    /// NAK: not now; the host asks again.
    Nak,
    /// STALL: the request is not supported, or the endpoint is halted.
    Stall,
    /// A data packet, which the host acknowledges.
    Data(Toggle, &'a [u8]),
    /// Nothing within the time that the standard allows.
    Silence,
}
