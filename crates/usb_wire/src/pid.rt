//! Packet identifiers (USB 2.0, 8.3.1).
ghost use Rattle.std.specs.Prelude.{◌≡◌, IfOk, IfErr};
ghost use Rattle.usb_wire.specs.Damages.{pid_read};

use crate::damage::Damage;

/// The tokens with an address (USB 2.0, 8.4.1).
#[derive(Clone, Copy, Debug, PartialEq, Eq, Hash)]
pub enum TokenKind {
    /// Data follow, from the host to the device.
    Out,
    /// The host asks for data.
    In,
    /// The setup packet of a control transfer follows.
    Setup,
    /// The host asks whether the endpoint has room for data, at high speed alone (8.5.1).
    Ping,
}

/// The data packets (8.4.4).
#[derive(Clone, Copy, Debug, PartialEq, Eq, Hash)]
pub enum DataKind {
    /// The toggle is 0.
    Data0,
    /// The toggle is 1.
    Data1,
    /// Of an isochronous endpoint with three transactions in a microframe (5.9.2).
    Data2,
    /// Of such an endpoint, or of a split transaction.
    MData,
}

/// The handshakes (8.4.5).
#[derive(Clone, Copy, Debug, PartialEq, Eq, Hash)]
pub enum Handshake {
    /// The data were taken.
    Ack,
    /// Not now: the host asks again.
    Nak,
    /// The endpoint is halted, or the request is not supported.
    Stall,
    /// The data were taken, and there is no room for more (8.5.1); or a split transaction isn't done yet.
    Nyet,
}

/// Which packet it is: the first byte of each packet (table 8-1).
///
/// ```rust
/// assert_eq!(rt; Pid::from_byte(0xd2), Ok(Pid::Handshake(Handshake::Ack)));
/// ```
#[derive(Clone, Copy, Debug, PartialEq, Eq, Hash)]
pub enum Pid {
    /// OUT, IN, SETUP or PING.
    Token(TokenKind),
    /// SOF.
    StartOfFrame,
    /// DATA0, DATA1, DATA2 or MDATA.
    Data(DataKind),
    /// ACK, NAK, STALL or NYET.
    Handshake(Handshake),
    /// SPLIT.
    Split,
    /// PRE of a host, and ERR of a hub: one PID.
    Pre,
}

impl Pid {
    ghost use Rattle.usb_wire.specs.Packets.{pid_byte};

    /// The PID that a byte is.
    ///
    /// # Errors
    ///
    /// [`Damage::Pid`] where the upper four bits aren't the complement of the lower ones, and [`Damage::Reserved`] where
    /// these are 0000.
    pub fn from_byte(byte: u8) -> Result<Pid, Damage>
        ensures reads { result ≡ pid_read byte }
        ensures ok { IfOk result (λ pid. byte ≡ pid_byte pid) }
    {
        let number = byte % 16;
        if byte / 16 != 15 - number {
            return Err(Damage::Pid);
        }
        match number {
            1 => Ok(Pid::Token(TokenKind::Out)),
            2 => Ok(Pid::Handshake(Handshake::Ack)),
            3 => Ok(Pid::Data(DataKind::Data0)),
            4 => Ok(Pid::Token(TokenKind::Ping)),
            5 => Ok(Pid::StartOfFrame),
            6 => Ok(Pid::Handshake(Handshake::Nyet)),
            7 => Ok(Pid::Data(DataKind::Data2)),
            8 => Ok(Pid::Split),
            9 => Ok(Pid::Token(TokenKind::In)),
            10 => Ok(Pid::Handshake(Handshake::Nak)),
            11 => Ok(Pid::Data(DataKind::Data1)),
            12 => Ok(Pid::Pre),
            13 => Ok(Pid::Token(TokenKind::Setup)),
            14 => Ok(Pid::Handshake(Handshake::Stall)),
            15 => Ok(Pid::Data(DataKind::MData)),
            _ => Err(Damage::Reserved),
        }
    }

    /// The byte of this PID: its four bits, and above them their complement.
    pub fn byte(self) -> u8
        ensures { result ≡ pid_byte self }
    {
        let number = match self {
            Pid::Token(TokenKind::Out) => 1,
            Pid::Token(TokenKind::In) => 9,
            Pid::StartOfFrame => 5,
            Pid::Token(TokenKind::Setup) => 13,
            Pid::Data(DataKind::Data0) => 3,
            Pid::Data(DataKind::Data1) => 11,
            Pid::Data(DataKind::Data2) => 7,
            Pid::Data(DataKind::MData) => 15,
            Pid::Handshake(Handshake::Ack) => 2,
            Pid::Handshake(Handshake::Nak) => 10,
            Pid::Handshake(Handshake::Stall) => 14,
            Pid::Handshake(Handshake::Nyet) => 6,
            Pid::Pre => 12,
            Pid::Split => 8,
            Pid::Token(TokenKind::Ping) => 4,
        };
        number + 16 * (15 - number)
    }
}
