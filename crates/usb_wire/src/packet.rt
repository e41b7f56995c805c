//! The packets of the bus (USB 2.0, 8.4).
ghost use Rattle.std.specs.Prelude.{◌≡◌, ◌≤◌, ◌+◌, ◌∷◌, ◌++◌, [], ◌↔◌, Some, drop, take, length, IsTrue, IfOk, IfErr};
ghost use Rattle.usb_wire.specs.Packets.{IsLegal, data_field, packet_bytes, pid_byte};
ghost use Rattle.usb_wire.specs.Damages.{body_damage, damage_of};

use crate::address::AddressFields;
use crate::body::{
    MOST_DATA, known_bytes, read_data, read_nothing, read_split, read_token, split_bytes,
    token_bytes,
};
use crate::crc::crc16;
use crate::damage::Damage;
use crate::pid::{DataKind, Handshake, Pid, TokenKind};

/// A packet, from its PID to its CRC.
///
/// ```rust
/// let mut bytes = [0; 3];
/// let to = AddressFields { address: 0, endpoint: 0 };
/// assert_eq!(rt; Packet::Token(TokenKind::Setup, to).write(&mut bytes), 3);
/// assert_eq!(rt; bytes, [0x2d, 0x00, 0x10]);
/// ```
#[derive(Clone, Copy, Debug, PartialEq, Eq, Hash)]
pub enum Packet<'d> {
    /// OUT, IN, SETUP or PING, and where it goes (8.4.1).
    Token(TokenKind, AddressFields),
    /// SOF with the number of its frame, below 2,048 (8.4.3).
    StartOfFrame(u16),
    /// Data, at most [`MOST_DATA`] bytes (8.4.4).
    Data(DataKind, &'d [u8]),
    /// ACK, NAK, STALL or NYET (8.4.5).
    Handshake(Handshake),
    /// SPLIT with its 19 bits as one number (8.4.2): the hub's address in the lowest 7, and then SC, the port, S, E
    /// and ET.
    Split(u32),
    /// PRE of a host, or ERR of a hub.
    Pre,
}

impl<'d> Packet<'d> {
    ghost use Rattle.usb_wire.specs.Packets.{view_of};

    /// The packet that these bytes are.
    ///
    /// # Errors
    ///
    /// The first [`Damage`] that holds.
    ///
    /// ```rust
    /// assert_eq!(rt; Packet::parse(&[0xd2]), Ok(Packet::Handshake(Handshake::Ack)));
    /// assert_eq!(rt; Packet::parse(&[0x2d, 0x00, 0x11]), Err(Damage::Crc5));
    /// ```
    pub fn parse(bytes: &'d [u8]) -> Result<Packet<'d>, Damage>
        ensures ok { IfOk result (λ p. bytes.now ≡ packet_bytes (view_of p)) }
        ensures legal { IfOk result (λ p. IsLegal (view_of p)) }
        ensures err { IfErr result (λ damage. damage_of bytes.now ≡ Some damage) }
    {
        let [head, body @ ..] = bytes else {
            return Err(Damage::Empty);
        };
        Packet::after(Pid::from_byte(*head)?, body)
    }

    /// The packet with this PID and this after it.
    fn after(pid: Pid, body: &'d [u8]) -> Result<Packet<'d>, Damage>
        ensures ok { IfOk result (λ p. pid_byte pid ∷ body.now ≡ packet_bytes (view_of p)) }
        ensures legal { IfOk result (λ p. IsLegal (view_of p)) }
        ensures err { IfErr result (λ damage. body_damage pid body.now ≡ Some damage) }
    {
        match pid {
            Pid::Token(kind) => {
                let fields = read_token(body)?;
                Ok(Packet::Token(kind, AddressFields::from_bits(fields)))
            }
            Pid::StartOfFrame => Ok(Packet::StartOfFrame(read_token(body)?)),
            Pid::Data(kind) => {
                let bytes = read_data(body)?;
                known_bytes(bytes);
                Ok(Packet::Data(kind, bytes))
            }
            Pid::Handshake(kind) => {
                read_nothing(body)?;
                Ok(Packet::Handshake(kind))
            }
            Pid::Split => Ok(Packet::Split(read_split(body)?)),
            Pid::Pre => {
                read_nothing(body)?;
                Ok(Packet::Pre)
            }
        }
    }

    /// Whether each field fits into its bits, and the data into a packet.
    pub fn is_legal(&self) -> bool
        ensures { IsTrue result ↔ IsLegal (view_of self.now) }
    {
        match *self {
            Packet::Token(_, to) => to.address < 128 && to.endpoint < 16,
            Packet::StartOfFrame(number) => number < 2048,
            Packet::Data(_, bytes) => {
                known_bytes(bytes);
                bytes.len() <= MOST_DATA
            }
            Packet::Split(fields) => fields < 524_288,
            Packet::Handshake(_) | Packet::Pre => true,
        }
    }

    /// How many bytes it has: 1 to 1,027 where it is legal.
    pub fn length(&self) -> usize
        requires { IsLegal (view_of self.now) }
        ensures { result ≡ length (packet_bytes (view_of self.now)) }
    {
        match *self {
            Packet::Token(_, _) | Packet::StartOfFrame(_) => 3,
            Packet::Data(_, bytes) => bytes.len() + 3,
            Packet::Split(_) => 4,
            Packet::Handshake(_) | Packet::Pre => 1,
        }
    }

    /// Writes it at the beginning of a buffer, and answers how many bytes it has.
    pub fn write(&self, out: &mut [u8]) -> usize
        requires legal { IsLegal (view_of self.now) }
        requires room { length (packet_bytes (view_of self.now)) ≤ length out.old }
        ensures length { result ≡ length (packet_bytes (view_of self.now)) }
        ensures bytes { out.new ≡ packet_bytes (view_of self.now) ++ drop result out.old }
    {
        match *self {
            Packet::Token(kind, to) => put(&token_bytes(Pid::Token(kind), to.bits()), 0, out),
            Packet::StartOfFrame(number) => put(&token_bytes(Pid::StartOfFrame, number), 0, out),
            Packet::Data(kind, bytes) => put_data(Pid::Data(kind), bytes, out),
            Packet::Handshake(kind) => put(&[Pid::Handshake(kind).byte()], 0, out),
            Packet::Split(fields) => put(&split_bytes(fields), 0, out),
            Packet::Pre => put(&[Pid::Pre.byte()], 0, out),
        }
    }
}

/// Writes bytes at this place, and answers where they end.
fn put(bytes: &[u8], at: usize, out: &mut [u8]) -> usize
    requires { at + length bytes.now ≤ length out.old }
    ensures end { result ≡ at + length bytes.now }
    ensures bytes { out.new ≡ take at out.old ++ (bytes.now ++ drop result out.old) }
{
    let end = at + bytes.len();
    out[at..end].copy_from_slice(bytes);
    end
}

/// Writes a data packet at the beginning of a buffer, and answers how many bytes it has.
fn put_data(pid: Pid, bytes: &[u8], out: &mut [u8]) -> usize
    requires few { length bytes.now ≤ 1024 }
    requires room { length bytes.now + 3 ≤ length out.old }
    ensures length { result ≡ length bytes.now + 3 }
    ensures bytes { out.new ≡ (pid_byte pid ∷ data_field bytes.now) ++ drop result out.old }
{
    let crc = crc16(bytes);
    let start = put(&[pid.byte()], 0, out);
    let end = put(bytes, start, out);
    put(&[(crc % 256) as u8, (crc / 256) as u8], end, out)
}
