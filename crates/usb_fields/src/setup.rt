//! The setup packet of a control transfer, and which way data goes (USB 2.0, 9.3).
ghost use Rattle.std.specs.Prelude.{◌≡◌};

use crate::bytes::word_at;

/// Which way data goes on the bus, as the host sees it. Bit 7 of bmRequestType says it of a data stage (USB 2.0, table
/// 9-2), and bit 7 of bEndpointAddress of an endpoint (9.6.6).
#[derive(Clone, Copy, Debug, PartialEq, Eq, Hash)]
pub enum Direction {
    /// From the host to the device: the bit is 0.
    Out,
    /// From the device to the host: the bit is 1.
    In,
}

impl Direction {
    ghost use Rattle.usb_fields.specs.Setup.{direction_of};

    /// What bit 7 of the byte says.
    ///
    /// ```rust
    /// assert_eq!(rt; Direction::of(0x81), Direction::In);
    /// ```
    #[inline]
    pub fn of(byte: u8) -> Direction
        ensures { result ≡ direction_of byte }
    {
        match byte >> 7 {
            0 => Direction::Out,
            _ => Direction::In,
        }
    }
}

/// Who defines the request (bits 6..5 of bmRequestType).
#[derive(Clone, Copy, Debug, PartialEq, Eq, Hash)]
pub enum Class {
    /// The standard: chapter 9 of USB 2.0.
    Standard,
    /// The specification of a device class.
    Class,
    /// The device's vendor.
    Vendor,
    /// A value that the standard keeps for later.
    Reserved,
}

/// Which part of the device a request is for (bits 4..0 of bmRequestType).
#[derive(Clone, Copy, Debug, PartialEq, Eq, Hash)]
pub enum Recipient {
    /// The device as a whole.
    Device,
    /// An interface, named by wIndex.
    Interface,
    /// An endpoint, named by wIndex.
    Endpoint,
    /// Another part of the device.
    Other,
    /// A value that the standard keeps for later.
    Reserved,
}

/// A setup packet: the eight bytes that say what a control transfer asks for (USB 2.0, table 9-2).
///
/// ```rust
/// // GET_DESCRIPTOR of the device descriptor, 18 bytes.
/// let setup = Setup::from_bytes(&[0x80, 0x06, 0x00, 0x01, 0x00, 0x00, 0x12, 0x00]);
/// assert_eq!(rt; (setup.direction(), setup.value, setup.length), (Direction::In, 0x0100, 18));
/// ```
#[derive(Clone, Copy, Debug, PartialEq, Eq, Hash)]
pub struct Setup {
    /// bmRequestType: direction, class and recipient.
    pub request_type: u8,
    /// bRequest: the request's code (table 9-4).
    pub request: u8,
    /// wValue: its meaning depends on the request.
    pub value: u16,
    /// wIndex: its meaning depends on the request, mostly an interface, an endpoint or a language.
    pub index: u16,
    /// wLength: the most bytes that the data stage may have; 0 says that there is none.
    pub length: u16,
}

impl Setup {
    ghost use Rattle.usb_fields.specs.Setup.{direction_of, setup_bytes, setup_of, class_of, recipient_of};

    /// The setup packet that these bytes are.
    pub fn from_bytes(b: &[u8; 8]) -> Setup
        ensures value { result ≡ setup_of b.now }
        ensures bytes { setup_bytes result ≡ b.now }
    {
        Setup {
            request_type: b[0],
            request: b[1],
            value: word_at(b, 2),
            index: word_at(b, 4),
            length: word_at(b, 6),
        }
    }

    /// The bytes of this packet, in the order in which they are sent.
    pub fn to_bytes(&self) -> [u8; 8]
        ensures { result ≡ setup_bytes self.now }
    {
        // As one number, which compilers make one load.
        let bytes = u64::from(self.request_type)
            + u64::from(self.request) * 0x100
            + u64::from(self.value) * 0x1_0000
            + u64::from(self.index) * 0x1_0000_0000
            + u64::from(self.length) * 0x1_0000_0000_0000;
        bytes.to_le_bytes()
    }

    /// Which way the data stage goes. Where `length` is 0 there is none, and the bit means nothing.
    pub fn direction(&self) -> Direction
        ensures { result ≡ direction_of self.now.request_type }
    {
        Direction::of(self.request_type)
    }

    /// Who defines the request.
    pub fn class(&self) -> Class
        ensures { result ≡ class_of self.now.request_type }
    {
        match self.request_type >> 5 & 3 {
            0 => Class::Standard,
            1 => Class::Class,
            2 => Class::Vendor,
            _ => Class::Reserved,
        }
    }

    /// Which part of the device the request is for.
    pub fn recipient(&self) -> Recipient
        ensures { result ≡ recipient_of self.now.request_type }
    {
        match self.request_type & 0x1f {
            0 => Recipient::Device,
            1 => Recipient::Interface,
            2 => Recipient::Endpoint,
            3 => Recipient::Other,
            _ => Recipient::Reserved,
        }
    }
}

impl From<[u8; 8]> for Setup {
    ghost use Rattle.usb_fields.specs.Setup.{setup_of};

    ghost from_gives = { λ b s. s ≡ setup_of b };

    fn from(bytes: [u8; 8]) -> Setup {
        Setup::from_bytes(&bytes)
    }
}

impl From<Setup> for [u8; 8] {
    ghost use Rattle.usb_fields.specs.Setup.{setup_bytes};

    ghost from_gives = { λ s b. b ≡ setup_bytes s };

    fn from(setup: Setup) -> [u8; 8] {
        setup.to_bytes()
    }
}
