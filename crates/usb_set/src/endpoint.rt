//! What an endpoint descriptor says of its endpoint.
ghost use Rattle.std.specs.Prelude.{◌≡◌};
ghost use Rattle.usb_fields.specs.Setup.{direction_of};
ghost use Rattle.usb_set.specs.Descriptors.{number_of, packet_size_of, transactions_of, transfer_type_of};

use crate::tree::Endpoint;
use usb_fields::Direction;

/// How an endpoint's data is transferred (USB 2.0, 9.6.6 and 4.7).
#[derive(Clone, Copy, Debug, PartialEq, Eq, Hash)]
pub enum TransferType {
    /// Control transfers.
    Control,
    /// Isochronous transfers.
    Isochronous,
    /// Bulk transfers.
    Bulk,
    /// Interrupt transfers.
    Interrupt,
}

impl TransferType {
    /// The type by bits 1..0 of bmAttributes.
    #[inline]
    pub fn of(attributes: u8) -> TransferType
        ensures { result ≡ transfer_type_of attributes }
    {
        match attributes % 4 {
            0 => TransferType::Control,
            1 => TransferType::Isochronous,
            2 => TransferType::Bulk,
            _ => TransferType::Interrupt,
        }
    }
}

impl Endpoint {
    /// Bit 7 of bEndpointAddress. A control endpoint goes both ways, whatever this bit is.
    pub fn direction(&self) -> Direction
        ensures { result ≡ direction_of self.now.address }
    {
        Direction::of(self.address)
    }

    /// Bits 3..0 of bEndpointAddress.
    pub fn number(&self) -> u8
        ensures { result ≡ number_of self.now.address }
    {
        self.address % 16
    }

    /// Bits 1..0 of bmAttributes.
    pub fn transfer_type(&self) -> TransferType
        ensures { result ≡ transfer_type_of self.now.attributes }
    {
        TransferType::of(self.attributes)
    }

    /// Bits 10..0 of wMaxPacketSize: the most bytes of data that a packet of the endpoint has.
    ///
    /// ```rust
    /// // wMaxPacketSize 1400: three transactions of 1024 bytes in a microframe.
    /// assert_eq!(rt; endpoint.packet_size(), 1024);
    /// ```
    pub fn packet_size(&self) -> u16
        ensures { result ≡ packet_size_of self.now.max_packet }
    {
        self.max_packet % 2048
    }

    /// How many transactions the endpoint can have in a microframe, by bits 12..11 of wMaxPacketSize: 1, 2 or 3, and
    /// `None` where they have the value that the standard keeps for later. They count for isochronous and interrupt
    /// endpoints at high speed, and are 0, which says one transaction, for all others.
    ///
    /// ```rust
    /// // wMaxPacketSize 1400: three transactions of 1024 bytes in a microframe.
    /// assert_eq!(rt; endpoint.transactions(), Some(3));
    /// ```
    pub fn transactions(&self) -> Option<u8>
        ensures { result ≡ transactions_of self.now.max_packet }
    {
        match self.max_packet / 2048 % 4 {
            0 => Some(1),
            1 => Some(2),
            2 => Some(3),
            _ => None,
        }
    }
}
