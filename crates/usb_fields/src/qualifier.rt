//! The device qualifier descriptor (USB 2.0, 9.6.2).
ghost use Rattle.std.specs.Prelude.{◌≡◌, Some, IfOk, IfErr};

use crate::bytes::{word_at, word_bytes};
use crate::fault::FieldFault;
use crate::field::Width::{self, One, Two};
use crate::field::fault_in;
use crate::{descriptor_length, descriptor_type};

/// Widths of the fields of a device qualifier (USB 2.0, table 9-9).
pub const QUALIFIER_WIDTHS: [Width; 7] = [Two, One, One, One, One, One, One];

/// A device qualifier: what a high-speed device would be at its other speed (USB 2.0, table 9-9).
///
/// ```rust
/// let qualifier = Qualifier::read(&[10, 6, 0x00, 0x02, 0, 0, 0, 64, 1, 0])?;
/// assert_eq!(rt; (qualifier.usb, qualifier.packet, qualifier.configurations), (0x0200, 64, 1));
/// ```
#[derive(Clone, Copy, Debug, PartialEq, Eq, Hash)]
pub struct Qualifier {
    /// bcdUSB: the release of the standard in binary-coded decimal, as 0200 hexadecimal for 2.0.
    pub usb: u16,
    /// bDeviceClass.
    pub class: u8,
    /// bDeviceSubClass.
    pub subclass: u8,
    /// bDeviceProtocol.
    pub protocol: u8,
    /// bMaxPacketSize0 at the other speed, in bytes.
    pub packet: u8,
    /// bNumConfigurations: how many configurations there are at the other speed.
    pub configurations: u8,
    /// bReserved: 0 in devices that keep the standard.
    pub reserved: u8,
}

impl Qualifier {
    ghost use Rattle.usb_fields.specs.Device.{qualifier_bytes, qualifier_fault};

    /// The qualifier that these bytes are.
    ///
    /// # Errors
    ///
    /// [`FieldFault::Length`] where the bytes are not 10 or bLength is not 10, and else
    /// [`FieldFault::Kind`] where bDescriptorType is not 6.
    pub fn read(b: &[u8]) -> Result<Qualifier, FieldFault>
        ensures ok { IfOk result (λ q. b.now ≡ qualifier_bytes q) }
        ensures err { IfErr result (λ fault. qualifier_fault b.now ≡ Some fault) }
    {
        if let Some(fault) = fault_in(
            b,
            descriptor_length::DEVICE_QUALIFIER,
            descriptor_type::DEVICE_QUALIFIER,
        ) {
            return Err(fault);
        }
        Ok(Qualifier {
            usb: word_at(b, 2),
            class: b[4],
            subclass: b[5],
            protocol: b[6],
            packet: b[7],
            configurations: b[8],
            reserved: b[9],
        })
    }

    /// The bytes of this qualifier.
    pub fn to_bytes(&self) -> [u8; 10]
        ensures { result ≡ qualifier_bytes self.now }
    {
        let [usb_low, usb_high] = word_bytes(self.usb);
        [
            descriptor_length::DEVICE_QUALIFIER,
            descriptor_type::DEVICE_QUALIFIER,
            usb_low,
            usb_high,
            self.class,
            self.subclass,
            self.protocol,
            self.packet,
            self.configurations,
            self.reserved,
        ]
    }
}
