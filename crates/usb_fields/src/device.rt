//! The device descriptor (USB 2.0, 9.6.1).
ghost use Rattle.std.specs.Prelude.{◌≡◌, Some, IfOk, IfErr};

use crate::bytes::{word_at, word_bytes};
use crate::fault::FieldFault;
use crate::field::Width::{self, One, Two};
use crate::field::fault_in;
use crate::{descriptor_length, descriptor_type};

/// bcdUSB of release 2.0 of the standard, the first with a second speed (USB 2.0, 9.6.2).
pub const USB_2_0: u16 = 0x0200;

/// Widths of the fields of a device descriptor (USB 2.0, table 9-8).
pub const DEVICE_WIDTHS: [Width; 12] = [Two, One, One, One, One, Two, Two, Two, One, One, One, One];

/// A device descriptor: what a device is, apart from its configurations (USB 2.0, table 9-8).
///
/// ```rust
/// let device = DeviceDescriptor::read(&bytes)?;
/// println!(rt; "{:04x}:{:04x}", device.vendor, device.product)?;
/// assert_eq!(rt; device.to_bytes(), bytes);
/// ```
#[derive(Clone, Copy, Debug, PartialEq, Eq, Hash)]
pub struct DeviceDescriptor {
    /// bcdUSB: the release of the standard in binary-coded decimal, as 0200 hexadecimal for 2.0.
    pub usb: u16,
    /// bDeviceClass.
    pub class: u8,
    /// bDeviceSubClass.
    pub subclass: u8,
    /// bDeviceProtocol.
    pub protocol: u8,
    /// bMaxPacketSize0: the greatest packet of endpoint zero, in bytes.
    pub packet: u8,
    /// idVendor.
    pub vendor: u16,
    /// idProduct.
    pub product: u16,
    /// bcdDevice: the device's release in binary-coded decimal.
    pub release: u16,
    /// iManufacturer: the index of a string, or 0 for none.
    pub maker_text: u8,
    /// iProduct: the index of a string, or 0 for none.
    pub product_text: u8,
    /// iSerialNumber: the index of a string, or 0 for none.
    pub serial_text: u8,
    /// bNumConfigurations: how many configurations the device has at the speed that it runs at.
    pub configurations: u8,
}

impl DeviceDescriptor {
    ghost use Rattle.usb_fields.specs.Device.{device_bytes, device_fault};

    /// The device descriptor that these bytes are.
    ///
    /// # Errors
    ///
    /// [`FieldFault::Length`] where the bytes are not 18 or bLength is not 18, and else
    /// [`FieldFault::Kind`] where bDescriptorType is not 1.
    pub fn read(b: &[u8]) -> Result<DeviceDescriptor, FieldFault>
        ensures ok { IfOk result (λ d. b.now ≡ device_bytes d) }
        ensures err { IfErr result (λ fault. device_fault b.now ≡ Some fault) }
    {
        if let Some(fault) = fault_in(b, descriptor_length::DEVICE, descriptor_type::DEVICE) {
            return Err(fault);
        }
        Ok(DeviceDescriptor {
            usb: word_at(b, 2),
            class: b[4],
            subclass: b[5],
            protocol: b[6],
            packet: b[7],
            vendor: word_at(b, 8),
            product: word_at(b, 10),
            release: word_at(b, 12),
            maker_text: b[14],
            product_text: b[15],
            serial_text: b[16],
            configurations: b[17],
        })
    }

    /// The bytes of this descriptor.
    pub fn to_bytes(&self) -> [u8; 18]
        ensures { result ≡ device_bytes self.now }
    {
        let [usb_low, usb_high] = word_bytes(self.usb);
        let [vendor_low, vendor_high] = word_bytes(self.vendor);
        let [product_low, product_high] = word_bytes(self.product);
        let [release_low, release_high] = word_bytes(self.release);
        [
            descriptor_length::DEVICE,
            descriptor_type::DEVICE,
            usb_low,
            usb_high,
            self.class,
            self.subclass,
            self.protocol,
            self.packet,
            vendor_low,
            vendor_high,
            product_low,
            product_high,
            release_low,
            release_high,
            self.maker_text,
            self.product_text,
            self.serial_text,
            self.configurations,
        ]
    }
}
