//! The fields of a set's descriptors, in the order of their bytes: what the standard calls each, how wide it is, and
//! its bytes.
ghost use Rattle.std.specs.Prelude.{◌≡◌};
ghost use Rattle.usb_fields.specs.Fields.{fields_bytes};

use crate::tree::{Configuration, Endpoint, Setting};
use usb_fields::Width::{self, One, Two};
use usb_fields::word_bytes;

/// Widths of the fields of a set's first descriptor after wTotalLength (USB 2.0, tables 9-10 and 9-11).
pub const CONFIGURATION_WIDTHS: [Width; 5] = [One; 5];

/// Widths of the fields of an interface descriptor (USB 2.0, table 9-12).
pub const INTERFACE_WIDTHS: [Width; 7] = [One; 7];

/// Widths of the fields of an endpoint descriptor (USB 2.0, table 9-13).
pub const ENDPOINT_WIDTHS: [Width; 4] = [One, One, Two, One];

impl Configuration {
    ghost use Rattle.usb_set.specs.Descriptors.{configuration_fields};

    /// The bytes of the first descriptor's fields after wTotalLength (USB 2.0, 9.6.3).
    #[inline]
    pub fn field_bytes(&self) -> [u8; 5]
        ensures { result ≡ fields_bytes configuration_fields self.now }
    {
        [
            self.declared_interfaces,
            self.value,
            self.text,
            self.attributes,
            self.power,
        ]
    }
}

impl Setting {
    ghost use Rattle.usb_set.specs.Descriptors.{interface_fields};

    /// The bytes of the interface descriptor's fields (USB 2.0, 9.6.5).
    #[inline]
    pub fn field_bytes(&self) -> [u8; 7]
        ensures { result ≡ fields_bytes interface_fields self.now }
    {
        [
            self.number,
            self.alternate,
            self.declared_endpoints,
            self.class,
            self.subclass,
            self.protocol,
            self.text,
        ]
    }
}

impl Endpoint {
    ghost use Rattle.usb_set.specs.Descriptors.{endpoint_fields};

    /// The bytes of the endpoint descriptor's fields (USB 2.0, 9.6.6).
    #[inline]
    pub fn field_bytes(&self) -> [u8; 5]
        ensures { result ≡ fields_bytes endpoint_fields self.now }
    {
        let [packet_low, packet_high] = word_bytes(self.max_packet);
        [
            self.address,
            self.attributes,
            packet_low,
            packet_high,
            self.interval,
        ]
    }
}
