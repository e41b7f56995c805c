//! Which endpoint of which device a token goes to (USB 2.0, 8.3.2).
ghost use Rattle.std.specs.Prelude.{◌≡◌, ◌<◌};

/// The address fields of a token.
#[derive(Clone, Copy, Debug, PartialEq, Eq, Hash)]
pub struct AddressFields {
    /// ADDR: the device's address, 0 to 127.
    pub address: u8,
    /// ENDP: the number of its endpoint, 0 to 15.
    pub endpoint: u8,
}

impl AddressFields {
    ghost use Rattle.usb_wire.specs.Packets.{address_bits};

    /// The fields of these 11 bits: the lower 7 are the address, and the upper 4 the endpoint's number.
    pub(crate) fn from_bits(bits: u16) -> AddressFields
        requires { bits < 2048 }
        ensures bits { bits ≡ address_bits result }
        ensures address { result.address < 128 }
        ensures endpoint { result.endpoint < 16 }
    {
        AddressFields {
            address: (bits % 128) as u8,
            endpoint: (bits / 128) as u8,
        }
    }

    /// The 11 bits of these fields, where both fit.
    pub(crate) fn bits(self) -> u16
        ensures { result ≡ address_bits self }
    {
        u16::from(self.address) + 128 * u16::from(self.endpoint)
    }
}
