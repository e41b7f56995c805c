//! The requests of an enumeration (USB 2.0, 9.4).
ghost use Rattle.std.specs.Prelude.{◌≡◌};
ghost use Rattle.usb_host.specs.Read.{get_descriptor, set_address, set_configuration};

use usb_fields::{Setup, request, request_type};

/// The next control transfer: the address that it goes to, the packet size there, and its setup packet.
#[derive(Clone, Copy, Debug)]
pub struct Request {
    pub address: u8,
    pub packet: u8,
    pub setup: Setup,
}

/// GET_DESCRIPTOR of a descriptor of this type and index, of at most `length` bytes (9.4.3). `language` is 0 but for
/// strings.
pub(crate) fn getting(kind: u8, index: u8, language: u16, length: u16) -> Setup
    ensures { result ≡ get_descriptor kind index language length }
{
    Setup {
        request_type: request_type::IN,
        request: request::GET_DESCRIPTOR,
        value: u16::from(kind) * 256 + u16::from(index),
        index: language,
        length,
    }
}

/// SET_ADDRESS (9.4.6).
pub(crate) fn addressing(address: u8) -> Setup
    ensures { result ≡ set_address address }
{
    Setup {
        request_type: request_type::OUT,
        request: request::SET_ADDRESS,
        value: u16::from(address),
        index: 0,
        length: 0,
    }
}

/// SET_CONFIGURATION (9.4.7).
pub(crate) fn configuring(value: u8) -> Setup
    ensures { result ≡ set_configuration value }
{
    Setup {
        request_type: request_type::OUT,
        request: request::SET_CONFIGURATION,
        value: u16::from(value),
        index: 0,
        length: 0,
    }
}
