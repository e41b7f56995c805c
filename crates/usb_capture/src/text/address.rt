//! The address in a line of usbmon's text.
ghost use Rattle.std.specs.Prelude.{◌≡◌, ◌<◌, IfSome};
ghost use Rattle.usb_capture.specs.UsbmonText.{address_of, direction_of, type_of};

use crate::text::words::{after_parts, number_below, part};
use usb_fields::byte_at;

/// Whose transfer it is.
#[derive(Clone, Copy, Debug)]
pub(crate) struct Address {
    /// The type of its endpoint, as usbmon numbers it.
    pub(crate) transfer: u8,
    /// The address of its endpoint, with the direction in bit 7.
    pub(crate) endpoint: u8,
    /// The address of its device.
    pub(crate) device: u8,
    /// The number of its bus.
    pub(crate) bus: u16,
}

impl Address {
    /// What a word says, as `Ci:1:005:0`.
    #[tactic(auto, unfolding(crate::specs::UsbmonText::address_of))]
    pub(crate) fn of_word(word: &[u8]) -> Option<Address>
        ensures { result ≡ address_of word.now }
    {
        if part(b':', 0, word).len() != 2 {
            return None;
        }
        let transfer = type_of(byte_at(word, 0))?;
        let direction = direction_of(byte_at(word, 1))?;
        let bus = number_below(10, 65_536, part(b':', 1, word))? as u16;
        let device = number_below(10, 256, part(b':', 2, word))? as u8;
        let endpoint = number_below(10, 16, after_parts(b':', 3, word))? as u8;
        Some(Address {
            transfer,
            endpoint: direction + endpoint,
            device,
            bus,
        })
    }
}

/// The type of a transfer by its letter.
fn type_of(letter: u8) -> Option<u8>
    ensures { result ≡ type_of letter }
{
    match letter {
        b'Z' => Some(0),
        b'I' => Some(1),
        b'C' => Some(2),
        b'B' => Some(3),
        _ => None,
    }
}

/// A direction by its letter.
fn direction_of(letter: u8) -> Option<u8>
    ensures is { result ≡ direction_of letter }
    ensures small { IfSome result (λ direction. direction < 129) }
{
    match letter {
        b'i' => Some(0x80),
        b'o' => Some(0),
        _ => None,
    }
}
