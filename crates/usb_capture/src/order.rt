//! The byte order of the host that wrote a capture.
ghost use Rattle.std.specs.Prelude.{◌≡◌, ◌+◌, ◌<◌};
ghost use Rattle.usb_capture.specs.Numbers.{long_at, number_at, short_at};

use usb_fields::byte_at;

/// The order of the bytes of a number.
#[derive(Clone, Copy, Debug, PartialEq, Eq, Hash)]
pub enum ByteOrder {
    /// The lowest byte first.
    Little,
    /// The highest byte first.
    Big,
}

impl ByteOrder {
    /// The number of 32 bits at this place. A byte that isn't there is 0.
    #[tactic(auto, unfolding(crate::specs::Numbers::number_at))]
    pub fn number_at(self, b: &[u8], at: u8) -> u32
        ensures { result ≡ number_at self b.now at }
    {
        let at = usize::from(at);
        if at + 4 <= b.len() {
            return self.number([b[at], b[at + 1], b[at + 2], b[at + 3]]);
        }
        self.number([
            byte_at(b, at),
            byte_at(b, at + 1),
            byte_at(b, at + 2),
            byte_at(b, at + 3),
        ])
    }

    /// The number of these bytes.
    #[tactic(auto, unfolding(crate::specs::Numbers::number_at))]
    fn number(self, bytes: [u8; 4]) -> u32
        ensures { result ≡ number_at self bytes 0 }
    {
        match self {
            ByteOrder::Little => u32::from_le_bytes(bytes),
            ByteOrder::Big => u32::from_be_bytes(bytes),
        }
    }

    /// The number of 16 bits at this place.
    pub(crate) fn short_at(self, b: &[u8], at: u8) -> u16
        ensures { result ≡ short_at self b.now at }
    {
        let first = byte_at(b, usize::from(at));
        let second = byte_at(b, usize::from(at) + 1);
        match self {
            ByteOrder::Little => u16::from(first) + 256 * u16::from(second),
            ByteOrder::Big => u16::from(second) + 256 * u16::from(first),
        }
    }

    /// The number of 64 bits at this place.
    #[inline(always)]
    pub(crate) fn long_at(self, b: &[u8], at: u8) -> u64
        requires { at + 4 < 256 }
        ensures { result ≡ long_at self b.now at }
    {
        let first = u64::from(self.number_at(b, at));
        let second = u64::from(self.number_at(b, at + 4));
        match self {
            ByteOrder::Little => first + 4_294_967_296 * second,
            ByteOrder::Big => second + 4_294_967_296 * first,
        }
    }
}
