//! A frame of a capture.
ghost use Rattle.std.specs.Prelude.{◌≡◌, nat_lt};

use crate::order::ByteOrder;
use usb_fields::Sequence;

/// The most bytes of a frame that are kept: the longest header of a link type, 64 bytes, and as many bytes as a control
/// transfer can have (USB 2.0, 9.3.5). What follows them is passed over.
pub const MOST_BYTES: usize = 65_599;

/// What one record of a capture has.
#[derive(Clone, Debug, Drop)]
pub struct Frame {
    /// When it was captured, in nanoseconds from the beginning of 1970, if the file says it and 64 bits hold it. Text has
    /// microseconds from another beginning, again and again from 0 on after 2^32.
    pub time: Option<u64>,
    /// How its bytes are to be read: a number of the registry of link types.
    pub link: u16,
    /// The byte order of the host that wrote it, in which some link types put their numbers.
    pub order: ByteOrder,
    /// How many of its bytes are in the file.
    pub captured: u32,
    /// How many bytes it had on the bus.
    pub original: u32,
    /// The first of its bytes that are in the file, at most [`MOST_BYTES`].
    pub bytes: Sequence<u8>,
}

impl Frame {
    /// Whether the file has fewer of its bytes than it had.
    pub fn is_cut(&self) -> bool
        ensures { result ≡ nat_lt self.now.captured self.now.original }
    {
        self.captured < self.original
    }
}
