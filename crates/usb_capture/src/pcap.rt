//! What a pcap file says at its beginning (draft-ietf-opsawg-pcap, File Header).
ghost use Rattle.std.specs.Prelude.{◌≡◌, ◌+◌, ◌*◌};
ghost use Rattle.usb_capture.specs.Pcap.{unit, writer_of};

use crate::order::ByteOrder;

/// The magic number of a file whose fractions of a second are microseconds.
const MICROSECONDS: u32 = 0xa1b2_c3d4;

/// The magic number of one whose are nanoseconds.
const NANOSECONDS: u32 = 0xa1b2_3c4d;

/// What the second number of a record's time counts.
#[derive(Clone, Copy, Debug, PartialEq, Eq, Hash)]
pub enum Precision {
    /// Microseconds.
    Micro,
    /// Nanoseconds.
    Nano,
}

/// How the host that wrote a file puts numbers and times.
#[derive(Clone, Copy, Debug, PartialEq, Eq, Hash)]
pub struct Writer {
    /// The order of the bytes of its numbers.
    pub order: ByteOrder,
    /// What a fraction of a second is counted in.
    pub precision: Precision,
}

/// What a file header says of all records.
#[derive(Clone, Copy, Debug, PartialEq, Eq, Hash)]
pub struct Form {
    /// How numbers and times are put.
    pub writer: Writer,
    /// The link type of each frame.
    pub link: u16,
}

impl Writer {
    /// Who begins a file with these bytes: a1b2c3d4 or a1b23c4d in either order.
    pub fn of_magic(bytes: &[u8]) -> Option<Writer>
        ensures { result ≡ writer_of bytes.now }
    {
        let little = ByteOrder::Little.number_at(bytes, 0);
        let big = ByteOrder::Big.number_at(bytes, 0);
        let (order, precision) = if little == MICROSECONDS {
            (ByteOrder::Little, Precision::Micro)
        } else if big == MICROSECONDS {
            (ByteOrder::Big, Precision::Micro)
        } else if little == NANOSECONDS {
            (ByteOrder::Little, Precision::Nano)
        } else if big == NANOSECONDS {
            (ByteOrder::Big, Precision::Nano)
        } else {
            return None;
        };
        Some(Writer { order, precision })
    }

    /// When a record was captured, in nanoseconds: its seconds and their fraction.
    pub fn time(self, seconds: u32, fraction: u32) -> u64
        ensures { result ≡ seconds * 1000000000 + fraction * unit self.precision }
    {
        let unit = match self.precision {
            Precision::Micro => 1000,
            Precision::Nano => 1,
        };
        u64::from(seconds) * 1_000_000_000 + u64::from(fraction) * unit
    }
}
