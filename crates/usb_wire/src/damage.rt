//! Why bytes are no packet.

/// Why bytes are no packet: the first of these that holds. A receiver ignores such bytes (USB 2.0, 8.7.1).
#[derive(Clone, Copy, Debug, PartialEq, Eq, Hash)]
pub enum Damage {
    /// There is no byte.
    Empty,
    /// The upper four bits of the first byte aren't the complement of the lower ones (8.3.1).
    Pid,
    /// The PID is 0000, which is reserved (table 8-1).
    Reserved,
    /// A packet with this PID has another number of bytes (8.4).
    Length,
    /// The 5-bit CRC isn't that of the bits before it (8.3.5.1).
    Crc5,
    /// The 16-bit CRC isn't that of the data before it (8.3.5.2).
    Crc16,
}
