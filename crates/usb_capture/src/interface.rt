//! An interface of a pcapng file (draft-ietf-opsawg-pcapng, Interface Description Block).
use crate::clock::Clock;

/// What a file says of all packets that were captured at one place.
#[derive(Clone, Copy, Debug, PartialEq, Eq, Hash)]
pub struct Interface {
    /// Their link type.
    pub link: u16,
    /// The most bytes of a packet that were captured; 0 is no limit.
    pub most: u32,
    /// How their times are put.
    pub clock: Clock,
}
