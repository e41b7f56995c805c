//! A descriptor of a walk as plain numbers, which are the same in Rattle, C and Python.
ghost use Rattle.std.specs.Prelude.{◌≡◌};
ghost use Rattle.usb_walk.specs.WalkedDescriptors.{nothing};

use crate::position::Position;

/// A descriptor where it stands in its input, as numbers: the struct `nzg_descriptor` of nozzlegorse.h. The walk goes on from it.
/// What doesn't apply is 0.
///
/// ```rust
/// let mut descriptor = WalkedDescriptor::start();
/// while descriptor.next_in(&bytes) {
///     println!(rt; "type {} at {}", descriptor.kind, descriptor.place)?;
/// }
/// ```
#[repr(C)]
#[derive(Clone, Copy, Debug, Drop, PartialEq, Eq, Hash)]
pub struct WalkedDescriptor {
    /// The place of its first byte.
    pub place: usize,
    /// The place of the list of languages, once it came.
    pub languages_place: usize,
    /// The number of the endpoint in its setting.
    pub endpoint_number: usize,
    /// Which strings the descriptors so far name, a bit for each index.
    pub named: [u64; 4],
    /// The language of a string.
    pub language: u16,
    /// Of an endpoint bits 10 to 0 of wMaxPacketSize: the most bytes of data in a packet (USB 2.0, 9.6.6).
    pub packet: u16,
    /// bLength.
    pub length: u8,
    /// bDescriptorType.
    pub kind: u8,
    /// The number of its role; 0 before the first descriptor.
    pub role: u8,
    /// Of an association or a raw descriptor the role of what it belongs to: the nearest configuration, interface or endpoint.
    pub owner: u8,
    /// How deep it is.
    pub depth: u8,
    /// The part that has it: 0 none, 1 the sets of the device, 2 the qualifier and the sets of the other speed.
    pub part: u8,
    /// The index of a string.
    pub index: u8,
    /// Of an endpoint bmAttributes.
    pub attributes: u8,
    /// Of an endpoint its transactions in a microframe by bits 12 and 11 of wMaxPacketSize: 1 to 3, and 0 where those are reserved.
    pub transactions: u8,
    /// Of an endpoint bInterval.
    pub interval: u8,
    /// The position after it, with its set and its setting.
    pub position: Position,
}

impl WalkedDescriptor {
    /// Before the first descriptor of an input: all of it is 0.
    pub fn start() -> WalkedDescriptor
        ensures { result ≡ nothing }
    {
        WalkedDescriptor {
            place: 0,
            languages_place: 0,
            endpoint_number: 0,
            named: [0; 4],
            language: 0,
            packet: 0,
            length: 0,
            kind: 0,
            role: 0,
            owner: 0,
            depth: 0,
            part: 0,
            index: 0,
            attributes: 0,
            transactions: 0,
            interval: 0,
            position: Position::start(),
        }
    }
}
