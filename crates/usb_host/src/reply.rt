//! What a control transfer brought.
use usb_fields::Sequence;

/// What a control transfer that completed brought.
#[derive(Clone, Debug, Drop, PartialEq, Eq, Hash)]
pub enum Reply {
    /// The bytes of its data stage.
    Bytes(Sequence<u8>),
    /// The request was carried out. It asked for no byte.
    Done,
    /// The device rejected the request by STALL.
    Refused,
}
