//! What a control transfer is, as plain values.
use crate::transfer::TransferStage;
use usb_fields::{Setup, Toggle};

/// What a [`Transfer`](crate::Transfer) is, as plain values. Any values are allowed: where they are those of no transfer,
/// [`Transfer::from_fields`](crate::Transfer::from_fields) is `None`.
#[derive(Clone, Copy, Debug, PartialEq, Eq, Hash)]
pub struct TransferFields {
    /// The address of the device.
    pub address: u8,
    /// The packet size of its endpoint zero, in bytes.
    pub packet: u8,
    /// How many NAKs without progress are retried.
    pub naks: u16,
    /// The setup packet with which it began.
    pub request: Setup,
    /// The stage that it is in, or its end.
    pub stage: TransferStage,
    /// The toggle of the next data packet.
    pub awaited: Toggle,
    /// How many bytes of the data stage were kept, or were acknowledged by the device.
    pub kept: u16,
    /// The strikes since the last progress.
    pub strikes: u8,
    /// The NAKs since the last progress.
    pub nak_count: u16,
}
