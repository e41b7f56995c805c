//! What a frame of a recording completes.
use crate::bus_finding::BusFinding;
use usb_capture::ControlTransfer;

/// What a frame of a recording completes.
#[derive(Debug, Drop)]
pub(crate) struct Completed {
    /// The control transfer that is over with it.
    pub(crate) transfer: Option<ControlTransfer>,
    /// What is wrong in packets, found with it.
    pub(crate) found: Vec<BusFinding>,
}
