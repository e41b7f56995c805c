//! What a recording shows with a frame.
ghost use Rattle.usb_capture_lines.specs.Following.{ShowsNothing};

use crate::bus_finding::BusFinding;
use std::alloc::Global;
use usb_capture::{ControlTransfer, Finding};

/// What a recording shows with a frame.
#[derive(Debug, Drop)]
pub struct Shown {
    /// The control transfer that is over with it.
    pub transfer: Option<ControlTransfer>,
    /// What is found in that transfer, in the order of [`Finding::ALL`].
    pub found: Vec<Finding>,
    /// What is wrong in packets.
    pub in_packets: Vec<BusFinding>,
}

impl Shown {
    /// Nothing.
    pub(crate) fn nothing(alloc: Global) -> Shown
        ensures { ShowsNothing result }
    {
        Shown {
            transfer: None,
            found: Vec::new(alloc),
            in_packets: Vec::new(alloc),
        }
    }
}
