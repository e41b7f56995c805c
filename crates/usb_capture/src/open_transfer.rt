//! A control transfer whose end hasn't come.
use crate::control_transfer::ControlTransfer;

/// A control transfer whose end hasn't come.
#[derive(Debug, Drop)]
pub struct OpenTransfer {
    /// What its events have in common.
    pub id: u64,
    /// What is known of it.
    pub transfer: ControlTransfer,
}
