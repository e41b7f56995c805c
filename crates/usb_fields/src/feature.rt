//! The features that CLEAR_FEATURE and SET_FEATURE select, as wValue has them (USB 2.0, table 9-6).

/// ENDPOINT_HALT, of an endpoint.
pub const ENDPOINT_HALT: u16 = 0;

/// DEVICE_REMOTE_WAKEUP, of the device.
pub const DEVICE_REMOTE_WAKEUP: u16 = 1;

/// TEST_MODE, of the device.
pub const TEST_MODE: u16 = 2;
