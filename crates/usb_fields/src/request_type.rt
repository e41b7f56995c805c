//! The bits of bmRequestType (USB 2.0, table 9-2): one of each group makes it.

/// Bit 7: the data stage goes from the host to the device.
pub const OUT: u8 = 0;

/// Bit 7: the data stage goes from the device to the host.
pub const IN: u8 = 0x80;

/// Bits 6..5: a request of the standard.
pub const STANDARD: u8 = 0;

/// Bits 6..5: a request of a device class.
pub const CLASS: u8 = 0x20;

/// Bits 6..5: a request of the device's vendor.
pub const VENDOR: u8 = 0x40;

/// Bits 4..0: a request to the device.
pub const DEVICE: u8 = 0;

/// Bits 4..0: a request to an interface.
pub const INTERFACE: u8 = 1;

/// Bits 4..0: a request to an endpoint.
pub const ENDPOINT: u8 = 2;

/// Bits 4..0: a request to another part of the device.
pub const OTHER: u8 = 3;
