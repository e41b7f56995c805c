//! The types of descriptors, as bDescriptorType has them (USB 2.0, table 9-5, and its ECN on interface associations).

/// A device descriptor (9.6.1).
pub const DEVICE: u8 = 1;

/// A configuration descriptor, which begins a set (9.6.3).
pub const CONFIGURATION: u8 = 2;

/// A string descriptor, or the language list (9.6.7).
pub const STRING: u8 = 3;

/// An interface descriptor (9.6.5).
pub const INTERFACE: u8 = 4;

/// An endpoint descriptor (9.6.6).
pub const ENDPOINT: u8 = 5;

/// A device qualifier descriptor (9.6.2).
pub const DEVICE_QUALIFIER: u8 = 6;

/// An other-speed configuration descriptor, which begins a set (9.6.4).
pub const OTHER_SPEED_CONFIGURATION: u8 = 7;

/// An interface power descriptor.
pub const INTERFACE_POWER: u8 = 8;

/// An interface association descriptor (ECN, 9.X.Y).
pub const INTERFACE_ASSOCIATION: u8 = 11;
