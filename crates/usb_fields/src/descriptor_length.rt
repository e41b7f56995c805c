//! How many bytes descriptors have, as bLength counts them: all of those of fixed length, and the fields that the
//! standard defines of the others, which may be longer (USB 2.0, 9.5 and 9.6, and its ECN on interface associations).

/// bLength and bDescriptorType, with which every descriptor begins (9.5).
pub const HEAD: u8 = 2;

/// A device descriptor (table 9-8).
pub const DEVICE: u8 = 18;

/// A device qualifier descriptor (table 9-9).
pub const DEVICE_QUALIFIER: u8 = 10;

/// A configuration or an other-speed configuration descriptor (tables 9-10 and 9-11).
pub const CONFIGURATION: u8 = 9;

/// An interface descriptor (table 9-12).
pub const INTERFACE: u8 = 9;

/// An endpoint descriptor (table 9-13).
pub const ENDPOINT: u8 = 7;

/// An interface association descriptor (ECN, table 9-Z).
pub const INTERFACE_ASSOCIATION: u8 = 8;

/// The most that bLength can count.
pub const LONGEST: u8 = 255;
