//! What a configuration set says, as a tree of plain data.
ghost use Rattle.std.specs.Prelude.{◌≡◌};
ghost use Rattle.usb_set.specs.Descriptors.{type_number};

use crate::extra::Extra;
use usb_fields::{Sequence, descriptor_type};

/// Which descriptor a set begins with.
#[derive(Clone, Copy, Debug, PartialEq, Eq, Hash)]
pub enum SetKind {
    /// A configuration descriptor, type 2 (USB 2.0, 9.6.3).
    Configuration,
    /// An other-speed configuration descriptor, type 7 (USB 2.0, 9.6.4).
    OtherSpeed,
}

/// An endpoint descriptor, and the extras that follow it (USB 2.0, 9.6.6).
///
/// ```rust
/// // bEndpointAddress 81, bmAttributes 03: interrupt IN endpoint 1.
/// assert_eq!(rt; (endpoint.direction(), endpoint.number()), (Direction::In, 1));
/// assert_eq!(rt; endpoint.transfer_type(), TransferType::Interrupt);
/// ```
#[derive(Clone, Debug, Drop, PartialEq, Eq, Hash)]
pub struct Endpoint {
    /// bEndpointAddress: bits 3..0 the number, bit 7 one for IN.
    pub address: u8,
    /// bmAttributes: bits 1..0 the transfer type.
    pub attributes: u8,
    /// wMaxPacketSize, in bytes in bits 10..0.
    pub max_packet: u16,
    /// bInterval, in frames or microframes.
    pub interval: u8,
    /// The bytes after the seven that the standard defines, at most 248.
    pub tail: Sequence<u8>,
    /// The descriptors between this one and the next endpoint or interface, in order.
    pub extras: Sequence<Extra>,
}

/// An interface at one of its alternate settings: its descriptor, the extras that follow it, and its
/// endpoints (USB 2.0, 9.6.5).
#[derive(Clone, Debug, Drop, PartialEq, Eq, Hash)]
pub struct Setting {
    /// bInterfaceNumber.
    pub number: u8,
    /// bAlternateSetting.
    pub alternate: u8,
    /// bNumEndpoints, as declared: it may differ from the count of `endpoints`.
    pub declared_endpoints: u8,
    /// bInterfaceClass.
    pub class: u8,
    /// bInterfaceSubClass.
    pub subclass: u8,
    /// bInterfaceProtocol.
    pub protocol: u8,
    /// iInterface, the index of a string descriptor, or 0.
    pub text: u8,
    /// The bytes after the nine that the standard defines, at most 246.
    pub tail: Sequence<u8>,
    /// The descriptors between this one and its first endpoint, in order.
    pub extras: Sequence<Extra>,
    /// The endpoints, in order.
    pub endpoints: Sequence<Endpoint>,
}

/// A whole set: its first descriptor, the extras that follow it, and its settings (USB 2.0, 9.6.3 and
/// 9.6.4). wTotalLength is not kept, since it is the count of the set's bytes.
///
/// ```rust
/// for setting in &set.settings {
///     println!(rt; "interface {} has {} endpoints", setting.number, setting.endpoints.len())?;
/// }
/// ```
#[derive(Clone, Debug, Drop, PartialEq, Eq, Hash)]
pub struct Configuration {
    /// Which descriptor the set begins with.
    pub kind: SetKind,
    /// bNumInterfaces, as declared: it may differ from the count of distinct interface numbers.
    pub declared_interfaces: u8,
    /// bConfigurationValue, the argument of SET_CONFIGURATION.
    pub value: u8,
    /// iConfiguration, the index of a string descriptor, or 0.
    pub text: u8,
    /// bmAttributes: bit 7 one, bit 6 self-powered, bit 5 remote wakeup.
    pub attributes: u8,
    /// bMaxPower, in units of 2 mA.
    pub power: u8,
    /// The bytes after the nine that the standard defines, at most 246.
    pub tail: Sequence<u8>,
    /// The descriptors between this one and the first interface, in order.
    pub extras: Sequence<Extra>,
    /// The interfaces at their alternate settings, in order.
    pub settings: Sequence<Setting>,
}

impl SetKind {
    /// bDescriptorType of the set's first descriptor (USB 2.0, table 9-5).
    ///
    /// ```rust
    /// assert_eq!(rt; SetKind::OtherSpeed.descriptor_type(), descriptor_type::OTHER_SPEED_CONFIGURATION);
    /// ```
    pub fn descriptor_type(self) -> u8
        ensures { result ≡ type_number self }
    {
        match self {
            SetKind::Configuration => descriptor_type::CONFIGURATION,
            SetKind::OtherSpeed => descriptor_type::OTHER_SPEED_CONFIGURATION,
        }
    }
}
