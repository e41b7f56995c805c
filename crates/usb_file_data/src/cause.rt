//! Why a rule is broken, and what is found: the finding and its cause.
ghost use Rattle.std.specs.Prelude.{◌≡◌};
ghost use Rattle.usb_file_data.specs.Causes.{rule_of};

use crate::finding::Finding;
use crate::rule::Rule;

/// What is wrong with bMaxPacketSize0 (USB 2.0, 9.6.1; USB 3.2, 9.6.1).
#[derive(Clone, Copy, Debug, PartialEq, Eq, Hash)]
pub enum PacketFault {
    /// It is none of the sizes of USB 2.0.
    NotInTable,
    /// It isn't the exponent that SuperSpeed has.
    NotNine,
    /// It is that exponent, where a size of USB 2.0 is expected.
    Nine,
}

/// Why a rule is broken: of several reasons those that hold, and the numbers that were compared.
///
/// ```rust
/// for found in &found_in_order(rt.alloc(), &Input::File(file))? {
///     if let Cause::EndpointCount { declared, found } = found.cause {
///         println!(rt; "{declared} endpoints are announced, and {found} are there")?;
///     }
/// }
/// ```
#[derive(Clone, Copy, Debug, PartialEq, Eq, Hash)]
pub enum Cause {
    /// V1 of a set.
    InterfaceCount {
        /// bNumInterfaces.
        declared: u8,
        /// How many distinct interface numbers the set has.
        found: usize,
    },
    /// V2 of a set.
    NumberGap,
    /// V3 of an interface.
    RepeatedSetting,
    /// V4 of an interface.
    NoDefaultSetting,
    /// V5 of an interface.
    EndpointCount {
        /// bNumEndpoints.
        declared: u8,
        /// How many endpoints the setting has.
        found: usize,
    },
    /// V6 of an endpoint.
    Address {
        /// Whether it names endpoint 0.
        endpoint_zero: bool,
        /// Whether one of bits 6 to 4 is one.
        reserved: bool,
    },
    /// V7 of an endpoint.
    RepeatedAddress,
    /// V8 of an endpoint.
    SharedAddress,
    /// V9 of a set.
    Attributes {
        /// Whether bit 7 is zero.
        clear: bool,
        /// Whether one of bits 4 to 0 is one.
        reserved: bool,
    },
    /// V10 of a set whose bConfigurationValue is 0.
    ZeroValue,
    /// V10 of any other set.
    RepeatedValue,
    /// V10 of a part that has no set.
    NoConfiguration,
    /// V11 of a device.
    Device {
        /// What is wrong with bMaxPacketSize0.
        packet: Option<PacketFault>,
        /// Whether there is a subclass without a class.
        subclass: bool,
    },
    /// V11 of a qualifier.
    Qualifier {
        /// What is wrong with bMaxPacketSize0.
        packet: Option<PacketFault>,
        /// Whether there is a subclass without a class.
        subclass: bool,
        /// Whether bReserved isn't 0.
        reserved: bool,
    },
    /// V12 of an endpoint.
    PacketSize,
    /// V13 of an association whose bInterfaceCount is 0.
    NoInterface,
    /// V13 of any other association.
    MissingInterface,
}

impl Cause {
    /// The rule that is broken.
    pub fn rule(self) -> Rule
        ensures { result ≡ rule_of self }
    {
        match self {
            Cause::InterfaceCount { .. } => Rule::V1,
            Cause::NumberGap => Rule::V2,
            Cause::RepeatedSetting => Rule::V3,
            Cause::NoDefaultSetting => Rule::V4,
            Cause::EndpointCount { .. } => Rule::V5,
            Cause::Address { .. } => Rule::V6,
            Cause::RepeatedAddress => Rule::V7,
            Cause::SharedAddress => Rule::V8,
            Cause::Attributes { .. } => Rule::V9,
            Cause::ZeroValue => Rule::V10,
            Cause::RepeatedValue => Rule::V10,
            Cause::NoConfiguration => Rule::V10,
            Cause::Device { .. } => Rule::V11,
            Cause::Qualifier { .. } => Rule::V11,
            Cause::PacketSize => Rule::V12,
            Cause::NoInterface => Rule::V13,
            Cause::MissingInterface => Rule::V13,
        }
    }
}

/// A broken rule at its place, and why it is broken.
#[derive(Clone, Copy, Debug, PartialEq, Eq, Hash)]
pub struct Found {
    /// The rule and its place.
    pub finding: Finding,
    /// Why the rule is broken there.
    pub cause: Cause,
    /// The number of the descriptor that breaks it, from 0, in the order of the bytes. Each descriptor of the input counts.
    pub descriptor: usize,
}
