//! What is remarked of a descriptor: values that its bytes may have by no rule, but not in its set.
ghost use Rattle.std.specs.Prelude.{◌≡◌, ◌<◌};
ghost use Rattle.usb_remarks.specs.RemarkNumbers.{remark_number};
ghost use Rattle.usb_remarks.specs.RemarkValues.{is_eight_to_64, is_size, remark_if};
ghost use Rattle.usb_remarks.specs.Remarks.{association_class_remark, attributes_remark, class_remark, counted_remark, counts_transactions, least_size, multiple_remark, size_remark, sizes_at, type_bits_remark};

use crate::speed::SetSpeed;
use usb_set::TransferType;

/// The values that bInterval can have.
#[derive(Clone, Copy, Debug, PartialEq, Eq, Hash)]
pub struct IntervalRange {
    /// The least one.
    pub least: u8,
    /// The greatest one.
    pub most: u8,
}

/// The sizes that packets can have, by bits 10 to 0 of wMaxPacketSize.
#[derive(Clone, Copy, Debug, PartialEq, Eq, Hash)]
pub enum PacketSizes {
    /// None: there are no such endpoints.
    NoEndpoint,
    /// This one alone.
    Only(u16),
    /// Up to this one.
    UpTo(u16),
    /// 8, 16, 32 or 64.
    EightTo64,
    /// 8, 16, 32, 64 or 512.
    EightTo64Or512,
}

/// A remark on a descriptor, which is no finding: it breaks no rule.
#[derive(Clone, Copy, Debug, PartialEq, Eq, Hash)]
pub enum Remark {
    /// bInterval is out of the range that it has at this speed.
    Interval {
        transfer: TransferType,
        speed: SetSpeed,
        range: IntervalRange,
        /// bInterval.
        found: u8,
    },
    /// A packet has none of the sizes that it can have at this speed.
    Packet {
        transfer: TransferType,
        speed: SetSpeed,
        sizes: PacketSizes,
        /// Bits 10 to 0 of wMaxPacketSize.
        found: u16,
    },
    /// Bits 12 to 11 of wMaxPacketSize are 3 where they count transactions.
    ReservedMultiple,
    /// Bits 12 to 11 of wMaxPacketSize are not zero where they count nothing.
    PacketBits,
    /// The usage of an isochronous endpoint is 3.
    ReservedUsage,
    /// Bits 5 to 2 of bmAttributes are not zero where they say nothing.
    TypeBits,
    /// Bits 7 to 6 of bmAttributes are not zero.
    HighBits,
    /// The class of an interface is 00.
    ReservedClass,
    /// wTotalLength of a class header isn't the length of the class descriptors that it begins.
    TotalLength {
        /// wTotalLength.
        declared: u16,
        /// How many bytes they have.
        found: usize,
    },
    /// A set needs more current than a device may draw.
    Current {
        /// bMaxPower in milliamperes.
        needed: u16,
        /// The greatest current in milliamperes.
        most: u16,
    },
    /// bMaxPacketSize0 is none of the values that it has at this speed.
    FirstPacket {
        speed: SetSpeed,
        sizes: PacketSizes,
        /// bMaxPacketSize0.
        found: u8,
    },
    /// bcdUSB is no release of USB: 1.0, 1.1, 2.0, 2.01, 2.1, 2.5, 3.0, 3.1 or 3.2.
    Release,
    /// bNumConfigurations is 0, and the input is broken.
    NoSets,
    /// A device or a qualifier whose sets have associations isn't of class EF, subclass 02, protocol 01.
    UntoldAssociation,
    /// An isochronous endpoint of alternate setting 0 has packets of more than 0 bytes.
    DefaultIsochronous {
        /// Their size.
        found: u16,
    },
    /// An endpoint of alternate setting 0 has packets of 0 bytes, and no setting of its interface follows.
    EmptyPackets,
    /// A HID interface has no HID descriptor.
    NoHidDescriptor,
    /// A HID descriptor comes after an endpoint of its interface.
    LateHidDescriptor,
    /// The length of a HID descriptor isn't that by its bNumDescriptors.
    HidLength {
        /// 6, and 3 for each descriptor that it names.
        due: usize,
        /// bLength.
        found: usize,
    },
    /// A HID descriptor says that the report descriptor has no bytes.
    EmptyReport,
    /// A communications interface has no header functional descriptor.
    NoFunctionalHeader,
    /// A functional descriptor is too short for its fields.
    ShortFunctional {
        /// The least length of its subtype.
        least: usize,
        /// bLength.
        found: usize,
    },
    /// A mass storage interface of bulk transfers lacks a bulk endpoint of one direction.
    OneDirection,
    /// The class of an association is 00.
    ForbiddenClass,
    /// A call management or union functional descriptor names an interface that isn't there.
    MissingInterface {
        /// Its number.
        interface: u8,
    },
    /// Bits 12 to 11 of wMaxPacketSize count more transactions than packets of this size have.
    SmallMultiple {
        /// How many transactions they count.
        transactions: u8,
        /// The least size of that many.
        least: u16,
        /// Their size.
        found: u16,
    },
    /// A functional descriptor comes after an endpoint of its interface.
    LateFunctional,
    /// A HID interface has no interrupt endpoint to the host.
    NoInterruptIn,
    /// The first descriptor that a HID descriptor names is no report descriptor.
    NoReport,
    /// The class of a device or a qualifier is one that interfaces alone have.
    InterfaceClass,
    /// An association comes after an interface that it binds.
    LateAssociation,
    /// bcdUSB of a qualifier is below 2.0.
    OldQualifier {
        /// bcdUSB.
        found: u16,
    },
    /// A number in the language list is none of a language: bits 9 to 8 of it aren't zero, or bits 15 to 10 are.
    NoLanguage {
        /// The first one.
        found: u16,
    },
    /// The last unit of a string is 0.
    EndedString,
    /// bcdHID or bcdCDC is below 1.0, or 10.0 or more.
    ClassRelease,
    /// A device or a qualifier of class EF, subclass 02, protocol 01 has no association.
    NoAssociation,
    /// The sets before and after a qualifier have one speed by their own descriptors.
    OneSpeed {
        speed: SetSpeed,
    },
    /// An interrupt endpoint of alternate setting 0 has packets of more than 64 bytes at high speed.
    DefaultInterrupt {
        /// Their size.
        found: u16,
    },
    /// A set has more than two endpoints at low speed.
    ManyEndpoints,
}

impl Remark {
    /// The number of the remark, from 1.
    ///
    /// ```rust
    /// assert_eq!(rt; Remark::ReservedClass.number(), 8);
    /// ```
    pub fn number(self) -> u8
        ensures { result ≡ remark_number self }
    {
        match self {
            Remark::Interval { .. } => 1,
            Remark::Packet { .. } => 2,
            Remark::ReservedMultiple => 3,
            Remark::PacketBits => 4,
            Remark::ReservedUsage => 5,
            Remark::TypeBits => 6,
            Remark::HighBits => 7,
            Remark::ReservedClass => 8,
            Remark::TotalLength { .. } => 9,
            Remark::Current { .. } => 10,
            Remark::FirstPacket { .. } => 11,
            Remark::Release => 12,
            Remark::NoSets => 13,
            Remark::UntoldAssociation => 14,
            Remark::DefaultIsochronous { .. } => 15,
            Remark::EmptyPackets => 16,
            Remark::NoHidDescriptor => 17,
            Remark::LateHidDescriptor => 18,
            Remark::HidLength { .. } => 19,
            Remark::EmptyReport => 20,
            Remark::NoFunctionalHeader => 21,
            Remark::ShortFunctional { .. } => 22,
            Remark::OneDirection => 23,
            Remark::ForbiddenClass => 24,
            Remark::MissingInterface { .. } => 25,
            Remark::SmallMultiple { .. } => 26,
            Remark::LateFunctional => 27,
            Remark::NoInterruptIn => 28,
            Remark::NoReport => 29,
            Remark::InterfaceClass => 30,
            Remark::LateAssociation => 31,
            Remark::OldQualifier { .. } => 32,
            Remark::NoLanguage { .. } => 33,
            Remark::EndedString => 34,
            Remark::ClassRelease => 35,
            Remark::NoAssociation => 36,
            Remark::OneSpeed { .. } => 37,
            Remark::DefaultInterrupt { .. } => 38,
            Remark::ManyEndpoints => 39,
        }
    }
}

/// The sizes that packets have at a speed: control (USB 2.0, 5.5.3), isochronous (5.6.3), interrupt (5.7.3) and bulk (5.8.3).
fn sizes_at(speed: SetSpeed, transfer: TransferType) -> Option<PacketSizes>
    ensures { result ≡ sizes_at speed transfer }
{
    match speed {
        SetSpeed::Low => match transfer {
            TransferType::Control => Some(PacketSizes::Only(8)),
            TransferType::Isochronous | TransferType::Bulk => Some(PacketSizes::NoEndpoint),
            TransferType::Interrupt => Some(PacketSizes::UpTo(8)),
        },
        SetSpeed::Full | SetSpeed::LowOrFull => match transfer {
            TransferType::Control | TransferType::Bulk => Some(PacketSizes::EightTo64),
            TransferType::Isochronous => Some(PacketSizes::UpTo(1023)),
            TransferType::Interrupt => Some(PacketSizes::UpTo(64)),
        },
        SetSpeed::High => match transfer {
            TransferType::Control => Some(PacketSizes::Only(64)),
            TransferType::Bulk => Some(PacketSizes::Only(512)),
            TransferType::Isochronous | TransferType::Interrupt => Some(PacketSizes::UpTo(1024)),
        },
        SetSpeed::FullOrHigh => match transfer {
            TransferType::Control => Some(PacketSizes::EightTo64),
            TransferType::Bulk => Some(PacketSizes::EightTo64Or512),
            TransferType::Isochronous | TransferType::Interrupt => Some(PacketSizes::UpTo(1024)),
        },
        SetSpeed::Super => None,
    }
}

fn is_eight_to_64(size: u16) -> bool
    ensures { result ≡ is_eight_to_64 size }
{
    size == 8 || size == 16 || size == 32 || size == 64
}

pub(crate) fn is_size(sizes: PacketSizes, size: u16) -> bool
    ensures { result ≡ is_size sizes size }
{
    match sizes {
        PacketSizes::NoEndpoint => false,
        PacketSizes::Only(only) => size == only,
        PacketSizes::UpTo(most) => size <= most,
        PacketSizes::EightTo64 => is_eight_to_64(size),
        PacketSizes::EightTo64Or512 => is_eight_to_64(size) || size == 512,
    }
}

/// A remark on packets of a size that they can't have.
pub(crate) fn size_remark(speed: SetSpeed, transfer: TransferType, size: u16) -> Option<Remark>
    ensures { result ≡ size_remark speed transfer size }
{
    let sizes = sizes_at(speed, transfer)?;
    if is_size(sizes, size) {
        None
    } else {
        Some(Remark::Packet {
            transfer,
            speed,
            sizes,
            found: size,
        })
    }
}

pub(crate) fn remark_if(holds: bool, remark: Remark) -> Option<Remark>
    ensures { result ≡ remark_if holds remark }
{
    if holds { Some(remark) } else { None }
}

/// Whether bits 12 to 11 of wMaxPacketSize count transactions of a microframe, or may do so.
fn counts_transactions(speed: SetSpeed, transfer: TransferType) -> bool
    ensures { result ≡ counts_transactions speed transfer }
{
    match (speed, transfer) {
        (
            SetSpeed::High | SetSpeed::FullOrHigh,
            TransferType::Isochronous | TransferType::Interrupt,
        ) => true,
        _ => false,
    }
}

/// The least size of the packets of which bits 12 to 11 of wMaxPacketSize count this many more (USB 2.0, table 9-14).
fn least_size(more: u8) -> u16
    ensures { result ≡ least_size more }
{
    match more {
        1 => 513,
        2 => 683,
        _ => 0,
    }
}

/// A remark on a packet of this size, of which a microframe has `more` after the first.
fn counted_remark(more: u8, size: u16) -> Option<Remark>
    requires { more < 4 }
    ensures { result ≡ counted_remark more size }
{
    let least = least_size(more);
    let transactions = more + 1;
    if more == 3 {
        Some(Remark::ReservedMultiple)
    } else {
        remark_if(
            size < least,
            Remark::SmallMultiple {
                transactions,
                least,
                found: size,
            },
        )
    }
}

/// A remark on bits 12 to 11 of wMaxPacketSize (USB 2.0, 9.6.6).
pub(crate) fn multiple_remark(
    speed: SetSpeed,
    transfer: TransferType,
    max_packet: u16,
) -> Option<Remark>
    ensures { result ≡ multiple_remark speed transfer max_packet }
{
    let more = (max_packet / 2048 % 4) as u8;
    if counts_transactions(speed, transfer) {
        counted_remark(more, max_packet % 2048)
    } else {
        remark_if(more != 0, Remark::PacketBits)
    }
}

/// A remark on bits 5 to 2 of bmAttributes (USB 2.0, 9.6.6; USB 3.2, 9.6.6).
fn type_bits_remark(speed: SetSpeed, transfer: TransferType, attributes: u8) -> Option<Remark>
    ensures { result ≡ type_bits_remark speed transfer attributes }
{
    match (transfer, speed) {
        (TransferType::Isochronous, _) => {
            remark_if(attributes / 16 % 4 == 3, Remark::ReservedUsage)
        }
        (TransferType::Interrupt, SetSpeed::Super) => remark_if(
            attributes / 4 % 4 != 0 || attributes / 32 % 2 != 0,
            Remark::TypeBits,
        ),
        _ => remark_if(attributes / 4 % 16 != 0, Remark::TypeBits),
    }
}

/// A remark on bmAttributes of an endpoint.
pub(crate) fn attributes_remark(
    speed: SetSpeed,
    transfer: TransferType,
    attributes: u8,
) -> Option<Remark>
    ensures { result ≡ attributes_remark speed transfer attributes }
{
    match type_bits_remark(speed, transfer, attributes) {
        None => remark_if(attributes / 64 != 0, Remark::HighBits),
        Some(remark) => Some(remark),
    }
}

/// A remark on the class of an interface (USB 2.0, 9.6.5).
pub(crate) fn class_remark(class: u8) -> Option<Remark>
    ensures { result ≡ class_remark class }
{
    remark_if(class == 0, Remark::ReservedClass)
}

/// A remark on the class of an association (its ECN, 9.X.Y).
pub(crate) fn association_class_remark(class: u8) -> Option<Remark>
    ensures { result ≡ association_class_remark class }
{
    remark_if(class == 0, Remark::ForbiddenClass)
}
