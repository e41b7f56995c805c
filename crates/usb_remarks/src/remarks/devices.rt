//! What is remarked of a device, of its qualifier, and of a set.
ghost use Rattle.std.specs.Prelude.{◌≡◌};
ghost use Rattle.std.specs.Option.{option_copied};
ghost use Rattle.usb_remarks.specs.DeviceRemarks.{associations_remark, count_remark, device_class_remark, finds_nothing, first_packets, is_of_interfaces, is_release, most_current, one_speed_remark, packet_remark, power_remark, qualifier_release_remark, release_remark, tells_associations};

use crate::remark::{PacketSizes, Remark, is_size, remark_if};
use crate::speed::SetSpeed;
use usb_file_data::Found;
use usb_names::ClassCodes;

fn is_release(usb: u16) -> bool
    ensures { result ≡ is_release usb }
{
    matches!(
        usb,
        0x0100 | 0x0110 | 0x0200 | 0x0201 | 0x0210 | 0x0250 | 0x0300 | 0x0310 | 0x0320
    )
}

/// A remark on bcdUSB that is no release of USB.
pub(crate) fn release_remark(usb: u16) -> Option<Remark>
    ensures { result ≡ release_remark usb }
{
    remark_if(!is_release(usb), Remark::Release)
}

/// The same of a qualifier, whose release is 2.0 at least (USB 2.0, 9.6.2).
pub(crate) fn qualifier_release_remark(usb: u16) -> Option<Remark>
    ensures { result ≡ qualifier_release_remark usb }
{
    release_remark(usb).or(remark_if(usb < 0x0200, Remark::OldQualifier { found: usb }))
}

/// Whether interfaces alone have a class, by the list of base classes that the USB-IF keeps.
fn is_of_interfaces(class: u8) -> bool
    ensures { result ≡ is_of_interfaces class }
{
    matches!(class, 1 | 3 | 5..=8 | 0x0a | 0x0b | 0x0d..=0x10)
}

/// A remark on bDeviceClass that devices don't have (USB 2.0, 9.6.1).
pub(crate) fn device_class_remark(class: u8) -> Option<Remark>
    ensures { result ≡ device_class_remark class }
{
    remark_if(is_of_interfaces(class), Remark::InterfaceClass)
}

/// The values of bMaxPacketSize0 at a speed that is known (USB 2.0, 5.5.3; USB 3.2, 9.6.1).
fn first_packets(speed: SetSpeed) -> Option<PacketSizes>
    ensures { result ≡ first_packets speed }
{
    match speed {
        SetSpeed::Low => Some(PacketSizes::Only(8)),
        SetSpeed::Full => Some(PacketSizes::EightTo64),
        SetSpeed::High => Some(PacketSizes::Only(64)),
        SetSpeed::Super => Some(PacketSizes::Only(9)),
        SetSpeed::LowOrFull | SetSpeed::FullOrHigh => None,
    }
}

/// A remark on bMaxPacketSize0 that the speed doesn't have.
pub(crate) fn packet_remark(speed: SetSpeed, packet: u8) -> Option<Remark>
    ensures { result ≡ packet_remark speed packet }
{
    let sizes = first_packets(speed)?;
    remark_if(
        !is_size(sizes, u16::from(packet)),
        Remark::FirstPacket {
            speed,
            sizes,
            found: packet,
        },
    )
}

fn finds_nothing(found: &[Found]) -> bool
    ensures { result ≡ finds_nothing found.now }
{
    match found {
        [] => true,
        [_, ..] => false,
    }
}

/// A remark on bNumConfigurations 0 where no rule finds it: of an input V10 does.
pub(crate) fn count_remark(sets: u8, found: &[Found]) -> Option<Remark>
    ensures { result ≡ count_remark sets found.now }
{
    remark_if(sets == 0 && finds_nothing(found), Remark::NoSets)
}

/// The greatest current in milliamperes (USB 2.0, 7.2.1 and 9.6.3). At SuperSpeed a device of two lanes may draw the most.
fn most_current(speed: SetSpeed) -> u16
    ensures { result ≡ most_current speed }
{
    match speed {
        SetSpeed::Super => 1500,
        _ => 500,
    }
}

/// A remark on bMaxPower of too much current.
pub(crate) fn power_remark(speed: SetSpeed, power: u8) -> Option<Remark>
    ensures { result ≡ power_remark speed power }
{
    let needed = speed.milliamperes(power);
    let most = most_current(speed);
    remark_if(needed > most, Remark::Current { needed, most })
}

/// Whether they are the codes of a device with associations.
fn tells_associations(codes: ClassCodes) -> bool
    ensures { result ≡ tells_associations codes }
{
    codes.class == 0xef && codes.subclass == 2 && codes.protocol == 1
}

/// A remark on a device or a qualifier of these codes by whether its sets have associations, where that is known.
pub(crate) fn associations_remark(codes: ClassCodes, has: Option<bool>) -> Option<Remark>
    ensures { result ≡ associations_remark codes has }
{
    match has {
        None => None,
        Some(true) => remark_if(!tells_associations(codes), Remark::UntoldAssociation),
        Some(false) => remark_if(tells_associations(codes), Remark::NoAssociation),
    }
}

/// A remark on a qualifier by the speed that the sets before and after it have, if that is one (USB 2.0, 9.6.2).
pub(crate) fn one_speed_remark(speed: Option<SetSpeed>) -> Option<Remark>
    ensures { result ≡ one_speed_remark speed }
{
    match speed {
        None => None,
        Some(speed) => Some(Remark::OneSpeed { speed }),
    }
}
