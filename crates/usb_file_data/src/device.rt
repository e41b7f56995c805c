//! V11: packet size, class and reserved byte of the device descriptor and the qualifier.
ghost use Rattle.std.specs.Prelude.{◌≡◌, OnOk};
ghost use Rattle.usb_file_data.specs.Causes.{device_packet_fault, late_packet_fault, packet_fault};
ghost use Rattle.usb_file_data.specs.Findings.{at_device, at_qualifier};
ghost use Rattle.usb_file_data.specs.Rules.{has_lone_subclass, wrong_packet};
ghost use Rattle.usb_file_data.specs.inside.Reports.{reported};

use crate::cause::{Cause, PacketFault};
use crate::finding::Part;
use crate::place::Place;
use crate::report::Report;
use std::alloc::AllocError;
use usb_fields::{DeviceDescriptor, Qualifier};

/// bMaxPacketSize0 of a SuperSpeed device: the exponent of 512 bytes (USB 3.2, 9.6.1).
const SUPER_SPEED_PACKET: u8 = 9;

/// bcdUSB from which on a dump is that of a SuperSpeed device.
const USB_3_0: u16 = 0x0300;

/// Of the device descriptor of a dump or of a file.
#[tactic(auto, using(crate::proofs::PacketFaults::device_breaks))]
pub(crate) fn check_device(
    found: &mut Report,
    is_dump: bool,
    d: &DeviceDescriptor,
) -> Result<(), AllocError>
    ensures { OnOk result (found.new ≡ reported found.old (at_device is_dump d.now)) }
{
    let packet = device_packet_fault(is_dump, d);
    let subclass = has_lone_subclass(d);
    let wrong = packet.is_some() || subclass;
    found.report(
        Cause::Device { packet, subclass },
        wrong,
        Place::of(Part::Device, 0),
    )
}

#[tactic(auto, using(crate::proofs::PacketFaults::packet_breaks))]
pub(crate) fn check_qualifier(found: &mut Report, q: &Qualifier) -> Result<(), AllocError>
    ensures { OnOk result (found.new ≡ reported found.old (at_qualifier q.now)) }
{
    let packet = packet_fault(q.packet);
    let subclass = q.class == 0 && q.subclass != 0;
    let reserved = q.reserved != 0;
    let cause = Cause::Qualifier {
        packet,
        subclass,
        reserved,
    };
    let wrong = packet.is_some() || subclass || reserved;
    found.report(cause, wrong, Place::of(Part::Other, 0))
}

/// Whether there is a subclass without a class.
fn has_lone_subclass(d: &DeviceDescriptor) -> bool
    ensures { result ≡ has_lone_subclass d.now }
{
    d.class == 0 && d.subclass != 0
}

/// What is wrong with bMaxPacketSize0 of a device. From bcdUSB 0300 on a dump is of SuperSpeed.
fn device_packet_fault(is_dump: bool, d: &DeviceDescriptor) -> Option<PacketFault>
    ensures { result ≡ device_packet_fault is_dump d.now }
{
    if d.usb >= USB_3_0 {
        late_packet_fault(is_dump, d.packet)
    } else {
        packet_fault(d.packet)
    }
}

fn late_packet_fault(is_dump: bool, packet: u8) -> Option<PacketFault>
    ensures { result ≡ late_packet_fault is_dump packet }
{
    if packet == SUPER_SPEED_PACKET {
        if is_dump {
            None
        } else {
            Some(PacketFault::Nine)
        }
    } else if is_dump {
        Some(PacketFault::NotNine)
    } else {
        packet_fault(packet)
    }
}

/// What is wrong with it at USB 2.0.
fn packet_fault(packet: u8) -> Option<PacketFault>
    ensures { result ≡ packet_fault packet }
{
    if is_wrong_packet(packet) {
        Some(PacketFault::NotInTable)
    } else {
        None
    }
}

/// Whether no packet of endpoint zero has this size.
fn is_wrong_packet(packet: u8) -> bool
    ensures { result ≡ wrong_packet packet }
{
    !matches!(packet, 8 | 16 | 32 | 64)
}
