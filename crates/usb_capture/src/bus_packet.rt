//! Frames that are packets of the bus.
ghost use Rattle.std.specs.Prelude.{◌≡◌, Some, IsTrue, IfOk, IfErr};
ghost use Rattle.usb_wire.specs.Packets.{IsLegal, packet_bytes, view_of};
ghost use Rattle.usb_capture.specs.BusPackets.{is_of_bus, packet_fault};

use crate::frame::Frame;
use usb_wire::{Damage, Packet};

/// Why a frame is no packet of the bus: the first of these that holds.
#[derive(Clone, Copy, Debug, PartialEq, Eq, Hash)]
pub enum PacketFault {
    /// Its link type is another one.
    Link,
    /// The file has fewer of its bytes than it had.
    Cut,
    /// Its bytes are no packet.
    Damaged(Damage),
}

/// The packet of the bus, from its PID to its CRC, that a frame is: link types 288, and 293 to 295 for low, full and
/// high speed (USB 2.0, 8.4).
///
/// # Errors
///
/// The first [`PacketFault`] that holds.
pub fn packet_of(frame: &Frame) -> Result<Packet<'_>, PacketFault>
    ensures link { IfOk result (λ packet. IsTrue (is_of_bus frame.now.link)) }
    ensures ok { IfOk result (λ packet. frame.now.bytes ≡ packet_bytes (view_of packet)) }
    ensures legal { IfOk result (λ packet. IsLegal (view_of packet)) }
    ensures err { IfErr result (λ fault. packet_fault frame.now ≡ Some fault) }
{
    if !is_of_bus(frame.link) {
        return Err(PacketFault::Link);
    }
    if frame.is_cut() {
        return Err(PacketFault::Cut);
    }
    match Packet::parse(frame.bytes.as_slice()) {
        Ok(packet) => Ok(packet),
        Err(damage) => Err(PacketFault::Damaged(damage)),
    }
}

/// Whether frames of this link type are packets of the bus.
fn is_of_bus(link: u16) -> bool
    ensures { result ≡ is_of_bus link }
{
    link == 288 || link == 293 || link == 294 || link == 295
}
