//! A packet of a recording, with where it stands there.
ghost use Rattle.std.specs.Prelude.{◌≡◌, IfOk, IfErr};
ghost use Rattle.usb_capture.specs.BusPackets.{IsPacketOf};

use crate::bus_packet::{PacketFault, packet_of};
use crate::frame::Frame;
use usb_wire::Packet;

/// A packet of a recording.
#[derive(Clone, Copy, Debug)]
pub struct RecordedPacket<'d> {
    /// The number of its frame.
    pub number: u64,
    /// When it was captured, in nanoseconds.
    pub time: Option<u64>,
    /// The packet, or why the frame is none.
    pub packet: Result<Packet<'d>, PacketFault>,
}

impl<'d> RecordedPacket<'d> {
    /// What the frame with this number has.
    pub fn of_frame(number: u64, frame: &'d Frame) -> RecordedPacket<'d>
        ensures number { result.number ≡ number }
        ensures time { result.time ≡ frame.now.time }
        ensures packet { IsPacketOf frame.now result.packet }
    {
        RecordedPacket {
            number,
            time: frame.time,
            packet: packet_of(frame),
        }
    }
}
