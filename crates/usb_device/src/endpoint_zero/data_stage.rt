//! The data stage of a transfer: the bytes that are sent, and the next packet.
ghost use Rattle.std.specs.Prelude.{◌≡◌, ◌≤◌, ◌/◌, ℕ, List, suc, length, take, drop};
ghost use Rattle.usb_fields.specs.Packets.{packets};
ghost use Rattle.usb_fields.specs.declared.packet.Toggle.TheVariants.{Data1};
ghost use Rattle.usb_device.specs.Offers.{packet_in};
ghost use Rattle.usb_device.specs.Step.{next_stage};
ghost use Rattle.usb_device.specs.Stages.{data_bytes, data_of, request_of, source_at, stage_at, toggle_at};

use super::EndpointZero;
use crate::image::Image;
use crate::stage::{Source, Stage, toggle_at, toggle_number};
use usb_fields::{Toggle, after, prefix};

impl EndpointZero {
    ghost use Rattle.usb_device.specs.View.{acknowledged, device_of, packet_due, IsOf};

    /// Begins to send this many bytes of a source.
    pub(super) fn begin_data(&mut self, source: Source, count: usize)
        ensures stage { stage_at self.new.stage ≡ Stage.Sending }
        ensures source { source_at self.new.source ≡ source }
        ensures toggle { toggle_at self.new.toggle ≡ Data1 }
        ensures rest { self.new ≡ record self.old { stage = self.new.stage; source = self.new.source; toggle = self.new.toggle; count = count; offset = 0 } }
    {
        self.stage = Stage::Sending.number();
        self.source = source.number();
        self.count = count;
        self.offset = 0;
        self.toggle = toggle_number(Toggle::Data1);
    }

    /// The packet that came next was acknowledged: another one comes then, or the status stage.
    #[inline(always)]
    pub(super) fn go_on(&mut self, image: Image<'_>)
        requires sending { stage_at self.old.stage ≡ Stage.Sending }
        ensures device { (room : List ℕ) → IsOf image.entry.bytes.now room self.old → device_of image.entry.bytes.now room self.new ≡ record (device_of image.entry.bytes.now room self.old) { stage = next_stage (request_of self.old) (data_bytes image.entry.bytes.now room (data_of self.old)) (self.old.offset / packet_in image.entry.bytes.now) (drop (suc (self.old.offset / packet_in image.entry.bytes.now)) (packets (data_bytes image.entry.bytes.now room (data_of self.old)) (packet_in image.entry.bytes.now) (request_of self.old).length)) } }
        ensures of { (room : List ℕ) → IsOf image.entry.bytes.now room self.old → IsOf image.entry.bytes.now room self.new }
    {
        let packet = image.packet();
        let limit = usize::from(self.setup().length);
        let left = self.count.saturating_sub(self.offset);
        if left < packet || limit.saturating_sub(self.offset) <= packet {
            self.stage = Stage::StatusOut.number();
        } else {
            self.offset += packet;
            self.toggle = toggle_number(toggle_at(self.toggle).flip());
        }
    }

    /// How many bytes of a data stage to the host were sent and acknowledged: 0 in any other stage.
    pub fn acknowledged(&self) -> usize
        ensures { (image : List ℕ) → (room : List ℕ) → IsOf image room self.now → result ≡ acknowledged (packet_in image) (device_of image room self.now).stage }
    {
        match Stage::of(self.stage) {
            Stage::Sending => self.offset,
            _ => 0,
        }
    }

    /// The bytes of the next packet, or none.
    #[inline(always)]
    pub fn packet<'a>(&'a self, image: Image<'a>, room: &'a [u8]) -> &'a [u8]
        ensures short { length result.now ≤ packet_in image.entry.bytes.now }
        ensures due { IsOf image.entry.bytes.now room.entry.now self.now → result.now ≡ packet_due (packet_in image.entry.bytes.now) (device_of image.entry.bytes.now room.entry.now self.now).stage }
    {
        match Stage::of(self.stage) {
            Stage::Sending => prefix(
                after(self.data_bytes(image, room), self.offset),
                image.packet(),
            ),
            _ => &[],
        }
    }

    #[inline(always)]
    fn data_bytes<'a>(&'a self, image: Image<'a>, room: &'a [u8]) -> &'a [u8]
        ensures { result.now ≡ data_bytes image.entry.bytes.now room.entry.now (data_of self.now) }
    {
        let bytes = match Source::of(self.source) {
            Source::Own => &self.own,
            Source::Room => room,
            Source::Image => after(image.bytes, self.place),
        };
        prefix(bytes, self.count)
    }
}
