//! A line of usbmon's text.
ghost use Rattle.std.specs.Prelude.{◌≡◌, ◌++◌, OnOk, IfOk};
ghost use Rattle.usb_capture.specs.UsbmonText.{beginning_of, bytes_of_line, end_of, event_of, line_frame, line_of};

use crate::frame::Frame;
use crate::order::ByteOrder;
use crate::text::address::Address;
use crate::text::data::Data;
use crate::text::status::{Status, only};
use crate::text::words::{after_parts, number_below, number_in, part};
use crate::usbmon;
use std::alloc::{AllocError, Global};
use usb_fields::{Sequence, prefix};

/// The most bytes of the frame that says what a line says.
const MOST_BYTES: usize = 96;

/// What a line says.
#[derive(Clone, Copy, Debug)]
pub(crate) struct Line {
    /// What a submission and its completion have in common.
    pub(crate) id: u64,
    /// When it was, in microseconds.
    pub(crate) time: u32,
    /// S, C or E.
    pub(crate) event: u8,
    /// Whose transfer it is.
    pub(crate) address: Address,
    /// How it ended, or its setup packet.
    pub(crate) status: Status,
    /// Its data.
    pub(crate) data: Data,
}

impl Line {
    /// What a line says, without its end.
    #[tactic(auto, unfolding(crate::specs::UsbmonText::line_of))]
    pub(crate) fn of_text(text: &[u8]) -> Option<Line>
        ensures { result ≡ line_of text.now }
    {
        let id = number_in(16, part(b' ', 0, text))?;
        let time = number_below(10, 4_294_967_296, part(b' ', 1, text))? as u32;
        let event = event_of(part(b' ', 2, text))?;
        let address = Address::of_word(part(b' ', 3, text))?;
        let status = Status::of_words(after_parts(b' ', 4, text))?;
        let rest = after_parts(b' ', 4 + status.words(), text);
        let data = Data::of_words(address.transfer, rest)?;
        Some(Line {
            id,
            time,
            event,
            address,
            status,
            data,
        })
    }

    /// The frame of link type 220 that says the same.
    pub(crate) fn to_frame(&self, alloc: Global) -> Result<Frame, AllocError>
        ensures { IfOk result (λ frame. frame ≡ line_frame self.now) }
    {
        Ok(Frame {
            time: Some(u64::from(self.time) * 1000),
            link: 220,
            order: ByteOrder::Little,
            captured: 64 + u32::from(self.data.captured()),
            original: if self.data.tag == 0 {
                self.data.length.saturating_add(64)
            } else {
                64
            },
            bytes: Sequence::from_vec(self.to_bytes(alloc)?),
        })
    }

    /// The same in struct usbmon_packet of a little-endian host, and the data after it.
    fn to_bytes(&self, alloc: Global) -> Result<Vec<u8>, AllocError>
        ensures { IfOk result (λ bytes. bytes.items ≡ bytes_of_line self.now) }
    {
        let mut bytes = Vec::with_capacity(alloc, MOST_BYTES)?;
        self.put_beginning(&mut bytes)?;
        self.put_end(&mut bytes)?;
        bytes.extend_from_slice(prefix(&self.data.bytes, usize::from(self.data.count)))?;
        Ok(bytes)
    }

    /// Puts the fields from the id to the time.
    fn put_beginning(&self, bytes: &mut Vec<u8>) -> Result<(), AllocError>
        ensures { OnOk result (bytes.new.items ≡ bytes.old.items ++ beginning_of self.now) }
    {
        let address = &self.address;
        bytes.extend_from_slice(&self.id.to_le_bytes())?;
        bytes.extend_from_slice(&[
            self.event,
            address.transfer,
            address.endpoint,
            address.device,
        ])?;
        bytes.extend_from_slice(&address.bus.to_le_bytes())?;
        bytes.extend_from_slice(&[self.status.tag, self.data.tag])?;
        bytes.extend_from_slice(&u64::from(self.time / 1_000_000).to_le_bytes())?;
        bytes.extend_from_slice(&(self.time % 1_000_000).to_le_bytes())?;
        Ok(())
    }

    /// Puts the fields from the status on. Those of isochronous transfers are zeros.
    fn put_end(&self, bytes: &mut Vec<u8>) -> Result<(), AllocError>
        ensures { OnOk result (bytes.new.items ≡ bytes.old.items ++ end_of self.now) }
    {
        bytes.extend_from_slice(&self.status.code.to_le_bytes())?;
        bytes.extend_from_slice(&self.data.length.to_le_bytes())?;
        bytes.extend_from_slice(&u32::from(self.data.count).to_le_bytes())?;
        bytes.extend_from_slice(&self.status.setup.to_bytes())?;
        bytes.extend_from_slice(&[0; 16])?;
        Ok(())
    }
}

/// The letter of an event, if the word is one.
#[tactic(auto, unfolding(crate::specs::UsbmonText::event_of))]
fn event_of(word: &[u8]) -> Option<u8>
    ensures { result ≡ event_of word.now }
{
    let letter = only(word)?;
    usbmon::kind_of(letter)?;
    Some(letter)
}
