//! What a part of a capture file is.
ghost use Rattle.std.specs.Prelude.{◌≡◌};
ghost use Rattle.usb_capture.specs.Files.{begins_recording, content, first_content, first_length, record_head, whole};
ghost use Rattle.usb_capture.specs.UsbmonText.{is_text, line_content, line_length};

use crate::block;
use crate::content::{Content, Head, Layout};
use crate::fault::CaptureFault;
use crate::interface::Interface;
use crate::order::ByteOrder;
use crate::pcap::{Form, Writer};
use crate::text::line::Line;
use crate::text::words::{digit, place_of};
use usb_fields::{byte_at, prefix};

/// The most bytes of a line.
const MOST_LINE: usize = 512;

/// What is being read.
#[derive(Clone, Copy, Debug)]
pub(crate) enum Stage {
    /// The first part of a file.
    Start,
    /// A record of pcap.
    Records(Form),
    /// A block of pcapng.
    Blocks(ByteOrder),
    /// A line of usbmon's text.
    Lines,
}

impl Stage {
    /// How many bytes a part has, as far as those that are held tell.
    pub(crate) fn whole(self, held: &[u8]) -> u64
        ensures { result ≡ whole self held.now }
    {
        match self {
            Stage::Start if held.len() < 4 => 4,
            Stage::Start => first_length(Writer::of_magic(held), held),
            Stage::Records(_) if held.len() < 16 => 16,
            Stage::Records(form) => 16 + u64::from(form.writer.order.number_at(held, 8)),
            Stage::Blocks(order) => u64::from(block::block_length(order, held)),
            Stage::Lines => line_length(held),
        }
    }

    /// What a part of `n` bytes says, of which these are held, and these are the last four.
    ///
    /// # Errors
    ///
    /// The first fault of the part.
    #[inline(always)]
    pub(crate) fn content(
        self,
        interfaces: &[Interface],
        held: &[u8],
        n: u64,
        last: &[u8],
    ) -> Result<Content, CaptureFault>
        ensures { result ≡ content self interfaces.now held.now n last.now }
    {
        match self {
            Stage::Start => first_content(Writer::of_magic(held), held, n, last),
            Stage::Records(form) => Ok(Content::Packet(record_head(form, held))),
            Stage::Blocks(order) => block::read(order, interfaces, held, n, last),
            Stage::Lines => line_content(held),
        }
    }
}

/// Whether bytes begin as a recording does: with the magic number of a file of pcap, the type of a section header of pcapng, or a
/// whole line of usbmon's text.
///
/// ```rust
/// assert!(rt; begins_recording(&[0xd4, 0xc3, 0xb2, 0xa1]));
/// assert!(rt; !begins_recording(b"12010002\n"));
/// ```
pub fn begins_recording(bytes: &[u8]) -> bool
    ensures { result ≡ begins_recording bytes.now }
{
    Writer::of_magic(bytes).is_some()
        || block::is_section(bytes)
        || (is_text(bytes) && line_content(prefix(bytes, MOST_LINE)).is_ok())
}

/// How many bytes the first part has, of which four tell who wrote it.
fn first_length(writer: Option<Writer>, held: &[u8]) -> u64
    ensures { result ≡ first_length writer held.now }
{
    match writer {
        Some(_) => 24,
        None if block::is_section(held) => u64::from(block::block_length(ByteOrder::Little, held)),
        None if is_text(held) => line_length(held),
        None => 4,
    }
}

/// What the first part says.
fn first_content(
    writer: Option<Writer>,
    held: &[u8],
    n: u64,
    last: &[u8],
) -> Result<Content, CaptureFault>
    ensures { result ≡ first_content writer held.now n last.now }
{
    match writer {
        Some(writer) => Ok(Content::Header(Form {
            writer,
            link: (writer.order.number_at(held, 20) % 65_536) as u16,
        })),
        None if block::is_section(held) => block::read(ByteOrder::Little, &[], held, n, last),
        None if is_text(held) => line_content(held),
        None => Err(CaptureFault::Magic),
    }
}

/// What a record says before its data.
#[inline(always)]
pub(crate) fn record_head(form: Form, held: &[u8]) -> Head
    ensures { result ≡ record_head form held.now }
{
    let order = form.writer.order;
    Head {
        time: Some(
            form.writer
                .time(order.number_at(held, 0), order.number_at(held, 4)),
        ),
        link: form.link,
        order,
        captured: order.number_at(held, 8),
        original: order.number_at(held, 12),
        layout: Layout::Record,
    }
}

/// Whether usbmon's text begins here.
fn is_text(held: &[u8]) -> bool
    ensures { result ≡ is_text held.now }
{
    digit(byte_at(held, 0)).is_some()
        && digit(byte_at(held, 1)).is_some()
        && digit(byte_at(held, 2)).is_some()
        && digit(byte_at(held, 3)).is_some()
}

/// How many bytes a line has, as far as these tell.
fn line_length(held: &[u8]) -> u64
    ensures { result ≡ line_length held.now }
{
    place_of(b'\n', held).min(MOST_LINE - 1) as u64 + 1
}

/// What a line says.
fn line_content(held: &[u8]) -> Result<Content, CaptureFault>
    ensures { result ≡ line_content held.now }
{
    let end = place_of(b'\n', held);
    if end >= held.len() {
        return Err(CaptureFault::Line);
    }
    match Line::of_text(prefix(held, end)) {
        Some(line) => Ok(Content::Line(line)),
        None => Err(CaptureFault::Line),
    }
}
