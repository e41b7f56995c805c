//! What a part of a capture file says.
ghost use Rattle.std.specs.Prelude.{◌≡◌};
ghost use Rattle.usb_capture.specs.Files.{data_start};

use crate::interface::Interface;
use crate::order::ByteOrder;
use crate::pcap::Form;
use crate::text::line::Line;

/// What is said of a packet before its data.
#[derive(Clone, Copy, Debug)]
pub(crate) struct Head {
    /// When it was captured, in nanoseconds from the beginning of 1970.
    pub(crate) time: Option<u64>,
    /// Its link type.
    pub(crate) link: u16,
    /// The byte order of the host that wrote it.
    pub(crate) order: ByteOrder,
    /// How many of its bytes are in the file.
    pub(crate) captured: u32,
    /// How many bytes it had on the bus.
    pub(crate) original: u32,
    /// What stands before its data.
    pub(crate) layout: Layout,
}

/// What stands before the data of a packet.
#[derive(Clone, Copy, Debug, PartialEq, Eq)]
pub(crate) enum Layout {
    /// The header of pcap's record.
    Record,
    /// That of an Enhanced Packet Block or Packet Block.
    Enhanced,
    /// That of a Simple Packet Block.
    Simple,
}

impl Layout {
    /// Where the data begin in the part.
    pub(crate) fn start(self) -> usize
        ensures { result ≡ data_start self }
    {
        match self {
            Layout::Record => 16,
            Layout::Enhanced => 28,
            Layout::Simple => 12,
        }
    }
}

/// What a whole part says.
#[derive(Clone, Copy, Debug)]
pub(crate) enum Content {
    /// Records of this form follow.
    Header(Form),
    /// A section begins, with no interface yet.
    Section(ByteOrder),
    /// A section has an interface more.
    Interface(Interface),
    /// A line of text tells of a transfer.
    Line(Line),
    /// A packet was captured.
    Packet(Head),
    /// Nothing that is read here.
    Other,
}
