//! Recordings of a bus, read.
//!
//! - [`CaptureReader`] takes the bytes of a capture file in pcap's or pcapng's format or in usbmon's text, in any pieces,
//!   and hands out each [`Frame`] that is whole: its time, its link type and its bytes. Of a line of text it makes the frame
//!   of link type 220 that says the same. It holds at most [`MOST_HELD`] bytes and what is said of interfaces, however long
//!   the file is.
//! - [`begins_recording`] says whether bytes begin as such a file does.
//! - [`Event::of_frame`] reads what a frame says of a transfer, where its link type is that of usbmon or of USBPcap: whose
//!   transfer it is, its setup packet, its status and its data.
//! - [`ControlTransfers`] makes of these, one by one, the control transfers of all devices: what was asked, what was answered
//!   and how it ended. It holds those whose end hasn't come.
//! - [`Readings`] keeps of these the last by which all of a descriptor came, for each descriptor of each device.
//! - [`DeviceReadings`] does so of the devices that have their addresses now, and makes a descriptor file of them, or a dump.
//! - [`Conversations`] finds in each transfer what USB 2.0 forbids, by what its device said of itself before and the state to which its
//!   transfers led it: each [`Finding`] has its definition in `specs/TransferFindings.antt`.
//! - [`packet_of`] reads a frame that is a packet of the bus. [`BusTransactions`] makes of packets transactions with endpoint
//!   zero, and [`BusTransfers`] makes of these control transfers, as the events of a host tell them.
//! - [`laws`]: bytes have one list of frames or one fault, so it doesn't matter how they were cut into pieces. A setup packet
//!   and the event that ends its transfer are a transfer, whatever events of others come between; so are a SETUP, the packets
//!   of its data stage and its status. Recorded transactions are read back. What is kept of readings came, and is the last. A
//!   file has readings of its device alone. What is found in a device's transfer doesn't depend on others.
//!
//! The formats are those of the Internet drafts "PCAP Capture File Format" (draft-ietf-opsawg-pcap) and "PCAP Next
//! Generation (pcapng) Capture File Format" (draft-ietf-opsawg-pcapng), those of frames the kernel's document "usbmon" and
//! USBPcap's "Capture format specification".
#![tactic(auto)]

mod answer;
mod asked;
mod block;
mod bus_packet;
mod bus_transactions;
mod bus_transfer;
mod bus_transfers;
mod change;
mod clock;
mod compared;
mod configured;
mod content;
mod control_pipes;
mod control_transfer;
mod control_transfers;
mod conversations;
mod data_toggle;
mod device_file;
mod device_readings;
mod device_states;
mod ending;
mod event;
mod expected;
mod fault;
mod finding;
mod frame;
mod interface;
mod known_state;
mod known_states;
pub mod laws;
mod named_strings;
mod open_transfer;
mod order;
mod packet_finding;
mod packet_sizes;
mod pcap;
mod reader;
mod readings;
mod recorded_packet;
mod request;
mod said;
mod said_settings;
mod stage;
mod text;
mod transaction;
mod usbmon;
mod usbpcap;

pub use asked::Asked;
pub use bus_packet::{PacketFault, packet_of};
pub use bus_transactions::BusTransactions;
pub use bus_transfers::BusTransfers;
pub use clock::Clock;
pub use control_transfer::ControlTransfer;
pub use control_transfers::ControlTransfers;
pub use conversations::Conversations;
pub use data_toggle::{DataToggle, Part};
pub use device_file::{DeviceFile, FileLack};
pub use device_readings::DeviceReadings;
pub use ending::Ending;
pub use event::{Event, EventFault, EventKind, System};
pub use fault::CaptureFault;
pub use finding::Finding;
pub use frame::{Frame, MOST_BYTES};
pub use interface::Interface;
pub use open_transfer::OpenTransfer;
pub use order::ByteOrder;
pub use packet_finding::PacketFinding;
pub use pcap::{Form, Precision, Writer};
pub use reader::{CaptureReader, MOST_HELD, Step};
pub use readings::Readings;
pub use recorded_packet::RecordedPacket;
pub use stage::begins_recording;
pub use transaction::{DataPacket, Transaction};
