//! What a recording of a bus says, in lines.
//!
//! A [`Teller`] takes the frames of a capture file, which `usb_capture` reads, and writes a line for each control transfer, of
//! events of a host or of packets of the bus (`specs/Observations.antt`): when it ended, whose it is, what was asked, what came of it
//! and what USB 2.0 forbids in it (`specs/FindingLines.antt`), and one for what it forbids in packets (`specs/BusFindings.antt`);
//! at the end what was counted and which devices there were. What it
//! has written is a definition over the frames (`specs/Telling.antt` and `specs/Recordings.antt`). Lines of a transfer are
//! `specs/Lines.antt`, requests in words `specs/Requests.antt`, and statuses of Linux and Windows a table,
//! `specs/Statuses.antt`. A [`RecordingTeller`] takes the file's bytes in any pieces and tells of their frames
//! (`specs/RecordingTellers.antt`), and [`tell_recording`] reads it to its end (`specs/RecordingRuns.antt`). A [`Selection`]
//! says which lines are wanted. A [`RecordingReader`] takes them in pieces too, and shows what is over with each frame in place of
//! lines (`specs/Following.antt`).
#![tactic(auto)]

mod bus_finding;
mod completed;
mod fault_words;
mod finding_lines;
mod follower;
mod last_lines;
mod observer;
mod recording;
mod recording_reader;
mod recording_teller;
mod request_words;
mod seen_device;
mod selection;
mod shown;
mod status_words;
mod tally;
mod teller;
mod transfer_line;

pub use bus_finding::BusFinding;
pub use fault_words::capture_meaning;
pub use finding_lines::{finding_words, packet_words};
pub use recording::{DeviceFault, RecordingFault, read_device, tell_recording};
pub use recording_reader::RecordingReader;
pub use recording_teller::{RecordingTeller, TellFault};
pub use seen_device::SeenDevice;
pub use selection::{DeviceAddress, Selection};
pub use shown::Shown;
pub use tally::Tally;
pub use teller::Teller;
