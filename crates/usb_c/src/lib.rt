//! Descriptors, devices and hosts of USB 2.0 for callers in C: `include/nozzlegorse.h` declares what this library exports.
//!
//! A slice is a pointer and a length, lent for the call. No export has a `requires`: each takes any bytes, any numbers
//! and any order of calls. A text or bytes go into the caller's buffer whole, or the buffer is left as it was:
//! `specs/Texts.antt`, `specs/Enumerations.antt`. What bytes are, what breaks a rule in them and where, and the texts of
//! strings are `specs/Facts.antt`; what is remarked of them is `specs/Remarks.antt`.
//!
//! `nzg_next` goes from a descriptor to the next one, and `nzg_field` gives its fields, as numbers in the caller's structs and without
//! memory: [`WalkedDescriptor`] of `usb_walk`, `specs/DescriptorFields.antt`. `usb_remarks::laws` says which descriptors those are. So
//! are a transfer and a write: `specs/Transfers.antt`, `specs/Writes.antt`. A device is numbers too, [`EndpointZero`], beside an image and a room that each
//! call is lent: `specs/Devices.antt`.
//!
//! `nzg_find` is what stands first among any bytes, whole sets and device descriptors, and `nzg_find_all` all of it: `usb_find`.
//!
//! `nzg_packet_parse` and `nzg_packet_write` are packets of the bus from PID to CRC: `specs/BusPackets.antt`.
//!
//! `nzg_capture_feed` takes a recording in pieces, and `nzg_capture_get` gives what it shows: `specs/Captures.antt`.
//!
//! Each call comes to a `Verdict`, which is given as the numbers of an [`Answer`]. [`NzgTransaction`], [`NzgPacket`],
//! [`NzgOutcome`], [`NzgTrouble`], [`NzgFinding`] and [`NzgRemark`] are transactions, outcomes, findings and remarks as
//! numbers.
#![tactic(auto)]

mod answer;
mod buffer;
mod capture;
mod capture_handle;
mod capture_item;
mod conformance;
mod decoder;
mod decoder_handle;
mod descriptor_field;
mod device;
mod device_owner;
mod enumeration;
mod enumeration_log;
mod explaining;
mod fault_text;
mod fields;
mod find;
mod finding;
mod finding_text;
mod from_text;
mod handle;
mod host;
mod host_forgiven;
mod host_handle;
mod host_opening;
mod judging;
pub mod laws;
mod outcome;
mod packet;
mod recorded;
mod remark;
mod remark_text;
mod step;
mod string_text;
mod taken;
mod text;
mod transaction;
mod transfer;
mod transfer_numbers;
mod trouble_text;
mod walk;
mod with_strings;
mod write;

pub use answer::Answer;
pub use buffer::{nzg_build, nzg_check, nzg_enumerate, nzg_explain, nzg_show};
pub use capture::{
    nzg_capture_close, nzg_capture_end, nzg_capture_feed, nzg_capture_file, nzg_capture_get,
    nzg_capture_open,
};
pub use capture_handle::NzgCapture;
pub use conformance::{NzgOpenTransfer, nzg_judge_acked, nzg_judge_device};
pub use decoder::{nzg_decoder_close, nzg_decoder_feed, nzg_decoder_list, nzg_decoder_open};
pub use decoder_handle::NzgDecoder;
pub use descriptor_field::{NzgField, nzg_field};
pub use device::{nzg_device_acked, nzg_device_image, nzg_device_reset, nzg_device_serve};
pub use device_owner::{
    NzgSetup, nzg_device_accept, nzg_device_answer_with, nzg_device_carried_out, nzg_device_refuse,
    nzg_device_refused, nzg_device_written,
};
pub use enumeration::NzgOutcome;
pub use enumeration_log::nzg_enumerate_log;
pub use fault_text::nzg_fault_text;
pub use fields::{nzg_field_named, nzg_fields};
pub use find::{nzg_find, nzg_find_all};
pub use finding::{NzgFinding, nzg_findings, nzg_rule};
pub use finding_text::nzg_finding_text;
pub use from_text::nzg_from_text;
pub use host::{
    nzg_host_attempts, nzg_host_close, nzg_host_next, nzg_host_open, nzg_host_outcome,
    nzg_host_reset_done, nzg_host_step, nzg_host_take,
};
pub use host_forgiven::nzg_host_forgiven;
pub use host_handle::NzgHost;
pub use host_opening::nzg_host_open_with;
pub use judging::nzg_judge;
pub use outcome::NzgTrouble;
pub use packet::{NzgPacketFields, nzg_crc5, nzg_crc16, nzg_packet_parse, nzg_packet_write};
pub use recorded::NzgRecorded;
pub use remark::{NzgRemark, nzg_remarks};
pub use remark_text::nzg_remark_text;
pub use step::NzgStep;
pub use string_text::nzg_text;
pub use transaction::{NzgPacket, NzgTransaction};
pub use transfer::{nzg_transfer_next, nzg_transfer_open, nzg_transfer_take};
pub use transfer_numbers::NzgTransfer;
pub use trouble_text::nzg_trouble_text;
pub use usb_device::EndpointZero;
pub use usb_walk::WalkedDescriptor;
pub use walk::nzg_next;
pub use with_strings::nzg_with_strings;
pub use write::{NzgWrite, nzg_write_next, nzg_write_open, nzg_write_take};
