//! What each descriptor of an input is, and what is remarked of it.
//!
//! [`Outline`] goes over the bytes of an input, and gives each [`Descriptor`]: its place and its bytes, as many as its first byte
//! says, what it is, how deep and whose, its speed, and the findings that stand at it. [`Descriptor::remarks`] are what is remarked
//! of it, which is no finding. A byte that isn't there is read as 0, so that all of it is defined for any bytes.
//!
//! - Descriptors are `specs/Outline.antt`: what each is, how deep and whose is said by `usb_walk`, what is found at it by
//!   `specs/Findings.antt`, and the speed of its set, as far as its descriptors tell it, by `specs/SetSpeeds.antt`.
//! - What is remarked of one is `specs/Remarks.antt`.
//!
//! [`laws`] says what holds of each outline: every byte of the input is in one descriptor, the descriptors are those that were
//! read, each with its owner, and every finding stands at one of them; and a remark at an open speed holds at both speeds.
#![tactic(auto)]

mod associations;
mod bindings;
mod context;
mod descriptor;
mod device_facts;
mod interface_numbers;
mod later_interfaces;
pub mod laws;
mod outline;
mod outline_state;
mod placed_remark;
mod remark;
mod remarks;
mod set_speed;
mod set_start;
mod speed;
mod speed_evidence;
mod survey;

pub use descriptor::Descriptor;
pub use outline::Outline;
pub use placed_remark::{PlacedRemark, remarks_text};
pub use remark::{IntervalRange, PacketSizes, Remark};
pub use remarks::classes::hid_length;
pub use set_speed::other_speed;
pub use speed::SetSpeed;
pub use speed_evidence::has_multiple;
