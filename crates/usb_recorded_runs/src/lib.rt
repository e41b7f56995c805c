//! Recordings of a host that enumerates a device over a bus that loses packets, by what both ends have done.
//!
//! Each packet that arrives at the end to which it was sent is a record of a capture file. The laws of [`laws`] join `usb_bus`, which has the
//! run of both ends, to `usb_capture`, which reads recordings: the run is read back.
#![tactic(auto)]

pub mod laws;
