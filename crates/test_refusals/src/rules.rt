//! Calls that look what breaks a rule.
use crate::answer::{Answer, right};
use std::alloc::Global;
use usb_file::{DescriptorFile, check, check_dump, check_set};
use usb_set::Configuration;

/// What is looked at.
#[derive(Clone, Copy)]
pub(crate) enum Checked<'a> {
    File(&'a DescriptorFile),
    Dump(&'a DescriptorFile),
    Set(&'a Configuration),
}

/// The findings, of which there are this many.
pub(crate) fn find(alloc: Global, checked: Checked<'_>, count: usize) -> Answer {
    let outcome = match checked {
        Checked::File(file) => check(alloc, file),
        Checked::Dump(dump) => check_dump(alloc, dump),
        Checked::Set(set) => check_set(alloc, set),
    };
    match outcome {
        Ok(findings) => right(findings.len() == count),
        Err(_) => Answer::Memory,
    }
}
