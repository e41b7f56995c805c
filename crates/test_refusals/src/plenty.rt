//! Calls on inputs past every round number at which one might give up. Nothing is refused, and none may say that memory
//! is wanting.
use crate::answer::{Answer, Call, right};
use crate::files::{assemble_to, count_lines, write_to};
use crate::rules::{Checked, find};
use crate::samples::MOUSE;
use crate::shapes::{ASSOCIATIONS, CLASS_DESCRIPTORS, ENDPOINTS, SETTINGS, Shape, push_set};
use crate::talks;
use crate::units::{EUROS, read_to, spell};
use std::alloc::{AllocError, Global};
use usb_fields::write_units;
use usb_file::{DescriptorFile, list, read_file};
use usb_set::{Decoder, Progress, Sequence};
use usb_text::Text;

/// The calls.
pub(crate) fn calls(alloc: Global) -> [Call; 12] {
    [
        (
            "settings",
            right(go_round(alloc, &[SETTINGS]).unwrap_or(false)),
        ),
        (
            "endpoints",
            right(go_round(alloc, &[ENDPOINTS]).unwrap_or(false)),
        ),
        (
            "associations",
            right(go_round(alloc, &[ASSOCIATIONS]).unwrap_or(false)),
        ),
        (
            "class descriptors",
            right(go_round(alloc, &[CLASS_DESCRIPTORS]).unwrap_or(false)),
        ),
        (
            "sets and strings",
            right(talks::strings(alloc).unwrap_or(false)),
        ),
        (
            "set of a device",
            right(talks::long_set(alloc).unwrap_or(false)),
        ),
        ("requests", right(talks::requests(alloc).unwrap_or(false))),
        ("units", right(units(alloc))),
        ("a piece", right(piece(alloc).unwrap_or(false))),
        (
            "two sets",
            right(go_round(alloc, &[SETTINGS, ENDPOINTS]).unwrap_or(false)),
        ),
        ("elements", right(elements(alloc))),
        ("words", right(words(alloc).unwrap_or(false))),
    ]
}

/// Reads a file with sets of these shapes, looks what breaks a rule, writes it, lists it, and reads the listing. Whether
/// each answers what it must.
fn go_round(alloc: Global, shapes: &[Shape]) -> Result<bool, AllocError> {
    let mut bytes = Vec::from_slice(alloc, &MOUSE[..17])?;
    bytes.push(shapes.len().min(255) as u8)?;
    // The sets have one bConfigurationValue: all but the first break V10.
    let (mut findings, mut count) = (shapes.len().saturating_sub(1), 0usize);
    for shape in shapes {
        push_set(&mut bytes, *shape)?;
        findings = findings.saturating_add(shape.findings);
        count = count.saturating_add(shape.count);
    }
    let Ok(file) = read_file(alloc, &bytes) else {
        return Ok(false);
    };
    let is_found = find(alloc, Checked::File(&file), findings) == Answer::Right;
    Ok(is_found && is_round(alloc, &file, &bytes, count))
}

/// Whether the file is written to these bytes, listed in more lines than this, and read back from its listing.
pub(crate) fn is_round(alloc: Global, file: &DescriptorFile, bytes: &[u8], count: usize) -> bool {
    let mut text = Vec::new(alloc);
    if write_to(alloc, file, bytes) != Answer::Right || list(alloc, file, &mut text).is_err() {
        return false;
    }
    count_lines(&text) > count && assemble_to(alloc, file, &text) == Answer::Right
}

/// Strings of 0 to 126 units, written, read back and spelt.
fn units(alloc: Global) -> bool {
    for count in 0..=EUROS.len() {
        let Ok(bytes) = write_units(alloc, &EUROS[..count]) else {
            return false;
        };
        let is_read = read_to(alloc, &EUROS[..count], &bytes) == Answer::Right;
        if !is_read || spell(alloc, &EUROS[..count]) != Answer::Right {
            return false;
        }
    }
    true
}

/// A set of 65,529 bytes and 4,471 bytes after it, in one piece.
fn piece(alloc: Global) -> Result<bool, AllocError> {
    let mut bytes = Vec::new(alloc);
    push_set(&mut bytes, SETTINGS)?;
    for _ in bytes.len()..70_000 {
        bytes.push(0)?;
    }
    let mut decoder = Decoder::new(alloc);
    let is_done = decoder.feed(&bytes) == Ok(Progress::Done { used: 65_529 });
    match decoder.finish() {
        Ok(set) => Ok(is_done && set.settings.len() == SETTINGS.count),
        Err(_) => Ok(false),
    }
}

/// A list of 70,000 elements.
fn elements(alloc: Global) -> bool {
    let mut list = Sequence::new(alloc);
    for element in 0..70_000u32 {
        if list.push(element).is_err() {
            return false;
        }
    }
    list.len() == 70_000
}

/// A text of 70,000 words.
fn words(alloc: Global) -> Result<bool, AllocError> {
    let mut text = Text::new(alloc);
    for _ in 0..70_000 {
        text.put("word ")?;
    }
    Ok(text.as_bytes().len() == 350_000)
}
