//! Calls on descriptor files.
use crate::answer::{Answer, Call, again, refused, right};
use crate::rules::{Checked, find};
use crate::samples::{
    EVERYTHING, EVERYTHING_PARTS, EVERYTHING_TEXT, MOUSE, MOUSE_PARTS, MOUSE_TEXT,
};
use crate::sets::listed;
use std::alloc::Global;
use std::io::Cursor;
use usb_file::{
    DescriptorFile, FileFault, FileWhy, Input, InputFault, ListWhy, WriteFault, assemble, list,
    named, read_file, read_input, write_file,
};

/// More bytes than a listing of these has.
const PAGE: usize = 512;

/// How many bytes of the second sample a dump has: the device descriptor and its set.
const DUMP_LENGTH: usize = 52;

/// A file, and what its calls must answer.
#[derive(Clone, Copy)]
pub(crate) struct Sample {
    bytes: &'static [u8],
    /// Where its parts begin.
    parts: &'static [usize],
    text: &'static str,
    named: &'static [u8],
    /// The string of index 1 in US English.
    string: Option<&'static [u16]>,
}

/// A mouse.
pub(crate) const SMALL: Sample = Sample {
    bytes: &MOUSE,
    parts: &MOUSE_PARTS,
    text: MOUSE_TEXT,
    named: &[],
    string: None,
};

/// A mouse with a second speed and a string: Mouse.
pub(crate) const LARGE: Sample = Sample {
    bytes: &EVERYTHING,
    parts: &EVERYTHING_PARTS,
    text: EVERYTHING_TEXT,
    named: &[1],
    string: Some(&[0x4d, 0x6f, 0x75, 0x73, 0x65]),
};

/// The calls on a file.
pub(crate) fn calls(alloc: Global, sample: &Sample) -> [Call; 8] {
    let (read, file) = read_again(alloc, sample);
    let Some(file) = &file else {
        return [("read_file", Answer::Wrong); 8];
    };
    [
        ("read_file", read),
        ("read_input", again!(read_input_to(alloc, file, sample))),
        ("named", again!(name(alloc, file, sample.named))),
        ("string", right(file.string(1, 0x0409) == sample.string)),
        ("check", again!(find(alloc, Checked::File(file), 0))),
        ("write_file", again!(write_to(alloc, file, sample.bytes))),
        ("list", list_to(alloc, file, sample.text.as_bytes())),
        (
            "assemble",
            again!(assemble_to(alloc, file, sample.text.as_bytes())),
        ),
    ]
}

/// Reads the file; where memory is wanting at a part, once more.
fn read_again(alloc: Global, sample: &Sample) -> (Answer, Option<DescriptorFile>) {
    match read_file(alloc, sample.bytes) {
        Ok(file) => (Answer::Right, Some(file)),
        Err(fault) => {
            let there = is_at_part(fault, sample.parts);
            (refused(there), read_file(alloc, sample.bytes).ok())
        }
    }
}

/// Whether memory was wanting where a part begins.
fn is_at_part(fault: FileFault, parts: &[usize]) -> bool {
    fault.why == FileWhy::Memory && parts.contains(&fault.at)
}

/// Reads the file as an input.
fn read_input_to(alloc: Global, file: &DescriptorFile, sample: &Sample) -> Answer {
    match read_input(alloc, sample.bytes) {
        Ok(Input::File(read)) => right(read == *file),
        Err(InputFault::File(fault)) => refused(is_at_part(fault, sample.parts)),
        _ => Answer::Wrong,
    }
}

/// The calls on the dump that is a prefix of the second file.
pub(crate) fn dump_calls(alloc: Global) -> [Call; 2] {
    let (read, mut dump) = read_dump(alloc);
    if read == Answer::Memory {
        dump = read_dump(alloc).1;
    }
    match &dump {
        Some(dump) => [
            ("read_input", read),
            ("check_dump", again!(find(alloc, Checked::Dump(dump), 0))),
        ],
        None => [("read_input", Answer::Wrong); 2],
    }
}

/// Reads the dump.
fn read_dump(alloc: Global) -> (Answer, Option<DescriptorFile>) {
    match read_input(alloc, &EVERYTHING[..DUMP_LENGTH]) {
        Ok(Input::Dump(dump)) => {
            let is_whole = dump.sets.len() == 1 && dump.strings.is_none();
            (right(is_whole), Some(dump))
        }
        Err(InputFault::File(fault)) => (refused(is_at_part(fault, &EVERYTHING_PARTS)), None),
        _ => (Answer::Wrong, None),
    }
}

/// The named indices.
fn name(alloc: Global, file: &DescriptorFile, wanted: &[u8]) -> Answer {
    match named(alloc, file) {
        Ok(indices) => right(indices.as_slice() == wanted),
        Err(_) => Answer::Memory,
    }
}

/// The findings on the mouse with bNumInterfaces 2 and a bmAttributes of 20 hexadecimal: two.
pub(crate) fn broken_call(alloc: Global) -> Call {
    let mut bytes = MOUSE;
    bytes[22] = 2;
    bytes[25] = 0x20;
    let answer = match read_file(alloc, &bytes) {
        Ok(file) => again!(find(alloc, Checked::File(&file), 2)),
        Err(fault) => refused(fault.why == FileWhy::Memory),
    };
    ("check", answer)
}

/// Writes the file to these bytes.
pub(crate) fn write_to(alloc: Global, file: &DescriptorFile, bytes: &[u8]) -> Answer {
    match write_file(alloc, file) {
        Ok(written) => right(written.as_slice() == bytes),
        Err(WriteFault::Memory) => Answer::Memory,
        Err(_) => Answer::Wrong,
    }
}

/// Lists the file; where memory is wanting, what was written is a prefix of the listing.
fn list_to(alloc: Global, file: &DescriptorFile, wanted: &[u8]) -> Answer {
    let mut page = [0u8; PAGE];
    let mut writer = Cursor::new(page.as_mut_slice());
    let outcome = list(alloc, file, &mut writer);
    let written = writer.position().min(PAGE as u64) as usize;
    let is_front = wanted.starts_with(&page[..written]);
    listed(outcome, is_front, written == wanted.len())
}

/// Reads the listing; memory can be wanting at one of its lines.
pub(crate) fn assemble_to(alloc: Global, file: &DescriptorFile, text: &[u8]) -> Answer {
    match assemble(alloc, text) {
        Ok(assembled) => right(assembled == *file),
        Err(fault) => {
            let is_line = fault.line >= 1 && fault.line <= count_lines(text);
            refused(fault.why == ListWhy::Memory && is_line)
        }
    }
}

/// How many lines a text has.
pub(crate) fn count_lines(text: &[u8]) -> usize {
    text.iter().filter(|byte| **byte == b'\n').count()
}
