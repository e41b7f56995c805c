//! Calls on a small set with a descriptor of each kind.
ghost use Rattle.std.specs.Prelude.{◌≡◌};
ghost use Rattle.usb_set.specs.Faults.{is_whole};

use crate::answer::{Answer, Call, again, refused, right};
use crate::onto::{Added, add_twice};
use crate::rules::{Checked, find};
use crate::samples::{MIXED, MIXED_PARTS};
use crate::sets::encode_to;
use std::alloc::{AllocError, Global};
use usb_file::{Input, InputFault, read_input};
use usb_set::{Configuration, SetFault, SetWhy, add_descriptor, begin_set, next_fault, read_set};

/// The calls on the set.
pub(crate) fn calls(alloc: Global) -> [Call; 6] {
    let (read, set) = read_again(alloc);
    let Some(set) = &set else {
        return [("read_set", Answer::Wrong); 6];
    };
    [
        ("read_set", read),
        ("begin_set and add_descriptor", again!(build_to(alloc, set))),
        ("read_input", again!(read_input_to(alloc, set))),
        ("encode", again!(encode_to(alloc, set, &MIXED))),
        ("encode_onto", add_twice(alloc, Added::Set(set), &MIXED)),
        ("check_set", again!(find(alloc, Checked::Set(set), 0))),
    ]
}

/// Reads the set; where memory is wanting at a descriptor, once more.
fn read_again(alloc: Global) -> (Answer, Option<Configuration>) {
    match read_set(alloc, &MIXED) {
        Ok((set, used)) => (right(used == MIXED.len()), Some(set)),
        Err(fault) => {
            let set = read_set(alloc, &MIXED).ok().map(|read| read.0);
            (refused(is_at_descriptor(fault)), set)
        }
    }
}

/// Whether memory was wanting where a descriptor begins.
fn is_at_descriptor(fault: SetFault) -> bool {
    fault.why == SetWhy::Memory && MIXED_PARTS.contains(&(fault.at as usize))
}

/// Reads it as an input.
fn read_input_to(alloc: Global, wanted: &Configuration) -> Answer {
    match read_input(alloc, &MIXED) {
        Ok(Input::Set(set)) => right(set == *wanted),
        Err(InputFault::Set(fault)) => refused(is_at_descriptor(fault)),
        _ => Answer::Wrong,
    }
}

/// Builds it descriptor by descriptor.
fn build_to(alloc: Global, wanted: &Configuration) -> Answer {
    match build(alloc) {
        Ok(Some(set)) => right(set == *wanted),
        Ok(None) => Answer::Wrong,
        Err(_) => Answer::Memory,
    }
}

/// The set, built descriptor by descriptor, or `None` where one is not whole or can't be there.
fn build(alloc: Global) -> Result<Option<Configuration>, AllocError> {
    let (header, mut rest) = MIXED.split_at(MIXED.len().min(usize::from(MIXED[0])));
    if header.len() < 9 || header[1] != 2 || !is_whole(header) {
        return Ok(None);
    }
    let mut set = begin_set(alloc, header)?;
    for _ in &MIXED_PARTS[1..] {
        let length = usize::from(rest.first().copied().unwrap_or(0));
        let (descriptor, after) = rest.split_at(rest.len().min(length));
        if !add(alloc, &mut set, descriptor)? {
            return Ok(None);
        }
        rest = after;
    }
    Ok(if rest.is_empty() { Some(set) } else { None })
}

/// Adds the descriptor, where it is whole and can be there. Whether it can.
fn add(alloc: Global, set: &mut Configuration, descriptor: &[u8]) -> Result<bool, AllocError> {
    if !is_whole(descriptor) {
        return Ok(false);
    }
    match next_fault(set, descriptor.len(), descriptor) {
        Some(_) => Ok(false),
        None => {
            add_descriptor(alloc, set, descriptor)?;
            Ok(true)
        }
    }
}

/// Whether the bytes are as many as their bLength says.
fn is_whole(bytes: &[u8]) -> bool
    ensures { result ≡ is_whole bytes.now }
{
    match bytes {
        [] => false,
        [length, rest @ ..] => rest.len() + 1 == usize::from(*length),
    }
}
