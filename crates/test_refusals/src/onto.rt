//! Calls that add bytes to a list.
use crate::answer::{Answer, refused};
use std::alloc::Global;
use usb_fields::{UnitFault, write_units_onto};
use usb_set::{Configuration, EncodeFault, encode_onto};

/// What is added.
#[derive(Clone, Copy)]
pub(crate) enum Added<'a> {
    /// The bytes of a set.
    Set(&'a Configuration),
    /// Those of a string of these units.
    Units(&'a [u16]),
}

/// Adds the bytes to a list, and then to those; where memory is wanting, the list is as it was, and they are added once
/// more.
pub(crate) fn add_twice(alloc: Global, added: Added<'_>, bytes: &[u8]) -> Answer {
    let mut list = Vec::new(alloc);
    let mut answer = Answer::Right;
    for count in 0..2usize {
        let report = add(added, &mut list);
        if report != Answer::Right {
            let stands = report == Answer::Memory && is_repeated(&list, bytes, count);
            answer = refused(stands && add(added, &mut list) == Answer::Right);
        }
        if answer == Answer::Wrong || !is_repeated(&list, bytes, count.saturating_add(1)) {
            return Answer::Wrong;
        }
    }
    answer
}

fn add(added: Added<'_>, list: &mut Vec<u8>) -> Answer {
    match added {
        Added::Set(set) => match encode_onto(set, list) {
            Ok(()) => Answer::Right,
            Err(EncodeFault::Memory) => Answer::Memory,
            Err(_) => Answer::Wrong,
        },
        Added::Units(units) => match write_units_onto(units, list) {
            Ok(()) => Answer::Right,
            Err(UnitFault::Memory) => Answer::Memory,
            Err(_) => Answer::Wrong,
        },
    }
}

/// Whether a list is these bytes, this many times.
fn is_repeated(list: &[u8], bytes: &[u8], count: usize) -> bool {
    let mut rest = list;
    for _ in 0..count {
        match rest.strip_prefix(bytes) {
            Some(after) => rest = after,
            None => return false,
        }
    }
    rest.is_empty()
}
