//! Calls on a string of 126 units.
use crate::answer::{Answer, Call, again, right};
use crate::onto::{Added, add_twice};
use std::alloc::Global;
use usb_fields::{UnitFault, read_units, text_of, write_units};

/// The units, each of which is the sign of the euro.
pub(crate) const EUROS: [u16; 126] = [0x20ac; 126];

/// The calls.
pub(crate) fn calls(alloc: Global) -> [Call; 4] {
    let mut bytes = [0xac; 254];
    for (place, byte) in bytes.iter_mut().enumerate() {
        if place % 2 == 1 {
            *byte = 0x20;
        }
    }
    bytes[0] = 254;
    bytes[1] = 3;
    [
        ("write_units", again!(write_to(alloc, &EUROS, &bytes))),
        (
            "write_units_onto",
            add_twice(alloc, Added::Units(&EUROS), &bytes),
        ),
        ("read_units", again!(read_to(alloc, &EUROS, &bytes))),
        ("text_of", again!(spell(alloc, &EUROS))),
    ]
}

/// Writes the units to these bytes.
fn write_to(alloc: Global, units: &[u16], bytes: &[u8]) -> Answer {
    match write_units(alloc, units) {
        Ok(written) => right(written.as_slice() == bytes),
        Err(UnitFault::Memory) => Answer::Memory,
        Err(_) => Answer::Wrong,
    }
}

/// Reads the units of these bytes.
pub(crate) fn read_to(alloc: Global, units: &[u16], bytes: &[u8]) -> Answer {
    match read_units(alloc, bytes) {
        Ok(read) => right(read.as_slice() == units),
        Err(UnitFault::Memory) => Answer::Memory,
        Err(_) => Answer::Wrong,
    }
}

/// The text of the units, which are signs of the euro.
pub(crate) fn spell(alloc: Global, units: &[u16]) -> Answer {
    match text_of(alloc, units) {
        Ok(text) => {
            let all = text.chars().all(|letter| letter == '\u{20ac}');
            right(all && text.chars().count() == units.len())
        }
        Err(_) => Answer::Memory,
    }
}
