//! Sets and a file that are past every round number.
use crate::samples::MOUSE;
use std::alloc::{AllocError, Global};

/// The most bytes of a set.
const MOST: usize = 65_535;

/// A set of as many equal descriptors as it has room for.
#[derive(Clone, Copy, Debug, PartialEq, Eq)]
pub(crate) struct Shape {
    /// What there are many of.
    pub name: &'static str,
    /// The descriptors before them.
    pub front: &'static [u8],
    /// Each of them.
    pub each: &'static [u8],
    /// How many there are.
    pub count: usize,
    /// How many findings a file has whose one set this is.
    pub findings: usize,
}

/// An interface with one setting and no endpoint that it declares.
const INTERFACE: &[u8] = &[9, 4, 0, 0, 0, 3, 0, 0, 0];

/// Of equal settings all but the first break V3.
pub(crate) const SETTINGS: Shape = Shape {
    name: "settings",
    front: &[],
    each: INTERFACE,
    count: 7280,
    findings: 7279,
};

/// Endpoints as many as are not declared break V5, and all but the first of an address V7.
pub(crate) const ENDPOINTS: Shape = Shape {
    name: "endpoints",
    front: INTERFACE,
    each: &[7, 5, 0x81, 3, 8, 0, 10],
    count: 9359,
    findings: 9359,
};

/// Associations of one interface break no rule.
pub(crate) const ASSOCIATIONS: Shape = Shape {
    name: "associations",
    front: INTERFACE,
    each: &[8, 11, 0, 1, 3, 0, 0, 0],
    count: 8189,
    findings: 0,
};

/// With no interface where one is declared V1 is broken.
pub(crate) const CLASS_DESCRIPTORS: Shape = Shape {
    name: "class descriptors",
    front: &[],
    each: &[2, 0x21],
    count: 32_763,
    findings: 1,
};

/// Puts a set of this shape after the bytes.
///
/// # Errors
///
/// Out of memory.
pub(crate) fn push_set(bytes: &mut Vec<u8>, shape: Shape) -> Result<(), AllocError> {
    let each = shape.count.saturating_mul(shape.each.len());
    let total = each
        .saturating_add(shape.front.len())
        .saturating_add(9)
        .min(MOST) as u16;
    let [low, high] = total.to_le_bytes();
    bytes.extend_from_slice(&[9, 2, low, high, 1, 1, 0, 0x80, 0x32])?;
    bytes.extend_from_slice(shape.front)?;
    for _ in 0..shape.count {
        bytes.extend_from_slice(shape.each)?;
    }
    Ok(())
}

/// How many sets and strings [`many_strings`] has.
pub(crate) const STRINGS: u8 = 255;

/// A file of 255 sets, each of which names a string, with these strings of 0 to 126 units.
///
/// # Errors
///
/// Out of memory.
pub(crate) fn many_strings(alloc: Global) -> Result<Vec<u8>, AllocError> {
    let mut bytes = Vec::from_slice(alloc, &MOUSE[..17])?;
    bytes.push(STRINGS)?;
    for value in 1..=STRINGS {
        bytes.extend_from_slice(&[9, 2, 9, 0, 0, value, value, 0x80, 0x32])?;
    }
    bytes.extend_from_slice(&[4, 3, 9, 4])?;
    for value in 1..=STRINGS {
        let units = value % 127;
        bytes.extend_from_slice(&[2 + 2 * units, 3])?;
        for _ in 0..units {
            bytes.extend_from_slice(&[0xac, 0x20])?;
        }
    }
    Ok(bytes)
}
