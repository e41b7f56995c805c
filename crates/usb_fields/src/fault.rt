//! Why bytes are rejected.
ghost use Rattle.std.specs.Prelude.{◌≡◌, Some};

use std::alloc::AllocError;
use std::{error, fmt};

/// Why bytes are no device descriptor, or no qualifier: the first of these that holds. Its `Display` is a
/// message for people.
///
/// ```rust
/// assert_eq!(rt; Qualifier::read(&[10, 6]), Err(FieldFault::Length));
/// ```
#[derive(Clone, Copy, Debug, PartialEq, Eq, Hash)]
pub enum FieldFault {
    /// The bytes are not as many as the descriptor has, or bLength is another number.
    Length,
    /// bDescriptorType is that of another descriptor.
    Kind,
}

impl FieldFault {
    ghost use Rattle.usb_fields.specs.Numbers.{field_fault_number};

    /// The fault's number, 1 or 2: a lower one is tested first.
    pub fn number(self) -> u8
        ensures { result ≡ field_fault_number self }
    {
        self as u8 + 1
    }
}

impl fmt::Display for FieldFault {
    ghost use Rattle.usb_fields.specs.Numbers.{field_fault_message};

    ghost output = { λ fault. Some (field_fault_message fault) };

    fn fmt<W: fmt::Write>(&self, f: &mut fmt::Formatter<W>) -> fmt::Result {
        match self {
            FieldFault::Length => f.write_str("the length is not the descriptor's"),
            FieldFault::Kind => f.write_str("the type is not the descriptor's"),
        }
    }
}

impl error::Error for FieldFault {}

/// Why a string or a language list is not read, or not written: the first of these that holds. Its `Display`
/// is a message for people.
///
/// ```rust
/// assert_eq!(rt; read_units(alloc, &[3, 3, 0x41]), Err(UnitFault::Odd));
/// ```
#[derive(Clone, Copy, Debug, PartialEq, Eq, Hash)]
pub enum UnitFault {
    /// There are fewer than two bytes, or bLength is not the number of bytes.
    Length,
    /// bDescriptorType is not STRING (3).
    Kind,
    /// bLength is odd, so that the last unit is half a unit.
    Odd,
    /// More than 126 units, which no bLength can count. Only [`write_units`](crate::write_units) answers it.
    TooLong,
    /// Out of memory. None of the other faults holds.
    Memory,
}

impl UnitFault {
    ghost use Rattle.usb_fields.specs.Numbers.{unit_fault_number};

    /// The fault's number, 1 to 5: a lower one is tested first.
    pub fn number(self) -> u8
        ensures { result ≡ unit_fault_number self }
    {
        self as u8 + 1
    }
}

impl fmt::Display for UnitFault {
    ghost use Rattle.usb_fields.specs.Numbers.{unit_fault_message};

    ghost output = { λ fault. Some (unit_fault_message fault) };

    fn fmt<W: fmt::Write>(&self, f: &mut fmt::Formatter<W>) -> fmt::Result {
        match self {
            UnitFault::Length => f.write_str("the length is not that of the bytes"),
            UnitFault::Kind => f.write_str("the type is not that of a string"),
            UnitFault::Odd => f.write_str("the length is odd"),
            UnitFault::TooLong => f.write_str("more than 126 units"),
            UnitFault::Memory => f.write_str("out of memory"),
        }
    }
}

impl error::Error for UnitFault {}

impl From<AllocError> for UnitFault {
    ghost use Rattle.usb_fields.specs.declared.fault.UnitFault.TheVariants.{Memory};

    ghost from_gives = { λ _ fault. fault ≡ Memory };

    fn from(_refused: AllocError) -> Self {
        Self::Memory
    }
}
