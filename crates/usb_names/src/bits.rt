//! Names of the bits of fields.
ghost use Rattle.std.specs.Prelude.{◌≡◌, map};
ghost use Rattle.usb_names.specs.Bits as tables;
ghost use Rattle.usb_names.specs.Named.{row_of};

use crate::named::{Named, Names};

/// What the bits are called of bmCapabilities of CDC abstract control.
#[tactic(auto, unfolding(crate::specs::Bits::abstract_control_bits))]
pub fn abstract_control_bits() -> Names<u8>
    ensures { map row_of result.rows.now ≡ tables.abstract_control_bits }
{
    Names {
        rows: &ABSTRACT_CONTROL_BITS,
    }
}

/// What the bits are called of bmCapabilities of CDC call management.
#[tactic(auto, unfolding(crate::specs::Bits::call_management_bits))]
pub fn call_management_bits() -> Names<u8>
    ensures { map row_of result.rows.now ≡ tables.call_management_bits }
{
    Names {
        rows: &CALL_MANAGEMENT_BITS,
    }
}

/// What the bits are called of bmAttributes of DFU functional.
#[tactic(auto, unfolding(crate::specs::Bits::firmware_upgrade_bits))]
pub fn firmware_upgrade_bits() -> Names<u8>
    ensures { map row_of result.rows.now ≡ tables.firmware_upgrade_bits }
{
    Names {
        rows: &FIRMWARE_UPGRADE_BITS,
    }
}

// made by tables.py
/// What the bits are called of bmCapabilities of CDC abstract control (PSTN 1.2, 5.3.2).
static ABSTRACT_CONTROL_BITS: [Named<u8>; 4] = [
    (0, "comm features"),
    (1, "line coding and state"),
    (2, "send break"),
    (3, "network connection"),
];

/// What the bits are called of bmCapabilities of CDC call management (PSTN 1.2, 5.3.1).
static CALL_MANAGEMENT_BITS: [Named<u8>; 2] = [
    (0, "handles call management itself"),
    (1, "over the data interface"),
];

/// What the bits are called of bmAttributes of DFU functional (DFU 1.1, 4.1.3).
static FIRMWARE_UPGRADE_BITS: [Named<u8>; 4] = [
    (0, "download"),
    (1, "upload"),
    (2, "manifestation tolerant"),
    (3, "will detach"),
];
// end
