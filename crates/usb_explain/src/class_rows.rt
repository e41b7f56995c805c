//! The rows of class descriptors.
ghost use Rattle.std.specs.Prelude.{◌≡◌, option_map};
ghost use Rattle.usb_names.specs.Shown.{row_of};
ghost use Rattle.usb_explain.specs.Headers.{row_in, row_of_bytes};

use usb_fields::{after, byte_at};
use usb_names::{ClassCodes, ClassRow, class_descriptor};
use usb_walk::Role;

/// The row of the table that a descriptor of these bytes has, after an interface of these codes.
#[inline(never)]
fn row_of_bytes(interface: Option<ClassCodes>, b: &[u8]) -> Option<ClassRow>
    ensures { option_map (λ found. row_of found.row.now) result ≡ row_of_bytes interface b.now }
{
    class_descriptor(interface, byte_at(b, 1), after(b, 2))
}

/// That of a descriptor of this role: only one that has no type of its own has one.
#[inline(always)]
pub(crate) fn row_in(role: Role, interface: Option<ClassCodes>, b: &[u8]) -> Option<ClassRow>
    ensures { option_map (λ found. row_of found.row.now) result ≡ row_in role interface b.now }
{
    match role {
        Role::Raw => row_of_bytes(interface, b),
        _ => None,
    }
}
