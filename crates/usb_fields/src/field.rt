//! What descriptors of fixed length have in common, and how wide their fields are (USB 2.0, 9.5).
ghost use Rattle.std.specs.Prelude.{◌≡◌, ◌<◌, length, slice_index, IfNone};
ghost use Rattle.usb_fields.specs.Device.{field_fault};

use crate::fault::FieldFault;

/// The width of a field of a descriptor (USB 2.0, 9.6).
#[derive(Clone, Copy, Debug, PartialEq, Eq, Hash)]
pub enum Width {
    /// One byte.
    One,
    /// Two bytes, the low one first (8.1).
    Two,
}

/// Why the bytes are no descriptor of this length and type, if they are none.
pub(crate) fn fault_in(b: &[u8], size: u8, kind: u8) -> Option<FieldFault>
    requires { 1 < size }
    ensures fault { result ≡ field_fault size kind b.now }
    ensures long { IfNone result (length b.now ≡ size) }
    ensures size_byte { IfNone result (slice_index b.now 0 ≡ size) }
    ensures kind_byte { IfNone result (slice_index b.now 1 ≡ kind) }
{
    if b.len() != usize::from(size) || b[0] != size {
        return Some(FieldFault::Length);
    }
    if b[1] != kind {
        return Some(FieldFault::Kind);
    }
    None
}
