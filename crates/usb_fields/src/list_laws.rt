//! Laws of the list type, and of fields.
ghost use Rattle.std.specs.Prelude.{◌≡◌, ◌∷◌, ◌++◌, [], ℕ, List, false, map, true, IfOk};
ghost use Rattle.usb_fields.specs.Fields.{Field, field_text, fields_bytes, widths, cells};

use crate::sequence::Sequence;
use std::alloc::AllocError;

/// A copy is its original: `clone` gives the same elements in the same order, where the copy of an element
/// is that element.
///
/// # Errors
///
/// Out of memory.
pub fn a_copy_is_its_original<T: Clone>(items: &Sequence<T>) -> Result<Sequence<T>, AllocError>
    ensures { IfOk result (λ copy. ((x y : T) → T.is_clone x y → y ≡ x) → copy ≡ items.now) }
{
    items.clone()
}

/// What is written of a descriptor's fields needs no more than their widths and their bytes.
pub fn widths_are_enough<T>()
    ensures tailed { (d : T) (fields : List (Field T)) (tail : List ℕ) → cells (widths fields) true (fields_bytes fields d ++ tail) ≡ map (field_text d) fields ++ tail ∷ [] }
    ensures fixed { (d : T) (fields : List (Field T)) → cells (widths fields) false (fields_bytes fields d) ≡ map (field_text d) fields }
{}
