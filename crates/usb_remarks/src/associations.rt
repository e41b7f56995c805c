//! Whether the sets of a device or a qualifier have associations.
ghost use Rattle.std.specs.Prelude.{◌≡◌};
ghost use Rattle.usb_remarks.specs.Associations.{are_whole, associations_in, has_association, has_associations, is_whole};
ghost use Rattle.usb_walk.specs.Trees.{descriptors};

use crate::set_start::sets_ahead;
use usb_fields::{after, byte_at, word_at};
use usb_walk::{Role, first_descriptor, is_association};

/// Whether one of the descriptors of these bytes is an association.
fn has_association(set: &[u8]) -> bool
    ensures { result ≡ has_association (descriptors set.now) }
{
    let mut rest = set;
    while let Some((d, behind)) = first_descriptor(rest) {
        if is_association(d) {
            return true;
        }
        rest = behind;
    }
    false
}

/// Whether the bytes begin with a set that is all there.
fn is_whole(b: &[u8]) -> bool
    ensures { result ≡ is_whole b.now }
{
    let total = usize::from(word_at(b, 2));
    total >= 9 && total <= b.len()
}

/// Whether they begin with this many such sets, one after another.
#[tactic(auto, using(crate::proofs::AssociationSteps::whole_none, crate::proofs::AssociationSteps::whole_step))]
fn are_whole(sets: u8, b: &[u8]) -> bool
    ensures { result ≡ are_whole sets b.now }
{
    if sets == 0 {
        true
    } else if is_whole(b) {
        are_whole(sets - 1, after(b, usize::from(word_at(b, 2))))
    } else {
        false
    }
}

/// Whether the first `sets` sets have an association, as far as they are there; or have none, where they all are.
fn associations_in(sets: u8, behind: &[u8]) -> Option<bool>
    ensures { result ≡ associations_in sets behind.now }
{
    if has_association(sets_ahead(sets, behind)) {
        Some(true)
    } else if sets > 0 && are_whole(sets, behind) {
        Some(false)
    } else {
        None
    }
}

/// Whether the sets of a descriptor of this role, with these bytes after it, have associations (USB 2.0, 9.6.1 and 9.6.2).
#[tactic(auto, unfolding(crate::specs::Associations::has_associations))]
pub(crate) fn has_associations(role: Role, d: &[u8], behind: &[u8]) -> Option<bool>
    ensures { result ≡ has_associations role d.now behind.now }
{
    match role {
        Role::Device => associations_in(byte_at(d, 17), behind),
        Role::Qualifier => associations_in(byte_at(d, 8), behind),
        _ => None,
    }
}
