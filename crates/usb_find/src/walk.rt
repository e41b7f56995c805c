//! From one descriptor of a set to the next.
ghost use Rattle.std.specs.Prelude.{◌≡◌, ◌<◌, ◌≤◌, ◌+◌, ◌-◌, ◌*◌, ◌^◌, ◌||◌, ◌==◌, IfSome, length, slice_index};
ghost use Rattle.usb_set.specs.Faults.{is_set_type, least_length};
ghost use Rattle.usb_find.specs.inside.Walks.{may_follow, next_spot, reaches};

use crate::looks::Looks;
use std::sync::ledger::Ledger;
use usb_fields::{byte_at, descriptor_length, descriptor_type};

/// A place where a descriptor of a set may begin.
#[derive(Clone, Copy, Drop)]
pub struct Spot {
    /// of its first byte
    pub place: usize,
    /// whether an interface came before it
    pub in_setting: bool,
}

/// The spot after the descriptor at a spot, unless no set has this descriptor there.
pub fn next_spot<L: Ledger>(bytes: &[u8], spot: Spot, looks: &mut Looks<L>) -> Option<Spot>
    requires { spot.place < 2 ^ 63 + 2 ^ 20 }
    ensures value { result ≡ next_spot bytes.now spot }
    ensures bound { IfSome result (λ s. s.place ≤ spot.place + 255) }
    ensures looks { looks.new ≡ looks.old + 1 }
{
    looks.count();
    let len = byte_at(bytes, spot.place);
    let kind = byte_at(bytes, spot.place + 1);
    if may_follow(spot.in_setting, len, kind) {
        Some(after_descriptor(spot, len, kind))
    } else {
        None
    }
}

/// The spot after a descriptor of this length and type.
fn after_descriptor(spot: Spot, len: u8, kind: u8) -> Spot
    requires { spot.place < 2 ^ 63 + 2 ^ 20 }
    ensures { result ≡ record { place = spot.place + len; in_setting = spot.in_setting || (kind == 4) } }
{
    Spot {
        place: spot.place + usize::from(len),
        in_setting: spot.in_setting || kind == descriptor_type::INTERFACE,
    }
}

/// Whether a set may have such a descriptor.
fn may_follow(in_setting: bool, len: u8, kind: u8) -> bool
    ensures { result ≡ may_follow in_setting len kind }
{
    least_length(kind) <= len
        && !is_set_type(kind)
        && (in_setting || kind != descriptor_type::ENDPOINT)
}

pub fn is_set_type(kind: u8) -> bool
    ensures { result ≡ is_set_type kind }
{
    matches!(
        kind,
        descriptor_type::CONFIGURATION | descriptor_type::OTHER_SPEED_CONFIGURATION
    )
}

/// The least bLength of a descriptor of this type.
fn least_length(kind: u8) -> u8
    ensures { result ≡ least_length kind }
{
    match kind {
        descriptor_type::INTERFACE => descriptor_length::INTERFACE,
        descriptor_type::ENDPOINT => descriptor_length::ENDPOINT,
        descriptor_type::INTERFACE_ASSOCIATION => descriptor_length::INTERFACE_ASSOCIATION,
        descriptor_type::CONFIGURATION | descriptor_type::OTHER_SPEED_CONFIGURATION => {
            descriptor_length::CONFIGURATION
        }
        _ => descriptor_length::HEAD,
    }
}

/// Whether one descriptor after another leads from a spot to a place.
pub fn reaches<L: Ledger>(bytes: &[u8], from: Spot, end: usize, looks: &mut Looks<L>) -> bool
    requires { end ≤ length bytes.now }
    ensures value { result ≡ reaches bytes.now from end }
    ensures looks { 2 * (looks.new - looks.old) ≤ end - from.place + 1 }
    ensures more { looks.old ≤ looks.new }
{
    let mut spot = from;
    while spot.place < end {
        match next_spot(bytes, spot, looks) {
            Some(next) => spot = next,
            None => return false,
        }
    }
    spot.place == end
}
