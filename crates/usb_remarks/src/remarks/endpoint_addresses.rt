//! How many endpoints a set of low speed has.
ghost use Rattle.std.specs.Prelude.{◌≡◌};
ghost use Rattle.std.specs.Option.{option_copied};
ghost use Rattle.usb_remarks.specs.EndpointAddresses.{another, endpoints_remark, is_another, third};
ghost use Rattle.usb_walk.specs.Trees.{descriptors};

use crate::remark::{Remark, remark_if};
use crate::speed::SetSpeed;
use usb_fields::byte_at;
use usb_walk::{first_descriptor, is_endpoint};

/// Whether it is an endpoint that isn't endpoint zero and has neither of these addresses.
fn is_another(one: u8, other: u8, d: &[u8]) -> bool
    ensures { result ≡ is_another one other d.now }
{
    let address = byte_at(d, 2);
    is_endpoint(d) && address % 16 != 0 && address != one && address != other
}

/// The address of the first such endpoint.
fn another(one: u8, other: u8, set: &[u8]) -> Option<u8>
    ensures { result ≡ another one other (descriptors set.now) }
{
    let mut rest = set;
    while let Some((d, behind)) = first_descriptor(rest) {
        if is_another(one, other, d) {
            return Some(byte_at(d, 2));
        }
        rest = behind;
    }
    None
}

/// After one address and another one, a third.
fn third(set: &[u8]) -> Option<u8>
    ensures { result ≡ third (descriptors set.now) }
{
    let one = another(0, 0, set)?;
    let other = another(one, one, set)?;
    another(one, other, set)
}

/// A remark on a set of low speed with more than two endpoints beside endpoint zero, by the bytes after its first descriptor,
/// where they are all there (USB 2.0, 5.3.1.2).
pub(crate) fn endpoints_remark(speed: SetSpeed, rest: Option<&[u8]>) -> Option<Remark>
    ensures { result ≡ endpoints_remark speed (option_copied rest.entry) }
{
    match (speed, rest) {
        (SetSpeed::Low, Some(rest)) => remark_if(third(rest).is_some(), Remark::ManyEndpoints),
        _ => None,
    }
}
