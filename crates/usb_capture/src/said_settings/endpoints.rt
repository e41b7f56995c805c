//! The endpoints of a setting, read where a device said them.
ghost use Rattle.std.specs.Prelude.{◌≡◌, ◌∷◌, [], drop, slice_index, MatchOption};
ghost use Rattle.std.specs.Iterator.{YieldsFirstBy, item_count};
ghost use Rattle.usb_capture.specs.SaidSettings.{endpoint_at, endpoint_of, endpoints_in, endpoints_left};

use usb_fields::{after, byte_at};

/// The endpoints in the descriptors after that of an interface, up to the next one.
#[derive(Clone, Copy)]
pub(crate) struct Endpoints<'a> {
    pub(crate) descriptors: &'a [u8],
}

impl<'a> Iterator for Endpoints<'a> {
    type Item = Endpoint;

    ghost next_gives = { YieldsFirstBy endpoint_of endpoints_left };

    ghost remaining = { item_count endpoints_left };

    fn next(&mut self) -> Option<Endpoint> {
        let descriptor = from_endpoint(self.descriptors)?;
        self.descriptors = after(descriptor, usize::from(byte_at(descriptor, 0)));
        Some(Endpoint {
            address: byte_at(descriptor, 2),
            attributes: byte_at(descriptor, 3),
        })
    }
}

/// What there is from the next endpoint descriptor on (USB 2.0, 9.6.6), where there is one before an interface descriptor.
#[tactic(auto, using(crate::proofs::SettingLemmas::endpoints_end, crate::proofs::SettingLemmas::endpoints_stop, crate::proofs::SettingLemmas::endpoints_more, crate::proofs::SettingLemmas::endpoints_pass))]
fn from_endpoint(descriptors: &[u8]) -> Option<&[u8]>
    ensures { MatchOption result (endpoints_in descriptors.now ≡ [])
        (λ b. endpoints_in descriptors.now ≡ endpoint_at b.now ∷ endpoints_in (drop (slice_index b.now 0) b.now)) }
{
    let mut rest = descriptors;
    while byte_at(rest, 0) > 1 {
        match byte_at(rest, 1) {
            4 => return None,
            5 => return Some(rest),
            _ => rest = after(rest, usize::from(byte_at(rest, 0))),
        }
    }
    None
}

/// An endpoint.
#[derive(Clone, Copy)]
pub(crate) struct Endpoint {
    /// bEndpointAddress.
    pub(crate) address: u8,
    /// bmAttributes.
    pub(crate) attributes: u8,
}
