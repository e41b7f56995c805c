//! What a set says as a whole, gathered descriptor by descriptor.
ghost use Rattle.std.specs.Prelude.{◌≡◌, ◌<◌, ◌^◌, length};
ghost use Rattle.usb_walk.specs.Trees.{descriptors};
ghost use Rattle.usb_remarks.specs.SetSpeeds.{survey_of};

use crate::bindings::Bindings;
use crate::interface_numbers::InterfaceNumbers;
use crate::speed_evidence::Evidence;
use usb_walk::first_descriptor;

/// Gathers what the bytes of a set say, as far as they go: which association binds each interface, and the numbers of the
/// interfaces. Answers what they say of the speed.
pub(crate) fn survey(
    set: &[u8],
    bindings: &mut Bindings,
    interfaces: &mut InterfaceNumbers,
) -> Evidence
    requires { length set.now < 2 ^ 16 }
    ensures { record { spoken = result; bindings = bindings.new; interfaces = interfaces.new } ≡ survey_of (descriptors set.now) }
{
    bindings.clear();
    interfaces.clear();
    let mut evidence = Evidence::none();
    let mut associations = 0;
    let mut rest = set;
    while let Some((d, behind)) = first_descriptor(rest) {
        evidence.add(d);
        associations = bindings.add(associations, d);
        interfaces.add(d);
        rest = behind;
    }
    evidence
}
