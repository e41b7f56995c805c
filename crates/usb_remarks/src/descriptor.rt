//! A descriptor of an input, at its place.
use crate::speed::SetSpeed;
use usb_file_data::Found;
use usb_names::ClassCodes;
use usb_walk::{DescriptorOwner, Place, Role};

/// A descriptor of an input, with what is known of it at its place.
#[derive(Clone, Copy, Debug, PartialEq, Eq, Hash)]
pub struct Descriptor<'b> {
    /// Its place in the input.
    pub at: usize,
    /// Where it is among the parts, sets, settings and endpoints.
    pub place: Place,
    /// Its bytes, as many as its bLength says.
    pub bytes: &'b [u8],
    /// What it is.
    pub role: Role,
    /// How deep it is: it belongs to the last descriptor before it that is less deep.
    pub depth: u8,
    /// Whose it is. A descriptor outside of sets has no owner.
    pub owner: Option<DescriptorOwner>,
    /// The speed of its set. Of a device and a qualifier their own, as far as it is known or their descriptors prove it:
    /// bMaxPacketSize0 of a device of SuperSpeed is an exponent (USB 3.2, 9.6.1).
    pub speed: SetSpeed,
    /// The findings that stand at it, with their causes.
    pub findings: &'b [Found],
    /// How many associations of its set come before it.
    pub associations: usize,
    /// The number of the first association of its set that binds an interface of its number.
    pub association: Option<u64>,
    /// The first interface that it names and its set lacks: it is a call management or union functional descriptor.
    pub missing: Option<u8>,
    /// Whether a later interface of its set has the same number: its own if it is an interface, else that of the interface before it.
    /// False if the set is cut off.
    pub follows: bool,
    /// The codes of the interface that it follows.
    pub interface: Option<ClassCodes>,
    /// How many strings come before it, which is a string's number among those of a file.
    pub string: usize,
    /// The bytes of its set after it, where they are all there.
    pub rest: Option<&'b [u8]>,
    /// Whether it is an association that comes after an interface that it binds.
    pub is_late: bool,
    /// Of a device or a qualifier: whether its sets have associations. `None` if there are none before the sets are cut off.
    pub has_associations: Option<bool>,
    /// Of a qualifier: the speed that the sets before and after it both have, by their own descriptors.
    pub one_speed: Option<SetSpeed>,
}
