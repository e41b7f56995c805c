//! What is remarked of a descriptor of a class by its own bytes.
ghost use Rattle.std.specs.Prelude.{◌≡◌, option_and_then, slice_index};
ghost use Rattle.std.specs.Option.{option_copied};
ghost use Rattle.usb_remarks.specs.ClassRemarks.{below_least, class_release, class_release_remark, functional_remark, hid_length, hid_length_remark, hid_report_remark, is_hid, is_of_endpoint, late_remark, least_length, missing_remark, report_remark};

use crate::interface_numbers::{is_functional, is_of_class};
use crate::remark::{Remark, remark_if};
use usb_fields::{byte_at, word_at};
use usb_names::ClassCodes;
use usb_walk::DescriptorOwner;

/// Whether it is the HID descriptor of a HID interface.
fn is_hid(interface: Option<ClassCodes>, d: &[u8]) -> bool
    ensures { result ≡ is_hid interface d.now }
{
    is_of_class(0x03, 0x21, interface, d)
}

/// How many bytes a HID descriptor has (HID 1.11, 6.2.1).
pub fn hid_length(d: &[u8]) -> usize
    ensures { result ≡ hid_length d.now }
{
    6 + 3 * usize::from(byte_at(d, 5))
}

/// A remark on the length of a HID descriptor.
pub(crate) fn hid_length_remark(interface: Option<ClassCodes>, d: &[u8]) -> Option<Remark>
    ensures { result ≡ hid_length_remark interface d.now }
{
    let due = hid_length(d);
    let found = d.len();
    remark_if(
        is_hid(interface, d) && found != due,
        Remark::HidLength { due, found },
    )
}

/// A remark on the first descriptor that a HID descriptor names, by its type and its length.
fn report_remark(kind: u8, count: u16) -> Option<Remark>
    ensures { result ≡ report_remark kind count }
{
    if kind == 0x22 {
        remark_if(count == 0, Remark::EmptyReport)
    } else {
        Some(Remark::NoReport)
    }
}

/// A remark on a HID descriptor that names no report descriptor first, or one without bytes (HID 1.11, 6.2.1).
pub(crate) fn hid_report_remark(interface: Option<ClassCodes>, d: &[u8]) -> Option<Remark>
    ensures { result ≡ hid_report_remark interface d.now }
{
    if is_hid(interface, d) && d.len() >= 9 {
        report_remark(byte_at(d, 6), word_at(d, 7))
    } else {
        None
    }
}

fn is_of_endpoint(owner: Option<DescriptorOwner>) -> bool
    ensures { result ≡ is_of_endpoint owner }
{
    match owner {
        None => false,
        Some(owner) => owner.endpoint.is_some(),
    }
}

/// A remark on a HID descriptor or a functional descriptor after an endpoint (HID 1.11, 7.1; CDC 1.2, 5.2.3).
pub(crate) fn late_remark(
    interface: Option<ClassCodes>,
    owner: Option<DescriptorOwner>,
    d: &[u8],
) -> Option<Remark>
    ensures { result ≡ late_remark interface owner d.now }
{
    if !is_of_endpoint(owner) {
        None
    } else if is_hid(interface, d) {
        Some(Remark::LateHidDescriptor)
    } else {
        remark_if(is_functional(interface, d), Remark::LateFunctional)
    }
}

/// The least length of a functional descriptor (CDC 1.2, 5.2.3; PSTN 1.2, 5.3).
fn least_length(subtype: u8) -> Option<usize>
    ensures { result ≡ least_length subtype }
{
    match subtype {
        0x00 | 0x01 | 0x06 => Some(5),
        0x02 => Some(4),
        _ => None,
    }
}

/// A remark on a functional descriptor that is too short for its fields.
fn short_remark(d: &[u8]) -> Option<Remark>
    ensures { result ≡ option_and_then (below_least d.now) (least_length (slice_index d.now 2)) }
{
    let least = least_length(byte_at(d, 2))?;
    let found = d.len();
    remark_if(found < least, Remark::ShortFunctional { least, found })
}

/// A remark on an interface that a functional descriptor names and its set, all of it there, lacks (PSTN 1.2, 5.3.1; CDC 1.2,
/// 5.2.3.2).
fn missing_remark(missing: Option<u8>, rest: Option<&[u8]>) -> Option<Remark>
    ensures { result ≡ missing_remark missing (option_copied rest.entry) }
{
    match (missing, rest) {
        (Some(interface), Some(_)) => Some(Remark::MissingInterface { interface }),
        _ => None,
    }
}

/// A remark on a functional descriptor: its length, or the interfaces that it names.
pub(crate) fn functional_remark(
    interface: Option<ClassCodes>,
    d: &[u8],
    missing: Option<u8>,
    rest: Option<&[u8]>,
) -> Option<Remark>
    ensures { result ≡ functional_remark interface d.now missing (option_copied rest.entry) }
{
    if is_functional(interface, d) && d.len() >= 3 {
        short_remark(d).or(missing_remark(missing, rest))
    } else {
        None
    }
}

/// bcdHID, or bcdCDC of a header functional descriptor.
fn class_release(interface: Option<ClassCodes>, d: &[u8]) -> Option<u16>
    ensures { result ≡ class_release interface d.now }
{
    if is_hid(interface, d) && d.len() >= 4 {
        Some(word_at(d, 2))
    } else if is_functional(interface, d) && d.len() >= 5 && byte_at(d, 2) == 0 {
        Some(word_at(d, 3))
    } else {
        None
    }
}

/// A remark on the release of a class that is none: its bytes may be swapped.
pub(crate) fn class_release_remark(interface: Option<ClassCodes>, d: &[u8]) -> Option<Remark>
    ensures { result ≡ class_release_remark interface d.now }
{
    let release = class_release(interface, d)?;
    remark_if(release < 0x0100 || release >= 0x1000, Remark::ClassRelease)
}
