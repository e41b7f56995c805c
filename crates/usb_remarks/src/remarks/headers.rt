//! A remark on wTotalLength of a class header.
ghost use Rattle.std.specs.Prelude.{◌≡◌, ◌≤◌, length};
ghost use Rattle.std.specs.Option.{option_copied};
ghost use Rattle.usb_walk.specs.Trees.{descriptors};
ghost use Rattle.usb_remarks.specs.HeaderRemarks.{audio_place, class_length, header_place, header_remark, is_class_descriptor, is_header, is_of, total_length_place, total_remark};

use crate::remark::Remark;
use usb_fields::{after, byte_at, prefix, word_at};
use usb_names::ClassCodes;
use usb_walk::descriptor_length;

fn is_of(class: u8, subclass: u8, codes: ClassCodes) -> bool
    ensures { result ≡ is_of class subclass codes }
{
    codes.class == class && codes.subclass == subclass
}

/// The place of wTotalLength in a header of audio control, by the protocol: of Audio 2.0 (4.7.2) and of Audio 1.0 (4.3.2).
fn audio_place(protocol: u8) -> Option<u8>
    ensures { result ≡ audio_place protocol }
{
    match protocol {
        0x20 => Some(6),
        0x30 => None,
        _ => Some(5),
    }
}

/// The same by the interface: audio control and video control (UVC 1.1, 3.7.2).
fn total_length_place(codes: ClassCodes) -> Option<u8>
    ensures { result ≡ total_length_place codes }
{
    if is_of(0x01, 0x01, codes) {
        audio_place(codes.protocol)
    } else if is_of(0x0e, 0x01, codes) {
        Some(5)
    } else {
        None
    }
}

/// Whether the type is CS_INTERFACE.
fn is_class_descriptor(d: &[u8]) -> bool
    ensures { result ≡ is_class_descriptor d.now }
{
    byte_at(d, 1) == 0x24
}

/// Whether it is one of subtype HEADER.
fn is_header(d: &[u8]) -> bool
    ensures { result ≡ is_header d.now }
{
    is_class_descriptor(d) && byte_at(d, 2) == 1
}

/// How many bytes the class descriptors have with which these bytes begin.
fn class_length(set: &[u8]) -> usize
    ensures length { result ≡ class_length (descriptors set.now) }
    ensures most { result ≤ length set.now }
{
    let mut rest = set;
    let mut count = 0;
    while let Some(length) = descriptor_length(rest) {
        if !is_class_descriptor(prefix(rest, length)) {
            return count;
        }
        count += length;
        rest = after(rest, length);
    }
    count
}

/// A remark on a header that has wTotalLength at this place.
fn total_remark(b: &[u8], rest: &[u8], place: u8) -> Option<Remark>
    requires { place ≤ 6 }
    ensures { result ≡ total_remark b.now rest.now place }
{
    let declared = word_at(b, place);
    let found = b.len() + class_length(rest);
    if usize::from(place) + 1 < b.len() && usize::from(declared) != found {
        Some(Remark::TotalLength { declared, found })
    } else {
        None
    }
}

fn header_place(codes: ClassCodes, b: &[u8]) -> Option<u8>
    ensures { result ≡ header_place codes b.now }
{
    if is_header(b) {
        total_length_place(codes)
    } else {
        None
    }
}

/// A remark on a descriptor that follows an interface of these codes, with the bytes of its set after it where they are all
/// there.
#[tactic(auto, unfolding(crate::specs::HeaderRemarks::header_remark))]
pub(crate) fn header_remark(
    interface: Option<ClassCodes>,
    b: &[u8],
    rest: Option<&[u8]>,
) -> Option<Remark>
    ensures { result ≡ header_remark interface b.now (option_copied rest.entry) }
{
    let codes = interface?;
    let rest = rest?;
    let place = header_place(codes, b)?;
    total_remark(b, rest, place)
}
