//! What bytes that are no input look like.
ghost use Rattle.std.specs.Prelude.{◌≡◌};
ghost use Rattle.std.specs.List.{list_all};
ghost use Rattle.usb_file_data.specs.Likeness.{after_sets, are_languages, begins_inside, begins_usage, file_likeness, frame_likeness, goes_on_after_dump, is_bos, is_empty_string, is_fragment, is_inner_type, is_of_language, is_of_text, is_packet, is_report, is_standard_request, is_string, is_text, is_usbmon_frame, likeness_of, names_languages};

use crate::fault::{FileFault, FileWhy, InputFault};
use usb_fields::{after, byte_at, descriptor_length, descriptor_type, word_at};

/// The type of a BOS descriptor (USB 3.2, table 9-6).
const BOS: u8 = 15;

/// The first byte of a Usage Page item with one byte of data (HID 1.11, 6.2.2.7).
const USAGE_PAGE: u8 = 0x05;

/// The first byte of one with two bytes of data.
const WIDE_USAGE_PAGE: u8 = 0x06;

/// The first byte of a Usage item with one byte of data (HID 1.11, 6.2.2.8).
const USAGE: u8 = 0x09;

/// The first byte of one with two bytes of data.
const WIDE_USAGE: u8 = 0x0a;

/// The length of the header of a frame of usbmon (Linux, Documentation/usb/usbmon.rst).
const USBMON_HEADER: usize = 64;

/// The PID of DATA0, with its check bits (USB 2.0, table 8-1).
const DATA0: u8 = 0xc3;

/// The PID of DATA1.
const DATA1: u8 = 0x4b;

/// What bytes that are no input look like.
#[derive(Clone, Copy, Debug, Drop, PartialEq, Eq, Hash)]
pub enum Likeness {
    /// There are no bytes.
    Nothing,
    /// Text: two bytes or more, each printable ASCII, a tab, a line feed or a carriage return.
    Text,
    /// A dump of Linux, and this many bytes after it.
    DumpAndMore(usize),
    /// A frame of usbmon as Wireshark copies it: a header of 64 bytes, with `S`, `C` or `E` at 8, 0 to 3 at 9, and at 36 how many
    /// bytes follow it, below 65536.
    UsbmonFrame(usize),
    /// A packet of the bus: DATA0 or DATA1, a descriptor of this many bytes, and two bytes of CRC (USB 2.0, 8.4.4).
    Packet(u8),
    /// A BOS descriptor alone (USB 3.2, 9.6.2).
    Bos,
    /// A string descriptor alone that is no language list (USB 2.0, 9.6.7).
    StringDescriptor,
    /// A report descriptor, by its first two items: a Usage Page and a Usage (HID 1.11, 6.2.2).
    Report,
    /// First a whole descriptor that stands behind others: interface, endpoint, qualifier, association, HID, of a class, hub; or the
    /// setup packet of a standard request (USB 2.0, 9.3).
    Fragment,
}

/// What bytes with this fault look like: a frame of usbmon or a packet where they are read as a set, and else the first of the
/// likenesses that they have.
///
/// ```rust
/// let bos = [5, 15, 5, 0, 0];
/// if let Err(fault) = read_input(alloc, &bos) {
///     assert_eq!(rt; likeness_of(fault, &bos), Some(Likeness::Bos));
/// }
/// ```
pub fn likeness_of(fault: InputFault, b: &[u8]) -> Option<Likeness>
    ensures { result ≡ likeness_of fault b.now }
{
    match fault {
        InputFault::File(fault) => file_likeness(fault, b),
        _ => frame_likeness(b),
    }
}

/// What bytes that are read as a file look like.
fn file_likeness(fault: FileFault, b: &[u8]) -> Option<Likeness>
    ensures { result ≡ file_likeness fault b.now }
{
    if b.is_empty() {
        Some(Likeness::Nothing)
    } else if is_text(b) {
        Some(Likeness::Text)
    } else if goes_on_after_dump(fault, b) {
        Some(Likeness::DumpAndMore(after(b, fault.at).len()))
    } else if is_usbmon_frame(b) {
        Some(Likeness::UsbmonFrame(after(b, USBMON_HEADER).len()))
    } else if is_packet(b) {
        Some(Likeness::Packet(byte_at(b, 1)))
    } else if is_bos(b) {
        Some(Likeness::Bos)
    } else if is_string(b) {
        Some(Likeness::StringDescriptor)
    } else if is_report(b) {
        Some(Likeness::Report)
    } else if is_fragment(b) {
        Some(Likeness::Fragment)
    } else {
        None
    }
}

/// A frame of usbmon or a packet of the bus, where the bytes look like one.
fn frame_likeness(b: &[u8]) -> Option<Likeness>
    ensures { result ≡ frame_likeness b.now }
{
    if is_usbmon_frame(b) {
        Some(Likeness::UsbmonFrame(after(b, USBMON_HEADER).len()))
    } else if is_packet(b) {
        Some(Likeness::Packet(byte_at(b, 1)))
    } else {
        None
    }
}

/// Whether the bytes are a packet of the bus with one descriptor (USB 2.0, 8.4.4).
fn is_packet(b: &[u8]) -> bool
    ensures { result ≡ is_packet b.now }
{
    matches!(byte_at(b, 0), DATA0 | DATA1)
        && byte_at(b, 1) >= 2
        && b.len() == usize::from(byte_at(b, 1)) + 3
}

/// Whether the bytes are a frame of usbmon: its header has the event at 8, the type of transfer at 9 and the count of the bytes
/// after it at 36.
fn is_usbmon_frame(b: &[u8]) -> bool
    ensures { result ≡ is_usbmon_frame b.now }
{
    b.len() >= USBMON_HEADER
        && matches!(byte_at(b, 8), b'S' | b'C' | b'E')
        && byte_at(b, 9) <= 3
        && usize::from(word_at(b, 36)) == after(b, USBMON_HEADER).len()
        && word_at(b, 38) == 0
}

/// Whether the byte is one of text: printable ASCII, a tab, a line feed or a carriage return.
fn is_of_text(byte: u8) -> bool
    ensures { result ≡ is_of_text byte }
{
    matches!(byte, 0x20..=0x7e | b'\t' | b'\n' | b'\r')
}

fn is_text(b: &[u8]) -> bool
    ensures { result ≡ is_text b.now }
{
    b.len() >= 2 && are_of_text(b)
}

fn are_of_text(b: &[u8]) -> bool
    ensures { result ≡ list_all is_of_text b.now }
{
    b.iter().all(|byte| is_of_text(*byte))
}

/// Whether the bytes begin with a string descriptor without units (USB 2.0, 9.6.7).
fn is_empty_string(b: &[u8]) -> bool
    ensures { result ≡ is_empty_string b.now }
{
    byte_at(b, 0) == descriptor_length::HEAD && byte_at(b, 1) == descriptor_type::STRING
}

/// Whether the fault is that something else follows the sets of a dump, where the language list is expected or a qualifier begins.
fn goes_on_after_dump(fault: FileFault, b: &[u8]) -> bool
    ensures { result ≡ goes_on_after_dump fault.why fault.at b.now }
{
    match fault.why {
        FileWhy::Text => {
            let due = after_sets(byte_at(b, 17), after(b, 18));
            let rest = after(b, fault.at);
            rest.len() == due.len() && !is_empty_string(rest)
        }
        FileWhy::Qualifier => true,
        _ => false,
    }
}

/// The bytes after this many sets, each as long as its wTotalLength says (USB 2.0, 9.6.3).
#[tactic(auto, unfolding(crate::specs::Likeness::after_sets))]
pub fn after_sets(count: u8, b: &[u8]) -> &[u8]
    ensures { result.now ≡ after_sets count b.now }
{
    let mut rest = b;
    for _ in 0..count {
        rest = after(rest, usize::from(word_at(rest, 2)));
    }
    rest
}

/// Whether the bytes begin with a BOS descriptor (USB 3.2, 9.6.2).
fn is_bos(b: &[u8]) -> bool
    ensures { result ≡ is_bos b.now }
{
    byte_at(b, 1) == BOS && byte_at(b, 0) == 5 && b.len() >= 5
}

/// Whether a string descriptor may be a language list: it names one language at least, and bits 9 to 0 of each number are below
/// 256, as those of primary languages in USB's list, and bits 15 to 10 not 0, as those of sublanguages (USB 2.0, 9.6.7).
pub fn names_languages(b: &[u8]) -> bool
    ensures { result ≡ names_languages b.now }
{
    b.len() >= 4 && are_languages(after(b, 2))
}

fn are_languages(units: &[u8]) -> bool
    ensures { result ≡ are_languages units.now }
{
    match units {
        [_, high, rest @ ..] => is_of_language(*high) && are_languages(rest),
        [_] => false,
        [] => true,
    }
}

/// Whether the upper byte of a unit is that of a language's number.
fn is_of_language(high: u8) -> bool
    ensures { result ≡ is_of_language high }
{
    high % 4 == 0 && high >= 4
}

/// Whether the bytes are as many as the bLength of a string descriptor says, which is no language list (USB 2.0, 9.6.7).
fn is_string(b: &[u8]) -> bool
    ensures { result ≡ is_string b.now }
{
    byte_at(b, 1) == descriptor_type::STRING
        && usize::from(byte_at(b, 0)) == b.len()
        && b.len() % 2 == 0
        && !names_languages(b)
}

/// Whether the bytes begin with a Usage Page item and then a Usage item (HID 1.11, 6.2.2).
fn is_report(b: &[u8]) -> bool
    ensures { result ≡ is_report b.now }
{
    match byte_at(b, 0) {
        USAGE_PAGE => begins_usage(after(b, 2)),
        WIDE_USAGE_PAGE => begins_usage(after(b, 3)),
        _ => false,
    }
}

/// Whether the bytes begin with a whole Usage item.
fn begins_usage(b: &[u8]) -> bool
    ensures { result ≡ begins_usage b.now }
{
    match byte_at(b, 0) {
        USAGE => b.len() >= 2,
        WIDE_USAGE => b.len() >= 3,
        _ => false,
    }
}

/// Whether a descriptor of this type stands in an input behind others (USB 2.0, table 9-5; HID 1.11, 7.1; USB 2.0, 11.23.2).
fn is_inner_type(kind: u8) -> bool
    ensures { result ≡ is_inner_type kind }
{
    matches!(kind, 4 | 5 | 6 | 11 | 0x21 | 0x24 | 0x25 | 0x29)
}

fn begins_inside(b: &[u8]) -> bool
    ensures { result ≡ begins_inside b.now }
{
    let length = byte_at(b, 0);
    is_inner_type(byte_at(b, 1)) && length >= 3 && usize::from(length) <= b.len()
}

/// Whether the bytes are the setup packet of a standard request (USB 2.0, table 9-4).
fn is_standard_request(b: &[u8]) -> bool
    ensures { result ≡ is_standard_request b.now }
{
    b.len() == 8 && byte_at(b, 0) % 128 <= 2 && byte_at(b, 1) <= 12
}

/// Whether the bytes begin like a fragment of an input.
fn is_fragment(b: &[u8]) -> bool
    ensures { result ≡ is_fragment b.now }
{
    begins_inside(b) || is_standard_request(b)
}
