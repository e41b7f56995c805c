//! Whole sets and device descriptors among any bytes.
ghost use Rattle.std.specs.Prelude.{◌≡◌, ℕ, ◌<◌, ◌≤◌, ◌+◌, ◌-◌, ◌*◌, ◌^◌, None, IfSome, IfNone, drop, false, length};
ghost use Rattle.usb_find.specs.Found.{Finds, IsBare, IsFirst, begins_device, is_first_packet, is_version};
ghost use Rattle.usb_find.specs.inside.Bounds.{IsKept, IsTotal, paid};
ghost use Rattle.usb_find.specs.inside.Seeking.{first_standing, has_header, set_length, standing};

use crate::kept::{Kept, leads};
use crate::looks::Looks;
use crate::walk::is_set_type;
use std::alloc::Global;
use std::marker::Brand;
use std::sync::ledger::{Blank, Ledger};
use usb_fields::{after, byte_at, descriptor_length, descriptor_type, known_bytes, word_at};

/// What stands among bytes: the struct `nzg_found` of C.
#[repr(C)]
#[derive(Clone, Copy, Drop)]
pub struct Found {
    /// of its first byte
    pub place: usize,
    /// how many bytes it has
    pub length: usize,
    /// where the search goes on
    pub next: usize,
    /// 1 a set, 4 a device descriptor
    pub kind: u8,
}

/// The first whole set or device descriptor from a place on. False where none stands there: nothing changes then.
pub fn find(alloc: Global, bytes: &[u8], start: usize, found: &mut Found) -> bool
    ensures { Finds bytes.now start found.old found.new result }
{
    match find_first::<Brand>(alloc, Blank::new(1), bytes, start) {
        Some(first) => {
            *found = first;
            true
        }
        None => false,
    }
}

fn find_first<L: Ledger>(alloc: Global, blank: Blank, bytes: &[u8], start: usize) -> Option<Found>
    requires name { blank.name ≡ L.name }
    requires parts { blank.parts ≡ L.parts }
    requires some { 0 < blank.parts }
    ensures some { IfSome result (λ f. IsFirst bytes.now start f) }
    ensures none { IfNone result ((p : ℕ) → start ≤ p → IsBare bytes.now p) }
{
    let mut looks = Looks::<L>::new(blank);
    let mut kept = Kept::new(alloc, start);
    next_found(alloc, &mut kept, bytes, start, &mut looks)
}

/// What stands first from a place on.
pub fn next_found<L: Ledger>(
    alloc: Global,
    kept: &mut Kept,
    bytes: &[u8],
    start: usize,
    looks: &mut Looks<L>,
) -> Option<Found>
    requires kept { IsKept bytes.now kept.old }
    requires base { kept.old.base ≤ start + 9 }
    ensures some { IfSome result (λ f. IsFirst bytes.now start f) }
    ensures none { IfNone result ((p : ℕ) → start ≤ p → IsBare bytes.now p) }
    ensures kept { IsKept bytes.now kept.new }
    ensures on { IfSome result (λ f. (start ≤ f.place) × (f.place < f.next) × (f.next ≤ length bytes.now) × (kept.new.base ≤ f.next + 9)) }
    ensures last { IfNone result (kept.new.base ≤ start + (length bytes.now - start) + 9) }
    ensures refused { kept.new.refused ≡ false → kept.old.refused ≡ false }
    ensures looks { kept.new.refused ≡ false → IfSome result (λ f. looks.new + paid kept.old ≤ looks.old + 571 * (f.next - start) + paid kept.new) }
    ensures all { kept.new.refused ≡ false → IfNone result (looks.new + paid kept.old ≤ looks.old + 571 * (length bytes.now - start) + paid kept.new) }
{
    known_bytes(bytes);
    first_standing(alloc, kept, bytes, start, looks)
}

fn first_standing<L: Ledger>(
    alloc: Global,
    kept: &mut Kept,
    bytes: &[u8],
    start: usize,
    looks: &mut Looks<L>,
) -> Option<Found>
    requires kept { IsKept bytes.now kept.old }
    requires base { kept.old.base ≤ start + 9 }
    ensures value { result ≡ first_standing start (drop start bytes.now) }
    ensures kept { IsKept bytes.now kept.new }
    ensures on { IfSome result (λ f. (start ≤ f.place) × (f.place < f.next) × (f.next ≤ length bytes.now) × (kept.new.base ≤ f.next + 9)) }
    ensures last { IfNone result (kept.new.base ≤ start + (length bytes.now - start) + 9) }
    ensures refused { kept.new.refused ≡ false → kept.old.refused ≡ false }
    ensures looks { kept.new.refused ≡ false → IfSome result (λ f. looks.new + paid kept.old ≤ looks.old + 571 * (f.next - start) + paid kept.new) }
    ensures all { kept.new.refused ≡ false → IfNone result (looks.new + paid kept.old ≤ looks.old + 571 * (length bytes.now - start) + paid kept.new) }
{
    let mut place = start;
    while place < bytes.len() {
        match standing(alloc, kept, bytes, place, looks) {
            Some(found) => return Some(found),
            None => place += 1,
        }
    }
    None
}

/// What stands at a place.
fn standing<L: Ledger>(
    alloc: Global,
    kept: &mut Kept,
    bytes: &[u8],
    place: usize,
    looks: &mut Looks<L>,
) -> Option<Found>
    requires place { place < length bytes.now }
    requires kept { IsKept bytes.now kept.old }
    requires base { kept.old.base ≤ place + 9 }
    ensures value { result ≡ standing place (drop place bytes.now) }
    ensures on { IfSome result (λ f. (f.place ≡ place) × (place < f.next) × (f.next ≤ length bytes.now)) }
    ensures kept { IsKept bytes.now kept.new }
    ensures base { kept.new.base ≤ place + 9 }
    ensures refused { kept.new.refused ≡ false → kept.old.refused ≡ false }
    ensures looks { kept.new.refused ≡ false → looks.new + paid kept.old ≤ looks.old + 571 + paid kept.new }
{
    looks.count();
    if is_device(bytes, place) {
        return Some(Found {
            place,
            length: 18,
            next: place + 1,
            kind: 4,
        });
    }
    let Some(length) = set_length(alloc, kept, bytes, place, looks) else {
        return None;
    };
    Some(Found {
        place,
        length,
        next: place + length,
        kind: 1,
    })
}

/// Whether a device descriptor begins at a place.
fn is_device(bytes: &[u8], place: usize) -> bool
    ensures { result ≡ begins_device (drop place bytes.now) }
{
    begins_device(after(bytes, place))
}

/// Whether a device descriptor begins the bytes (USB 2.0, 9.6.1).
fn begins_device(bytes: &[u8]) -> bool
    ensures { result ≡ begins_device bytes.now }
{
    byte_at(bytes, 0) == descriptor_length::DEVICE
        && byte_at(bytes, 1) == descriptor_type::DEVICE
        && is_version(word_at(bytes, 2))
        && is_first_packet(byte_at(bytes, 7))
        && byte_at(bytes, 17) > 0
}

/// Whether bcdUSB is that of a version of the bus, as devices have it.
fn is_version(bcd: u16) -> bool
    ensures { result ≡ is_version bcd }
{
    matches!(
        bcd,
        0x0100 | 0x0101 | 0x0110 | 0x0200 | 0x0201 | 0x0210 | 0x0250 | 0x0300 | 0x0310 | 0x0320
    )
}

/// Whether bMaxPacketSize0 is a packet size of endpoint zero, or 9, the exponent that USB 3 has there.
fn is_first_packet(size: u8) -> bool
    ensures { result ≡ is_first_packet size }
{
    matches!(size, 8 | 9 | 16 | 32 | 64)
}

/// How many bytes the whole set has that begins at a place, where its first descriptor has 9 (USB 2.0, 9.6.3).
fn set_length<L: Ledger>(
    alloc: Global,
    kept: &mut Kept,
    bytes: &[u8],
    place: usize,
    looks: &mut Looks<L>,
) -> Option<usize>
    requires place { place < length bytes.now }
    requires kept { IsKept bytes.now kept.old }
    requires base { kept.old.base ≤ place + 9 }
    ensures value { result ≡ set_length (drop place bytes.now) }
    ensures within { IfSome result (λ n. (9 ≤ n) × (place + n ≤ length bytes.now)) }
    ensures kept { IsKept bytes.now kept.new }
    ensures base { kept.new.base ≤ place + 9 }
    ensures refused { kept.new.refused ≡ false → kept.old.refused ≡ false }
    ensures looks { kept.new.refused ≡ false → looks.new + paid kept.old ≤ looks.old + 570 + paid kept.new }
    ensures more { looks.old ≤ looks.new }
{
    let Some(total) = total_at(bytes, place) else {
        return None;
    };
    if leads(alloc, kept, bytes, place + 9, place + total, looks) {
        Some(total)
    } else {
        None
    }
}

/// wTotalLength, where the first descriptor of a set begins at a place and as many bytes are there.
fn total_at(bytes: &[u8], place: usize) -> Option<usize>
    requires { place < length bytes.now }
    ensures some { IfSome result (λ n. IsTotal bytes.now place n) }
    ensures none { IfNone result (set_length (drop place bytes.now) ≡ None) }
{
    known_bytes(bytes);
    let rest = after(bytes, place);
    if has_header(rest) {
        Some(usize::from(word_at(rest, 2)))
    } else {
        None
    }
}

/// Whether the bytes begin as a whole set does, as far as its first descriptor says.
#[tactic(auto, unfolding(crate::specs::inside::Seeking::has_header))]
fn has_header(bytes: &[u8]) -> bool
    ensures { result ≡ has_header bytes.now }
{
    byte_at(bytes, 0) == descriptor_length::CONFIGURATION
        && is_set_type(byte_at(bytes, 1))
        && word_at(bytes, 2) >= 9
        && usize::from(word_at(bytes, 2)) <= bytes.len()
}
