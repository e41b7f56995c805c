//! Parts of a list of bytes, whether or not it is long enough, and fields of two bytes (USB 2.0, 8.1).
ghost use Rattle.std.specs.Prelude.{◌≡◌, drop, slice_index, take};
ghost use Rattle.std.specs.Prelude.{◌≡◌, ◌+◌, [], ◌∷◌, slice_index};
ghost use Rattle.usb_fields.specs.Bytes.{little_endian, little_endian_at};
ghost use Rattle.usb_fields.specs.Bytes.{AreBytes};

/// The byte at this place, and 0 where there is none.
///
/// ```rust
/// assert_eq!(rt; byte_at(&[18, 1], 1), 1);
/// assert_eq!(rt; byte_at(&[18, 1], 2), 0);
/// ```
#[inline]
pub fn byte_at(b: &[u8], at: usize) -> u8
    ensures { result ≡ slice_index b.now at }
{
    match b.get(at) {
        Some(byte) => *byte,
        None => 0,
    }
}

/// The first `count` bytes, or all if there are fewer.
///
/// ```rust
/// assert_eq!(rt; prefix(&[7, 5, 129], 2), [7, 5]);
/// assert_eq!(rt; prefix(&[7, 5, 129], 4), [7, 5, 129]);
/// ```
#[inline]
pub fn prefix(b: &[u8], count: usize) -> &[u8]
    ensures { result.now ≡ take count b.now }
{
    if count < b.len() { &b[..count] } else { b }
}

/// The bytes after the first `count`.
///
/// ```rust
/// assert_eq!(rt; after(&[7, 5, 129], 2), [129]);
/// assert_eq!(rt; after(&[7, 5, 129], 4), []);
/// ```
#[inline]
pub fn after(b: &[u8], count: usize) -> &[u8]
    ensures { result.now ≡ drop count b.now }
{
    if count < b.len() { &b[count..] } else { &[] }
}

/// The 16-bit field at `at`, its low byte first (USB 2.0, 8.1). A byte that isn't there is 0.
///
/// ```rust
/// assert_eq!(rt; word_at(&[18, 1, 0x10, 0x01], 2), 0x0110);
/// assert_eq!(rt; word_at(&[18, 1, 0x10], 2), 0x0010);
/// ```
#[inline]
pub fn word_at(b: &[u8], at: u8) -> u16
    ensures value { result ≡ little_endian_at b.now at }
    ensures bytes { little_endian result ≡ slice_index b.now at ∷ slice_index b.now (at + 1) ∷ [] }
{
    let at = usize::from(at);
    u16::from_le_bytes([byte_at(b, at), byte_at(b, at + 1)])
}

/// The two bytes of a 16-bit field, the low byte first.
///
/// ```rust
/// assert_eq!(rt; word_bytes(0x0110), [0x10, 0x01]);
/// ```
#[inline]
pub fn word_bytes(n: u16) -> [u8; 2]
    ensures { result ≡ little_endian n }
{
    n.to_le_bytes()
}

/// The elements of a slice of bytes are bytes: a fact for proofs. Does nothing when it runs.
pub fn known_bytes(bytes: &[u8])
    ensures { AreBytes bytes.now }
{}
