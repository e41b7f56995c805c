//! Programs, compressed bytes and images as text, by their first bytes. No descriptors are read out of them.
ghost use Rattle.std.specs.Prelude.{◌≡◌, ◌++◌, ◌∷◌, [], IsTrue, OnOk, take};
ghost use Rattle.hex.specs.Hex.{hex_digit_value};
ghost use Rattle.usb_text.specs.Shown.{Bytes, End, showing_all};
ghost use Rattle.usb_text.specs.Written.{is_words};
ghost use Rattle.usb_explain.specs.Containers.{adds_up, byte_of, container_of, is_elf, is_gzip, is_record, magic};

use std::alloc::AllocError;
use usb_text::Page;

/// What bytes begin as that holds others.
#[derive(Clone, Copy, Debug, PartialEq, Eq, Hash)]
pub(crate) enum Container {
    /// A program or an object file.
    Elf,
    /// Compressed bytes.
    Gzip,
    /// An image as text.
    IntelHex,
}

/// What bytes begin as.
pub(crate) fn container_of(bytes: &[u8]) -> Option<Container>
    ensures { result ≡ container_of bytes.now }
{
    if is_elf(bytes) {
        Some(Container::Elf)
    } else if is_gzip(bytes) {
        Some(Container::Gzip)
    } else if is_record(bytes) {
        Some(Container::IntelHex)
    } else {
        None
    }
}

/// Whether the magic number of an object file is here.
fn is_elf(bytes: &[u8]) -> bool
    ensures { result ≡ is_elf bytes.now }
{
    matches!(bytes, [0x7f, b'E', b'L', b'F', ..])
}

/// Whether the identification of compressed bytes is here.
fn is_gzip(bytes: &[u8]) -> bool
    ensures { result ≡ is_gzip bytes.now }
{
    matches!(bytes, [0x1f, 0x8b, ..])
}

/// Whether a record of Intel HEX is here, whose checksum is right.
fn is_record(bytes: &[u8]) -> bool
    ensures { result ≡ is_record bytes.now }
{
    match bytes {
        [b':', text @ ..] => match text {
            [c, d, ..] => match byte_of(*c, *d) {
                Some(count) => adds_up(usize::from(count) + 5, 0, text),
                None => false,
            },
            _ => false,
        },
        _ => false,
    }
}

/// Whether `left` bytes are here, of two digits each, whose sum with that of those before is a multiple of 256.
#[tactic(auto, unfolding(crate::specs::Containers::adds_up))]
fn adds_up(left: usize, sum: u8, text: &[u8]) -> bool
    ensures { result ≡ adds_up left sum text.now }
{
    if left == 0 {
        return sum == 0;
    }
    match text {
        [c, d, rest @ ..] => match byte_of(*c, *d) {
            Some(byte) => adds_up(left - 1, sum.wrapping_add(byte), rest),
            None => false,
        },
        _ => false,
    }
}

/// The byte of two digits.
fn byte_of(high: u8, low: u8) -> Option<u8>
    ensures { result ≡ byte_of high low }
{
    let high = digit(high)?;
    let low = digit(low)?;
    Some(high * 16 + low)
}

/// The value of a hexadecimal digit of either case.
fn digit(c: u8) -> Option<u8>
    ensures { result ≡ hex_digit_value c }
{
    match c {
        b'A'..=b'F' => Some(c - b'A' + 10),
        b'a'..=b'f' => Some(c - b'a' + 10),
        b'0'..=b'9' => Some(c - b'0'),
        _ => None,
    }
}

/// Puts the line of bytes that begin as this.
#[tactic(auto, using(usb_text::proofs::ShownLines::showing_joined))]
pub(crate) fn put_container<P: Page>(
    page: &mut P,
    container: Container,
    bytes: &[u8],
) -> Result<(), AllocError>
    ensures { OnOk result (P.seen page.new ≡ showing_all P.showing (magic container bytes.now ++ End ∷ []) (P.seen page.old)) }
{
    page.put("  ? the bytes begin as ")?;
    put_name(page, container, bytes)?;
    page.put("; no descriptors are read out of it")?;
    page.end_line()
}

/// Puts what it is, and the bytes by which that is seen.
fn put_name<P: Page>(page: &mut P, container: Container, bytes: &[u8]) -> Result<(), AllocError>
    ensures { OnOk result (P.seen page.new ≡ showing_all P.showing (magic container bytes.now) (P.seen page.old)) }
{
    match container {
        Container::Elf => put_magic(page, "an ELF file", first(bytes, 4)),
        Container::Gzip => put_magic(page, "a gzip file", first(bytes, 2)),
        Container::IntelHex => page.put("a record of Intel HEX"),
    }
}

/// Puts what bytes are, and the first of them.
fn put_magic<P: Page>(page: &mut P, name: &'static str, magic: &[u8]) -> Result<(), AllocError>
    requires { IsTrue (is_words name.now) }
    ensures { OnOk result (P.seen page.new ≡ showing_all P.showing (Bytes magic.now ∷ []) (P.seen page.old)) }
{
    page.put(name)?;
    page.put(" (")?;
    page.put_digits(magic)?;
    page.put(")")
}

/// This many of the bytes, or all.
#[tactic(auto, using(std::proofs::lemmas::List::take_all))]
fn first(bytes: &[u8], count: usize) -> &[u8]
    ensures { result.now ≡ take count bytes.now }
{
    if count < bytes.len() {
        &bytes[..count]
    } else {
        bytes
    }
}
