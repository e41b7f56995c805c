//! The bits of a byte by their names.
ghost use Rattle.std.specs.Prelude.{◌≡◌, ◌<◌, map, OnOk};
ghost use Rattle.std.specs.List.{AllByRecursion, filter, flat_map};
ghost use Rattle.usb_names.specs.Named.{row_of};
ghost use Rattle.usb_text.specs.Shown.{showing_all};
ghost use Rattle.usb_explain.specs.Names.{bit_shown, bits_field, is_set};

use std::alloc::AllocError;
use usb_names::Names;
use usb_text::Page;

/// Puts a byte, and the names of its bits that are one.
///
/// ```rust
/// put_bits(&mut lines, &firmware_upgrade_bits(), 18)?;
/// assert_eq!(rt; lines.as_bytes(), b"0x12 (upload, bit 4)");
/// ```
#[inline(never)]
pub(crate) fn put_bits<P: Page>(
    page: &mut P,
    names: &Names<u8>,
    value: u8,
) -> Result<(), AllocError>
    ensures { OnOk result (P.seen page.new ≡ showing_all P.showing (bits_field (map row_of names.now.rows.now) value) (P.seen page.old)) }
{
    page.put_byte_code(value)?;
    put_bits_meaning(page, names, value, &[0, 1, 2, 3, 4, 5, 6, 7])
}

/// Puts what those of these bits mean that are one.
#[tactic(auto, using(usb_text::proofs::ShownLines::showing_joined))]
fn put_bits_meaning<P: Page>(
    page: &mut P,
    names: &Names<u8>,
    value: u8,
    bits: &[u8],
) -> Result<(), AllocError>
    requires { AllByRecursion (λ bit. bit < 8) bits.now }
    ensures { OnOk result (P.seen page.new ≡ showing_all P.showing (flat_map (bit_shown (map row_of names.now.rows.now)) (filter (is_set value) bits.now)) (P.seen page.old)) }
{
    match bits {
        [] => Ok(()),
        [bit, more @ ..] => {
            if !is_set(value, *bit) {
                return put_bits_meaning(page, names, value, more);
            }
            page.put(" (")?;
            put_bit(page, names, *bit)?;
            put_further_bits(page, names, value, more)?;
            page.put(")")
        }
    }
}

/// Puts those of these bits that are one, after another one.
#[tactic(auto, using(usb_text::proofs::ShownLines::showing_joined))]
fn put_further_bits<P: Page>(
    page: &mut P,
    names: &Names<u8>,
    value: u8,
    bits: &[u8],
) -> Result<(), AllocError>
    requires { AllByRecursion (λ bit. bit < 8) bits.now }
    ensures { OnOk result (P.seen page.new ≡ showing_all P.showing (flat_map (bit_shown (map row_of names.now.rows.now)) (filter (is_set value) bits.now)) (P.seen page.old)) }
{
    match bits {
        [] => Ok(()),
        [bit, more @ ..] => {
            if is_set(value, *bit) {
                page.put(", ")?;
                put_bit(page, names, *bit)?;
            }
            put_further_bits(page, names, value, more)
        }
    }
}

/// Puts what a bit is called.
#[tactic(auto, unfolding(usb_names::specs::Named::name_of))]
fn put_bit<P: Page>(page: &mut P, names: &Names<u8>, bit: u8) -> Result<(), AllocError>
    ensures { OnOk result (P.seen page.new ≡ showing_all P.showing (bit_shown (map row_of names.now.rows.now) bit) (P.seen page.old)) }
{
    match names.name(bit) {
        None => {
            page.put("bit ")?;
            page.put_decimal(u64::from(bit))
        }
        Some(name) => page.put_name(name.text),
    }
}

/// Whether this bit of a byte is one.
fn is_set(value: u8, bit: u8) -> bool
    requires { bit < 8 }
    ensures { result ≡ is_set value bit }
{
    (value >> bit) % 2 == 1
}
