//! Hexadecimal digits of either case, and what is between them.
ghost use Rattle.std.specs.Prelude.{◌≡◌, slice_index};
ghost use Rattle.hex.specs.Hex.{hex_digit_value};
ghost use Rattle.usb_hex.specs.HexItems.{is_gap};
ghost use Rattle.usb_text.specs.HexDigits.{byte_of};

/// The values of all characters as digits; of others a space for white space and commas, and else `@`.
const VALUES: [u8; 256] =
    *b"@@@@@@@@@  @@ @@@@@@@@@@@@@@@@@@ @@@@@@@@@@@ @@@\x00\x01\x02\x03\x04\x05\x06\x07\x08\x09@@@@@@\
    @\x0a\x0b\x0c\x0d\x0e\x0f@@@@@@@@@@@@@@@@@@@@@@@@@@\x0a\x0b\x0c\x0d\x0e\x0f@@@@@@@@@@@@@@@@@@@@@@@@@\
    @@@@@@@@@@@@@@@@@@@@@@@@@@@@@@@@@@@@@@@@@@@@@@@@@@@@@@@@@@@@@@@@\
    @@@@@@@@@@@@@@@@@@@@@@@@@@@@@@@@@@@@@@@@@@@@@@@@@@@@@@@@@@@@@@@@";

/// What a table says of a character. It is apart, since an index straight into the constant stalls the proof.
#[inline(always)]
fn at(values: &[u8; 256], c: u8) -> u8
    ensures { result ≡ slice_index values.now c }
{
    values[usize::from(c)]
}

/// The value of a digit.
#[inline(always)]
#[tactic(auto, using(crate::proofs::DigitValues::is_digit, crate::proofs::DigitValues::is_no_digit))]
pub(crate) fn digit(c: u8) -> Option<u8>
    ensures { result ≡ hex_digit_value c }
{
    let value = at(&VALUES, c);
    if value < 16 { Some(value) } else { None }
}

/// Whether the character is white space or a comma.
#[inline(always)]
#[tactic(auto, using(crate::proofs::DigitValues::says_gap))]
pub(crate) fn is_gap(c: u8) -> bool
    ensures { result ≡ is_gap c }
{
    at(&VALUES, c) == b' '
}

/// The byte of two digits.
#[inline(always)]
pub(crate) fn byte_of(high: u8, low: u8) -> Option<u8>
    ensures { result ≡ byte_of high low }
{
    let high = digit(high)?;
    let low = digit(low)?;
    Some(high * 16 + low)
}
