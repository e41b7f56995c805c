//! The fields of a line, read into the bytes of a descriptor.
ghost use Rattle.std.specs.Prelude.{◌≡◌, ◌+◌, ◌*◌, ◌≤◌, slice_index};
ghost use Rattle.usb_listing.specs.inside.Fields.{pair_value, value_or};
ghost use Rattle.std.specs.Prelude.{◌≡◌, ◌+◌, ◌-◌, ◌*◌, ◌∷◌, [], if◌then◌else◌, ◌<◌, ◌≤◌, IfSome, MatchOption, None, Some, length, take};
ghost use Rattle.usb_fields.specs.Fields.{size_of};
ghost use Rattle.usb_listing.specs.inside.Fields.{PutsCell, PutsCells, behind_space, bytes_in, cell_first, cell_of, cells_from, ended, pairs_of, tail_of, with_tail};

use usb_fields::Width;

/// The value of each byte that is a lower-case digit, and for any other 256, which no two digits say.
const VALUES: [u16; 256] = [
    256, 256, 256, 256, 256, 256, 256, 256, 256, 256, 256, 256, 256, 256, 256, 256, 256, 256, 256,
    256, 256, 256, 256, 256, 256, 256, 256, 256, 256, 256, 256, 256, 256, 256, 256, 256, 256, 256,
    256, 256, 256, 256, 256, 256, 256, 256, 256, 256, 0, 1, 2, 3, 4, 5, 6, 7, 8, 9, 256, 256, 256,
    256, 256, 256, 256, 256, 256, 256, 256, 256, 256, 256, 256, 256, 256, 256, 256, 256, 256, 256,
    256, 256, 256, 256, 256, 256, 256, 256, 256, 256, 256, 256, 256, 256, 256, 256, 256, 10, 11,
    12, 13, 14, 15, 256, 256, 256, 256, 256, 256, 256, 256, 256, 256, 256, 256, 256, 256, 256, 256,
    256, 256, 256, 256, 256, 256, 256, 256, 256, 256, 256, 256, 256, 256, 256, 256, 256, 256, 256,
    256, 256, 256, 256, 256, 256, 256, 256, 256, 256, 256, 256, 256, 256, 256, 256, 256, 256, 256,
    256, 256, 256, 256, 256, 256, 256, 256, 256, 256, 256, 256, 256, 256, 256, 256, 256, 256, 256,
    256, 256, 256, 256, 256, 256, 256, 256, 256, 256, 256, 256, 256, 256, 256, 256, 256, 256, 256,
    256, 256, 256, 256, 256, 256, 256, 256, 256, 256, 256, 256, 256, 256, 256, 256, 256, 256, 256,
    256, 256, 256, 256, 256, 256, 256, 256, 256, 256, 256, 256, 256, 256, 256, 256, 256, 256, 256,
    256, 256, 256, 256, 256, 256, 256, 256, 256, 256, 256, 256, 256, 256, 256, 256, 256, 256, 256,
    256, 256, 256, 256,
];

/// A byte's value in a table. It is apart, since an index straight into the constant stalls the proof.
#[inline(always)]
fn at(values: &[u16; 256], c: u8) -> u16
    ensures { result ≡ slice_index values.now c }
{
    values[usize::from(c)]
}

/// The value of a lower-case digit, or 256.
#[inline(always)]
#[tactic(auto, using(crate::proofs::DigitLemmas::table_is, crate::proofs::DigitLemmas::value_most))]
fn value(c: u8) -> u16
    ensures is { result ≡ value_or c }
    ensures most { result ≤ 256 }
{
    at(&VALUES, c)
}

/// The byte of two digits; where one is none, 256 or more.
#[inline(always)]
pub(crate) fn pair_or(high: u8, low: u8) -> u16
    ensures { result ≡ value_or high * 16 + value_or low }
{
    value(high) * 16 + value(low)
}

/// The byte of two digits.
#[inline(always)]
#[tactic(auto, using(crate::proofs::DigitLemmas::pair_small, crate::proofs::DigitLemmas::pair_large))]
pub(crate) fn pair(high: u8, low: u8) -> Option<u8>
    ensures { result ≡ pair_value high low }
{
    let byte = pair_or(high, low);
    if byte < 256 { Some(byte as u8) } else { None }
}

/// What is after a space.
#[inline(always)]
pub(crate) fn skip_space(text: &[u8]) -> Option<&[u8]>
    ensures { MatchOption result (behind_space text.now ≡ None) (λ rest. behind_space text.now ≡ Some rest.now) }
{
    match text {
        [b' ', rest @ ..] => Some(rest),
        _ => None,
    }
}

#[inline(always)]
#[tactic(auto, unfolding(crate::specs::inside::Fields::cell_first))]
fn take_one(text: &[u8]) -> Option<(u8, &[u8])>
    ensures { MatchOption result (cell_first Width.One text.now ≡ None) (λ p. cell_first Width.One text.now ≡ Some (p.0 ∷ [], p.1.now)) }
{
    match text {
        [a, b, rest @ ..] => Some((pair(*a, *b)?, rest)),
        _ => None,
    }
}

/// The high byte and the low byte of two.
#[inline(always)]
#[tactic(auto, unfolding(crate::specs::inside::Fields::cell_first))]
fn take_two(text: &[u8]) -> Option<(u8, u8, &[u8])>
    ensures { MatchOption result (cell_first Width.Two text.now ≡ None) (λ p. cell_first Width.Two text.now ≡ Some (p.1 ∷ p.0 ∷ [], p.2.now)) }
{
    match text {
        [a, b, c, d, rest @ ..] => {
            let high = pair(*a, *b)?;
            let low = pair(*c, *d)?;
            Some((high, low, rest))
        }
        _ => None,
    }
}

/// Reads a field into the bytes at this place, and gives where they end and what is after the field.
#[inline(always)]
#[tactic(auto, using(crate::proofs::PutLemmas::put_one, crate::proofs::PutLemmas::put_two))]
fn put_field<'a>(
    width: Width,
    text: &'a [u8],
    out: &mut [u8],
    at: usize,
) -> Option<(usize, &'a [u8])>
    requires { at + size_of (width ∷ []) ≤ length out.old }
    ensures is { MatchOption result (cell_of width text.now ≡ None) (λ p. PutsCell width text.now out.old at out.new p.0 p.1.now) }
    ensures count { length out.new ≡ length out.old }
{
    let digits = skip_space(text)?;
    match width {
        Width::One => {
            let (byte, rest) = take_one(digits)?;
            out[at] = byte;
            Some((at + 1, rest))
        }
        Width::Two => {
            let (high, low, rest) = take_two(digits)?;
            out[at] = low;
            out[at + 1] = high;
            Some((at + 2, rest))
        }
    }
}

/// Reads fields of these widths into the bytes at this place, and gives where they end and what is after the
/// fields.
#[inline(always)]
fn put_fields<'a>(
    widths: &[Width],
    text: &'a [u8],
    out: &mut [u8],
    at: usize,
) -> Option<(usize, &'a [u8])>
    requires { at + size_of widths.now ≤ length out.old }
    ensures is { let done = take at out.old in MatchOption result (cells_from widths.now done text.now ≡ None) (λ p. PutsCells widths.now text.now out.old at out.new p.0 p.1.now) }
    ensures count { length out.new ≡ length out.old }
{
    let mut end = at;
    let mut rest = text;
    for width in widths {
        let (after, left) = put_field(*width, rest, out, end)?;
        end = after;
        rest = left;
    }
    Some((end, rest))
}

/// Writes the bytes of pairs of digits, and answers whether all are lower-case ones. Whether they are is looked
/// at once, at the end.
#[tactic(auto, using(crate::proofs::DecodeLemmas::decoding_none, crate::proofs::DecodeLemmas::decoding_next, crate::proofs::DecodeLemmas::decoding_done))]
fn decode_into(digits: &[u8], bytes: &mut [u8]) -> bool
    requires { length digits.now ≡ 2 * length bytes.old }
    ensures is { pairs_of digits.now ≡ (if result then Some bytes.new else None) }
    ensures count { length bytes.new ≡ length bytes.old }
{
    let mut bits = 0;
    'bytes: for i in 0..bytes.len() {
        let byte = pair_or(digits[2 * i], digits[2 * i + 1]);
        bits |= byte;
        bytes[i] = (byte % 256) as u8;
    }
    bits < 256
}

/// Reads pairs of digits into the bytes at this place, and gives where they end.
#[inline(always)]
#[tactic(auto, using(crate::proofs::PutLemmas::no_pairs))]
fn put_pairs(digits: &[u8], out: &mut [u8], at: usize) -> Option<usize>
    requires within { at ≤ length out.old }
    requires room { length digits.now ≤ 2 * (length out.old - at) }
    requires long { length out.old ≡ 255 }
    ensures is { let read = with_tail (take at out.old) (pairs_of digits.now) in MatchOption result (read ≡ None) (λ end. read ≡ Some (take end out.new)) }
    ensures within { IfSome result (λ end. (at ≤ end) × (end ≤ 255)) }
    ensures count { length out.new ≡ 255 }
{
    if !digits.len().is_multiple_of(2) {
        return None;
    }
    let end = at + digits.len() / 2;
    if decode_into(digits, &mut out[at..end]) {
        Some(end)
    } else {
        None
    }
}

/// Reads a tail that ends a line into the bytes at this place, and gives where they end.
#[inline(always)]
#[tactic(auto, unfolding(crate::specs::inside::Fields::tail_of))]
fn put_tail(text: &[u8], out: &mut [u8], at: usize) -> Option<usize>
    requires within { at ≤ length out.old }
    requires long { length out.old ≡ 255 }
    ensures is { let read = with_tail (take at out.old) (tail_of (255 - at) text.now) in MatchOption result (read ≡ None) (λ end. read ≡ Some (take end out.new)) }
    ensures within { IfSome result (λ end. (at ≤ end) × (end ≤ 255)) }
    ensures count { length out.new ≡ 255 }
{
    let digits = skip_space(text)?;
    if digits == b"-".as_slice() {
        return Some(at);
    }
    if digits.is_empty() || digits.len() > 2 * (out.len() - at) {
        return None;
    }
    put_pairs(digits, out, at)
}

/// Reads fields of these widths into the bytes at this place, and a tail after them where `tail` says so, to the end of
/// the text. Gives where the bytes end.
#[inline(always)]
fn put_body(widths: &[Width], tail: bool, text: &[u8], out: &mut [u8], at: usize) -> Option<usize>
    requires room { at + size_of widths.now ≤ length out.old }
    requires long { length out.old ≡ 255 }
    ensures is { let read = ended tail (cells_from widths.now (take at out.old) text.now) in MatchOption result (read ≡ None) (λ end. read ≡ Some (take end out.new)) }
    ensures within { IfSome result (λ end. (at ≤ end) × (end ≤ 255)) }
    ensures count { length out.new ≡ 255 }
{
    let (end, rest) = put_fields(widths, text, out, at)?;
    if tail {
        return put_tail(rest, out, end);
    }
    if rest.is_empty() { Some(end) } else { None }
}

/// Puts bytes at the start of the buffer.
#[inline(always)]
fn put_front(front: &[u8], out: &mut [u8])
    requires { length front.now ≤ length out.old }
    ensures is { take (length front.now) out.new ≡ front.now }
    ensures count { length out.new ≡ length out.old }
{
    out[..front.len()].copy_from_slice(front);
}

/// Reads the text after a line's word as a whole descriptor. It begins with a place for bLength and what the line leaves
/// out, and after them come fields of these widths, and a tail where `tail` says so. The bytes are put at the start of
/// the buffer; the answer is how many they are.
#[inline(always)]
#[tactic(auto, using(crate::proofs::PutLemmas::length_put, crate::proofs::PutLemmas::nothing_put))]
pub(crate) fn read_descriptor(
    front: &[u8],
    widths: &[Width],
    tail: bool,
    text: &[u8],
    out: &mut [u8],
) -> Option<usize>
    requires some { 0 < length front.now }
    requires room { length front.now + size_of widths.now ≤ 255 }
    requires long { length out.old ≡ 255 }
    ensures is { let read = bytes_in front.now widths.now tail text.now in MatchOption result (read ≡ None) (λ end. read ≡ Some (take end out.new)) }
    ensures within { IfSome result (λ end. end ≤ 255) }
    ensures count { length out.new ≡ 255 }
{
    put_front(front, out);
    let end = put_body(widths, tail, text, out, front.len())?;
    out[0] = end as u8;
    Some(end)
}
