//! The pieces of a device image, read where they lie: any bytes are a list of pieces.
ghost use Rattle.std.specs.Prelude.{◌≡◌, ◌+◌, ◌++◌, ◌∷◌, ◌<◌, ◌≤◌, ◌^◌, [], find, length, take, drop, true, IfSome, MatchOption, OnOk};
ghost use Rattle.std.specs.Option.{option_map};
ghost use Rattle.usb_device.specs.Images.{body_of, count_in, find_in, has_key, header_bytes, piece_bytes, piece_in, pieces_of, rest_in};
ghost use Rattle.usb_device.specs.inside.Places.{bytes_at, piece_of, IsPlace};

use std::alloc::AllocError;
use usb_fields::{byte_at, word_at, word_bytes};

/// How many bytes there are before those of a piece.
const HEADER: usize = 8;

/// A piece, whose bytes are lent.
#[derive(Clone, Copy)]
pub(crate) struct Piece<'a> {
    pub(crate) kind: u8,
    pub(crate) index: u8,
    pub(crate) number: u16,
    pub(crate) body: &'a [u8],
}

/// Where bytes are in an image.
#[derive(Clone, Copy)]
pub(crate) struct Place {
    pub(crate) start: usize,
    pub(crate) count: usize,
}

impl Place {
    /// That of this many bytes from a place on, or of those that there are.
    #[inline(always)]
    pub(crate) fn new(bytes: &[u8], start: usize, count: usize) -> Place
        requires { start ≤ length bytes.now }
        ensures place { bytes_at bytes.now result ≡ take count (drop start bytes.now) }
        ensures within { IsPlace bytes.now result }
    {
        Place {
            start,
            count: count.min(bytes.len() - start),
        }
    }

    /// The bytes.
    pub(crate) fn bytes(self, image: &[u8]) -> &[u8]
        requires { IsPlace image.now self }
        ensures { result.now ≡ bytes_at image.now self }
    {
        &image[self.start..self.start + self.count]
    }
}

/// How many bytes the first piece has, whose head is whole.
#[inline(always)]
fn count(pieces: &[u8]) -> usize
    requires { 8 ≤ length pieces.now }
    ensures count { result ≡ count_in pieces.now }
    ensures few { result < 2 ^ 32 }
{
    let [_, _, _, _, c0, c1, c2, c3, ..] = pieces else {
        unreachable!();
    };
    u32::from_le_bytes([*c0, *c1, *c2, *c3]) as usize
}

/// Whether these numbers name the first piece, whose head is whole.
#[inline(always)]
fn has_key(pieces: &[u8], kind: u8, index: u8, number: u16) -> bool
    requires { 8 ≤ length pieces.now }
    ensures { result ≡ has_key kind index number (piece_in pieces.now) }
{
    let [k, i, n0, n1, ..] = pieces else {
        unreachable!();
    };
    // One comparison, since most pieces are passed over.
    let [m0, m1] = word_bytes(number);
    u32::from_le_bytes([*k, *i, *n0, *n1]) == u32::from_le_bytes([kind, index, m0, m1])
}

/// The first piece, where there is one, and the pieces after it.
#[tactic(auto, using(crate::proofs::PieceLemmas::pieces_at, crate::proofs::PieceLemmas::no_pieces))]
pub(crate) fn first(pieces: &[u8]) -> Option<(Piece<'_>, &[u8])>
    ensures { MatchOption result (pieces_of pieces.now ≡ []) (λ r. pieces_of pieces.now ≡ piece_of r.0 ∷ pieces_of r.1.now) }
{
    if pieces.len() < HEADER {
        return None;
    }
    let (body, later) = cut(past(pieces, HEADER), count(pieces));
    let piece = Piece {
        kind: byte_at(pieces, 0),
        index: byte_at(pieces, 1),
        number: word_at(pieces, 2),
        body,
    };
    Some((piece, later))
}

/// The bytes after the first this many, which there are.
#[inline(always)]
pub(crate) fn past(bytes: &[u8], count: usize) -> &[u8]
    requires { count ≤ length bytes.now }
    ensures { result.now ≡ drop count bytes.now }
{
    &bytes[count..]
}

/// The first bytes, as many as `count`, or all if there are fewer, and the others.
#[tactic(auto, using(std::proofs::lemmas::List::take_min, std::proofs::lemmas::List::drop_min))]
#[inline(always)]
fn cut(bytes: &[u8], count: usize) -> (&[u8], &[u8])
    ensures first { result.0.now ≡ take count bytes.now }
    ensures others { result.1.now ≡ drop count bytes.now }
{
    let count = count.min(bytes.len());
    (&bytes[..count], &bytes[count..])
}

/// The place of the bytes of the first of the pieces that these numbers name.
#[inline(never)]
pub(crate) fn find(pieces: &[u8], kind: u8, index: u8, number: u16) -> Option<Place>
    ensures found { option_map (bytes_at pieces.now) result ≡ find_in (pieces_of pieces.now) kind index number }
    ensures within { IfSome result (IsPlace pieces.now) }
{
    find_inlined(pieces, kind, index, number)
}

/// The same, for what is asked most: where it is called there is no call, and no result in memory.
#[tactic(auto, using(crate::proofs::PieceLemmas::no_piece_at))]
#[inline(always)]
pub(crate) fn find_inlined(pieces: &[u8], kind: u8, index: u8, number: u16) -> Option<Place>
    ensures found { option_map (bytes_at pieces.now) result ≡ find_in (pieces_of pieces.now) kind index number }
    ensures within { IfSome result (IsPlace pieces.now) }
{
    let at = seek(pieces, kind, index, number);
    if at >= pieces.len() {
        return None;
    }
    let count = count(&pieces[at..]);
    Some(Place::new(pieces, at + HEADER, count))
}

/// Where the first of the pieces begins that these numbers name, or the end of the bytes.
#[tactic(auto, using(crate::proofs::PieceLemmas::no_piece_at))]
#[inline(always)]
fn seek(pieces: &[u8], kind: u8, index: u8, number: u16) -> usize
    ensures same { find (has_key kind index number) (pieces_of (drop result pieces.now)) ≡ find (has_key kind index number) (pieces_of pieces.now) }
    ensures whole { result < length pieces.now → result + 8 ≤ length pieces.now }
    ensures here { result < length pieces.now → has_key kind index number (piece_in (drop result pieces.now)) ≡ true }
{
    let mut start = HEADER;
    while start <= pieces.len() {
        let left = &pieces[start - HEADER..];
        if has_key(left, kind, index, number) {
            return start - HEADER;
        }
        start += count(left) + HEADER;
    }
    pieces.len()
}

/// Adds what is before this many bytes of a piece. With 4 GiB or more there is no memory, since a count has four bytes.
pub(crate) fn add_header(
    pieces: &mut Vec<u8>,
    kind: u8,
    index: u8,
    number: u16,
    count: usize,
) -> Result<(), AllocError>
    ensures { OnOk result (pieces.new.items ≡ pieces.old.items ++ header_bytes kind index number count) }
{
    if count >= 0x1_0000_0000 {
        return Err(AllocError);
    }
    let [n0, n1] = word_bytes(number);
    let [c0, c1] = word_bytes((count % 65536) as u16);
    let [c2, c3] = word_bytes((count / 65536) as u16);
    pieces.extend_from_slice(&[kind, index, n0, n1, c0, c1, c2, c3])?;
    Ok(())
}

/// Adds a piece with these bytes.
pub(crate) fn add(
    pieces: &mut Vec<u8>,
    kind: u8,
    index: u8,
    number: u16,
    body: &[u8],
) -> Result<(), AllocError>
    ensures { OnOk result (pieces.new.items ≡ pieces.old.items ++ piece_bytes (record { kind = kind; index = index; number = number; body = body.now })) }
{
    add_header(pieces, kind, index, number, body.len())?;
    pieces.extend_from_slice(body)?;
    Ok(())
}
