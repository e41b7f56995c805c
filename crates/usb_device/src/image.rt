//! A device image that is lent.
ghost use Rattle.std.specs.Prelude.{◌≡◌, IfSome, option_and_then};
ghost use Rattle.std.specs.Option.{option_copied, option_map};
ghost use Rattle.usb_device.specs.Images.{descriptor_in, find_in, pieces_of, string_in};
ghost use Rattle.usb_device.specs.Offers.{has_head, packet_in, sets_in};
ghost use Rattle.usb_device.specs.inside.Places.{bytes_at, IsPlace};
ghost use Rattle.usb_device.specs.inside.Sets.{sets_left};

use crate::file_image::{HEAD, LANGUAGE, SETS, VERSION};
use crate::piece::{Place, find};
use crate::sets::Sets;
use crate::string_table;
use usb_fields::descriptor_type;

/// All that a device answers from, as one byte string that is read where it lies: what [`write_image`](crate::write_image)
/// wrote, or any other bytes.
#[derive(Clone, Copy, Debug)]
pub struct Image<'a> {
    /// The bytes.
    pub bytes: &'a [u8],
}

impl<'a> Image<'a> {
    /// bMaxPacketSize0, in bytes: how many a data packet of endpoint zero has at most (USB 2.0, 9.6.1).
    #[tactic(auto, unfolding(crate::specs::Offers::packet_in))]
    #[inline(always)]
    pub fn packet(&self) -> usize
        ensures { result ≡ packet_in self.now.bytes.now }
    {
        match self.bytes {
            [_, _, p0, p1, ..] => usize::from(u16::from_le_bytes([*p0, *p1])),
            [_, _, p0] => usize::from(*p0),
            _ => 0,
        }
    }

    /// Whether the bytes begin with the head that [`write_image`](crate::write_image) writes: version 1 of the format, and packets
    /// of 1 to 64 bytes (USB 2.0, 9.6.1).
    #[tactic(auto, unfolding(crate::specs::Offers::packet_in))]
    pub fn has_head(&self) -> bool
        ensures { result ≡ has_head self.now.bytes.now }
    {
        let [kind, version, p0, p1, _, _, _, _, ..] = self.bytes else {
            return false;
        };
        let packet = u16::from_le_bytes([*p0, *p1]);
        *kind == HEAD && *version == VERSION && packet != 0 && packet <= 64
    }

    /// The descriptor of this type and index, in this language where it is a string, or `None` where there is none such:
    /// what GET_DESCRIPTOR asks for (USB 2.0, 9.4.3).
    ///
    /// ```rust
    /// let device = Image { bytes: &image }.descriptor(descriptor_type::DEVICE, 0, 0);
    /// assert_eq!(rt; device.map(|b| b.len()), Some(18));
    /// ```
    pub fn descriptor(&self, kind: u8, index: u8, language: u16) -> Option<&'a [u8]>
        ensures { option_copied result ≡ descriptor_in (pieces_of self.now.bytes.now) kind index language }
    {
        match self.find(kind, index, language) {
            Some(place) => Some(place.bytes(self.bytes)),
            None => None,
        }
    }

    /// Where that descriptor is.
    #[inline(always)]
    pub(crate) fn find(&self, kind: u8, index: u8, language: u16) -> Option<Place>
        ensures found { option_map (bytes_at self.now.bytes.now) result ≡ descriptor_in (pieces_of self.now.bytes.now) kind index language }
        ensures within { IfSome result (IsPlace self.now.bytes.now) }
    {
        match kind {
            descriptor_type::STRING if index != 0 => find_string(self.bytes, index, language),
            descriptor_type::DEVICE
            | descriptor_type::CONFIGURATION
            | descriptor_type::STRING
            | descriptor_type::DEVICE_QUALIFIER
            | descriptor_type::OTHER_SPEED_CONFIGURATION => find(self.bytes, kind, index, 0),
            _ => None,
        }
    }

    /// The sets, as requests can name them.
    #[tactic(auto, using(crate::proofs::PieceLemmas::no_pieces))]
    pub(crate) fn sets(&self) -> Sets<'a>
        ensures { sets_left result ≡ sets_in (pieces_of self.now.bytes.now) }
    {
        match find(self.bytes, SETS, 0, 0) {
            Some(place) => Sets {
                pieces: place.bytes(self.bytes),
            },
            None => Sets { pieces: &[] },
        }
    }
}

/// Where the string of this index is in this language: the other languages are passed over at once.
#[inline(never)]
fn find_string(pieces: &[u8], index: u8, language: u16) -> Option<Place>
    ensures found { option_map (bytes_at pieces.now) result ≡ option_and_then (string_in index) (find_in (pieces_of pieces.now) 128 0 language) }
    ensures within { IfSome result (IsPlace pieces.now) }
{
    let strings = find(pieces, LANGUAGE, 0, language)?;
    let place = string_table::find(strings.bytes(pieces), index)?;
    Some(Place {
        start: strings.start + place.start,
        count: place.count,
    })
}
