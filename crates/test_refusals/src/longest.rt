//! The longest set, and its listing.

/// The bytes of the longest set: 257 descriptors of type 21 hexadecimal and no interface.
pub(crate) const SET_LENGTH: usize = 65_535;

/// Its first descriptor.
const SET_HEADER: [u8; 9] = [9, 2, 0xff, 0xff, 0, 1, 0, 0x80, 0x32];

/// How long each of its other descriptors is but the last, and how long that is.
const RAW_LENGTH: u8 = 255;

const LAST_LENGTH: u8 = 246;

/// Where the last one begins.
const LAST_AT: usize = 65_289;

/// Puts the bytes of the longest set into a buffer.
pub(crate) fn fill_set(buffer: &mut [u8; SET_LENGTH]) {
    for (place, byte) in buffer.iter_mut().enumerate() {
        *byte = if place < 9 {
            SET_HEADER[place]
        } else {
            match (place - 9) % 255 {
                0 if place < LAST_AT => RAW_LENGTH,
                0 => LAST_LENGTH,
                1 => 0x21,
                _ => 0,
            }
        };
    }
}

/// How long the listing of the longest set is: a line of 31 bytes, 256 of 514 and one of 496.
pub(crate) const SET_TEXT_LENGTH: usize = 132_111;

/// Its first line.
const SET_LINE: &[u8; 31] = b"configuration 00 01 00 80 32 -\n";

/// What each other line begins with.
const RAW_WORDS: &[u8; 7] = b"raw 21 ";

/// Whether a text is a prefix of the listing of the longest set.
pub(crate) fn is_front_of_set_text(text: &[u8]) -> bool {
    for (place, byte) in text.iter().enumerate() {
        let wanted = if place < 31 {
            SET_LINE[place]
        } else {
            match (place - 31) % 514 {
                513 => b'\n',
                _ if place == SET_TEXT_LENGTH - 1 => b'\n',
                column if column < 7 => RAW_WORDS[column],
                _ => b'0',
            }
        };
        if place >= SET_TEXT_LENGTH || *byte != wanted {
            return false;
        }
    }
    true
}
