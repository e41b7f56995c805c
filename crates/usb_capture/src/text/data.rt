//! The data in a line of usbmon's text.
ghost use Rattle.std.specs.Prelude.{◌≡◌, ◌<◌, ◌≤◌, length, min, if◌then◌else◌, ◌==◌};
ghost use Rattle.usb_capture.specs.UsbmonText.{byte_in, bytes_in, data_of, data_tag, no_data, typed_data};

use crate::text::status::only;
use crate::text::words::{after_parts, digit, number_below, part};
use usb_fields::byte_at;

/// The most bytes that a line has.
const MOST: usize = 32;

/// The data of a transfer.
#[derive(Clone, Copy, Debug)]
pub(crate) struct Data {
    /// 0 where there are some, else the reason for which there are none.
    pub(crate) tag: u8,
    /// How many bytes were asked for or, at the transfer's end, came or went.
    pub(crate) length: u32,
    /// How many of them the line has.
    pub(crate) count: u8,
    /// These, and zeros.
    pub(crate) bytes: [u8; MOST],
}

impl Data {
    /// What the words say that are first here, in a transfer of this type.
    #[tactic(auto, unfolding(crate::specs::UsbmonText::typed_data))]
    pub(crate) fn of_words(transfer: u8, text: &[u8]) -> Option<Data>
        ensures { result ≡ typed_data transfer text.now }
    {
        if transfer == 0 {
            return Some(Data {
                tag: b'L',
                length: 0,
                count: 0,
                bytes: [0; MOST],
            });
        }
        data_of(text)
    }

    /// How many bytes the line has.
    pub(crate) fn captured(&self) -> u8
        ensures { result ≡ self.now.count }
    {
        self.count
    }
}

/// What the words say that are first here.
#[tactic(auto, unfolding(crate::specs::UsbmonText::data_of))]
fn data_of(text: &[u8]) -> Option<Data>
    ensures { result ≡ data_of text.now }
{
    let length = number_below(10, 4_294_967_296, part(b' ', 0, text))? as u32;
    let tag = data_tag(part(b' ', 1, text))?;
    let count = if tag == 0 { length.min(32) as u8 } else { 0 };
    let bytes = bytes_in(count, after_parts(b' ', 2, text))?;
    Some(Data {
        tag,
        length,
        count,
        bytes,
    })
}

/// What the word before the data says of them.
fn data_tag(word: &[u8]) -> Option<u8>
    ensures { result ≡ data_tag word.now }
{
    if word.is_empty() {
        return Some(b'L');
    }
    let letter = only(word)?;
    Some(if letter == b'=' { 0 } else { letter })
}

/// This many bytes in words of four, and zeros.
#[tactic(auto, unfolding(crate::specs::UsbmonText::bytes_in))]
fn bytes_in(count: u8, text: &[u8]) -> Option<[u8; MOST]>
    requires { count ≤ 32 }
    ensures { result ≡ bytes_in count text.now }
{
    let mut bytes = [0; MOST];
    for number in 0..count {
        bytes[usize::from(number)] = byte_in(number, text)?;
    }
    Some(bytes)
}

/// The byte after this many.
#[tactic(auto, unfolding(crate::specs::UsbmonText::byte_in))]
fn byte_in(number: u8, text: &[u8]) -> Option<u8>
    ensures { result ≡ byte_in number text.now }
{
    let number = usize::from(number);
    let place = 9 * (number / 4) + 2 * (number % 4);
    let high = digit(byte_at(text, place))?;
    let low = digit(byte_at(text, place + 1))?;
    Some(16 * high + low)
}
