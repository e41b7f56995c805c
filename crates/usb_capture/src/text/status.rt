//! The status or the setup packet in a line of usbmon's text.
ghost use Rattle.std.specs.Prelude.{◌≡◌};
ghost use Rattle.usb_capture.specs.UsbmonText.{code_of, is_code, negative, no_setup, only, setup_of, status_of, status_words, tagged_of};

use crate::text::words::{after_parts, number_below, part};
use usb_fields::{Setup, after, byte_at};

/// What there is in place of a setup packet that isn't there.
const NO_SETUP: Setup = Setup {
    request_type: 0,
    request: 0,
    value: 0,
    index: 0,
    length: 0,
};

/// How a transfer ended, or how it begins.
#[derive(Clone, Copy, Debug)]
pub(crate) struct Status {
    /// 0 where there is a setup packet, else the reason for which there is none.
    pub(crate) tag: u8,
    /// The setup packet.
    pub(crate) setup: Setup,
    /// The status.
    pub(crate) code: u32,
}

impl Status {
    /// What the words say that are first here.
    #[tactic(auto, unfolding(crate::specs::UsbmonText::status_of))]
    pub(crate) fn of_words(text: &[u8]) -> Option<Status>
        ensures { result ≡ status_of text.now }
    {
        if is_code(text) {
            let code = code_of(part(b' ', 0, text))?;
            return Some(Status {
                tag: b'-',
                setup: NO_SETUP,
                code,
            });
        }
        let tag = only(part(b' ', 0, text))?;
        tagged(tag, after_parts(b' ', 1, text))
    }

    /// How many words these are.
    pub(crate) fn words(&self) -> u8
        ensures { result ≡ status_words self.now }
    {
        if self.tag == b'-' { 1 } else { 6 }
    }
}

/// What a setup packet's letter and words say.
#[tactic(auto, unfolding(crate::specs::UsbmonText::tagged_of))]
fn tagged(tag: u8, text: &[u8]) -> Option<Status>
    ensures { result ≡ tagged_of tag text.now }
{
    if tag != b's' {
        return Some(Status {
            tag,
            setup: NO_SETUP,
            code: 0,
        });
    }
    let setup = setup_of(text)?;
    Some(Status {
        tag: 0,
        setup,
        code: 0,
    })
}

/// Whether a status is here.
fn is_code(text: &[u8]) -> bool
    ensures { result ≡ is_code text.now }
{
    let first = byte_at(text, 0);
    first == b'-' || (first > 47 && first < 58)
}

/// The number at the beginning of a word. A negative one is in two's complement.
#[tactic(auto, unfolding(crate::specs::UsbmonText::code_of))]
fn code_of(word: &[u8]) -> Option<u32>
    ensures { result ≡ code_of word.now }
{
    if byte_at(word, 0) != b'-' {
        let number = number_below(10, 2_147_483_648, part(b':', 0, word))?;
        return Some(number as u32);
    }
    let number = number_below(10, 2_147_483_649, part(b':', 0, after(word, 1)))?;
    Some(negative(number as u32))
}

/// The two's complement of a number.
fn negative(number: u32) -> u32
    ensures { result ≡ negative number }
{
    if number == 0 {
        0
    } else {
        u32::MAX - number + 1
    }
}

/// The setup packet in five words.
#[tactic(auto, unfolding(crate::specs::UsbmonText::setup_of))]
fn setup_of(text: &[u8]) -> Option<Setup>
    ensures { result ≡ setup_of text.now }
{
    let request_type = number_below(16, 256, part(b' ', 0, text))? as u8;
    let request = number_below(16, 256, part(b' ', 1, text))? as u8;
    let value = number_below(16, 65_536, part(b' ', 2, text))? as u16;
    let index = number_below(16, 65_536, part(b' ', 3, text))? as u16;
    let length = number_below(16, 65_536, part(b' ', 4, text))? as u16;
    Some(Setup {
        request_type,
        request,
        value,
        index,
        length,
    })
}

/// The character that a word is, if it is one.
pub(crate) fn only(word: &[u8]) -> Option<u8>
    ensures { result ≡ only word.now }
{
    match word {
        [character] => Some(*character),
        _ => None,
    }
}
