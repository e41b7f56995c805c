//! Calls that put words and numbers at the end of a text.
use crate::answer::{Answer, Call, refused, right};
use std::alloc::{AllocError, Global};
use usb_text::{Text, put_byte_code, put_count, put_release, put_word_code};

/// What is put.
#[derive(Clone, Copy)]
enum Putting {
    Words,
    Decimal,
    Digits,
    Count,
    ByteCode,
    WordCode,
    Release,
}

/// The calls, with the words that they put.
const PUTS: [(&str, Putting, &str); 7] = [
    ("Text::put", Putting::Words, "endpoint "),
    ("Text::put_decimal", Putting::Decimal, "65535"),
    ("Text::put_digits", Putting::Digits, "0a09"),
    ("put_count", Putting::Count, "3 bytes"),
    ("put_byte_code", Putting::ByteCode, "0x0a"),
    ("put_word_code", Putting::WordCode, "0x04d8"),
    ("put_release", Putting::Release, "2.10"),
];

/// The calls, one after another.
pub(crate) fn calls(alloc: Global) -> [Call; 7] {
    PUTS.map(|(name, putting, words)| (name, put_again(alloc, putting, words.as_bytes())))
}

/// Puts the words at the end of an empty text; where memory is wanting, the text has a prefix of them, and they are put
/// into another.
fn put_again(alloc: Global, putting: Putting, words: &[u8]) -> Answer {
    let mut text = Text::new(alloc);
    match put_one(&mut text, putting) {
        Ok(()) => right(text.as_bytes() == words),
        Err(_) => {
            let is_front = words.starts_with(text.as_bytes());
            let mut again = Text::new(alloc);
            let is_put = put_one(&mut again, putting).is_ok();
            refused(is_front && is_put && again.as_bytes() == words)
        }
    }
}

fn put_one(text: &mut Text, putting: Putting) -> Result<(), AllocError> {
    match putting {
        Putting::Words => text.put("endpoint "),
        Putting::Decimal => text.put_decimal(65_535),
        Putting::Digits => text.put_digits(&[10, 9]),
        Putting::Count => put_count(text, 3, "byte"),
        Putting::ByteCode => put_byte_code(text, 10),
        Putting::WordCode => put_word_code(text, 0x04d8),
        Putting::Release => put_release(text, 0x0210),
    }
}
