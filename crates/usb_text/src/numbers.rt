//! Numbers in words.
ghost use Rattle.std.specs.Prelude.{◌≡◌, ◌++◌, codes, OnOk};
ghost use Rattle.hex.specs.Hex.{encode_lower};
ghost use Rattle.usb_text.specs.Characters.{two_bytes};
ghost use Rattle.usb_text.specs.Numbers.{byte_code, count, release, word_code};

use crate::digits::digits_of;
use crate::text::Text;
use std::alloc::AllocError;

/// Puts a number and what it counts: `1 byte`, `2 bytes`.
#[inline(always)]
#[tactic(auto, unfolding(crate::specs::Numbers::count))]
pub fn put_count(text: &mut Text, number: u64, noun: &str) -> Result<(), AllocError>
    ensures { OnOk result (text.new ≡ text.old ++ count number noun.now) }
{
    text.put_decimal(number)?;
    text.put(" ")?;
    text.put(noun)?;
    if number == 1 { Ok(()) } else { text.put("s") }
}

/// Puts a code of one byte: `0x81`.
#[tactic(auto, unfolding(crate::specs::Numbers::byte_code))]
pub fn put_byte_code(text: &mut Text, code: u8) -> Result<(), AllocError>
    ensures { OnOk result (text.new ≡ text.old ++ byte_code code) }
{
    let [high, low] = digits_of(code);
    text.put_bytes(&[b'0', b'x', high, low])
}

/// Puts a code of one byte, after which its meaning begins: `0x81 (`.
#[tactic(auto, unfolding(crate::specs::Numbers::byte_code))]
pub fn begin_byte_meaning(text: &mut Text, code: u8) -> Result<(), AllocError>
    ensures { OnOk result (text.new ≡ text.old ++ byte_code code ++ codes " (") }
{
    let [high, low] = digits_of(code);
    text.put_bytes(&[b'0', b'x', high, low, b' ', b'('])
}

/// The four digits of a number of two bytes.
#[inline(always)]
#[tactic(auto, unfolding(hex::specs::Hex::encode_with))]
fn word_digits(number: u16) -> [u8; 4]
    ensures { result ≡ encode_lower (two_bytes number) }
{
    let [high, low] = number.to_be_bytes();
    let [a, b] = digits_of(high);
    let [c, d] = digits_of(low);
    [a, b, c, d]
}

/// Puts a code of two bytes: `0x0409`.
#[tactic(auto, unfolding(crate::specs::Numbers::word_code))]
pub fn put_word_code(text: &mut Text, code: u16) -> Result<(), AllocError>
    ensures { OnOk result (text.new ≡ text.old ++ word_code code) }
{
    let [a, b, c, d] = word_digits(code);
    text.put_bytes(&[b'0', b'x', a, b, c, d])
}

/// Puts a code of two bytes, after which its meaning begins: `0x0040 (`.
#[tactic(auto, unfolding(crate::specs::Numbers::word_code))]
pub fn begin_word_meaning(text: &mut Text, code: u16) -> Result<(), AllocError>
    ensures { OnOk result (text.new ≡ text.old ++ word_code code ++ codes " (") }
{
    let [a, b, c, d] = word_digits(code);
    text.put_bytes(&[b'0', b'x', a, b, c, d, b' ', b'('])
}

/// Puts a release in binary coded decimal: `2.00` of 0200.
#[tactic(auto, unfolding(crate::specs::Numbers::release))]
pub fn put_release(text: &mut Text, number: u16) -> Result<(), AllocError>
    ensures { OnOk result (text.new ≡ text.old ++ release number) }
{
    let [high, low] = number.to_be_bytes();
    let [ten, one] = digits_of(high);
    let [first, second] = digits_of(low);
    if high < 16 {
        text.put_bytes(&[one, b'.', first, second])
    } else {
        text.put_bytes(&[ten, one, b'.', first, second])
    }
}
