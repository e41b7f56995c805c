//! The CRCs of tokens and of data (USB 2.0, 8.3.5).
ghost use Rattle.std.specs.Prelude.{◌≡◌, ◌<◌, ◌≤◌};
ghost use Rattle.usb_wire.specs.Crc.{bits, data_crc, data_generator, data_register, low_bits, register, step, token_crc, token_generator, token_register};

use crate::tables::{DATA_TABLE, TOKEN_TABLE};

/// The 16-bit CRC of data, which is sent after them, low byte first.
///
/// ```rust
/// assert_eq!(rt; crc16(b"123456789"), 0xb4c8);
/// ```
pub fn crc16(bytes: &[u8]) -> u16
    ensures { result ≡ data_crc bytes.now }
{
    0xffff - data_register(bytes)
}

/// The 5-bit CRC of the lowest bits of a number, `width` of them: 11 in a token and in a start of frame, 19 in a SPLIT. It
/// is sent after them, lowest bit first.
///
/// ```rust
/// // SETUP to address 0x15, endpoint 0xe: the bits 1010100 0111 and then 10111.
/// assert_eq!(rt; crc5(0x15 + 128 * 0xe, 11), 0x1d);
/// ```
#[tactic(auto, using(crate::proofs::Bytes::more_low_bits))]
pub fn crc5(fields: u32, width: u32) -> u8
    requires { width ≤ 32 }
    ensures is { result ≡ token_crc width fields }
    ensures five { result < 32 }
{
    let mut after = 0x1f;
    for place in 0..width {
        after = after_token_bit(after, (fields >> place) % 2 == 1);
    }
    0x1f - after
}

/// What data leave in the register of the 16-bit CRC.
#[tactic(auto, using(crate::proofs::Bytes::more_bits))]
pub(crate) fn data_register(bytes: &[u8]) -> u16
    ensures { result ≡ data_register (bits bytes.now) }
{
    let mut after = u16::MAX;
    for byte in bytes {
        after = after_data_byte(&DATA_TABLE, after, *byte);
    }
    after
}

/// The register of the 16-bit CRC after one byte more.
#[inline(always)]
#[tactic(auto, using(crate::proofs::Bytes::data_byte))]
fn after_data_byte(table: &[u16; 256], before: u16, byte: u8) -> u16
    requires { table.now ≡ DATA_TABLE }
    ensures { result ≡ register data_generator before (low_bits 8 byte) }
{
    (before >> 8) ^ table[usize::from((before ^ u16::from(byte)) & 0xff)]
}

/// What bytes leave in the register of the 5-bit CRC.
#[tactic(auto, using(crate::proofs::Bytes::more_bits))]
pub(crate) fn token_register(bytes: &[u8]) -> u8
    ensures { result ≡ token_register (bits bytes.now) }
{
    let mut after = 0x1f;
    for byte in bytes {
        after = after_token_byte(&TOKEN_TABLE, after, *byte);
    }
    after
}

/// The register of the 5-bit CRC after one byte more.
#[inline(always)]
#[tactic(auto, using(crate::proofs::Bytes::token_byte, crate::proofs::Bytes::token_stays))]
fn after_token_byte(table: &[u8; 256], before: u8, byte: u8) -> u8
    requires table { table.now ≡ TOKEN_TABLE }
    requires five { before < 32 }
    ensures is { result ≡ register token_generator before (low_bits 8 byte) }
    ensures five { result < 32 }
{
    table[usize::from(before ^ byte)]
}

/// The register of the 5-bit CRC after one bit more.
#[inline(always)]
#[tactic(auto, unfolding(crate::specs::Crc::step), using(crate::proofs::Bytes::token_bit))]
fn after_token_bit(before: u8, bit: bool) -> u8
    requires { before < 32 }
    ensures is { result ≡ step token_generator before bit }
    ensures five { result < 32 }
{
    if (before % 2 == 1) == bit {
        before / 2
    } else {
        (before / 2) ^ 0x14
    }
}
