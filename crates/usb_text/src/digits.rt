//! Bytes as two lower-case hexadecimal digits each, and numbers below 100 as two decimal ones.
ghost use Rattle.std.specs.Prelude.{◌≡◌, ◌+◌, ◌*◌, ◌/◌, ◌%◌, ◌<◌, ◌∷◌, [], length, slice_index};
ghost use Rattle.hex.specs.Hex.{encode_lower, lower_digits};

/// The digits of all bytes, one byte after another.
const PAIRS: [u8; 512] = *b"000102030405060708090a0b0c0d0e0f101112131415161718191a1b1c1d1e1f\
    202122232425262728292a2b2c2d2e2f303132333435363738393a3b3c3d3e3f\
    404142434445464748494a4b4c4d4e4f505152535455565758595a5b5c5d5e5f\
    606162636465666768696a6b6c6d6e6f707172737475767778797a7b7c7d7e7f\
    808182838485868788898a8b8c8d8e8f909192939495969798999a9b9c9d9e9f\
    a0a1a2a3a4a5a6a7a8a9aaabacadaeafb0b1b2b3b4b5b6b7b8b9babbbcbdbebf\
    c0c1c2c3c4c5c6c7c8c9cacbcccdcecfd0d1d2d3d4d5d6d7d8d9dadbdcdddedf\
    e0e1e2e3e4e5e6e7e8e9eaebecedeeeff0f1f2f3f4f5f6f7f8f9fafbfcfdfeff";

/// A digit of a table. It is apart, since an index straight into the constant stalls the proof.
#[inline(always)]
fn at(pairs: &[u8; 512], place: usize) -> u8
    requires { place < 512 }
    ensures { result ≡ slice_index pairs.now place }
{
    pairs[place]
}

/// The digit of the high four bits of a byte.
#[inline(always)]
#[tactic(auto, using(crate::proofs::DigitPairs::high_is))]
fn high_digit(byte: u8) -> u8
    ensures { result ≡ slice_index lower_digits (byte / 16) }
{
    at(&PAIRS, 2 * usize::from(byte))
}

/// The digit of the low four bits of a byte.
#[inline(always)]
#[tactic(auto, using(crate::proofs::DigitPairs::low_is))]
fn low_digit(byte: u8) -> u8
    ensures { result ≡ slice_index lower_digits (byte % 16) }
{
    at(&PAIRS, 2 * usize::from(byte) + 1)
}

/// The two digits of a byte.
///
/// ```rust
/// assert_eq!(rt; digits_of(0x2f), *b"2f");
/// ```
#[inline(always)]
#[tactic(auto, unfolding(hex::specs::Hex::encode_with))]
pub fn digits_of(byte: u8) -> [u8; 2]
    ensures { result ≡ encode_lower (byte ∷ []) }
{
    [high_digit(byte), low_digit(byte)]
}

/// Writes the digits of bytes.
#[inline(always)]
pub(crate) fn write_digits(bytes: &[u8], digits: &mut [u8])
    requires { length digits.old ≡ 2 * length bytes.now }
    ensures { digits.new ≡ encode_lower bytes.now }
{
    'bytes: for i in 0..bytes.len() {
        let high = high_digit(bytes[i]);
        let low = low_digit(bytes[i]);
        digits[2 * i] = high;
        digits[2 * i + 1] = low;
    }
}

/// The decimal digits of all numbers below 100, one number after another.
const DECIMALS: [u8; 200] = *b"0001020304050607080910111213141516171819\
    2021222324252627282930313233343536373839\
    4041424344454647484950515253545556575859\
    6061626364656667686970717273747576777879\
    8081828384858687888990919293949596979899";

/// A decimal digit of a table, apart for the same reason.
#[inline(always)]
fn decimal_at(decimals: &[u8; 200], place: usize) -> u8
    requires { place < 200 }
    ensures { result ≡ slice_index decimals.now place }
{
    decimals[place]
}

/// The decimal digit of the tens.
#[inline(always)]
#[tactic(auto, using(crate::proofs::DecimalPairs::tens_are))]
fn tens_digit(number: u64) -> u8
    requires { number < 100 }
    ensures { result ≡ 48 + number / 10 }
{
    decimal_at(&DECIMALS, 2 * number as usize)
}

/// The decimal digit of the ones.
#[inline(always)]
#[tactic(auto, using(crate::proofs::DecimalPairs::ones_are))]
fn ones_digit(number: u64) -> u8
    requires { number < 100 }
    ensures { result ≡ 48 + number % 10 }
{
    decimal_at(&DECIMALS, 2 * number as usize + 1)
}

/// The two decimal digits of a number.
#[inline(always)]
pub(crate) fn decimals_of(number: u64) -> [u8; 2]
    requires { number < 100 }
    ensures { result ≡ (48 + number / 10) ∷ (48 + number % 10) ∷ [] }
{
    [tens_digit(number), ones_digit(number)]
}
