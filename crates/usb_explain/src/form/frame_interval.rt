//! Frame intervals of video.
ghost use Rattle.std.specs.Prelude.{◌≡◌, ◌<◌, OnOk};
ghost use Rattle.usb_text.specs.Shown.{showing_all};
ghost use Rattle.usb_explain.specs.Speeds.{digits_up_to_last, four_digits, fraction, frame_interval, frame_time, milliseconds};

use std::alloc::AllocError;
use usb_fields::prefix;
use usb_text::Page;

/// Puts a frame interval of four bytes in its units of 100 ns, and in milliseconds (UVC 1.5, Uncompressed Payload, 3.1.2).
/// Bytes that aren't four are put in hexadecimal digits.
///
/// ```rust
/// put_frame_interval(&mut lines, &[0x15, 0x16, 5, 0])?;
/// assert_eq!(rt; lines.as_bytes(), b"333333 (33.3333 ms)");
/// ```
#[inline(never)]
#[tactic(auto, unfolding(crate::specs::Speeds::frame_interval))]
pub(crate) fn put_frame_interval<P: Page>(page: &mut P, value: &[u8]) -> Result<(), AllocError>
    ensures { OnOk result (P.seen page.new ≡ showing_all P.showing (frame_interval value.now) (P.seen page.old)) }
{
    match value {
        [a, b, c, d] => {
            let units = u64::from(*a)
                + 256 * (u64::from(*b) + 256 * (u64::from(*c) + 256 * u64::from(*d)));
            page.put_decimal(units)?;
            page.put(" (")?;
            put_milliseconds(page, units)?;
            page.put(")")
        }
        _ => page.put_digits(value),
    }
}

/// Puts a frame interval in milliseconds alone: `33.3333 ms`.
#[tactic(auto, unfolding(crate::specs::Speeds::frame_time))]
pub(crate) fn put_frame_time<P: Page>(page: &mut P, value: &[u8]) -> Result<(), AllocError>
    ensures { OnOk result (P.seen page.new ≡ showing_all P.showing (frame_time value.now) (P.seen page.old)) }
{
    match value {
        [a, b, c, d] => put_milliseconds(
            page,
            u64::from(*a) + 256 * (u64::from(*b) + 256 * (u64::from(*c) + 256 * u64::from(*d))),
        ),
        _ => page.put_digits(value),
    }
}

/// Puts a time, in units of 100 ns, in milliseconds.
#[tactic(auto, unfolding(crate::specs::Speeds::milliseconds))]
fn put_milliseconds<P: Page>(page: &mut P, units: u64) -> Result<(), AllocError>
    ensures { OnOk result (P.seen page.new ≡ showing_all P.showing (milliseconds units) (P.seen page.old)) }
{
    page.put_decimal(units / 10_000)?;
    put_fraction(page, units % 10_000)?;
    page.put(" ms")
}

/// Puts ten-thousandths after a point.
#[tactic(auto, unfolding(crate::specs::Speeds::fraction))]
fn put_fraction<P: Page>(page: &mut P, parts: u64) -> Result<(), AllocError>
    requires { parts < 10000 }
    ensures { OnOk result (P.seen page.new ≡ showing_all P.showing (fraction parts) (P.seen page.old)) }
{
    if parts == 0 {
        return Ok(());
    }
    page.put(".")?;
    page.put_characters(prefix(&four_digits(parts), digits_up_to_last(parts)))
}

/// The four digits of a number.
fn four_digits(number: u64) -> [u8; 4]
    requires { number < 10000 }
    ensures { result ≡ four_digits number }
{
    [
        b'0' + (number / 1000) as u8,
        b'0' + (number / 100 % 10) as u8,
        b'0' + (number / 10 % 10) as u8,
        b'0' + (number % 10) as u8,
    ]
}

/// How many of its four digits there are up to the last that isn't 0.
fn digits_up_to_last(number: u64) -> usize
    ensures { result ≡ digits_up_to_last number }
{
    if number % 1000 == 0 {
        1
    } else if number % 100 == 0 {
        2
    } else if number % 10 == 0 {
        3
    } else {
        4
    }
}
