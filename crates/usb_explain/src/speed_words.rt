//! A speed in words, and the current of a set at it.
ghost use Rattle.std.specs.Prelude.{◌≡◌, ◌<◌, IsTrue, OnOk};
ghost use Rattle.usb_text.specs.Shown.{Number};
ghost use Rattle.usb_text.specs.Written.{is_words};
ghost use Rattle.usb_remarks.specs.Power.{milliamperes};

use std::alloc::AllocError;
use usb_remarks::SetSpeed;
use usb_text::Page;

/// The speed in words: `low or full speed`.
pub(crate) fn speed_words(speed: SetSpeed) -> &'static str
    ensures { IsTrue (is_words result.now) }
{
    match speed {
        SetSpeed::Low => "low speed",
        SetSpeed::Full => "full speed",
        SetSpeed::LowOrFull => "low or full speed",
        SetSpeed::High => "high speed",
        SetSpeed::FullOrHigh => "full or high speed",
        SetSpeed::Super => "SuperSpeed",
    }
}

/// Puts bMaxPower in milliamperes: `100 mA` of 50, and at SuperSpeed `400 mA`.
#[inline(always)]
pub(crate) fn put_power<P: Page>(page: &mut P, speed: SetSpeed, power: u8) -> Result<(), AllocError>
    ensures { OnOk result (P.seen page.new ≡ P.showing (Number (milliamperes speed power)) (P.seen page.old)) }
{
    page.put_decimal(u64::from(speed.milliamperes(power)))?;
    page.put(" mA")
}
