//! Values of fields that have a number and its meaning.
ghost use Rattle.std.specs.Prelude.{◌≡◌, ◌∷◌, [], IsTrue, OnOk};
ghost use Rattle.usb_text.specs.Shown.{Number, showing_all};
ghost use Rattle.usb_text.specs.Written.{is_words};
ghost use Rattle.usb_explain.specs.Endpoints.{packet_value, power_value, release_value};

use crate::speed_words::put_power;
use std::alloc::AllocError;
use usb_remarks::SetSpeed;
use usb_text::Page;

/// Puts a release in hexadecimal digits, and as it is meant.
pub(crate) fn put_release_value<P: Page>(page: &mut P, release: u16) -> Result<(), AllocError>
    ensures { OnOk result (P.seen page.new ≡ showing_all P.showing (release_value release) (P.seen page.old)) }
{
    page.begin_word_meaning(release)?;
    page.put_release(release)?;
    page.put(")")
}

/// Puts bMaxPacketSize0 of a device, which is an exponent at SuperSpeed.
#[inline(always)]
#[tactic(auto, unfolding(crate::specs::Endpoints::packet_value))]
pub(crate) fn put_packet_value<P: Page>(
    page: &mut P,
    speed: SetSpeed,
    size: u8,
) -> Result<(), AllocError>
    ensures { OnOk result (P.seen page.new ≡ showing_all P.showing (packet_value speed size) (P.seen page.old)) }
{
    page.put_decimal(u64::from(size))?;
    match speed {
        SetSpeed::Super if size <= 15 => {
            page.put(" (")?;
            page.put_count(1 << size, "byte")?;
            page.put(")")
        }
        SetSpeed::Super => page.put(" (out of range)"),
        _ => Ok(()),
    }
}

/// Where a set of these bmAttributes takes its power: `bus-powered`.
pub(crate) fn source_words(attributes: u8) -> &'static str
    ensures { IsTrue (is_words result.now) }
{
    if attributes / 64 % 2 == 1 {
        "self-powered"
    } else {
        "bus-powered"
    }
}

/// Puts bmAttributes of a set.
#[inline(always)]
pub(crate) fn put_set_attributes<P: Page>(page: &mut P, attributes: u8) -> Result<(), AllocError>
    ensures { OnOk result (P.seen page.new ≡ showing_all P.showing (Number attributes ∷ []) (P.seen page.old)) }
{
    page.begin_byte_meaning(attributes)?;
    page.put(source_words(attributes))?;
    page.put(if attributes / 32 % 2 == 1 {
        ", remote wakeup)"
    } else {
        ")"
    })
}

/// Puts bMaxPower of a set.
#[inline(always)]
pub(crate) fn put_power_value<P: Page>(
    page: &mut P,
    speed: SetSpeed,
    power: u8,
) -> Result<(), AllocError>
    ensures { OnOk result (P.seen page.new ≡ showing_all P.showing (power_value speed power) (P.seen page.old)) }
{
    page.put_decimal(u64::from(power))?;
    page.put(" (")?;
    put_power(page, speed, power)?;
    page.put(")")
}
