//! What tells a video frame or an audio format from others of its kind.
ghost use Rattle.std.specs.Prelude.{◌≡◌, OnOk, option_map};
ghost use Rattle.std.specs.List.{flat_map};
ghost use Rattle.std.specs.Option.{option_copied};
ghost use Rattle.usb_text.specs.Shown.{showing_all};
ghost use Rattle.usb_explain.specs.Fields.{fields_of, placed_of};
ghost use Rattle.usb_explain.specs.FormatWords.{format_shown, frame_shown, range_shown, rate_shown, value_of};
ghost use Rattle.usb_walk.specs.declared.role.Role.TheVariants as roles;

use crate::field::Field;
use crate::fields::Fields;
use crate::form::frame_interval::put_frame_time;
use crate::form::put_number;
use std::alloc::AllocError;
use usb_names::ClassCodes;
use usb_text::Page;
use usb_walk::Role;

/// Puts the size and the default interval of a video frame, `, 1280 x 720, 33.3333 ms`, or the rates of an audio format,
/// `, 44100 Hz, 48000 Hz` or `, 8000 to 48000 Hz`; nothing where one of these fields is missing, or of another descriptor.
#[inline(never)]
#[tactic(auto, using(usb_text::proofs::ShownLines::showing_joined), unfolding(crate::specs::FormatWords::format_shown))]
pub(crate) fn put_format_words<P: Page>(
    page: &mut P,
    interface: Option<ClassCodes>,
    b: &[u8],
) -> Result<(), AllocError>
    ensures { OnOk result (P.seen page.new ≡ showing_all P.showing (format_shown (fields_of roles.Raw interface b.now)) (P.seen page.old)) }
{
    let width = value_of(interface, b, "wWidth");
    let height = value_of(interface, b, "wHeight");
    let interval = value_of(interface, b, "dwDefaultFrameInterval");
    put_frame(page, width, height, interval)?;
    let lower = value_of(interface, b, "tLowerSamFreq");
    let upper = value_of(interface, b, "tUpperSamFreq");
    put_range(page, lower, upper)?;
    put_rates(page, interface, b)
}

/// The bytes of the first field of this name.
fn value_of<'d>(interface: Option<ClassCodes>, b: &'d [u8], name: &str) -> Option<&'d [u8]>
    ensures { option_copied result ≡ value_of name.now (fields_of roles.Raw interface b.now) }
{
    for field in Fields::of(Role::Raw, interface, b) {
        if field.name == name {
            return Some(field.value);
        }
    }
    None
}

#[tactic(auto, using(usb_text::proofs::ShownLines::showing_joined))]
fn put_frame<P: Page>(
    page: &mut P,
    width: Option<&[u8]>,
    height: Option<&[u8]>,
    interval: Option<&[u8]>,
) -> Result<(), AllocError>
    ensures { OnOk result (P.seen page.new ≡ showing_all P.showing (frame_shown (option_copied width.entry) (option_copied height.entry) (option_copied interval.entry)) (P.seen page.old)) }
{
    let (Some(width), Some(height), Some(interval)) = (width, height, interval) else {
        return Ok(());
    };
    page.put(", ")?;
    put_number(page, width)?;
    page.put(" x ")?;
    put_number(page, height)?;
    page.put(", ")?;
    put_frame_time(page, interval)
}

#[tactic(auto, using(usb_text::proofs::ShownLines::showing_joined))]
fn put_range<P: Page>(
    page: &mut P,
    lower: Option<&[u8]>,
    upper: Option<&[u8]>,
) -> Result<(), AllocError>
    ensures { OnOk result (P.seen page.new ≡ showing_all P.showing (range_shown (option_copied lower.entry) (option_copied upper.entry)) (P.seen page.old)) }
{
    let (Some(lower), Some(upper)) = (lower, upper) else {
        return Ok(());
    };
    page.put(", ")?;
    put_number(page, lower)?;
    page.put(" to ")?;
    put_number(page, upper)?;
    page.put(" Hz")
}

fn put_rates<P: Page>(
    page: &mut P,
    interface: Option<ClassCodes>,
    b: &[u8],
) -> Result<(), AllocError>
    ensures { OnOk result (P.seen page.new ≡ showing_all P.showing (flat_map rate_shown (fields_of roles.Raw interface b.now)) (P.seen page.old)) }
{
    for field in Fields::of(Role::Raw, interface, b) {
        put_rate(page, &field)?;
    }
    Ok(())
}

fn put_rate<P: Page>(page: &mut P, field: &Field<'_>) -> Result<(), AllocError>
    ensures { OnOk result (P.seen page.new ≡ showing_all P.showing (rate_shown (placed_of field.now)) (P.seen page.old)) }
{
    if field.name == "tSamFreq" {
        page.put(", ")?;
        put_number(page, field.value)?;
        page.put(" Hz")
    } else {
        Ok(())
    }
}
