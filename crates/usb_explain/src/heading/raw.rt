//! Descriptors of classes, and the device descriptor and qualifier.
ghost use Rattle.std.specs.Prelude.{◌≡◌, option_map, OnOk};
ghost use Rattle.usb_names.specs.Shown.{row_of};
ghost use Rattle.usb_text.specs.Shown.{showing_all};
ghost use Rattle.usb_explain.specs.Headers.{row_shown};
ghost use Rattle.usb_explain.specs.Sets.{device_shown, version_shown};

use crate::names::put_class_words;
use std::alloc::AllocError;
use usb_fields::{byte_at, word_at};
use usb_names::ClassRow;
use usb_text::Page;

/// Puts the name of a descriptor of this row, or its type where it has none.
pub(crate) fn put_row_words<P: Page>(
    page: &mut P,
    descriptor_type: u8,
    row: Option<ClassRow>,
) -> Result<(), AllocError>
    ensures { OnOk result (P.seen page.new ≡ showing_all P.showing (row_shown descriptor_type (option_map (λ found. row_of found.row.now) row)) (P.seen page.old)) }
{
    match row {
        None => {
            page.put("descriptor of type ")?;
            page.put_byte_code(descriptor_type)
        }
        Some(found) => page.put_name(found.row.name),
    }
}

/// Puts the words of a device descriptor's heading (USB 2.0, 9.6.1).
#[tactic(auto, unfolding(crate::specs::Sets::device_shown))]
pub(crate) fn put_device_words<P: Page>(page: &mut P, b: &[u8]) -> Result<(), AllocError>
    ensures { OnOk result (P.seen page.new ≡ showing_all P.showing (device_shown b.now) (P.seen page.old)) }
{
    page.put("device ")?;
    page.put_digits(&word_at(b, 8).to_be_bytes())?;
    page.put(":")?;
    page.put_digits(&word_at(b, 10).to_be_bytes())?;
    put_version(page, b)
}

/// Puts the release of USB, and the class.
#[tactic(auto, unfolding(crate::specs::Sets::version_shown))]
fn put_version<P: Page>(page: &mut P, b: &[u8]) -> Result<(), AllocError>
    ensures { OnOk result (P.seen page.new ≡ showing_all P.showing (version_shown b.now) (P.seen page.old)) }
{
    page.put(", USB ")?;
    page.put_release(word_at(b, 2))?;
    page.put(", ")?;
    put_class_words(page, byte_at(b, 4), byte_at(b, 5), byte_at(b, 6))
}

/// Puts the words of a device qualifier's heading (9.6.2).
pub(crate) fn put_qualifier_words<P: Page>(page: &mut P, b: &[u8]) -> Result<(), AllocError>
    ensures { OnOk result (P.seen page.new ≡ showing_all P.showing (version_shown b.now) (P.seen page.old)) }
{
    page.put("qualifier of the other speed")?;
    put_version(page, b)
}
