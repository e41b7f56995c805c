//! The parts of lines.
ghost use Rattle.std.specs.Prelude.{◌≡◌, OnOk};
ghost use Rattle.usb_text.specs.Shown.{showing_all};
ghost use Rattle.usb_explain.specs.Lines.{place_shown};

use crate::manner::Look;
use std::alloc::AllocError;
use usb_text::Page;

/// The width of the column that a field's name has.
pub(crate) const NAME_WIDTH: usize = 23;

/// Puts where a descriptor starts in the input, and how many bytes it has, where places are shown.
#[inline(always)]
pub(crate) fn put_place<P: Page>(
    page: &mut P,
    look: Look,
    at: usize,
    count: usize,
) -> Result<(), AllocError>
    ensures { OnOk result (P.seen page.new ≡ showing_all P.showing (place_shown look at count) (P.seen page.old)) }
{
    if look.places {
        page.put(" @")?;
        page.put_decimal(at as u64)?;
        page.put("+")?;
        page.put_decimal(count as u64)
    } else {
        Ok(())
    }
}
