//! What is left of an input.
ghost use Rattle.std.specs.Prelude.{◌≡◌, OnOk};
ghost use Rattle.usb_text.specs.Shown.{showing_all};
ghost use Rattle.usb_explain.specs.Explanations.{more_shown, rest_heading, rest_line, rest_lines};

use crate::line::{NAME_WIDTH, put_place};
use crate::manner::Look;
use std::alloc::AllocError;
use usb_fields::prefix;
use usb_text::Page;

/// Puts the lines of the bytes that are left from this place of the input on, if there are any.
///
/// # Errors
///
/// Out of memory.
#[tactic(auto, using(usb_text::proofs::ShownLines::showing_joined))]
pub(crate) fn put_rest<P: Page>(
    page: &mut P,
    look: Look,
    at: usize,
    b: &[u8],
) -> Result<(), AllocError>
    ensures { OnOk result (P.seen page.new ≡ showing_all P.showing (rest_lines look at b.now) (P.seen page.old)) }
{
    match b {
        [] => Ok(()),
        [_, ..] => {
            put_rest_heading(page, look, at, b)?;
            if look.brief {
                Ok(())
            } else {
                put_rest_line(page, b)
            }
        }
    }
}

#[tactic(auto, using(usb_text::proofs::ShownLines::showing_joined), unfolding(crate::specs::Explanations::rest_heading))]
fn put_rest_heading<P: Page>(
    page: &mut P,
    look: Look,
    at: usize,
    b: &[u8],
) -> Result<(), AllocError>
    ensures { OnOk result (P.seen page.new ≡ showing_all P.showing (rest_heading look at b.now) (P.seen page.old)) }
{
    page.put_indent(0)?;
    page.put("the rest")?;
    put_place(page, look, at, b.len())?;
    page.end_line()
}

/// Puts the first 32 bytes, and how many more there are.
#[tactic(auto, using(usb_text::proofs::ShownLines::showing_joined), unfolding(crate::specs::Explanations::rest_line))]
fn put_rest_line<P: Page>(page: &mut P, b: &[u8]) -> Result<(), AllocError>
    ensures { OnOk result (P.seen page.new ≡ showing_all P.showing (rest_line b.now) (P.seen page.old)) }
{
    page.put_indented_column(4, "bytes", NAME_WIDTH)?;
    page.put_digits(prefix(b, 32))?;
    put_more(page, b.len())?;
    page.end_line()
}

fn put_more<P: Page>(page: &mut P, count: usize) -> Result<(), AllocError>
    ensures { OnOk result (P.seen page.new ≡ showing_all P.showing (more_shown count) (P.seen page.old)) }
{
    if count > 32 {
        page.put(" and ")?;
        page.put_decimal((count - 32) as u64)?;
        page.put(" more")
    } else {
        Ok(())
    }
}
