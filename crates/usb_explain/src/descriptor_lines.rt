//! The lines of a descriptor.
ghost use Rattle.std.specs.Prelude.{◌≡◌, IfOk, OnOk};
ghost use Rattle.usb_text.specs.Shown.{showing_all};
ghost use Rattle.usb_explain.specs.Descriptors.{lines_of};
ghost use Rattle.usb_explain.specs.LastLines.{remarks_of};
ghost use Rattle.usb_remarks.specs.Outline.{described};

use crate::class_rows::row_in;
use crate::field_line::put_fields;
use crate::finding::put_findings;
use crate::heading::put_heading;
use crate::remark_line::put_remarks;
use crate::subject::Subject;
use std::alloc::AllocError;
use usb_remarks::Descriptor;
use usb_text::Page;

/// Puts the lines of a descriptor: its heading, its findings, its remarks and its fields. Answers how many remarks there are.
///
/// # Errors
///
/// Out of memory.
#[inline(always)]
#[tactic(auto, using(usb_text::proofs::ShownLines::showing_joined), unfolding(crate::specs::Descriptors::lines_of))]
pub(crate) fn put_descriptor<P: Page>(
    page: &mut P,
    subject: &Subject,
    d: &Descriptor<'_>,
) -> Result<usize, AllocError>
    ensures lines { OnOk result (P.seen page.new ≡ showing_all P.showing (lines_of subject.now (described d.now)) (P.seen page.old)) }
    ensures remarks { IfOk result (λ remarks. remarks ≡ remarks_of (described d.now)) }
{
    let row = row_in(d.role, d.interface, d.bytes);
    put_heading(page, subject, d, row)?;
    put_findings(page, d.depth, d.findings)?;
    let remarks = put_remarks(page, d)?;
    put_fields(page, subject, d, row)?;
    Ok(remarks)
}
