//! The last line of an explanation: how many findings and remarks there are.
ghost use Rattle.std.specs.Prelude.{◌≡◌, OnOk};
ghost use Rattle.usb_text.specs.Shown.{showing_all};
ghost use Rattle.usb_explain.specs.LastLines.{count_shown, last_line};

use std::alloc::AllocError;
use usb_text::Page;

/// Puts that line: `no findings`, `1 finding, 2 remarks`.
#[tactic(auto, using(usb_text::proofs::ShownLines::showing_joined))]
pub(crate) fn put_last_line<P: Page>(
    page: &mut P,
    findings: usize,
    remarks: usize,
) -> Result<(), AllocError>
    ensures { OnOk result (P.seen page.new ≡ showing_all P.showing (last_line findings remarks) (P.seen page.old)) }
{
    put_findings_count(page, findings)?;
    put_remarks_count(page, remarks)?;
    page.end_line()
}

fn put_findings_count<P: Page>(page: &mut P, findings: usize) -> Result<(), AllocError>
    ensures { OnOk result (P.seen page.new ≡ showing_all P.showing (count_shown findings) (P.seen page.old)) }
{
    if findings == 0 {
        page.put("no findings")
    } else {
        page.put_count(findings as u64, "finding")
    }
}

fn put_remarks_count<P: Page>(page: &mut P, remarks: usize) -> Result<(), AllocError>
    ensures { OnOk result (P.seen page.new ≡ showing_all P.showing (count_shown remarks) (P.seen page.old)) }
{
    if remarks == 0 {
        Ok(())
    } else {
        page.put(", ")?;
        page.put_count(remarks as u64, "remark")
    }
}
