//! What is made of an input: its listing, or what is found and remarked.
ghost use Rattle.std.specs.Prelude.{◌≡◌, IfErr, IfOk};
ghost use Rattle.usb_file_data.specs.FindingLine.{check_text, finding_lines};
ghost use Rattle.usb_file_data.specs.Findings.{input_findings};
ghost use Rattle.usb_listing.specs.Listing.{input_lines};
ghost use Rattle.usb_tool.specs.Endings.{AppendsNone};
ghost use Rattle.usb_tool.specs.Works.{RemarksAddLines, checked_lines, lines_or_none, found_status, work_extent, work_status, work_text};
ghost use Rattle.usb_tool.specs.inside.Telling.{EndsWith, IsCut, IsCutShort};

use crate::fault::ToolFault;
use crate::output::{finish, write_flushed};
use std::alloc::{AllocError, Global};
use std::io::Write;
use usb_file::Input;
use usb_file_data::{Finding, check_input, findings_text, found_in_order};
use usb_listing::list_input;
use usb_remarks::{SetSpeed, remarks_text};

/// What is made of an input.
#[derive(Clone, Copy, Debug, PartialEq, Eq, Hash)]
pub enum Work {
    /// Its listing: a line for each descriptor, in the order of the input.
    List,
    /// A line for each thing in it that breaks a rule of chapter 9, or `no findings`.
    Check,
    /// The same, and then a line for each remark, in the order of the bytes. The device ran at this speed, if that is known.
    Remark(Option<SetSpeed>),
}

impl Work {
    /// Writes what is made of an input that these bytes are, and flushes the writer. A listing needs no bytes, nor do findings.
    pub(crate) fn write<W: Write>(
        self,
        alloc: Global,
        input: &Input,
        bytes: &[u8],
        w: &mut W,
    ) -> Result<u8, ToolFault>
        ensures ok { IfOk result (EndsWith (work_text self input.now bytes.now) (work_status self input.now bytes.now) (W.contents w.old) (W.contents w.new)) }
        ensures err { IfErr result (IsCut (work_extent self) (work_text self input.now bytes.now) (W.contents w.old) (W.contents w.new)) }
    {
        match self {
            Work::List => write_listing(alloc, input, w),
            Work::Check => write_findings(alloc, input, w),
            Work::Remark(speed) => write_remarks(alloc, input, bytes, w, speed),
        }
    }
}

/// Writes the lines of an input.
#[tactic(auto, using(crate::proofs::Written::flushed, crate::proofs::Written::not_flushed))]
fn write_listing<W: Write>(alloc: Global, input: &Input, w: &mut W) -> Result<u8, ToolFault>
    ensures ok { IfOk result (EndsWith (input_lines input.now) 0 (W.contents w.old) (W.contents w.new)) }
    ensures err { IfErr result (IsCutShort (input_lines input.now) (W.contents w.old) (W.contents w.new)) }
{
    list_input(alloc, input, w)?;
    finish(w)?;
    Ok(0)
}

/// Writes what is found in the input.
fn write_findings<W: Write>(alloc: Global, input: &Input, w: &mut W) -> Result<u8, ToolFault>
    ensures ok { IfOk result (EndsWith (check_text (input_findings input.now)) (found_status (input_findings input.now)) (W.contents w.old) (W.contents w.new)) }
    ensures err { IfErr result (IsCut AppendsNone (check_text (input_findings input.now)) (W.contents w.old) (W.contents w.new)) }
{
    let found = check_input(alloc, input)?;
    let text = findings_text(alloc, &found)?;
    write_flushed(w, &text)?;
    Ok(found_status(&found))
}

/// Writes what is found and remarked in the input.
fn write_remarks<W: Write>(
    alloc: Global,
    input: &Input,
    bytes: &[u8],
    w: &mut W,
    speed: Option<SetSpeed>,
) -> Result<u8, ToolFault>
    ensures ok { IfOk result (EndsWith (lines_or_none (checked_lines speed input.now bytes.now)) (found_status (checked_lines speed input.now bytes.now)) (W.contents w.old) (W.contents w.new)) }
    ensures err { IfErr result (IsCut AppendsNone (lines_or_none (checked_lines speed input.now bytes.now)) (W.contents w.old) (W.contents w.new)) }
{
    let lines = checked_lines(alloc, input, bytes, speed)?;
    write_flushed(w, lines_or_none(&lines))?;
    Ok(found_status(&lines))
}

/// The lines of findings, and then those of remarks.
fn checked_lines(
    alloc: Global,
    input: &Input,
    bytes: &[u8],
    speed: Option<SetSpeed>,
) -> Result<Vec<u8>, AllocError>
    ensures { IfOk result (λ lines. lines.items ≡ checked_lines speed input.now bytes.now) }
{
    let mut lines = finding_lines(alloc, &check_input(alloc, input)?)?;
    let found = found_in_order(alloc, input)?;
    let remarks = remarks_text(alloc, bytes, speed, &found)?;
    lines.extend_from_slice(&remarks)?;
    Ok(lines)
}

/// The lines of findings, none where there are none.
fn finding_lines(alloc: Global, found: &[Finding]) -> Result<Vec<u8>, AllocError>
    ensures { IfOk result (λ lines. lines.items ≡ finding_lines found.now) }
{
    match found {
        [] => Ok(Vec::new(alloc)),
        [_, ..] => findings_text(alloc, found),
    }
}

/// The lines, or the one that there is none.
fn lines_or_none(lines: &[u8]) -> &[u8]
    ensures { result.now ≡ lines_or_none lines.now }
{
    match lines {
        [] => b"no findings\n",
        [_, ..] => lines,
    }
}

/// 1 where there is something.
fn found_status<T>(found: &[T]) -> u8
    ensures { result ≡ found_status found.now }
{
    match found {
        [] => 0,
        [_, ..] => 1,
    }
}

/// A remark changes neither findings nor how many there are: where something is found, what `check` writes with remarks is what
/// it writes without them, and then the lines of remarks.
pub fn remarks_add_lines_alone()
    ensures { RemarksAddLines }
{}
