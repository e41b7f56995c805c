//! Whole explanations.
ghost use Rattle.std.specs.Prelude.{◌≡◌, ◌⊎◌, ◌<◌, ◌^◌, length, IfErr, IfOk, IsTrue, OnErr, OnOk};
ghost use Rattle.std.specs.Io.KnownBytes.{Keeps};
ghost use Rattle.usb_text.specs.Shown.{ends, showing_all};
ghost use Rattle.usb_text.specs.Written.{WritesLess, WritesLines, is_words};
ghost use Rattle.usb_explain.specs.Explanations.{EndsBetween, before_fault, descriptors_of, ending, explanation, first_line, found_of};
ghost use Rattle.usb_explain.specs.LastLines.{remark_count};
ghost use Rattle.usb_remarks.specs.Outline.{bytes_of, outline};
ghost use Rattle.usb_explain.specs.inside.Explaining.{ShowsEach, ShowsExplanation, StopsAtOne, StopsExplanation};

mod last_line;
mod passing_page;

use crate::descriptor_lines::put_descriptor;
use crate::explanation::last_line::put_last_line;
use crate::explanation::passing_page::PassingPage;
use crate::fault_line::{fault_place, put_fault_lines};
use crate::manner::Manner;
use crate::rest_lines::put_rest;
use crate::subject::Subject;
use std::alloc::{AllocError, Global};
use std::io::Write;
use usb_fields::{after, byte_at, descriptor_type, prefix};
use usb_file_data::{Found, Input, InputFault, found_in_order};
use usb_remarks::Outline;
use usb_text::{Lines, OutFault, Page};

/// Writes the explanation of bytes of which this was read: of an input, or of bytes that are none, as far as they go, with
/// their fault and what they look like.
///
/// ```rust
/// let read = read_input(alloc, &bytes);
/// explain(alloc, &bytes, &read, manner, &mut rt.stdout())?;
/// ```
///
/// # Errors
///
/// `Write` where the writer failed, `Memory` when out of memory. The writer has fewer lines then, and maybe a part of one more;
/// of `Memory` nothing, or the first line and all lines of the first descriptors.
pub fn explain<W: Write>(
    alloc: Global,
    bytes: &[u8],
    read: &Result<Input, InputFault>,
    manner: Manner,
    w: &mut W,
) -> Result<(), OutFault>
    ensures ok { OnOk result (WritesLines manner.look.utf8 (ends (explanation manner read.now bytes.now)) (W.contents w.old) (W.contents w.new)) }
    ensures err { OnErr result (WritesLess manner.look.utf8 (ends (explanation manner read.now bytes.now)) (W.contents w.old) (W.contents w.new)) }
    ensures memory { IfErr result (λ fault. fault ≡ OutFault.Memory → Keeps (W.contents w.old) (W.contents w.new) ⊎ EndsBetween manner read.now bytes.now (W.contents w.old) (W.contents w.new)) }
{
    let mut lines = Lines::with_room(alloc, manner.look.utf8)?;
    put_explanation(alloc, &mut lines, bytes, read, manner, w)?;
    lines.finish(w)
}

/// Puts the explanation of bytes of which this was read on a page: the first line, the lines of each descriptor, and what ends it.
fn put_explanation<W: Write, P: PassingPage<W>>(
    alloc: Global,
    page: &mut P,
    bytes: &[u8],
    read: &Result<Input, InputFault>,
    manner: Manner,
    w: &mut W,
) -> Result<(), OutFault>
    ensures shows { OnOk result (ShowsExplanation P.seen P.showing P.passed manner read.now bytes.now page.old w.old page.new w.new) }
    ensures stops { IfErr result (StopsExplanation P.seen P.showing P.passed P.broken manner read.now bytes.now page.old w.old w.new) }
{
    let found = found_of(alloc, read)?;
    let subject = Subject::of(alloc, manner, read)?;
    put_first_line(page, read, bytes)?;
    let put = put_descriptors(page, &subject, before_fault(read, bytes), &found, w)?;
    put_ending(page, manner, read, found.len(), bytes, put)?;
    Ok(())
}

/// What breaks a rule, in the order of the bytes.
fn found_of(alloc: Global, read: &Result<Input, InputFault>) -> Result<Vec<Found>, AllocError>
    ensures { IfOk result (λ found. found.items ≡ found_of read.now) }
{
    match read {
        Ok(input) => found_in_order(alloc, input),
        Err(_) => Ok(Vec::new(alloc)),
    }
}

/// The bytes of which the descriptors are explained: those before the place of a fault.
fn before_fault<'b>(read: &Result<Input, InputFault>, bytes: &'b [u8]) -> &'b [u8]
    ensures { result.now ≡ before_fault read.now bytes.now }
{
    match read {
        Ok(_) => bytes,
        Err(fault) => prefix(bytes, fault_place(*fault)),
    }
}

/// Descriptors whose lines were put.
#[derive(Clone, Copy)]
struct DescriptorsPut {
    /// Where they end.
    end: usize,
    /// How many remarks there are on them, as far as a count goes.
    remarks: usize,
}

/// Puts the lines of the descriptors of these bytes, as their outline has them, and passes them on.
fn put_descriptors<W: Write, P: PassingPage<W>>(
    page: &mut P,
    subject: &Subject,
    bytes: &[u8],
    found: &[Found],
    w: &mut W,
) -> Result<DescriptorsPut, OutFault>
    requires { length (bytes_of (outline subject.now.manner.speed found.now bytes.now)) < 2 ^ 63 }
    ensures shows { OnOk result (ShowsEach P.seen P.showing P.passed subject.now (outline subject.now.manner.speed found.now bytes.now) page.old w.old page.new w.new) }
    ensures end { IfOk result (λ put. put.end ≡ length (bytes_of (outline subject.now.manner.speed found.now bytes.now))) }
    ensures remarks { IfOk result (λ put. put.remarks ≡ remark_count (outline subject.now.manner.speed found.now bytes.now)) }
    ensures stops { IfErr result (StopsAtOne P.seen P.showing P.passed P.broken subject.now (outline subject.now.manner.speed found.now bytes.now) page.old w.old w.new) }
{
    let mut end = 0;
    let mut remarks: usize = 0;
    for descriptor in Outline::of(bytes, subject.manner().speed, found) {
        let more = put_descriptor(page, subject, &descriptor)?;
        page.pass_lines(w)?;
        end += descriptor.bytes.len();
        remarks = remarks.saturating_add(more);
    }
    Ok(DescriptorsPut { end, remarks })
}

/// Puts what ends an explanation, after these descriptors.
#[tactic(auto, using(usb_text::proofs::ShownLines::showing_joined))]
fn put_ending<P: Page>(
    page: &mut P,
    manner: Manner,
    read: &Result<Input, InputFault>,
    findings: usize,
    bytes: &[u8],
    put: DescriptorsPut,
) -> Result<(), AllocError>
    requires findings { findings ≡ length (found_of read.now) }
    requires remarks { put.remarks ≡ remark_count (descriptors_of manner read.now bytes.now) }
    ensures { OnOk result (P.seen page.new ≡ showing_all P.showing (ending manner read.now bytes.now put.end) (P.seen page.old)) }
{
    let rest = after(bytes, put.end);
    match read {
        Ok(_) => {
            put_rest(page, manner.look, put.end, rest)?;
            put_last_line(page, findings, put.remarks)
        }
        Err(fault) => {
            put_fault_lines(page, manner.decoded, *fault, bytes)?;
            put_rest(page, manner.look, put.end, rest)
        }
    }
}

fn put_first_line<P: Page>(
    page: &mut P,
    read: &Result<Input, InputFault>,
    bytes: &[u8],
) -> Result<(), AllocError>
    ensures { OnOk result (P.seen page.new ≡ showing_all P.showing (first_line (length bytes.now)) (P.seen page.old)) }
{
    page.put(match read {
        Ok(input) => input_name(input),
        Err(_) => broken_name(bytes),
    })?;
    page.put(", ")?;
    page.put_count(bytes.len() as u64, "byte")?;
    page.end_line()
}

fn input_name(input: &Input) -> &'static str
    ensures { IsTrue (is_words result.now) }
{
    match input {
        Input::Set(_) => "set",
        Input::File(file) => {
            if file.strings.is_some() {
                "file"
            } else {
                "file, no strings named"
            }
        }
        Input::Dump(_) => "device and its sets without strings",
    }
}

/// What the bytes would have been.
fn broken_name(bytes: &[u8]) -> &'static str
    ensures { IsTrue (is_words result.now) }
{
    match byte_at(bytes, 1) {
        descriptor_type::CONFIGURATION | descriptor_type::OTHER_SPEED_CONFIGURATION => "broken set",
        _ => "broken file",
    }
}
