//! A listing as the bytes of its file: a set is written when the next part begins, and let go.
ghost use Rattle.std.specs.Prelude.{◌≡◌, ◌≢◌, ◌<◌, ◌++◌, [], List, ℕ, IfErr, IfOk, OnOk, OnSome, false, length};
ghost use Rattle.usb_file_data.specs.File.{each_string_bytes, strings_bytes};
ghost use Rattle.usb_file_data.specs.declared.file.DescriptorFile.{DescriptorFile};
ghost use Rattle.usb_listing.specs.Comments.{CommentedFaulty, uncommented};
ghost use Rattle.usb_listing.specs.Listings.{IsBytesOf, ListFaulty, Lists, is_whole};
ghost use Rattle.usb_listing.specs.declared.fault.ListWhy.TheVariants as whys;
ghost use Rattle.usb_listing.specs.inside.Drafts.{AreHeld, Reported, so_far};
ghost use Rattle.usb_listing.specs.inside.Growing.{open_sets};
ghost use Rattle.usb_listing.specs.inside.Thinning.{Finished, ReadsOn, Writes, WritesIf, head_bytes, last_bytes, open_count, part_of};
ghost use Rattle.usb_listing.specs.inside.Walking.{Refused, count_before, text_read};

use crate::assembly::{Form, finish, read_next};
use crate::draft::{Draft, push_set};
use crate::fault::{ListFault, ListWhy};
use crate::thinning::{pop_set, thin_last};
use std::alloc::{AllocError, Global};
use usb_fields::{UnitFault, write_units_onto};
use usb_file_data::{DescriptorFile, Strings};
use usb_set::{Configuration, Sequence, encode_onto};

/// A part of a file.
#[derive(Clone, Copy, Debug, PartialEq, Eq)]
enum Part {
    /// None yet.
    Nothing,
    /// The device, and its sets.
    Device,
    /// The qualifier, and the sets of the other speed.
    OtherSpeed,
}

/// The part that the last line is of, strings apart.
fn part_of(draft: &Option<Draft>) -> Part
    ensures { result ≡ part_of draft.now }
{
    match draft {
        None => Part::Nothing,
        Some(draft) => match draft.file.other {
            None => Part::Device,
            Some(_) => Part::OtherSpeed,
        },
    }
}

/// How many sets it has.
fn count_open(draft: &Option<Draft>) -> usize
    ensures { result ≡ open_count draft.now }
{
    match draft {
        None => 0,
        Some(draft) => match &draft.file.other {
            None => draft.file.sets.len(),
            Some(other) => other.sets.len(),
        },
    }
}

/// Writes the last of the sets, if there is one.
#[tactic(auto, using(crate::proofs::DraftLemmas::last_at, crate::proofs::DraftLemmas::last_none), unfolding(usb_file_data::specs::File::whole_set))]
fn write_last(sets: &[Configuration], out: &mut Vec<u8>) -> Result<(), AllocError>
    ensures { OnOk result (out.new.items ≡ out.old.items ++ last_bytes sets.now) }
{
    let count = sets.len();
    if count == 0 {
        return Ok(());
    }
    match encode_onto(&sets[count - 1], out) {
        Ok(()) => Ok(()),
        // A set of a draft has bytes, so that memory is wanting.
        Err(_) => Err(AllocError),
    }
}

/// Writes the last set of the speed that the last lines are of.
fn write_open(f: &DescriptorFile, out: &mut Vec<u8>) -> Result<(), AllocError>
    ensures { OnOk result (out.new.items ≡ out.old.items ++ last_bytes (open_sets f.now f.now.other)) }
{
    match &f.other {
        None => write_last(&f.sets, out),
        Some(other) => write_last(&other.sets, out),
    }
}

/// Writes the descriptor that begins the file, or its other speed after the set before it.
fn write_head(f: &DescriptorFile, out: &mut Vec<u8>) -> Result<(), AllocError>
    ensures { OnOk result (out.new.items ≡ out.old.items ++ head_bytes f.now f.now.other) }
{
    match &f.other {
        None => out.extend_from_slice(&f.device.to_bytes())?,
        Some(other) => {
            write_last(&f.sets, out)?;
            out.extend_from_slice(&other.qualifier.to_bytes())?;
        }
    }
    Ok(())
}

/// Writes what is before the part that the last line began, and lets go of it.
fn write_before(alloc: Global, f: &mut DescriptorFile, out: &mut Vec<u8>) -> Result<(), AllocError>
    ensures { OnOk result (Writes f.old f.new out.old.items out.new.items) }
{
    match pop_set(f) {
        None => write_head(f, out),
        Some(set) => {
            write_open(f, out)?;
            thin_last(alloc, f)?;
            push_set(f, set)
        }
    }
}

/// Does so where the last line began a part: before it, this was the part, with `sets` sets.
fn write_if_begun(
    alloc: Global,
    draft: &mut Option<Draft>,
    part: Part,
    sets: usize,
    out: &mut Vec<u8>,
) -> Result<(), AllocError>
    ensures { OnOk result (WritesIf part sets draft.old draft.new out.old.items out.new.items) }
{
    if part_of(draft) == part && count_open(draft) == sets {
        return Ok(());
    }
    match draft {
        None => Ok(()),
        Some(draft) => write_before(alloc, &mut draft.file, out),
    }
}

/// Writes the strings.
fn write_strings(strings: &Option<Strings>, out: &mut Vec<u8>) -> Result<(), UnitFault>
    ensures { OnOk result (out.new.items ≡ out.old.items ++ strings_bytes strings.now) }
{
    match strings {
        None => Ok(()),
        Some(strings) => {
            write_units_onto(&strings.languages, out)?;
            write_each(&strings.texts, out)
        }
    }
}

fn write_each(texts: &[Sequence<u16>], out: &mut Vec<u8>) -> Result<(), UnitFault>
    ensures { OnOk result (out.new.items ≡ out.old.items ++ each_string_bytes texts.now) }
{
    for units in texts {
        write_units_onto(units, out)?;
    }
    Ok(())
}

/// Writes what is left of a file of which all but the last set and the strings were written.
fn write_rest(f: &DescriptorFile, out: &mut Vec<u8>) -> Option<()>
    ensures { OnSome result (out.new.items ≡ out.old.items ++ last_bytes (open_sets f.now f.now.other) ++ strings_bytes f.now.strings) }
{
    write_open(f, out).ok()?;
    write_strings(&f.strings, out).ok()
}

/// Reads the first line into the draft, writes what is whole since then, and gives what is after the line.
fn read_on<'a>(
    alloc: Global,
    form: Form,
    draft: &mut Option<Draft>,
    buffer: &mut [u8; 255],
    out: &mut Vec<u8>,
    text: &'a [u8],
    line: usize,
) -> Result<&'a [u8], ListFault>
    requires holds { AreHeld draft.old }
    requires some { text.now ≢ [] }
    ensures ok { IfOk result (λ more. ReadsOn form draft.old text.now draft.new more.now out.old.items out.new.items) }
    ensures shorter { IfOk result (λ more. length more.now < length text.now) }
    ensures err { IfErr result (λ fault. fault.why ≢ whys.Memory → Reported (so_far draft.old) (text_read form text.now) fault.why) }
    ensures read { IfErr result (λ fault. fault.why ≢ whys.Memory → count_before form text.now 0 ≡ 0) }
    ensures place { IfErr result (λ fault. fault.line ≡ line) }
    ensures room { length buffer.new ≡ 255 }
{
    let part = part_of(draft);
    let sets = count_open(draft);
    let more = read_next(alloc, form, draft, buffer, text, line)?;
    match write_if_begun(alloc, draft, part, sets, out) {
        Ok(()) => Ok(more),
        Err(_) => Err(ListFault {
            line,
            why: ListWhy::Memory,
        }),
    }
}

/// The bytes of the draft's file, where nothing comes next any more.
fn finish_bytes(draft: Option<Draft>, out: Vec<u8>, line: usize) -> Result<Vec<u8>, ListFault>
    requires { AreHeld draft }
    ensures ok { IfOk result (λ b. Finished draft out.items b.items) }
    ensures err { IfErr result (λ fault. fault.why ≢ whys.Memory → is_whole (so_far draft) ≡ false) }
    ensures place { IfErr result (λ fault. fault.why ≢ whys.Memory → fault ≡ record { line = line; why = ListWhy.Missing }) }
{
    let file = finish(draft, line)?;
    let mut out = out;
    match write_rest(&file, &mut out) {
        Some(()) => Ok(out),
        None => Err(ListFault {
            line,
            why: ListWhy::Memory,
        }),
    }
}

/// Reads all lines, and writes the file.
fn read_bytes(alloc: Global, form: Form, text: &[u8]) -> Result<Vec<u8>, ListFault>
    ensures ok { IfOk result (λ b. IsBytesOf (text_read form text.now) b.items) }
    ensures err { IfErr result (λ fault. fault.why ≢ whys.Memory → Refused form text.now fault.line fault.why) }
{
    let mut draft = None;
    let mut out = Vec::new(alloc);
    let mut buffer = [0; 255];
    let mut line = 1;
    let mut rest = text;
    'lines: while !rest.is_empty() {
        rest = read_on(alloc, form, &mut draft, &mut buffer, &mut out, rest, line)?;
        line += 1;
    }
    finish_bytes(draft, out, line)
}

/// The bytes of the file that the text lists, as [`assemble`](crate::assemble) reads it and `usb_file::write_file` writes
/// it. The file is never held whole: a set is written when the next part begins, and then let go.
///
/// ```rust
/// let bytes = assemble_bytes(alloc, b"device 0110 00 00 00 40 1234 5678 0100 00 00 00 00\n")?;
/// assert_eq!(rt; bytes.as_slice(), [18, 1, 0x10, 1, 0, 0, 0, 64, 0x34, 0x12, 0x78, 0x56, 0, 1, 0, 0, 0, 0]);
/// ```
///
/// # Errors
///
/// Exactly where the text lists no file that has bytes, what `assemble` says of it; or `Memory`, with the line that was
/// read last or the one after the last.
pub fn assemble_bytes(alloc: Global, text: &[u8]) -> Result<Vec<u8>, ListFault>
    ensures ok { IfOk result (λ b. IsBytesOf text.now b.items) }
    ensures only { (f : DescriptorFile) → Lists text.now f → IfErr result (λ fault. fault.why ≡ whys.Memory) }
    ensures err { IfErr result (λ fault. fault.why ≢ whys.Memory → ListFaulty text.now fault.line fault.why) }
{
    read_bytes(alloc, Form::Exact, text)
}

/// The bytes of the file that a text with comments lists: what [`assemble_commented`](crate::assemble_commented) drops is
/// dropped, and what is kept is read as [`assemble_bytes`] reads it.
///
/// ```rust
/// let bytes = assemble_bytes_commented(alloc, b"# A hub\r\n\ndevice 0110 09 00 00 40 1234 5678 0100 00 00 00 00\n")?;
/// assert_eq!(rt; bytes[4], 9);
/// ```
///
/// # Errors
///
/// Those of [`assemble_bytes`] for what is kept. The line of a fault is counted among all lines, also those that are dropped.
pub fn assemble_bytes_commented(alloc: Global, text: &[u8]) -> Result<Vec<u8>, ListFault>
    ensures ok { IfOk result (λ b. IsBytesOf (uncommented text.now) b.items) }
    ensures only { (f : DescriptorFile) → Lists (uncommented text.now) f → IfErr result (λ fault. fault.why ≡ whys.Memory) }
    ensures err { IfErr result (λ fault. fault.why ≢ whys.Memory → CommentedFaulty text.now fault.line fault.why) }
{
    read_bytes(alloc, Form::Commented, text)
}
