//! A listing, read line by line, with comments or without.
ghost use Rattle.std.specs.Prelude.{◌≡◌, MatchOption, None, Some};
ghost use Rattle.usb_listing.specs.Comments.{is_dropped, without_return};
ghost use Rattle.usb_listing.specs.inside.Walking.{line_read};
ghost use Rattle.std.specs.Prelude.{◌≡◌, ◌≢◌, ◌<◌, [], if◌then◌else◌, not, IfErr, IfNone, IfOk, IfSome, Some, false, length, true};
ghost use Rattle.std.specs.List.{list_all};
ghost use Rattle.usb_text.specs.Lines.{is_printable};
ghost use Rattle.usb_listing.specs.Comments.{CommentedRefused, uncommented};
ghost use Rattle.usb_file_data.specs.File.{has_wrong_count, is_other_miscounted};
ghost use Rattle.usb_listing.specs.Listings.{ListRefused, Lists, is_whole};
ghost use Rattle.usb_listing.specs.inside.Drafts.{AreHeld, Holds, Reading, TakesLine, Reported, so_far};
ghost use Rattle.usb_listing.specs.inside.Walking.{Refused, count_before, text_read, Cut, HasNo, has_all_strings};
ghost use Rattle.memchr.specs.Find.{IsFirstByte, is_byte};
ghost use Rattle.usb_file_data.specs.declared.file.DescriptorFile.{DescriptorFile};
ghost use Rattle.usb_listing.specs.declared.fault.ListWhy.TheVariants as whys;

use crate::draft::Draft;
use crate::fault::{ListFault, ListWhy};
use crate::step::step;
use memchr::memchr_iter;
use std::alloc::Global;
use usb_file_data::{DescriptorFile, Other, Strings, count_named};

/// How a text is read.
#[derive(Clone, Copy, Debug, PartialEq, Eq)]
pub(crate) enum Form {
    /// As it stands.
    Exact,
    /// Without lines that are empty or a comment, and without carriage returns at the ends of lines.
    Commented,
}

/// The line without the carriage return that it may end with.
#[tactic(auto, using(crate::proofs::CommentLemmas::return_there, crate::proofs::CommentLemmas::return_elsewhere, crate::proofs::CommentLemmas::return_nowhere))]
fn without_return(line: &[u8]) -> &[u8]
    ensures { result.now ≡ without_return line.now }
{
    match line.split_last() {
        Some((last, rest)) if *last == b'\r' => rest,
        _ => line,
    }
}

/// Whether the line is empty or a comment.
fn is_dropped(line: &[u8]) -> bool
    ensures { result ≡ is_dropped line.now }
{
    match line {
        [] => true,
        [first, ..] => *first == b'#',
    }
}

/// What is read of a line, or nothing where it is dropped.
pub(crate) fn line_read(form: Form, line: &[u8]) -> Option<&[u8]>
    ensures { MatchOption result (line_read form line.now ≡ None) (λ read. line_read form line.now ≡ Some read.now) }
{
    match form {
        Form::Exact => Some(line),
        Form::Commented => {
            let line = without_return(line);
            if is_dropped(line) { None } else { Some(line) }
        }
    }
}

/// Whether a line may have the byte.
fn is_printable(c: u8) -> bool
    ensures { result ≡ is_printable c }
{
    (0x20..=0x7e).contains(&c)
}

/// Whether all bytes are such as a line may have.
fn are_printable(line: &[u8]) -> bool
    ensures { result ≡ list_all is_printable line.now }
{
    line.iter().all(|c| is_printable(*c))
}

/// The place of the first line feed. That is most often near, where an iterator looks before it looks far.
#[inline(always)]
#[tactic(auto, using(crate::proofs::FeedLemmas::first_found))]
fn first_feed(text: &[u8]) -> Option<usize>
    ensures { IsFirstByte (is_byte 10) text.now result }
{
    memchr_iter(b'\n', text).next()
}

/// What is before the first line feed, and after it.
#[tactic(auto, using(crate::proofs::FeedLemmas::feed_found, crate::proofs::FeedLemmas::feed_nowhere))]
fn cut_line(text: &[u8]) -> Option<(&[u8], &[u8])>
    ensures some { IfSome result (λ p. Cut 10 text.now p.0.now p.1.now) }
    ensures shorter { IfSome result (λ p. length p.1.now < length text.now) }
    ensures none { IfNone result (HasNo 10 text.now) }
{
    match first_feed(text) {
        Some(end) => Some((&text[..end], &text[end + 1..])),
        None => None,
    }
}

/// Of a line that was rejected for this reason, the first reason. A line is looked through for bytes that no
/// line has only here, since one that says a descriptor has none.
fn first_reason(line: &[u8], why: ListWhy) -> ListWhy
    ensures { result ≡ (if list_all is_printable line.now then why else ListWhy.Line) }
{
    if are_printable(line) {
        why
    } else {
        ListWhy::Line
    }
}

/// Reads the first line into the draft, or drops it, and gives what is after it.
pub(crate) fn read_next<'a>(
    alloc: Global,
    form: Form,
    draft: &mut Option<Draft>,
    buffer: &mut [u8; 255],
    text: &'a [u8],
    line: usize,
) -> Result<&'a [u8], ListFault>
    requires holds { AreHeld draft.old }
    requires some { text.now ≢ [] }
    ensures ok { IfOk result (λ more. TakesLine form draft.old text.now draft.new more.now) }
    ensures shorter { IfOk result (λ more. length more.now < length text.now) }
    ensures err { IfErr result (λ fault. Reported (so_far draft.old) (text_read form text.now) fault.why) }
    ensures read { IfErr result (λ fault. count_before form text.now 0 ≡ 0) }
    ensures place { IfErr result (λ fault. fault.line ≡ line) }
    ensures room { length buffer.new ≡ 255 }
{
    let Some((first, more)) = cut_line(text) else {
        return Err(ListFault {
            line,
            why: ListWhy::Line,
        });
    };
    let Some(first) = line_read(form, first) else {
        return Ok(more);
    };
    match step(alloc, draft, first, buffer) {
        Ok(()) => Ok(more),
        Err(why) => Err(ListFault {
            line,
            why: first_reason(first, why),
        }),
    }
}

/// Reads all lines, and gives the line that would come next.
fn read_lines(alloc: Global, form: Form, text: &[u8]) -> Result<(Option<Draft>, usize), ListFault>
    ensures ok { IfOk result (λ p. Reading form text.now p.0 [] p.1) }
    ensures err { IfErr result (λ fault. Refused form text.now fault.line fault.why) }
{
    let mut draft = None;
    let mut buffer = [0; 255];
    let mut line = 1;
    let mut rest = text;
    'lines: while !rest.is_empty() {
        rest = read_next(alloc, form, &mut draft, &mut buffer, rest, line)?;
        line += 1;
    }
    Ok((draft, line))
}

/// Whether no set comes next any more.
fn has_all_sets(f: &DescriptorFile) -> bool
    ensures { result ≡ not (has_wrong_count f.now) }
{
    f.sets.len() == usize::from(f.device.configurations) && has_all_other(&f.other)
}

fn has_all_other(other: &Option<Other>) -> bool
    ensures { result ≡ not (is_other_miscounted other.now) }
{
    match other {
        None => true,
        Some(other) => other.sets.len() == usize::from(other.qualifier.configurations),
    }
}

/// Whether no string comes next any more, of `total`.
fn has_all_strings(f: &DescriptorFile, strings: &Option<Strings>, total: usize) -> bool
    ensures { result ≡ has_all_strings f.now strings.now total }
{
    match strings {
        None => count_named(f) == 0,
        Some(strings) => strings.texts.len() == total,
    }
}

/// Whether nothing comes next any more. All else was checked line by line.
#[tactic(auto, using(crate::proofs::WholeLemmas::whole_is))]
fn is_whole(draft: &Draft) -> bool
    requires { Holds draft.now }
    ensures { result ≡ is_whole (Some draft.now.file) }
{
    has_all_sets(&draft.file) && has_all_strings(&draft.file, &draft.file.strings, draft.total)
}

/// The file of a draft, where nothing comes next any more.
pub(crate) fn finish(draft: Option<Draft>, line: usize) -> Result<DescriptorFile, ListFault>
    requires { AreHeld draft }
    ensures ok { IfOk result (λ f. so_far draft ≡ Some f) }
    ensures whole { IfOk result (λ f. is_whole (Some f) ≡ true) }
    ensures err { IfErr result (λ fault. is_whole (so_far draft) ≡ false) }
    ensures place { IfErr result (λ fault. fault ≡ record { line = line; why = ListWhy.Missing }) }
{
    match draft {
        Some(draft) => {
            if is_whole(&draft) {
                Ok(draft.file)
            } else {
                Err(ListFault {
                    line,
                    why: ListWhy::Missing,
                })
            }
        }
        None => Err(ListFault {
            line,
            why: ListWhy::Missing,
        }),
    }
}

/// Reads all lines to a file, where nothing comes next any more.
fn read_file(alloc: Global, form: Form, text: &[u8]) -> Result<DescriptorFile, ListFault>
    ensures ok { IfOk result (λ f. Lists (text_read form text.now) f) }
    ensures err { IfErr result (λ fault. Refused form text.now fault.line fault.why) }
{
    let (draft, line) = read_lines(alloc, form, text)?;
    finish(draft, line)
}

/// The file that the text lists, exactly where it is the listing of a file that has bytes, as [`list`](crate::list)
/// writes it. One pass over the text; no line is copied.
///
/// ```rust
/// let file = assemble(alloc, b"device 0110 00 00 00 40 1234 5678 0100 00 00 00 00\n")?;
/// assert_eq!(rt; (file.device.vendor, file.sets.len()), (0x1234, 0));
/// ```
///
/// # Errors
///
/// Exactly where the text is no such listing, the first line at fault, and in it the first reason; or `Memory` at a line
/// before which all are right, and whose word may stand there.
pub fn assemble(alloc: Global, text: &[u8]) -> Result<DescriptorFile, ListFault>
    ensures ok { IfOk result (λ f. Lists text.now f) }
    ensures only { (f : DescriptorFile) → Lists text.now f → IfErr result (λ fault. fault.why ≡ whys.Memory) }
    ensures err { IfErr result (λ fault. ListRefused text.now fault.line fault.why) }
{
    read_file(alloc, Form::Exact, text)
}

/// The file that a text with comments lists: lines that are empty or begin with `#` are dropped, and so is a carriage
/// return before a line feed. What is kept is read as [`assemble`] reads it.
///
/// ```rust
/// let file = assemble_commented(alloc, b"# A hub\r\n\ndevice 0110 09 00 00 40 1234 5678 0100 00 00 00 00\n")?;
/// assert_eq!(rt; file.device.class, 9);
/// ```
///
/// # Errors
///
/// Those of [`assemble`] for what is kept. The line of a fault is counted among all lines, also those that are dropped.
pub fn assemble_commented(alloc: Global, text: &[u8]) -> Result<DescriptorFile, ListFault>
    ensures ok { IfOk result (λ f. Lists (uncommented text.now) f) }
    ensures only { (f : DescriptorFile) → Lists (uncommented text.now) f → IfErr result (λ fault. fault.why ≡ whys.Memory) }
    ensures err { IfErr result (λ fault. CommentedRefused text.now fault.line fault.why) }
{
    read_file(alloc, Form::Commented, text)
}
