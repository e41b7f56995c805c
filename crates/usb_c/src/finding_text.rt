//! What breaks a rule, in the words of an explanation.
ghost use Rattle.std.specs.Prelude.{◌≡◌, IfOk, OnOk, is_some};
ghost use Rattle.usb_text.specs.Shown.{showing_all};
ghost use Rattle.usb_c.specs.Answers.{AnswersOn};
ghost use Rattle.usb_c.specs.Words.{TellsFinding, TellsIfMemory, cause_by, cause_given, finding_shown, shown_by};

use crate::answer::{Answer, Verdict, refused_input};
use crate::buffer::fill_done;
use crate::finding::NzgFinding;
use std::alloc::{AllocError, Global};
use usb_explain::put_finding_words;
use usb_file::{Input, read_input};
use usb_file_data::{Cause, Found, found_in_order};
use usb_remarks::Outline;
use usb_text::{Lines, Page};

/// Puts what a finding of these bytes says into the buffer, in the words that an explanation has after its rule. Of the struct
/// its place and its rule are looked at.
#[unsafe(no_mangle)]
pub extern "C" fn nzg_finding_text(
    alloc: Global,
    bytes: &[u8],
    finding: &NzgFinding,
    text: &mut [u8],
) -> Answer
    ensures { AnswersOn (TellsFinding finding.now bytes.now text.old text.new) result }
{
    tell_finding(alloc, bytes, finding, text).answer()
}

#[tactic(auto, using(crate::proofs::InputFaults::input_refuses))]
fn tell_finding(alloc: Global, bytes: &[u8], finding: &NzgFinding, out: &mut [u8]) -> Verdict
    ensures { TellsFinding finding.now bytes.now out.old out.new result }
{
    match read_input(alloc, bytes) {
        Ok(input) => tell_in(alloc, &input, bytes, finding, out),
        Err(fault) => refused_input(fault),
    }
}

#[tactic(auto, using(crate::proofs::Worded::words_reported))]
fn tell_in(
    alloc: Global,
    input: &Input,
    bytes: &[u8],
    finding: &NzgFinding,
    out: &mut [u8],
) -> Verdict
    ensures { TellsIfMemory (finding_shown finding.now bytes.now input.now) out.old out.new result }
{
    let mut words = Lines::new(alloc, false);
    match put_words(alloc, &mut words, input, bytes, finding) {
        Ok(true) => fill_done(words.as_bytes(), out),
        Ok(false) => Verdict::BadArgument(13),
        Err(_) => Verdict::NoMemory,
    }
}

/// Puts the words of the finding of an input that a struct says, and answers whether there is one.
fn put_words<P: Page>(
    alloc: Global,
    page: &mut P,
    input: &Input,
    bytes: &[u8],
    finding: &NzgFinding,
) -> Result<bool, AllocError>
    ensures there { IfOk result (λ there. there ≡ is_some (finding_shown finding.now bytes.now input.now)) }
    ensures shows { OnOk result (P.seen page.new ≡ showing_all P.showing (shown_by (finding_shown finding.now bytes.now input.now)) (P.seen page.old)) }
{
    let found = found_in_order(alloc, input)?;
    match cause_in(Outline::of(bytes, None, &found), finding) {
        None => Ok(false),
        Some(cause) => {
            put_finding_words(page, cause)?;
            Ok(true)
        }
    }
}

/// Why the descriptor at the place of a finding breaks its rule, if it does.
fn cause_in(outline: Outline<'_>, finding: &NzgFinding) -> Option<Cause>
    ensures { result ≡ cause_given finding.now outline.entry }
{
    for descriptor in outline {
        if descriptor.at == finding.place {
            return cause_by(descriptor.findings, finding.rule);
        }
    }
    None
}

/// Why this rule is broken, by the first of these findings of it.
fn cause_by(found: &[Found], rule: u8) -> Option<Cause>
    ensures { result ≡ cause_by rule found.now }
{
    let one = found.iter().find(|one| one.finding.rule == rule)?;
    Some(one.cause)
}
