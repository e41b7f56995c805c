//! What breaks a rule, as numbers, and each rule in words.
ghost use Rattle.std.specs.Prelude.{◌≡◌, ◌+◌, ◌≤◌, ◌++◌, None, drop, flat_map, length, take};
ghost use Rattle.usb_file_data.specs.Inputs.{IsInput};
ghost use Rattle.usb_file_data.specs.Numbers.{rule_numbered};
ghost use Rattle.usb_remarks.specs.Outline.{described, outline};
ghost use Rattle.usb_c.specs.Answers.{AnswersOn, Fills};
ghost use Rattle.usb_c.specs.Facts.{Finds, TellsRule, placed, placed_at, placed_findings};
ghost use Rattle.usb_c.specs.declared.answer.Verdict.TheVariants as verdicts;

use crate::answer::{Answer, Verdict, refused_input};
use crate::buffer::fill_done;
use std::alloc::Global;
use usb_file::{Input, read_input};
use usb_file_data::{Found, Rule, found_in_order};
use usb_remarks::laws::each_finding_is_reported_once;
use usb_remarks::{Descriptor, Outline};
use usb_walk::{part_number, role_number};

/// A broken rule at the descriptor that breaks it: the struct `nzg_finding` of nozzlegorse.h.
#[repr(C)]
#[derive(Clone, Copy, Drop)]
pub struct NzgFinding {
    /// of the descriptor's first byte
    pub place: usize,
    /// number of the set in its part, from 0
    pub set: usize,
    /// number of the setting in its set, from 0
    pub setting: usize,
    /// number of the endpoint in its setting, from 0
    pub endpoint: usize,
    /// from 1 to 13
    pub rule: u8,
    /// 0 the device, 1 its sets, 2 its qualifier and the sets of the other speed
    pub part: u8,
    /// what the descriptor is
    pub role: u8,
}

/// Puts what breaks a rule in a set, a file or a dump into the buffer, in the order of the bytes.
#[unsafe(no_mangle)]
pub extern "C" fn nzg_findings(alloc: Global, bytes: &[u8], found: &mut [NzgFinding]) -> Answer
    ensures { AnswersOn (Finds bytes.now found.old found.new) result }
{
    find(alloc, bytes, found).answer()
}

#[tactic(auto, using(crate::proofs::InputFaults::input_refuses))]
fn find(alloc: Global, bytes: &[u8], out: &mut [NzgFinding]) -> Verdict
    ensures { Finds bytes.now out.old out.new result }
{
    match read_input(alloc, bytes) {
        Ok(input) => find_in(alloc, &input, bytes, out),
        Err(fault) => refused_input(fault),
    }
}

fn find_in(alloc: Global, input: &Input, bytes: &[u8], out: &mut [NzgFinding]) -> Verdict
    requires { IsInput input.now bytes.now }
    ensures { Fills verdicts.Done (placed_findings bytes.now input.now) out.old out.new result }
{
    each_finding_is_reported_once();
    match found_in_order(alloc, input) {
        Ok(found) => put_found(bytes, &found, out),
        Err(_) => Verdict::NoMemory,
    }
}

/// Puts the findings that stand at the descriptors, which are all of these.
#[tactic(auto, using(crate::proofs::Placed::placed_count, crate::proofs::Placed::none_placed))]
fn put_found(bytes: &[u8], found: &[Found], out: &mut [NzgFinding]) -> Verdict
    requires { flat_map (λ d. d.findings) (outline None found.now bytes.now) ≡ found.now }
    ensures { Fills verdicts.Done (flat_map placed_at (outline None found.now bytes.now)) out.old out.new result }
{
    if found.is_empty() {
        return Verdict::Done(0);
    }
    if out.len() < found.len() {
        return Verdict::NoRoom(found.len());
    }
    put_all(Outline::of(bytes, None, found), out);
    Verdict::Done(found.len())
}

fn put_all(outline: Outline<'_>, out: &mut [NzgFinding])
    requires { length (flat_map placed_at outline) ≤ length out.old }
    ensures { out.new ≡ flat_map placed_at outline.entry ++ drop (length (flat_map placed_at outline.entry)) out.old }
{
    let mut filled = 0;
    for descriptor in outline {
        filled = put_at(&descriptor, out, filled);
    }
}

/// Puts the findings of a descriptor after the `filled` first. Answers how many there are then.
fn put_at(descriptor: &Descriptor, out: &mut [NzgFinding], filled: usize) -> usize
    requires { filled + length (placed_at (described descriptor.now)) ≤ length out.old }
    ensures out { out.new ≡ take filled out.old ++ placed_at (described descriptor.now) ++ drop (filled + length (placed_at (described descriptor.now))) out.old }
    ensures filled { result ≡ filled + length (placed_at (described descriptor.now)) }
{
    for (number, found) in descriptor.findings.iter().enumerate() {
        out[filled + number] = placed(descriptor, found);
    }
    filled + descriptor.findings.len()
}

/// A finding, with the place and the role of the descriptor at which it stands.
fn placed(descriptor: &Descriptor, found: &Found) -> NzgFinding
    ensures { result ≡ placed (described descriptor.now) found.now }
{
    let finding = found.finding;
    NzgFinding {
        place: descriptor.at,
        set: finding.set,
        setting: finding.setting,
        endpoint: finding.endpoint,
        rule: finding.rule,
        part: part_number(finding.part),
        role: role_number(descriptor.role),
    }
}

/// Puts what breaks a rule, in words, into the buffer.
#[unsafe(no_mangle)]
pub extern "C" fn nzg_rule(rule: u8, text: &mut [u8]) -> Answer
    ensures { AnswersOn (TellsRule (rule_numbered rule) text.old text.new) result }
{
    put_rule(Rule::of(rule), text).answer()
}

fn put_rule(rule: Option<Rule>, out: &mut [u8]) -> Verdict
    ensures { TellsRule rule out.old out.new result }
{
    match rule {
        Some(rule) => fill_done(rule.message().as_bytes(), out),
        None => Verdict::BadArgument(5),
    }
}
