//! Texts, from a buffer into a buffer: what `usbdesc` writes.
ghost use Rattle.std.specs.Prelude.{◌≡◌, List, ℕ, IfOk};
ghost use Rattle.usb_explain.specs.Explanations.{IsExplanation};
ghost use Rattle.usb_file_data.specs.Findings.{input_findings};
ghost use Rattle.usb_file_data.specs.File.{File};
ghost use Rattle.usb_listing.specs.Listing.{set_lines, input_lines};
ghost use Rattle.usb_file_data.specs.FindingLine.{check_text};
ghost use Rattle.usb_c.specs.Answers.{Fills};
ghost use Rattle.usb_c.specs.Hosts.{PutsFile};
ghost use Rattle.usb_c.specs.Texts.{Builds, Checks, Explains, Shows, manner_given, running_speed_given};
ghost use Rattle.usb_c.specs.declared.answer.Verdict.TheVariants as verdicts;

use crate::answer::{Verdict, refused_input, refused_list, wants_memory};
use crate::buffer::{fill_broken, fill_done};
use crate::taken::{read_checked, read_listing, read_shown};
use std::alloc::{AllocError, Global};
use usb_explain::{Look, Manner, explain};
use usb_file::{DescriptorFile, Input, WriteFault, read_input, write_file};
use usb_file_data::{InputFault, check_input, findings_text};
use usb_listing::{list_input, list_set};
use usb_remarks::SetSpeed;
use usb_set::Configuration;
use usb_text::OutFault;

/// Puts the listing of a set or a file into the buffer, and with `any` that of a dump too: a line for each descriptor.
#[tactic(auto, using(crate::proofs::Taking::show_refuses))]
pub(crate) fn show(alloc: Global, bytes: &[u8], any: bool, out: &mut [u8]) -> Verdict
    ensures { Shows any bytes.now out.old out.new result }
{
    match read_shown(alloc, bytes, any) {
        Ok(input) => show_input(alloc, &input, out),
        Err(fault) => refused_input(fault),
    }
}

/// Puts the listing of a set into the buffer.
pub(crate) fn fill_set(alloc: Global, set: &Configuration, out: &mut [u8]) -> Verdict
    ensures { Fills verdicts.Done (set_lines set.now) out.old out.new result }
{
    let mut text = Vec::new(alloc);
    match list_set(alloc, set, &mut text) {
        Ok(()) => fill_done(text.as_slice(), out),
        Err(_) => Verdict::NoMemory,
    }
}

fn show_input(alloc: Global, input: &Input, out: &mut [u8]) -> Verdict
    ensures { Fills verdicts.Done (input_lines input.now) out.old out.new result }
{
    match lines_of_input(alloc, input) {
        Ok(text) => fill_done(text.as_slice(), out),
        Err(_) => Verdict::NoMemory,
    }
}

fn lines_of_input(alloc: Global, input: &Input) -> Result<Vec<u8>, OutFault>
    ensures { IfOk result (λ text. text.items ≡ input_lines input.now) }
{
    let mut text = Vec::new(alloc);
    list_input(alloc, input, &mut text)?;
    Ok(text)
}

/// Puts a line for each finding in a file into the buffer, with `any` in a set or a dump too, or `no findings`.
#[tactic(auto, using(crate::proofs::Taking::check_refuses))]
pub(crate) fn check(alloc: Global, bytes: &[u8], any: bool, out: &mut [u8]) -> Verdict
    ensures { Checks any bytes.now out.old out.new result }
{
    match read_checked(alloc, bytes, any) {
        Ok(input) => check_whole(alloc, &input, out),
        Err(fault) => refused_input(fault),
    }
}

fn check_whole(alloc: Global, input: &Input, out: &mut [u8]) -> Verdict
    ensures { Fills verdicts.Done (check_text (input_findings input.now)) out.old out.new result }
{
    match check_text(alloc, input) {
        Ok(text) => fill_done(text.as_slice(), out),
        Err(_) => Verdict::NoMemory,
    }
}

fn check_text(alloc: Global, input: &Input) -> Result<Vec<u8>, AllocError>
    ensures { IfOk result (λ text. text.items ≡ check_text (input_findings input.now)) }
{
    let found = check_input(alloc, input)?;
    findings_text(alloc, &found)
}

/// How an explanation is written.
pub(crate) fn manner(options: u32, speed: u8) -> Manner
    ensures { result ≡ manner_given options speed }
{
    Manner {
        look: Look {
            brief: options % 2 == 1,
            places: options / 2 % 2 == 1,
            utf8: options / 4 % 2 == 1,
            formats: options / 8 % 2 == 1,
        },
        speed: running_speed(speed),
        decoded: false,
    }
}

pub(crate) fn running_speed(number: u8) -> Option<SetSpeed>
    ensures { result ≡ running_speed_given number }
{
    match number {
        1 => Some(SetSpeed::Low),
        2 => Some(SetSpeed::Full),
        3 => Some(SetSpeed::High),
        4 => Some(SetSpeed::Super),
        _ => None,
    }
}

/// Puts the explanation of bytes into the buffer: of an input all of it, else what is before the fault, the fault and
/// the rest. Options: bit 0 leaves out the fields, bit 1 gives each heading its place, bit 2 writes characters beyond
/// ASCII, bit 3 tells formats apart in their headings. A speed: 1 low, 2 full, 3 high, 4 super; any other says nothing of it.
pub(crate) fn explain_bytes(alloc: Global, bytes: &[u8], manner: Manner, out: &mut [u8]) -> Verdict
    ensures { Explains manner bytes.now out.old out.new result }
{
    let read = read_input(alloc, bytes);
    match read {
        Ok(_) => match explained(alloc, bytes, &read, manner) {
            Ok(text) => fill_done(text.as_slice(), out),
            Err(_) => Verdict::NoMemory,
        },
        Err(fault) => {
            if wants_memory(fault) {
                return Verdict::NoMemory;
            }
            match explained(alloc, bytes, &read, manner) {
                Ok(text) => fill_broken(fault, text.as_slice(), out),
                Err(_) => Verdict::NoMemory,
            }
        }
    }
}

/// The explanation of bytes of which this was read.
fn explained(
    alloc: Global,
    bytes: &[u8],
    read: &Result<Input, InputFault>,
    manner: Manner,
) -> Result<Vec<u8>, OutFault>
    ensures { IfOk result (λ text. IsExplanation manner read.now bytes.now text.items) }
{
    let mut text = Vec::new(alloc);
    explain(alloc, bytes, read, manner, &mut text)?;
    Ok(text)
}

/// Puts the bytes of the file that a text lists into the buffer. With `comments` lines that are empty or begin with `#` are
/// dropped, and so is a carriage return before a line feed.
#[tactic(auto, using(crate::proofs::InputFaults::list_refuses))]
pub(crate) fn build(alloc: Global, text: &[u8], comments: bool, out: &mut [u8]) -> Verdict
    ensures { Builds comments text.now out.old out.new result }
{
    match read_listing(alloc, text, comments) {
        Ok(file) => build_file(alloc, &file, out),
        Err(fault) => refused_list(fault),
    }
}

pub(crate) fn build_file(alloc: Global, file: &DescriptorFile, out: &mut [u8]) -> Verdict
    requires { (b : List ℕ) × File file.now b }
    ensures { PutsFile file.now out.old out.new result }
{
    match bytes_of(alloc, file) {
        Ok(bytes) => fill_done(bytes.as_slice(), out),
        Err(_) => Verdict::NoMemory,
    }
}

fn bytes_of(alloc: Global, file: &DescriptorFile) -> Result<Vec<u8>, AllocError>
    requires { (b : List ℕ) × File file.now b }
    ensures { IfOk result (λ b. File file.now b.items) }
{
    match write_file(alloc, file) {
        Ok(bytes) => Ok(bytes),
        Err(WriteFault::Memory) => Err(AllocError),
        Err(_) => unreachable!(),
    }
}
