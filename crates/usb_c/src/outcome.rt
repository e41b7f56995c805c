//! The outcome of a host.
ghost use Rattle.std.specs.Prelude.{◌≡◌, None, Some};
ghost use Rattle.usb_file_data.specs.File.{write_refusal};
ghost use Rattle.usb_file_data.specs.declared.refusal.WriteFault.TheVariants as writes;
ghost use Rattle.usb_host.specs.Steps.{outcome_of};
ghost use Rattle.usb_c.specs.Hosts.{EndsWith, TellsFile, numbered, step_numbers, trouble_numbers};

use crate::answer::Verdict;
use crate::buffer::fill_done;
use std::alloc::Global;
use usb_file::{DescriptorFile, WriteFault, write_file, write_without_strings};
use usb_host::{Host, Step, Trouble};

/// Why an enumeration ended without success.
#[repr(C)]
#[derive(Drop)]
pub struct NzgTrouble {
    /// The reason, from 1 on.
    pub why: u8,
    /// The step, from 1 on.
    pub step: u8,
    /// The index of the set or the string, else 0.
    pub index: u8,
    /// The language of the string, else 0.
    pub language: u16,
}

/// Reports the outcome of a host, if there is one.
pub(crate) fn tell_outcome(
    alloc: Global,
    host: &Host,
    trouble: &mut NzgTrouble,
    out: &mut [u8],
) -> Verdict
    ensures { EndsWith (outcome_of host.now.phase) trouble.old trouble.new out.old out.new result }
{
    match host.outcome() {
        None => Verdict::Open(0),
        Some(Ok(file)) => tell_file(alloc, file, out),
        Some(Err(why)) => {
            *trouble = trouble_numbers(why);
            Verdict::Trouble(why)
        }
    }
}

/// Reports the bytes of a file that was read, or of one whose strings were not asked for.
#[tactic(auto, using(crate::proofs::Reasons::written_reason))]
fn tell_file(alloc: Global, file: &DescriptorFile, out: &mut [u8]) -> Verdict
    ensures { TellsFile file.now out.old out.new result }
{
    match write_file(alloc, file) {
        Ok(bytes) => fill_done(bytes.as_slice(), out),
        Err(WriteFault::Memory) => Verdict::NoMemory,
        Err(WriteFault::Texts) if file.strings.is_none() => tell_unread(alloc, file, out),
        Err(why) => Verdict::Unwritten(why),
    }
}

/// Reports the bytes of a file without the strings that it names.
#[tactic(auto, using(crate::proofs::Reasons::unread_reason))]
fn tell_unread(alloc: Global, file: &DescriptorFile, out: &mut [u8]) -> Verdict
    requires none { file.now.strings ≡ None }
    requires named { write_refusal file.now ≡ Some writes.Texts }
    ensures { TellsFile file.now out.old out.new result }
{
    match write_without_strings(alloc, file) {
        Ok(bytes) => fill_done(bytes.as_slice(), out),
        Err(WriteFault::Memory) => Verdict::NoMemory,
        Err(why) => Verdict::Unwritten(why),
    }
}

/// A step as numbers.
#[derive(Clone, Copy)]
pub struct StepNumbers {
    /// The step, from 1 on; 0 after success.
    pub step: u8,
    /// The index of the set or the string, else 0.
    pub index: u8,
    /// The language of the string, else 0.
    pub language: u16,
}

pub(crate) fn numbered(step: u8, index: u8, language: u16) -> StepNumbers
    ensures { result ≡ numbered step index language }
{
    StepNumbers {
        step,
        index,
        language,
    }
}

/// A step as numbers.
pub(crate) fn step_numbers(step: Step) -> StepNumbers
    ensures { result ≡ step_numbers step }
{
    match step {
        Step::First => numbered(1, 0, 0),
        Step::Address => numbered(2, 0, 0),
        Step::Device => numbered(3, 0, 0),
        Step::Header(index) => numbered(4, index, 0),
        Step::Set(index) => numbered(5, index, 0),
        Step::Qualifier => numbered(6, 0, 0),
        Step::OtherHeader(index) => numbered(7, index, 0),
        Step::OtherSet(index) => numbered(8, index, 0),
        Step::Languages => numbered(9, 0, 0),
        Step::Text { language, index } => numbered(10, index, language),
        Step::Configure => numbered(11, 0, 0),
    }
}

/// A trouble as numbers.
pub(crate) fn trouble_numbers(trouble: Trouble) -> NzgTrouble
    ensures { result ≡ trouble_numbers trouble }
{
    let at = step_numbers(trouble.step);
    NzgTrouble {
        why: trouble.why.number(),
        step: at.step,
        index: at.index,
        language: at.language,
    }
}
