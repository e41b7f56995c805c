//! An enumeration over a bus that loses packets.
ghost use Rattle.std.specs.Prelude.{◌≡◌, map, IfOk};
ghost use Rattle.std.specs.List.{list_all};
ghost use Rattle.usb_listing.specs.Listing.{file_lines};
ghost use Rattle.usb_c.specs.Answers.{Fills};
ghost use Rattle.usb_c.specs.Enumerations.{Enumerates, EnumeratesUnder, TellsRun, fate_given, is_fate, outcome_numbers, trouble_numbers};
ghost use Rattle.usb_c.specs.Transactions.{speed_given};
ghost use Rattle.usb_c.specs.declared.answer.Verdict.TheVariants as verdicts;

use crate::answer::{Verdict, refused_description, refused_file};
use crate::buffer::fill_done;
use crate::outcome::{StepNumbers, numbered, step_numbers};
use crate::transaction::speed_of;
use std::alloc::{AllocError, Global};
use usb_bus::{Fate, Run, enumerate_encoded};
use usb_device::Encoded;
use usb_fields::Speed;
use usb_file::{DescriptorFile, read_file};
use usb_host::{Limits, Trouble};
use usb_listing::list;

/// What came of an enumeration.
#[repr(C)]
#[derive(Drop)]
pub struct NzgOutcome {
    /// How many transactions there were, in all attempts.
    pub transactions: u64,
    /// How many attempts were begun, each by a bus reset.
    pub attempts: u8,
    /// The device's address then.
    pub address: u8,
    /// bConfigurationValue of the selected configuration, or 0 for none.
    pub selected: u8,
    /// After trouble its step, from 1 on, else 0.
    pub step: u8,
    /// The index of the set or the string, else 0.
    pub index: u8,
    /// The language of the string, else 0.
    pub language: u16,
}

/// Enumerates a device with the descriptors of a file, and puts the listing of what was read into the buffer. A fate is
/// one byte a transaction: `.` passes, `n` busy, `d` lost down, `u` lost up, `a` lost ACK.
pub(crate) fn enumerate_bytes(
    alloc: Global,
    bytes: &[u8],
    speed: u8,
    naks: u16,
    attempts: u8,
    fates: &[u8],
    outcome: &mut NzgOutcome,
    text: &mut [u8],
) -> Verdict
    ensures { Enumerates bytes.now (speed_given speed) naks attempts fates.now outcome.old outcome.new text.old text.new result }
{
    let Some(speed) = speed_of(speed) else {
        return Verdict::BadArgument(3);
    };
    let limits = match Limits::new(1, naks, attempts) {
        Ok(limits) => limits,
        Err(fault) => return Verdict::BadArgument(fault.number()),
    };
    if !are_fates(fates) {
        return Verdict::BadArgument(4);
    }
    enumerate_under(alloc, bytes, speed, limits, fates, outcome, text)
}

#[tactic(auto, using(crate::proofs::InputFaults::no_file_runs, crate::proofs::InputFaults::no_description_runs))]
fn enumerate_under(
    alloc: Global,
    bytes: &[u8],
    speed: Speed,
    limits: Limits,
    letters: &[u8],
    outcome: &mut NzgOutcome,
    out: &mut [u8],
) -> Verdict
    ensures { EnumeratesUnder bytes.now speed limits (map fate_given letters.now) outcome.old outcome.new out.old out.new result }
{
    let Ok(fates) = fates_of(alloc, letters) else {
        return Verdict::NoMemory;
    };
    let file = match read_file(alloc, bytes) {
        Ok(file) => file,
        Err(fault) => return refused_file(fault),
    };
    let description = match Encoded::new(alloc, &file, speed) {
        Ok(description) => description,
        Err(fault) => return refused_description(fault),
    };
    // The device needs the bytes alone, and the host makes the file anew.
    drop(file);
    let run = enumerate_encoded(alloc, &description, limits, &fates);
    tell_run(alloc, &run, outcome, out)
}

fn tell_run(alloc: Global, run: &Run, outcome: &mut NzgOutcome, out: &mut [u8]) -> Verdict
    ensures outcome { outcome.new ≡ outcome_numbers run.now }
    ensures verdict { TellsRun run.now.outcome out.old out.new result }
{
    let at = trouble_numbers(&run.outcome);
    outcome.transactions = run.transactions;
    outcome.attempts = run.attempts;
    outcome.address = run.state.address;
    outcome.selected = run.state.selected;
    outcome.step = at.step;
    outcome.index = at.index;
    outcome.language = at.language;
    match &run.outcome {
        Ok(file) => tell_listing(alloc, file, out),
        Err(trouble) => Verdict::Trouble(*trouble),
    }
}

/// The step of the trouble, if there is one.
fn trouble_numbers(outcome: &Result<DescriptorFile, Trouble>) -> StepNumbers
    ensures { result ≡ trouble_numbers outcome.now }
{
    match outcome {
        Ok(_) => numbered(0, 0, 0),
        Err(trouble) => step_numbers(trouble.step),
    }
}

fn tell_listing(alloc: Global, file: &DescriptorFile, out: &mut [u8]) -> Verdict
    ensures { Fills verdicts.Done (file_lines file.now) out.old out.new result }
{
    let mut text = Vec::new(alloc);
    match list(alloc, file, &mut text) {
        Ok(()) => fill_done(text.as_slice(), out),
        Err(_) => Verdict::NoMemory,
    }
}

/// Whether the byte is the letter of a fate.
fn is_fate(letter: u8) -> bool
    ensures { result ≡ is_fate letter }
{
    matches!(letter, b'.' | b'n' | b'd' | b'u' | b'a')
}

pub(crate) fn are_fates(letters: &[u8]) -> bool
    ensures { result ≡ list_all is_fate letters.now }
{
    letters.iter().all(|letter| is_fate(*letter))
}

/// The fate of a letter, where it is one.
fn fate_of(letter: u8) -> Fate
    ensures { result ≡ fate_given letter }
{
    match letter {
        b'n' => Fate::Busy,
        b'd' => Fate::LostDown,
        b'u' => Fate::LostUp,
        b'a' => Fate::LostAck,
        _ => Fate::Pass,
    }
}

pub(crate) fn fates_of(alloc: Global, letters: &[u8]) -> Result<Vec<Fate>, AllocError>
    ensures { IfOk result (λ fates. fates.items ≡ map fate_given letters.now) }
{
    let mut fates = Vec::new(alloc);
    for letter in letters {
        fates.push(fate_of(*letter))?;
    }
    Ok(fates)
}
