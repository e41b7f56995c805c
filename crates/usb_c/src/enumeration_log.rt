//! The log of an enumeration.
ghost use Rattle.std.specs.Prelude.{◌≡◌, IfOk, map};
ghost use Rattle.usb_c.specs.Transactions.{speed_given};
ghost use Rattle.usb_c.specs.Answers.{AnswersOn};
ghost use Rattle.usb_c.specs.Enumerations.{Logs, LogsUnder, TellsLogOf, fate_given};

use crate::answer::{Answer, Verdict, refused_description, refused_file};
use crate::buffer::fill_done;
use crate::enumeration::{are_fates, fates_of};
use crate::transaction::speed_of;
use std::alloc::Global;
use usb_bus::{Fate, enumerate_encoded_logged};
use usb_device::Encoded;
use usb_fields::Speed;
use usb_file::read_file;
use usb_host::{Limits, Trouble, Why};

/// Enumerates a device with the descriptors of a file as [`nzg_enumerate`](crate::nzg_enumerate) does, and puts the log into the
/// buffer, with success or without.
#[unsafe(no_mangle)]
pub extern "C" fn nzg_enumerate_log(
    alloc: Global,
    bytes: &[u8],
    speed: u8,
    naks: u16,
    attempts: u8,
    fates: &[u8],
    text: &mut [u8],
) -> Answer
    ensures { AnswersOn (Logs bytes.now (speed_given speed) naks attempts fates.now text.old text.new) result }
{
    log_bytes(alloc, bytes, speed, naks, attempts, fates, text).answer()
}

fn log_bytes(
    alloc: Global,
    bytes: &[u8],
    speed: u8,
    naks: u16,
    attempts: u8,
    fates: &[u8],
    out: &mut [u8],
) -> Verdict
    ensures { Logs bytes.now (speed_given speed) naks attempts fates.now out.old out.new result }
{
    let Some(speed) = speed_of(speed) else {
        return Verdict::BadArgument(3);
    };
    let limits = match Limits::new(1, naks, attempts) {
        Ok(limits) => limits,
        Err(fault) => return Verdict::BadArgument(fault.number()),
    };
    if !are_fates(fates) {
        return Verdict::BadArgument(4);
    }
    log_under(alloc, bytes, speed, limits, fates, out)
}

#[tactic(auto, using(crate::proofs::InputFaults::no_file_runs, crate::proofs::InputFaults::no_description_runs))]
fn log_under(
    alloc: Global,
    bytes: &[u8],
    speed: Speed,
    limits: Limits,
    letters: &[u8],
    out: &mut [u8],
) -> Verdict
    ensures { LogsUnder bytes.now speed limits (map fate_given letters.now) out.old out.new result }
{
    let Ok(fates) = fates_of(alloc, letters) else {
        return Verdict::NoMemory;
    };
    let file = match read_file(alloc, bytes) {
        Ok(file) => file,
        Err(fault) => return refused_file(fault),
    };
    let description = match Encoded::new(alloc, &file, speed) {
        Ok(description) => description,
        Err(fault) => return refused_description(fault),
    };
    // The device needs the bytes alone.
    drop(file);
    log_description(alloc, &description, limits, &fates, out)
}

fn log_description(
    alloc: Global,
    description: &Encoded,
    limits: Limits,
    fates: &[Fate],
    out: &mut [u8],
) -> Verdict
    ensures { TellsLogOf description.now.file description.now.speed limits fates.now out.old out.new result }
{
    let mut log = Vec::new(alloc);
    match enumerate_encoded_logged(alloc, description, limits, fates, false, &mut log) {
        Ok(run) => match run.outcome {
            Err(
                Trouble {
                    why: Why::Memory,
                    ..
                },
            ) => Verdict::NoMemory,
            _ => fill_done(log.as_slice(), out),
        },
        Err(_) => Verdict::NoMemory,
    }
}
