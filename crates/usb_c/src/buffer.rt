//! The caller's buffers.
ghost use Rattle.std.specs.Prelude.{◌≡◌, ◌<◌, ◌++◌, drop, length, true, false};
ghost use Rattle.usb_c.specs.Answers.{Puts};
ghost use Rattle.usb_c.specs.declared.answer.Verdict.TheVariants as verdicts;
ghost use Rattle.usb_c.specs.Answers.{AnswersOn};
ghost use Rattle.usb_c.specs.Enumerations.{Enumerates};
ghost use Rattle.usb_c.specs.Explaining.{ExplainsBy, is_hex, is_loose};
ghost use Rattle.usb_c.specs.Texts.{Builds, Checks, Shows, manner_given};
ghost use Rattle.usb_c.specs.Transactions.{speed_given};

use crate::answer::{Answer, Verdict};
use crate::enumeration::{NzgOutcome, enumerate_bytes};
use crate::explaining::explain_by;
use crate::text::{build, check, show};
use std::alloc::Global;
use usb_file_data::InputFault;

/// Puts a text or other items into the first places of the buffer, where it has room.
pub(crate) fn fill<T: Copy + Drop>(items: &[T], out: &mut [T]) -> bool
    ensures whole { result ≡ true → out.new ≡ items.now ++ drop (length items.now) out.old }
    ensures short { result ≡ false → (length out.old < length items.now) × (out.new ≡ out.old) }
{
    let length = items.len();
    if out.len() < length {
        return false;
    }
    out[..length].copy_from_slice(items);
    true
}

/// Puts a text or other items into the buffer, and answers how many they are.
pub(crate) fn fill_done<T: Copy + Drop>(items: &[T], out: &mut [T]) -> Verdict
    ensures { Puts verdicts.Done items.now out.old out.new result }
{
    if fill(items, out) {
        Verdict::Done(items.len())
    } else {
        Verdict::NoRoom(items.len())
    }
}

/// Puts the explanation of broken bytes into the buffer, and answers its length and the fault.
pub(crate) fn fill_broken(fault: InputFault, text: &[u8], out: &mut [u8]) -> Verdict
    ensures { Puts (verdicts.Broken fault) text.now out.old out.new result }
{
    if fill(text, out) {
        Verdict::Broken(fault, text.len())
    } else {
        Verdict::NoRoom(text.len())
    }
}

/// Puts the listing of bytes into the buffer: a line for each descriptor. They are one set where the second byte is that of
/// one, and else a descriptor file; with `any` a dump too.
#[unsafe(no_mangle)]
pub extern "C" fn nzg_show(alloc: Global, bytes: &[u8], any: bool, text: &mut [u8]) -> Answer
    ensures { AnswersOn (Shows any bytes.now text.old text.new) result }
{
    show(alloc, bytes, any, text).answer()
}

/// Puts a line for each finding in a descriptor file into the buffer, or `no findings`; with `any` also in one set or a dump.
#[unsafe(no_mangle)]
pub extern "C" fn nzg_check(alloc: Global, bytes: &[u8], any: bool, text: &mut [u8]) -> Answer
    ensures { AnswersOn (Checks any bytes.now text.old text.new) result }
{
    check(alloc, bytes, any, text).answer()
}

/// Puts the explanation of bytes into the buffer: of a set, a file or a dump all of it, else what is before the fault, the fault and
/// the rest. Options: bit 0 leaves out the fields, bit 1 gives each heading its place, bit 2 writes characters beyond
/// ASCII, bit 3 tells formats apart in their headings, bit 4 takes the bytes for a fragment, of which no owner is asked for, and
/// bit 5 for hexadecimal text. A speed: 1 low, 2 full, 3 high, 4 super; any other says nothing of it.
#[unsafe(no_mangle)]
pub extern "C" fn nzg_explain(
    alloc: Global,
    bytes: &[u8],
    options: u32,
    speed: u8,
    text: &mut [u8],
) -> Answer
    ensures { AnswersOn (ExplainsBy (is_hex options) (is_loose options) (manner_given options speed) bytes.now text.old text.new) result }
{
    explain_by(alloc, bytes, options, speed, text).answer()
}

/// Puts the bytes of the file that a text lists into the buffer. With `comments` lines that are empty or begin with `#` are
/// dropped, and so is a carriage return before a line feed.
#[unsafe(no_mangle)]
pub extern "C" fn nzg_build(alloc: Global, text: &[u8], comments: bool, bytes: &mut [u8]) -> Answer
    ensures { AnswersOn (Builds comments text.now bytes.old bytes.new) result }
{
    build(alloc, text, comments, bytes).answer()
}

/// Enumerates a device with the descriptors of a file, and puts the listing of what was read into the buffer. A fate is
/// one byte a transaction: `.` passes, `n` busy, `d` lost down, `u` lost up, `a` lost ACK.
#[unsafe(no_mangle)]
pub extern "C" fn nzg_enumerate(
    alloc: Global,
    bytes: &[u8],
    speed: u8,
    naks: u16,
    attempts: u8,
    fates: &[u8],
    outcome: &mut NzgOutcome,
    text: &mut [u8],
) -> Answer
    ensures { AnswersOn (Enumerates bytes.now (speed_given speed) naks attempts fates.now outcome.old outcome.new text.old text.new) result }
{
    enumerate_bytes(alloc, bytes, speed, naks, attempts, fates, outcome, text).answer()
}
