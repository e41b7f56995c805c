//! A host that enumerates, by a handle.
ghost use Rattle.std.specs.Prelude.{◌≡◌, None, Some, is_some, unwrap_or, []};
ghost use Rattle.std.specs.Option.{option_and_then, option_map};
ghost use Rattle.usb_fields.specs.Packets.{Sent};
ghost use Rattle.usb_host.specs.Steps.{WantsSent, reset, wanted};
ghost use Rattle.usb_c.specs.Answers.{AnswersOn};
ghost use Rattle.usb_c.specs.Hosts.{Ends, HostOpens, TakesOne, action_number, asked_in, resets_of, transaction_due};
ghost use Rattle.usb_c.specs.Transactions.{reply_given, sent_given, speed_given};

use crate::answer::{Answer, Verdict};
use crate::host_handle::NzgHost;
use crate::host_opening::open;
use crate::outcome::{NzgTrouble, tell_outcome};
use crate::step::{NzgStep, tell_step};
use crate::transaction::{NzgTransaction, answer_of, speed_of, transaction_numbers};
use std::alloc::Global;
use std::mem::replace;
use usb_host::{Action, Choice};

/// Opens a host that has done nothing, and asks for all that a descriptor file has. One that is held already is freed.
#[unsafe(no_mangle)]
pub extern "C" fn nzg_host_open(
    alloc: Global,
    host: &mut NzgHost,
    address: u8,
    naks: u16,
    attempts: u8,
    speed: u8,
) -> Answer
    ensures { AnswersOn (HostOpens address naks attempts (speed_given speed) host.new.held) result }
{
    let (speed, choice) = (speed_of(speed), Some(Choice::everything()));
    open(alloc, host, address, naks, attempts, speed, choice).answer()
}

/// What comes next: 0 a bus reset, 1 the transaction, 2 nothing, since there is an outcome; 3 where none is held. An OUT has no
/// bytes. But for 1 the transaction is as it was.
#[tactic(auto, using(crate::proofs::Due::reported_whole))]
#[unsafe(no_mangle)]
pub extern "C" fn nzg_host_next(
    alloc: Global,
    host: &mut NzgHost,
    transaction: &mut NzgTransaction,
) -> u8
    ensures held { host.new.held ≡ host.old.held }
    ensures action { result ≡ action_number (option_map (λ v. wanted v.phase) host.old.held) }
    ensures due { transaction.new ≡ transaction_due (option_map (λ v. wanted v.phase) host.old.held) transaction.old }
    // With no bytes what is reported is the whole transaction.
    ensures whole { (sent : Sent) → option_map (λ v. wanted v.phase) host.old.held ≡ Some (WantsSent sent) → sent_given transaction.new [] ≡ Some sent }
{
    let Some(held) = replace(host, NzgHost::empty(alloc)).into_box() else {
        return 3;
    };
    let action = held.next();
    *host = NzgHost::of(held);
    match action {
        Action::Reset => 0,
        Action::Send(due) => {
            *transaction = transaction_numbers(&due);
            1
        }
        Action::Ended => 2,
    }
}

/// The bus was reset. False where none is held.
#[unsafe(no_mangle)]
pub extern "C" fn nzg_host_reset_done(alloc: Global, host: &mut NzgHost) -> bool
    ensures held { host.new.held ≡ option_map reset host.old.held }
    ensures done { result ≡ is_some host.old.held }
{
    let Some(mut held) = replace(host, NzgHost::empty(alloc)).into_box() else {
        return false;
    };
    held.reset_done();
    *host = NzgHost::of(held);
    true
}

/// What the transaction brought. False where none is held, or where the reply or the toggle of a data packet has no
/// meaning: nothing changes then.
#[unsafe(no_mangle)]
pub extern "C" fn nzg_host_take(
    alloc: Global,
    host: &mut NzgHost,
    reply: u8,
    toggle: u8,
    bytes: &[u8],
) -> bool
    ensures { TakesOne host.old.held (reply_given reply toggle bytes.now) host.new.held result }
{
    let Some(answer) = answer_of(reply, toggle, bytes) else {
        return false;
    };
    let Some(mut held) = replace(host, NzgHost::empty(alloc)).into_box() else {
        return false;
    };
    held.take(answer);
    *host = NzgHost::of(held);
    true
}

/// The request that the host makes now. False where there is none: the step is then as it was.
#[unsafe(no_mangle)]
pub extern "C" fn nzg_host_step(alloc: Global, host: &mut NzgHost, step: &mut NzgStep) -> bool
    ensures held { host.new.held ≡ host.old.held }
    ensures step { step.new ≡ unwrap_or (option_and_then (λ v. asked_in v.phase) host.old.held) step.old }
    ensures found { result ≡ is_some (option_and_then (λ v. asked_in v.phase) host.old.held) }
{
    let Some(held) = replace(host, NzgHost::empty(alloc)).into_box() else {
        return false;
    };
    let found = tell_step(&held, step);
    *host = NzgHost::of(held);
    found
}

/// How often the bus was reset; 0 where none is held.
#[unsafe(no_mangle)]
pub extern "C" fn nzg_host_attempts(alloc: Global, host: &mut NzgHost) -> u8
    ensures held { host.new.held ≡ host.old.held }
    ensures attempts { result ≡ resets_of host.old.held }
{
    let Some(held) = replace(host, NzgHost::empty(alloc)).into_box() else {
        return 0;
    };
    let attempts = held.attempts();
    *host = NzgHost::of(held);
    attempts
}

/// The outcome: the bytes of the file that was read, or the trouble.
#[unsafe(no_mangle)]
pub extern "C" fn nzg_host_outcome(
    alloc: Global,
    host: &mut NzgHost,
    trouble: &mut NzgTrouble,
    file: &mut [u8],
) -> Answer
    ensures held { host.new.held ≡ host.old.held }
    ensures answer { AnswersOn (Ends host.old.held trouble.old trouble.new file.old file.new) result }
{
    let Some(held) = replace(host, NzgHost::empty(alloc)).into_box() else {
        return Verdict::Closed.answer();
    };
    let verdict = tell_outcome(alloc, &held, trouble, file);
    *host = NzgHost::of(held);
    verdict.answer()
}

/// Frees the host, if one is held.
#[unsafe(no_mangle)]
pub extern "C" fn nzg_host_close(alloc: Global, host: &mut NzgHost)
    ensures { host.new.held ≡ None }
{
    let _old = replace(host, NzgHost::empty(alloc));
}
