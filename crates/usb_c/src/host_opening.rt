//! A host that asks for as much as its caller says, by a handle.
ghost use Rattle.std.specs.Prelude.{◌≡◌, Some, None};
ghost use Rattle.usb_c.specs.Transactions.{speed_given};
ghost use Rattle.usb_c.specs.Answers.{AnswersOn};
ghost use Rattle.usb_c.specs.Hosts.{HostOpensAt, HostOpensFor, choice_given};

use crate::answer::{Answer, Verdict};
use crate::host_handle::NzgHost;
use crate::transaction::speed_of;
use std::alloc::Global;
use usb_fields::Speed;
use usb_host::{Choice, Host, Limits, NamedStrings};

/// Opens a host that has done nothing, and asks for the strings that descriptors name as this number says: 0 each must be
/// there, 1 one that the device refuses or gives wrongly may be missing, 2 none is asked for; and for the device qualifier and
/// the sets of the other speed or not. One that is held already is freed.
#[unsafe(no_mangle)]
pub extern "C" fn nzg_host_open_with(
    alloc: Global,
    host: &mut NzgHost,
    address: u8,
    naks: u16,
    attempts: u8,
    speed: u8,
    strings: u8,
    other_speed: bool,
) -> Answer
    ensures { AnswersOn (HostOpensFor address naks attempts (speed_given speed) (choice_given strings other_speed) host.new.held) result }
{
    let (speed, choice) = (speed_of(speed), choice_of(strings, other_speed));
    open(alloc, host, address, naks, attempts, speed, choice).answer()
}

/// What is asked for, by the number of what becomes of the strings.
fn choice_of(strings: u8, other_speed: bool) -> Option<Choice>
    ensures { result ≡ choice_given strings other_speed }
{
    let strings = match strings {
        0 => NamedStrings::Needed,
        1 => NamedStrings::Wanted,
        2 => NamedStrings::Skipped,
        _ => return None,
    };
    Some(Choice {
        strings,
        other_speed,
    })
}

/// Opens a host of these limits, where the speed and what is asked for have a meaning. One that is held already is freed.
pub(crate) fn open(
    alloc: Global,
    host: &mut NzgHost,
    address: u8,
    naks: u16,
    attempts: u8,
    speed: Option<Speed>,
    choice: Option<Choice>,
) -> Verdict
    ensures { HostOpensFor address naks attempts speed choice host.new.held result }
{
    *host = NzgHost::empty(alloc);
    let Some(speed) = speed else {
        return Verdict::BadArgument(3);
    };
    let Some(choice) = choice else {
        return Verdict::BadArgument(14);
    };
    open_at(alloc, host, address, naks, attempts, speed, choice)
}

fn open_at(
    alloc: Global,
    host: &mut NzgHost,
    address: u8,
    naks: u16,
    attempts: u8,
    speed: Speed,
    choice: Choice,
) -> Verdict
    requires { host.old.held ≡ None }
    ensures { HostOpensAt address naks attempts speed choice host.new.held result }
{
    let limits = match Limits::new(address, naks, attempts) {
        Ok(limits) => limits,
        Err(fault) => return Verdict::BadArgument(fault.number()),
    };
    match Box::new(alloc, Host::with_choice(alloc, limits, speed, choice)) {
        Ok(held) => {
            *host = NzgHost::of(held);
            Verdict::Done(0)
        }
        Err(_) => Verdict::NoMemory,
    }
}
