//! What a host asks for now, as numbers.
ghost use Rattle.std.specs.Prelude.{◌≡◌, is_some, unwrap_or};
ghost use Rattle.usb_c.specs.Hosts.{asked_in, asked_numbers};

use crate::outcome::step_numbers;
use usb_host::{Host, Step, Transfer};

/// The request that a host makes now, and how far its transfer has come.
#[repr(C)]
#[derive(Drop)]
pub struct NzgStep {
    /// The NAKs since the last progress.
    pub naks: u16,
    /// How many bytes of the data stage were kept so far.
    pub kept: u16,
    /// The language of the string, else 0.
    pub language: u16,
    /// The step, from 1 on.
    pub step: u8,
    /// The index of the set or the string, else 0.
    pub index: u8,
    /// The strikes since the last progress.
    pub strikes: u8,
    /// The bytes of the request.
    pub setup: [u8; 8],
}

/// Reports the current step and its transfer. False where none is: what is reported is then as it was.
pub(crate) fn tell_step(host: &Host, step: &mut NzgStep) -> bool
    ensures step { step.new ≡ unwrap_or (asked_in host.now.phase) step.old }
    ensures found { result ≡ is_some (asked_in host.now.phase) }
{
    let (Some(at), Some(transfer)) = (host.step(), host.transfer()) else {
        return false;
    };
    *step = asked_numbers(at, &transfer);
    true
}

fn asked_numbers(step: Step, transfer: &Transfer) -> NzgStep
    ensures { result ≡ asked_numbers step transfer.now }
{
    let at = step_numbers(step);
    let setup = transfer.request().to_bytes();
    NzgStep {
        naks: transfer.nak_count(),
        kept: transfer.kept(),
        language: at.language,
        step: at.step,
        index: at.index,
        strikes: transfer.strikes(),
        setup,
    }
}
