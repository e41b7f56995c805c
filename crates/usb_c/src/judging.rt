//! What bytes are.
ghost use Rattle.std.specs.Prelude.{◌≡◌};
ghost use Rattle.usb_c.specs.Answers.{AnswersOn};
ghost use Rattle.usb_c.specs.Facts.{Judges, input_number};

use crate::answer::{Answer, Verdict, refused_input};
use std::alloc::Global;
use usb_file::{Input, read_input};

/// What the bytes are: the number 1 of a set, 2 of a descriptor file, 3 of a dump; or their fault.
#[unsafe(no_mangle)]
pub extern "C" fn nzg_judge(alloc: Global, bytes: &[u8]) -> Answer
    ensures { AnswersOn (Judges bytes.now) result }
{
    judge(alloc, bytes).answer()
}

#[tactic(auto, using(crate::proofs::InputFaults::input_refuses))]
fn judge(alloc: Global, bytes: &[u8]) -> Verdict
    ensures { Judges bytes.now result }
{
    match read_input(alloc, bytes) {
        Ok(input) => Verdict::Judged(input_number(&input)),
        Err(fault) => refused_input(fault),
    }
}

fn input_number(input: &Input) -> u8
    ensures { result ≡ input_number input.now }
{
    match input {
        Input::Set(_) => 1,
        Input::File(_) => 2,
        Input::Dump(_) => 3,
    }
}
