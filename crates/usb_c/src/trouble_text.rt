//! Why an enumeration failed, in words.
ghost use Rattle.std.specs.Prelude.{◌≡◌};
ghost use Rattle.usb_c.specs.Answers.{AnswersOn};
ghost use Rattle.usb_c.specs.Words.{TellsTrouble, step_given, trouble_given};

use crate::answer::{Answer, Verdict};
use crate::buffer::fill_done;
use crate::outcome::NzgTrouble;
use crate::transfer_numbers::why_in;
use std::alloc::Global;
use usb_host::{Step, Trouble};

/// Puts why an enumeration ended without success, and at which step, into the buffer, in the words of `usbdesc enumerate`.
#[unsafe(no_mangle)]
pub extern "C" fn nzg_trouble_text(alloc: Global, trouble: &NzgTrouble, text: &mut [u8]) -> Answer
    ensures { AnswersOn (TellsTrouble (trouble_given trouble.now) text.old text.new) result }
{
    tell_trouble(alloc, trouble_of(trouble), text).answer()
}

fn tell_trouble(alloc: Global, trouble: Option<Trouble>, out: &mut [u8]) -> Verdict
    ensures { TellsTrouble trouble out.old out.new result }
{
    let Some(trouble) = trouble else {
        return Verdict::BadArgument(13);
    };
    match format!(in alloc; "{trouble}") {
        Ok(words) => fill_done(words.as_bytes(), out),
        Err(_) => Verdict::NoMemory,
    }
}

/// The trouble of these numbers, if they are of one.
fn trouble_of(numbers: &NzgTrouble) -> Option<Trouble>
    ensures { result ≡ trouble_given numbers.now }
{
    let step = step_of(numbers.step, numbers.index, numbers.language)?;
    let why = why_in(numbers.why)?;
    Some(Trouble { step, why })
}

/// The step of this number, with the index and the language of what is read.
fn step_of(step: u8, index: u8, language: u16) -> Option<Step>
    ensures { result ≡ step_given step index language }
{
    match step {
        1 => Some(Step::First),
        2 => Some(Step::Address),
        3 => Some(Step::Device),
        4 => Some(Step::Header(index)),
        5 => Some(Step::Set(index)),
        6 => Some(Step::Qualifier),
        7 => Some(Step::OtherHeader(index)),
        8 => Some(Step::OtherSet(index)),
        9 => Some(Step::Languages),
        10 => Some(Step::Text { language, index }),
        11 => Some(Step::Configure),
        _ => None,
    }
}
