//! What is wrong with bytes that are no input, in words.
ghost use Rattle.std.specs.Prelude.{◌≡◌, IfOk};
ghost use Rattle.usb_explain.specs.FaultWords.{fault_words};
ghost use Rattle.usb_remarks.specs.FaultPlaces.{place_of_fault};
ghost use Rattle.usb_c.specs.Answers.{AnswersOn, Fills, Puts};
ghost use Rattle.usb_c.specs.Words.{Means, inner_number};
ghost use Rattle.usb_c.specs.declared.answer.Verdict.TheVariants as verdicts;

use crate::answer::{Answer, Verdict, wants_memory};
use crate::buffer::fill;
use std::alloc::{AllocError, Global};
use usb_explain::FaultWords;
use usb_file::read_input;
use usb_file_data::{FileWhy, InputFault};
use usb_text::Text;

/// Puts what is wrong with bytes that are no input into the buffer, in the words that an explanation has after the fault's place.
/// The number is that of the fault of a set, which may stand in a file, and 0 where none is at fault.
#[unsafe(no_mangle)]
pub extern "C" fn nzg_fault_text(alloc: Global, bytes: &[u8], text: &mut [u8]) -> Answer
    ensures { AnswersOn (Means bytes.now text.old text.new) result }
{
    tell_fault(alloc, bytes, text).answer()
}

#[tactic(auto, using(crate::proofs::Worded::fault_means))]
fn tell_fault(alloc: Global, bytes: &[u8], out: &mut [u8]) -> Verdict
    ensures { Means bytes.now out.old out.new result }
{
    let fault = match read_input(alloc, bytes) {
        Ok(_) => return Verdict::BadArgument(13),
        Err(fault) => fault,
    };
    if wants_memory(fault) {
        return Verdict::NoMemory;
    }
    put_meaning(alloc, fault, out)
}

fn put_meaning(alloc: Global, fault: InputFault, out: &mut [u8]) -> Verdict
    ensures { Fills (verdicts.Meant (inner_number fault) (place_of_fault fault)) (fault_words fault) out.old out.new result }
{
    match words_of(alloc, fault) {
        Ok(words) => fill_meant(fault, words.as_bytes(), out),
        Err(_) => Verdict::NoMemory,
    }
}

fn words_of(alloc: Global, fault: InputFault) -> Result<Text, AllocError>
    ensures { IfOk result (λ text. text ≡ fault_words fault) }
{
    let words = FaultWords::of(fault);
    let mut text = Text::new(alloc);
    text.put(words.within)?;
    text.put(words.why)?;
    Ok(text)
}

/// Puts the words of a fault into the buffer, and answers their length, its place, and the number of the set's fault.
fn fill_meant(fault: InputFault, words: &[u8], out: &mut [u8]) -> Verdict
    ensures { Puts (verdicts.Meant (inner_number fault) (place_of_fault fault)) words.now out.old out.new result }
{
    if fill(words, out) {
        Verdict::Meant(inner_number(fault), place_of(fault), words.len())
    } else {
        Verdict::NoRoom(words.len())
    }
}

/// The number of the fault of the set that stands behind a fault, and 0 where none does.
fn inner_number(fault: InputFault) -> u8
    ensures { result ≡ inner_number fault }
{
    match fault {
        InputFault::Set(fault) => fault.why.number(),
        InputFault::Trailing(_) => 0,
        InputFault::File(fault) => match fault.why {
            FileWhy::Set(why) => why.number(),
            _ => 0,
        },
    }
}

fn place_of(fault: InputFault) -> usize
    ensures { result ≡ place_of_fault fault }
{
    match fault {
        InputFault::Set(fault) => fault.at as usize,
        InputFault::Trailing(at) => at,
        InputFault::File(fault) => fault.at,
    }
}
