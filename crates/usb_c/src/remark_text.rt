//! What is remarked, in the words of an explanation.
ghost use Rattle.std.specs.Prelude.{◌≡◌, IfOk, OnOk, is_some};
ghost use Rattle.usb_remarks.specs.Outline.{described};
ghost use Rattle.usb_remarks.specs.RemarkValues.{there};
ghost use Rattle.usb_remarks.specs.Remarks.{remarks_on};
ghost use Rattle.usb_text.specs.Shown.{showing_all};
ghost use Rattle.usb_c.specs.Answers.{AnswersOn};
ghost use Rattle.usb_c.specs.Texts.{running_speed_given};
ghost use Rattle.usb_c.specs.Words.{TellsIfMemory, TellsRemark, remark_by, remark_given, shown_by, reported_shown};

use crate::answer::{Answer, Verdict, refused_input};
use crate::buffer::fill_done;
use crate::remark::NzgRemark;
use crate::text::running_speed;
use std::alloc::{AllocError, Global};
use usb_explain::put_remark_words;
use usb_file::{Input, read_input};
use usb_file_data::found_in_order;
use usb_remarks::{Descriptor, Outline, Remark, SetSpeed};
use usb_text::{Lines, Page};

/// Puts what a remark on these bytes says into the buffer, in the words of an explanation. The device ran at the speed of this
/// number, if it is one. Of the struct its place and its number are looked at.
#[unsafe(no_mangle)]
pub extern "C" fn nzg_remark_text(
    alloc: Global,
    bytes: &[u8],
    speed: u8,
    remark: &NzgRemark,
    text: &mut [u8],
) -> Answer
    ensures { AnswersOn (TellsRemark remark.now (running_speed_given speed) bytes.now text.old text.new) result }
{
    tell_remark(alloc, bytes, running_speed(speed), remark, text).answer()
}

#[tactic(auto, using(crate::proofs::InputFaults::input_refuses))]
fn tell_remark(
    alloc: Global,
    bytes: &[u8],
    running: Option<SetSpeed>,
    remark: &NzgRemark,
    out: &mut [u8],
) -> Verdict
    ensures { TellsRemark remark.now running bytes.now out.old out.new result }
{
    match read_input(alloc, bytes) {
        Ok(input) => tell_in(alloc, &input, bytes, running, remark, out),
        Err(fault) => refused_input(fault),
    }
}

#[tactic(auto, using(crate::proofs::Worded::words_reported))]
fn tell_in(
    alloc: Global,
    input: &Input,
    bytes: &[u8],
    running: Option<SetSpeed>,
    remark: &NzgRemark,
    out: &mut [u8],
) -> Verdict
    ensures { TellsIfMemory (reported_shown remark.now running bytes.now input.now) out.old out.new result }
{
    let mut words = Lines::new(alloc, false);
    match put_words(alloc, &mut words, input, bytes, running, remark) {
        Ok(true) => fill_done(words.as_bytes(), out),
        Ok(false) => Verdict::BadArgument(13),
        Err(_) => Verdict::NoMemory,
    }
}

/// Puts the words of the remark on an input that a struct says, and answers whether there is one.
fn put_words<P: Page>(
    alloc: Global,
    page: &mut P,
    input: &Input,
    bytes: &[u8],
    running: Option<SetSpeed>,
    remark: &NzgRemark,
) -> Result<bool, AllocError>
    ensures there { IfOk result (λ there. there ≡ is_some (reported_shown remark.now running bytes.now input.now)) }
    ensures shows { OnOk result (P.seen page.new ≡ showing_all P.showing (shown_by (reported_shown remark.now running bytes.now input.now)) (P.seen page.old)) }
{
    let found = found_in_order(alloc, input)?;
    match remark_in(Outline::of(bytes, running, &found), remark) {
        None => Ok(false),
        Some(remark) => {
            put_remark_words(page, remark)?;
            Ok(true)
        }
    }
}

/// The remark on the descriptor at the place of this one, by its number.
fn remark_in(outline: Outline<'_>, remark: &NzgRemark) -> Option<Remark>
    ensures { result ≡ remark_given remark.now outline.entry }
{
    for descriptor in outline {
        if descriptor.at == remark.place {
            return remark_by(&descriptor, remark.number);
        }
    }
    None
}

/// The remark of this number on a descriptor.
fn remark_by(d: &Descriptor<'_>, number: u8) -> Option<Remark>
    ensures { result ≡ remark_by number (remarks_on d.now.role (described d.now)) }
{
    let remarks = d.remarks();
    for remark in &remarks {
        let one = numbered(*remark, number);
        if one.is_some() {
            return one;
        }
    }
    None
}

/// The remark that there may be, where it has this number.
fn numbered(remark: Option<Remark>, number: u8) -> Option<Remark>
    ensures { result ≡ remark_by number (there remark) }
{
    match remark {
        Some(remark) if remark.number() == number => Some(remark),
        _ => None,
    }
}
