//! What is remarked of descriptors, as numbers.
ghost use Rattle.std.specs.Prelude.{◌≡◌, ◌++◌, IfOk, OnOk, map};
ghost use Rattle.std.specs.List.{flat_map};
ghost use Rattle.usb_remarks.specs.Outline.{described};
ghost use Rattle.usb_remarks.specs.RemarkValues.{there};
ghost use Rattle.usb_c.specs.Answers.{AnswersOn, Fills};
ghost use Rattle.usb_c.specs.Remarks.{TellsRemarks, numbered, numbered_remarks, remarks_at};
ghost use Rattle.usb_c.specs.Texts.{running_speed_given};
ghost use Rattle.usb_c.specs.declared.answer.Verdict.TheVariants as verdicts;

use crate::answer::{Answer, Verdict, refused_input};
use crate::buffer::fill_done;
use crate::text::running_speed;
use std::alloc::{AllocError, Global};
use usb_file::{Input, read_input};
use usb_file_data::found_in_order;
use usb_remarks::{Descriptor, Outline, Remark, SetSpeed};
use usb_walk::{part_number, role_number};

/// A remark on a descriptor, which breaks no rule: the struct `nzg_remark` of nozzlegorse.h.
#[repr(C)]
#[derive(Clone, Copy, Drop)]
pub struct NzgRemark {
    /// of the descriptor's first byte
    pub place: usize,
    /// number of the set in its part, from 0
    pub set: usize,
    /// number of the setting in its set, from 0
    pub setting: usize,
    /// number of the endpoint in its setting, from 0
    pub endpoint: usize,
    /// of the remark, from 1
    pub number: u8,
    /// 0 the device, 1 its sets, 2 its qualifier and the sets of the other speed
    pub part: u8,
    /// what the descriptor is
    pub role: u8,
}

/// Puts what is remarked of a set, a file or a dump into the buffer, in the order of the bytes. The device ran at the speed of
/// this number, if it is one.
#[unsafe(no_mangle)]
pub extern "C" fn nzg_remarks(
    alloc: Global,
    bytes: &[u8],
    speed: u8,
    remarks: &mut [NzgRemark],
) -> Answer
    ensures { AnswersOn (TellsRemarks (running_speed_given speed) bytes.now remarks.old remarks.new) result }
{
    tell_remarks(alloc, bytes, running_speed(speed), remarks).answer()
}

#[tactic(auto, using(crate::proofs::InputFaults::input_refuses))]
fn tell_remarks(
    alloc: Global,
    bytes: &[u8],
    running: Option<SetSpeed>,
    out: &mut [NzgRemark],
) -> Verdict
    ensures { TellsRemarks running bytes.now out.old out.new result }
{
    match read_input(alloc, bytes) {
        Ok(input) => put_remarks(alloc, &input, bytes, running, out),
        Err(fault) => refused_input(fault),
    }
}

fn put_remarks(
    alloc: Global,
    input: &Input,
    bytes: &[u8],
    running: Option<SetSpeed>,
    out: &mut [NzgRemark],
) -> Verdict
    ensures { Fills verdicts.Done (numbered_remarks running bytes.now input.now) out.old out.new result }
{
    match remarks_of(alloc, input, bytes, running) {
        Ok(remarks) => fill_done(&remarks, out),
        Err(_) => Verdict::NoMemory,
    }
}

fn remarks_of(
    alloc: Global,
    input: &Input,
    bytes: &[u8],
    running: Option<SetSpeed>,
) -> Result<Vec<NzgRemark>, AllocError>
    ensures { IfOk result (λ remarks. remarks.items ≡ numbered_remarks running bytes.now input.now) }
{
    let found = found_in_order(alloc, input)?;
    remarks_in(alloc, Outline::of(bytes, running, &found))
}

fn remarks_in(alloc: Global, outline: Outline<'_>) -> Result<Vec<NzgRemark>, AllocError>
    ensures { IfOk result (λ remarks. remarks.items ≡ flat_map remarks_at outline.entry) }
{
    let mut remarks = Vec::new(alloc);
    for descriptor in outline {
        add_remarks(&mut remarks, &descriptor)?;
    }
    Ok(remarks)
}

/// Adds the remarks on a descriptor.
fn add_remarks(remarks: &mut Vec<NzgRemark>, d: &Descriptor<'_>) -> Result<(), AllocError>
    ensures { OnOk result (remarks.new.items ≡ remarks.old.items ++ remarks_at (described d.now)) }
{
    let on_it = d.remarks();
    for remark in &on_it {
        add_maybe(remarks, d, *remark)?;
    }
    Ok(())
}

/// Adds a remark, if there is one.
fn add_maybe(
    remarks: &mut Vec<NzgRemark>,
    d: &Descriptor<'_>,
    remark: Option<Remark>,
) -> Result<(), AllocError>
    ensures { OnOk result (remarks.new.items ≡ remarks.old.items ++ map (numbered (described d.now)) (there remark)) }
{
    match remark {
        None => Ok(()),
        Some(remark) => {
            remarks.push(numbered(d, remark))?;
            Ok(())
        }
    }
}

/// A remark, with the place and the role of the descriptor on which it is.
fn numbered(d: &Descriptor<'_>, remark: Remark) -> NzgRemark
    ensures { result ≡ numbered (described d.now) remark }
{
    let place = d.place;
    NzgRemark {
        place: d.at,
        set: place.set,
        setting: place.setting,
        endpoint: place.endpoint,
        number: remark.number(),
        part: part_number(place.part),
        role: role_number(d.role),
    }
}
