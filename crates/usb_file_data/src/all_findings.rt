//! All findings of a file, of a dump, and of a set alone.
ghost use Rattle.std.specs.Prelude.{◌≡◌, ◌∷◌, [], IfOk, OnOk};
ghost use Rattle.usb_file_data.specs.Findings.{broken_in_order, dump_findings, file_in_order, findings, found_in_order, input_findings, part_in_order, part_of_kind, set_findings};
ghost use Rattle.usb_file_data.specs.inside.Reports.{walked};

use crate::cause::Found;
use crate::configuration::check_any_set;
use crate::device::{check_device, check_qualifier};
use crate::file::{DescriptorFile, Input};
use crate::finding::{Finding, Part};
use crate::order::by_rule;
use crate::place::Place;
use crate::report::Report;
use crate::set::{Known, check_set_at};
use std::alloc::{AllocError, Global};
use std::slice;
use usb_fields::Marks;
use usb_set::{Configuration, SetKind};

/// Out of memory, as std has it.
pub use std::alloc::AllocError as NoMemory;

/// Everything in the file that breaks a rule of chapter 9: rule by rule, in each rule the device, the main
/// part and the other part, and in each part by set, setting and endpoint, all counted from 0.
///
/// ```rust
/// for finding in check(rt.alloc(), &file)?.iter() {
///     println!(rt; "{finding}")?;
/// }
/// ```
///
/// # Errors
///
/// Out of memory.
#[tactic(auto, using(crate::proofs::Reporting::all_findings))]
pub fn check(alloc: Global, f: &DescriptorFile) -> Result<Vec<Finding>, NoMemory>
    ensures { IfOk result (λ v. v.items ≡ findings f.now) }
{
    let mut found = Report::new(alloc, false);
    walk_file(alloc, &mut found, false, f)?;
    by_rule(alloc, found.into_findings())
}

/// Everything in a dump that breaks a rule, in the order of [`check`]. From bcdUSB 0300 on it is of a SuperSpeed
/// device, whose bMaxPacketSize0 is to be 9 (USB 3.2, 9.6.1).
///
/// ```rust
/// if let Input::Dump(dump) = read_input(alloc, &bytes)? {
///     println!(rt; "{} findings", check_dump(alloc, &dump)?.len())?;
/// }
/// ```
///
/// # Errors
///
/// Out of memory.
#[tactic(auto, using(crate::proofs::Reporting::all_findings))]
pub fn check_dump(alloc: Global, f: &DescriptorFile) -> Result<Vec<Finding>, NoMemory>
    ensures { IfOk result (λ v. v.items ≡ dump_findings f.now) }
{
    let mut found = Report::new(alloc, false);
    walk_file(alloc, &mut found, true, f)?;
    by_rule(alloc, found.into_findings())
}

/// Everything in a set alone that breaks a rule, in the order of [`check`]: it is the only set of its part, the main one
/// or, where it is an other-speed configuration, the other one.
///
/// ```rust
/// let (set, used) = read_set(alloc, &[9, 2, 9, 0, 1, 1, 0, 0x80, 0x32])?;
/// for finding in check_set(alloc, &set)?.iter() {
///     println!(rt; "{finding}")?; // V1 main 0 0 0
/// }
/// ```
///
/// # Errors
///
/// Out of memory.
#[tactic(auto, using(crate::proofs::Reporting::all_findings))]
pub fn check_set(alloc: Global, c: &Configuration) -> Result<Vec<Finding>, NoMemory>
    ensures { IfOk result (λ v. v.items ≡ set_findings c.now) }
{
    let mut found = Report::new(alloc, false);
    walk_set(alloc, &mut found, c)?;
    by_rule(alloc, found.into_findings())
}

/// Everything in an input that breaks a rule of chapter 9: [`check_set`] of a set, [`check`] of a file and
/// [`check_dump`] of a dump.
///
/// ```rust
/// for finding in &check_input(alloc, &Input::Set(set))? {
///     println!(rt; "{finding}")?;
/// }
/// ```
///
/// # Errors
///
/// Out of memory.
#[tactic(auto, using(crate::proofs::Reporting::all_findings))]
pub fn check_input(alloc: Global, input: &Input) -> Result<Vec<Finding>, NoMemory>
    ensures { IfOk result (λ findings. findings.items ≡ input_findings input.now) }
{
    let mut found = Report::new(alloc, false);
    walk(alloc, &mut found, input)?;
    by_rule(alloc, found.into_findings())
}

/// What [`check_input`] finds, in the order of the bytes: at each descriptor the rules that it breaks, and why.
///
/// ```rust
/// for found in found_in_order(rt.alloc(), &Input::File(file))?.iter() {
///     println!(rt; "{}: {:?}", found.finding, found.cause)?;
/// }
/// ```
///
/// # Errors
///
/// Out of memory.
#[tactic(auto, using(crate::proofs::Reporting::all_found))]
pub fn found_in_order(alloc: Global, input: &Input) -> Result<Vec<Found>, NoMemory>
    ensures { IfOk result (λ v. v.items ≡ found_in_order input.now) }
{
    let mut found = Report::new(alloc, true);
    walk(alloc, &mut found, input)?;
    Ok(found.into_found())
}

/// The part that a set alone is of.
fn part_of(kind: SetKind) -> Part
    ensures { result ≡ part_of_kind kind }
{
    match kind {
        SetKind::Configuration => Part::Main,
        SetKind::OtherSpeed => Part::Other,
    }
}

/// Goes over an input.
fn walk(alloc: Global, found: &mut Report, input: &Input) -> Result<(), AllocError>
    ensures { OnOk result (found.new ≡ walked found.old (broken_in_order input.now)) }
{
    match input {
        Input::Set(set) => walk_set(alloc, found, set),
        Input::File(file) => walk_file(alloc, found, false, file),
        Input::Dump(file) => walk_file(alloc, found, true, file),
    }
}

/// Goes over a set alone.
fn walk_set(alloc: Global, found: &mut Report, c: &Configuration) -> Result<(), AllocError>
    ensures { OnOk result (found.new ≡ walked found.old (part_in_order (part_of_kind c.now.kind) (c.now ∷ []))) }
{
    let mut known = Known::new(alloc);
    check_part(found, &mut known, part_of(c.kind), slice::from_ref(c))
}

/// Goes over a file or a dump.
fn walk_file(
    alloc: Global,
    found: &mut Report,
    is_dump: bool,
    f: &DescriptorFile,
) -> Result<(), AllocError>
    ensures { OnOk result (found.new ≡ walked found.old (file_in_order is_dump f.now)) }
{
    let mut known = Known::new(alloc);
    check_parts(found, &mut known, is_dump, f)
}

/// The device descriptor, the main part and the other part.
#[tactic(auto, using(crate::proofs::Reporting::reported_again, crate::proofs::Reporting::walked_again, crate::proofs::Reporting::walked_none, crate::proofs::Reporting::walked_on, std::proofs::lemmas::Grind::common_steps))]
fn check_parts(
    found: &mut Report,
    known: &mut Known,
    is_dump: bool,
    f: &DescriptorFile,
) -> Result<(), AllocError>
    ensures { OnOk result (found.new ≡ walked found.old (file_in_order is_dump f.now)) }
{
    check_any_set(found, Place::of(Part::Main, 0), &f.sets)?;
    check_device(found, is_dump, &f.device)?;
    found.pass(1)?;
    check_part(found, known, Part::Main, &f.sets)?;
    if let Some(other) = &f.other {
        check_any_set(found, Place::of(Part::Other, 0), &other.sets)?;
        check_qualifier(found, &other.qualifier)?;
        found.pass(1)?;
        check_part(found, known, Part::Other, &other.sets)?;
    }
    Ok(())
}

/// The sets of a part.
#[tactic(auto, using(crate::proofs::Reporting::walked_again, crate::proofs::Reporting::walked_none, crate::proofs::Reporting::walked_on, std::proofs::lemmas::Grind::common_steps))]
fn check_part(
    found: &mut Report,
    known: &mut Known,
    part: Part,
    sets: &[Configuration],
) -> Result<(), AllocError>
    ensures { OnOk result (found.new ≡ walked found.old (part_in_order part sets.now)) }
{
    let mut values = Marks::new();
    for (set, c) in sets.iter().enumerate() {
        check_set_at(found, known, &mut values, Place::of(part, set), c)?;
    }
    Ok(())
}
