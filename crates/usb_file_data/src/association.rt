//! V13: an association binds interfaces that are there.
ghost use Rattle.std.specs.List.{flat_map};
ghost use Rattle.std.specs.Prelude.{◌≡◌, ◌+◌, [], IfOk, OnOk, false, length};
ghost use Rattle.usb_set.specs.Owners.{association_in};
ghost use Rattle.usb_file_data.specs.Causes.{association_cause};
ghost use Rattle.usb_file_data.specs.Findings.{association_count};
ghost use Rattle.usb_file_data.specs.inside.Interfaces.{kept, misses_some};
ghost use Rattle.usb_file_data.specs.inside.Walk.{in_extra, in_extras};
ghost use Rattle.usb_file_data.specs.inside.Reports.{reported, walked};

use crate::cause::Cause;
use crate::interfaces::Interfaces;
use crate::place::Place;
use crate::report::Report;
use std::alloc::AllocError;
use usb_set::{Association, Extra, Sequence};

/// Of extras, and past them, of which the first association has this number in its set. Answers the number of the next.
///
/// Most descriptors own no extras, and most extras are no associations: for them nothing is called.
#[inline(always)]
#[tactic(auto, using(crate::proofs::Reporting::passed_extras, crate::proofs::Reporting::walked_none, std::proofs::lemmas::Grind::common_steps))]
pub(crate) fn check_extras(
    found: &mut Report,
    interfaces: &Interfaces,
    place: &Place,
    number: usize,
    extras: &Sequence<Extra>,
) -> Result<usize, AllocError>
    ensures reported { OnOk result (found.new ≡ walked found.old (in_extras place.now (kept interfaces.now).numbers number extras.now)) }
    ensures next { IfOk result (λ next. next ≡ number + association_count extras.now) }
{
    if extras.is_empty() {
        return Ok(number);
    }
    if !has_association(extras) {
        found.pass(extras.len())?;
        return Ok(number);
    }
    check_each(found, interfaces, *place, number, extras)
}

/// Whether one of the extras is an association.
#[inline(always)]
fn has_association(extras: &[Extra]) -> bool
    ensures { result ≡ false → flat_map association_in extras.now ≡ [] }
{
    for extra in extras {
        if matches!(extra, Extra::Association(_)) {
            return true;
        }
    }
    false
}

/// The same, extra by extra.
#[inline(never)]
#[tactic(auto, using(crate::proofs::Reporting::walked_again, crate::proofs::Reporting::walked_none, crate::proofs::Reporting::walked_on, std::proofs::lemmas::Grind::common_steps))]
fn check_each(
    found: &mut Report,
    interfaces: &Interfaces,
    place: Place,
    number: usize,
    extras: &[Extra],
) -> Result<usize, AllocError>
    ensures reported { OnOk result (found.new ≡ walked found.old (in_extras place (kept interfaces.now).numbers number extras.now)) }
    ensures next { IfOk result (λ next. next ≡ number + association_count extras.now) }
{
    let mut next = number;
    for extra in extras {
        next = check_extra(found, interfaces, place, next, extra)?;
        found.pass(1)?;
    }
    Ok(next)
}

/// Of an extra, if it is an association.
#[tactic(auto, using(crate::proofs::Reporting::reported_again, crate::proofs::Reporting::reported_none, std::proofs::lemmas::Grind::common_steps))]
fn check_extra(
    found: &mut Report,
    interfaces: &Interfaces,
    place: Place,
    number: usize,
    extra: &Extra,
) -> Result<usize, AllocError>
    ensures reported { OnOk result (found.new ≡ reported found.old (in_extra place (kept interfaces.now).numbers number extra.now)) }
    ensures next { IfOk result (λ next. next ≡ number + length (association_in extra.now)) }
{
    match extra {
        Extra::Association(a) => {
            let misses = binds_missing_interface(interfaces, a);
            found.report(association_cause(a), misses, place.at_setting(number))?;
            // No memory holds so many associations that this is refused.
            number.checked_add(1).ok_or(AllocError)
        }
        _ => Ok(number),
    }
}

/// Why it is wrong, where it is.
fn association_cause(a: &Association) -> Cause
    ensures { result ≡ association_cause a.now }
{
    if a.count == 0 {
        Cause::NoInterface
    } else {
        Cause::MissingInterface
    }
}

/// Whether it binds no interface, or one that isn't there.
fn binds_missing_interface(interfaces: &Interfaces, a: &Association) -> bool
    ensures { result ≡ misses_some (kept interfaces.now).numbers a.now }
{
    a.count == 0 || interfaces.next_absent(a.first) < usize::from(a.first) + usize::from(a.count)
}
