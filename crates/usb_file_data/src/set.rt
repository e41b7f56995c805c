//! All rules that a set keeps or breaks by itself.
ghost use Rattle.std.specs.Prelude.{◌≡◌, ◌+◌, true, false, IfOk, OnOk};
ghost use Rattle.usb_fields.specs.Marks.{is_marked, marked};
ghost use Rattle.std.specs.List.{flat_map};
ghost use Rattle.usb_file_data.specs.Places.{at_each_counted};
ghost use Rattle.usb_file_data.specs.Findings.{association_count, endpoint_associations, setting_associations};
ghost use Rattle.usb_file_data.specs.inside.Addresses.{claimed, owned, kept as claims};
ghost use Rattle.usb_file_data.specs.inside.Interfaces.{NoneBreaksV3OrV4, AreEntered, entered, kept as entries, compared_with};
ghost use Rattle.usb_file_data.specs.inside.Walk.{endpoint_at, in_configuration, in_endpoint, in_interface, in_set, in_setting};
ghost use Rattle.usb_file_data.specs.inside.Reports.{reported, walked};

use crate::addresses::Addresses;
use crate::association::check_extras;
use crate::cause::Cause;
use crate::configuration::{check_attributes, check_value};
use crate::endpoint::{
    check_address, check_endpoint_count, check_packet_size, check_repeated_address,
    check_shared_address,
};
use crate::interface::{
    check_interface_count, check_number_gap, check_repeated_setting, lacks_default_setting,
};
use crate::interfaces::Interfaces;
use crate::place::Place;
use crate::report::Report;
use std::alloc::{AllocError, Global};
use usb_fields::Marks;
use usb_set::{Configuration, Endpoint, Setting};

/// What is kept of a set while the walk goes over it.
#[derive(Drop)]
pub(crate) struct Known {
    /// The interfaces of the whole set.
    whole: Interfaces,
    earlier: Earlier,
}

impl Known {
    pub(crate) fn new(alloc: Global) -> Known {
        Known {
            whole: Interfaces::new(alloc),
            earlier: Earlier {
                interfaces: Interfaces::new(alloc),
                addresses: Addresses::new(),
            },
        }
    }
}

/// What is kept of the settings before.
#[derive(Drop)]
struct Earlier {
    interfaces: Interfaces,
    addresses: Addresses,
}

/// Of a set at its place, and past it, among the values of those before it in its part.
#[tactic(auto, using(crate::proofs::Reporting::walked_again, crate::proofs::Reporting::walked_none, crate::proofs::Reporting::walked_on, std::proofs::lemmas::Grind::common_steps))]
pub(crate) fn check_set_at(
    found: &mut Report,
    known: &mut Known,
    values: &mut Marks,
    place: Place,
    c: &Configuration,
) -> Result<(), AllocError>
    ensures reported { OnOk result (found.new ≡ walked found.old (in_set place (is_marked values.old) c.now)) }
    ensures marked { OnOk result (is_marked values.new ≡ marked (is_marked values.old) c.now.value) }
{
    let may_break = enter_all(&mut known.whole, &c.settings)?;
    let whole = &known.whole;
    check_configuration(found, whole, values, place, c)?;
    found.pass(1)?;
    let earlier = &mut known.earlier;
    earlier.interfaces.clear();
    earlier.addresses.clear();
    let mut number = check_extras(found, whole, &place, 0, &c.extras)?;
    for (setting, s) in c.settings.iter().enumerate() {
        number = check_setting(
            found,
            whole,
            earlier,
            may_break,
            place.at_setting(setting),
            number,
            s,
        )?;
    }
    Ok(())
}

/// Enters these settings and no others. Answers whether one of them may break V3 or V4.
fn enter_all(interfaces: &mut Interfaces, settings: &[Setting]) -> Result<bool, AllocError>
    ensures entered { OnOk result (AreEntered settings.now (entries interfaces.new)) }
    ensures keep { IfOk result (λ may_break. may_break ≡ false → NoneBreaksV3OrV4 settings.now) }
{
    interfaces.clear();
    let mut again = false;
    for (setting, s) in settings.iter().enumerate() {
        let repeated = interfaces.add(setting, s)?;
        again |= repeated;
    }
    Ok(again || interfaces.lacks_default())
}

/// Of the first descriptor of a set.
#[tactic(auto, using(crate::proofs::Reporting::reported_again))]
fn check_configuration(
    found: &mut Report,
    whole: &Interfaces,
    values: &mut Marks,
    place: Place,
    c: &Configuration,
) -> Result<(), AllocError>
    requires { AreEntered c.now.settings (entries whole.now) }
    ensures reported { OnOk result (found.new ≡ reported found.old (in_configuration place (is_marked values.old) c.now)) }
    ensures marked { OnOk result (is_marked values.new ≡ marked (is_marked values.old) c.now.value) }
{
    check_interface_count(found, whole, place, c)?;
    check_number_gap(found, whole, place, c)?;
    check_attributes(found, place, c)?;
    check_value(found, values, place, c)
}

/// Of a setting, and past it, before which the set has this many associations. Answers how many it has before the next one.
#[tactic(auto, using(crate::proofs::Reporting::walked_again, crate::proofs::Reporting::walked_none, crate::proofs::Reporting::walked_on, std::proofs::lemmas::Grind::common_steps))]
fn check_setting(
    found: &mut Report,
    whole: &Interfaces,
    earlier: &mut Earlier,
    may_break: bool,
    place: Place,
    number: usize,
    s: &Setting,
) -> Result<usize, AllocError>
    ensures reported { OnOk result (found.new ≡ walked found.old (in_setting place (entries whole.now).numbers (entries whole.now).alternates (compared_with may_break (entries earlier.old.interfaces)).numbers (compared_with may_break (entries earlier.old.interfaces)).alternates (claims earlier.old.addresses).elsewhere number s.now)) }
    ensures interfaces { OnOk result (may_break ≡ true → entries earlier.new.interfaces ≡ entered place.setting s.now (entries earlier.old.interfaces)) }
    ensures addresses { OnOk result ((claims earlier.new.addresses).elsewhere ≡ owned s.now.number s.now.endpoints (claims earlier.old.addresses).elsewhere) }
    ensures next { IfOk result (λ next. next ≡ number + setting_associations s.now) }
{
    check_interface(found, whole, &mut earlier.interfaces, may_break, place, s)?;
    found.pass(1)?;
    let next = check_extras(found, whole, &place, number, &s.extras)?;
    if s.endpoints.is_empty() {
        return Ok(next);
    }
    check_endpoints(found, whole, &mut earlier.addresses, &place, next, s)
}

/// Of the endpoints of a setting at its place, and past them, before which the set has this many associations. Answers how
/// many it has before the next setting.
#[tactic(auto, using(crate::proofs::Reporting::walked_again, crate::proofs::Reporting::walked_none, crate::proofs::Reporting::walked_on, std::proofs::lemmas::Grind::common_steps))]
fn check_endpoints(
    found: &mut Report,
    whole: &Interfaces,
    addresses: &mut Addresses,
    place: &Place,
    number: usize,
    s: &Setting,
) -> Result<usize, AllocError>
    ensures reported { OnOk result (found.new ≡ walked found.old (at_each_counted endpoint_associations (endpoint_at place.now (entries whole.now).numbers (claims addresses.old).elsewhere s.now) 0 number s.now.endpoints)) }
    ensures addresses { OnOk result ((claims addresses.new).elsewhere ≡ owned s.now.number s.now.endpoints (claims addresses.old).elsewhere) }
    ensures next { IfOk result (λ next. next ≡ number + association_count (flat_map (λ e. e.extras) s.now.endpoints)) }
{
    let setting = *place;
    addresses.begin(s.number);
    let mut next = number;
    for (endpoint, e) in s.endpoints.iter().enumerate() {
        check_endpoint(found, addresses, setting.at_endpoint(endpoint), e)?;
        found.pass(1)?;
        next = check_extras(found, whole, place, next, &e.extras)?;
    }
    Ok(next)
}

/// Of an interface descriptor, in a set of which a setting may break V3 or V4, or none does.
#[tactic(auto, using(crate::proofs::Reporting::reported_again))]
fn check_interface(
    found: &mut Report,
    whole: &Interfaces,
    interfaces: &mut Interfaces,
    may_break: bool,
    place: Place,
    s: &Setting,
) -> Result<(), AllocError>
    ensures reported { OnOk result (found.new ≡ reported found.old (in_interface place (entries whole.now).alternates (compared_with may_break (entries interfaces.old)).numbers (compared_with may_break (entries interfaces.old)).alternates s.now)) }
    ensures interfaces { OnOk result (may_break ≡ true → entries interfaces.new ≡ entered place.setting s.now (entries interfaces.old)) }
{
    if !may_break {
        return check_endpoint_count(found, place, s);
    }
    let lacks = lacks_default_setting(whole, interfaces, s);
    check_repeated_setting(found, interfaces, place, s)?;
    found.report(Cause::NoDefaultSetting, lacks, place)?;
    check_endpoint_count(found, place, s)
}

/// Of the descriptor of an endpoint.
#[inline(always)]
#[tactic(auto, using(crate::proofs::Reporting::reported_again))]
fn check_endpoint(
    found: &mut Report,
    addresses: &mut Addresses,
    place: Place,
    e: &Endpoint,
) -> Result<(), AllocError>
    ensures reported { OnOk result (found.new ≡ reported found.old (in_endpoint place (claims addresses.old).here (λ b. (claims addresses.old).elsewhere b (claims addresses.old).number) e.now)) }
    ensures claimed { OnOk result (claims addresses.new ≡ claimed e.now.address (claims addresses.old)) }
{
    let address = e.address;
    let claimed = addresses.claim(address);
    check_address(found, place, address)?;
    check_repeated_address(found, claimed, place)?;
    check_shared_address(found, claimed, place)?;
    check_packet_size(found, place, e)
}
