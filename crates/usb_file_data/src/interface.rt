//! V1 to V4: interface numbers and alternate settings.
ghost use Rattle.std.specs.Prelude.{◌≡◌, length, OnOk};
ghost use Rattle.usb_file_data.specs.declared.cause.Cause.TheVariants as causes;
ghost use Rattle.usb_file_data.specs.Places.{when};
ghost use Rattle.usb_file_data.specs.inside.Walk.{broken};
ghost use Rattle.usb_file_data.specs.Rules.{has_number_gap, interface_numbers, wrong_interface_count};
ghost use Rattle.usb_file_data.specs.inside.Interfaces.{AreEntered, kept};
ghost use Rattle.std.specs.Prelude.{◌≡◌, ◌&&◌, not};
ghost use Rattle.usb_file_data.specs.inside.Interfaces.{kept};
ghost use Rattle.usb_file_data.specs.inside.Interfaces.{entered, kept};
ghost use Rattle.usb_file_data.specs.inside.Reports.{reported};

use crate::cause::Cause;
use crate::interfaces::Interfaces;
use crate::place::Place;
use crate::report::Report;
use std::alloc::AllocError;
use usb_set::{Configuration, Setting};

pub(crate) fn check_interface_count(
    found: &mut Report,
    interfaces: &Interfaces,
    place: Place,
    c: &Configuration,
) -> Result<(), AllocError>
    requires { AreEntered c.now.settings (kept interfaces.now) }
    ensures { OnOk result (found.new ≡ reported found.old (when (wrong_interface_count c.now) (broken (causes.InterfaceCount c.now.declared_interfaces (length (interface_numbers c.now.settings))) place))) }
{
    let declared = c.declared_interfaces;
    let count = interfaces.list().len();
    let cause = Cause::InterfaceCount {
        declared,
        found: count,
    };
    found.report(cause, usize::from(declared) != count, place)
}

pub(crate) fn check_number_gap(
    found: &mut Report,
    interfaces: &Interfaces,
    place: Place,
    c: &Configuration,
) -> Result<(), AllocError>
    requires { AreEntered c.now.settings (kept interfaces.now) }
    ensures { OnOk result (found.new ≡ reported found.old (when (has_number_gap c.now) (broken causes.NumberGap place))) }
{
    found.report(
        Cause::NumberGap,
        interfaces.next_absent(0) < interfaces.list().len(),
        place,
    )
}

/// Whether the setting is the first of an interface that has no alternate setting 0, by the interfaces of the whole set
/// and those of the settings before.
pub(crate) fn lacks_default_setting(whole: &Interfaces, before: &Interfaces, s: &Setting) -> bool
    ensures { result ≡ (not ((kept before.now).numbers s.now.number) && not ((kept whole.now).alternates s.now.number 0)) }
{
    !before.has_any(s.number) && !whole.has(s.number, 0)
}

/// Enters the setting among those before it.
pub(crate) fn check_repeated_setting(
    found: &mut Report,
    interfaces: &mut Interfaces,
    place: Place,
    s: &Setting,
) -> Result<(), AllocError>
    ensures reported { OnOk result (found.new ≡ reported found.old (when ((kept interfaces.old).alternates s.now.number s.now.alternate) (broken causes.RepeatedSetting place))) }
    ensures entered { OnOk result (kept interfaces.new ≡ entered place.setting s.now (kept interfaces.old)) }
{
    let again = interfaces.add(place.setting, s)?;
    found.report(Cause::RepeatedSetting, again, place)
}
