//! V9 and V10: a configuration's bmAttributes and bConfigurationValue.
ghost use Rattle.std.specs.Prelude.{◌≡◌, OnOk};
ghost use Rattle.usb_file_data.specs.declared.cause.Cause.TheVariants as causes;
ghost use Rattle.usb_file_data.specs.Causes.{attributes_cause, value_cause};
ghost use Rattle.usb_file_data.specs.Places.{when};
ghost use Rattle.usb_file_data.specs.inside.Walk.{broken};
ghost use Rattle.usb_file_data.specs.Rules.{wrong_attributes};
ghost use Rattle.std.specs.Prelude.{◌≡◌, ◌==◌, ◌||◌, OnOk, length};
ghost use Rattle.usb_fields.specs.Marks.{is_marked, marked};
ghost use Rattle.usb_file_data.specs.inside.Reports.{reported};

use crate::cause::Cause;
use crate::place::Place;
use crate::report::Report;
use std::alloc::AllocError;
use usb_fields::Marks;
use usb_set::Configuration;

/// Bit 7 of bmAttributes, which is always one.
const ALWAYS_ONE: u8 = 0x80;

/// Bits 4 to 0 of bmAttributes, which are always zero.
const ALWAYS_ZERO: u8 = 0x1f;

pub(crate) fn check_attributes(
    found: &mut Report,
    place: Place,
    c: &Configuration,
) -> Result<(), AllocError>
    ensures { OnOk result (found.new ≡ reported found.old (when (wrong_attributes c.now) (broken (attributes_cause c.now.attributes) place))) }
{
    let clear = c.attributes & ALWAYS_ONE == 0;
    let reserved = c.attributes & ALWAYS_ZERO != 0;
    let cause = Cause::Attributes { clear, reserved };
    found.report(cause, clear || reserved, place)
}

/// Of a part without a set.
pub(crate) fn check_any_set(
    found: &mut Report,
    place: Place,
    sets: &[Configuration],
) -> Result<(), AllocError>
    ensures { OnOk result (found.new ≡ reported found.old (when (length sets.now == 0) (broken causes.NoConfiguration place))) }
{
    found.report(Cause::NoConfiguration, sets.is_empty(), place)
}

/// Of a set, among the values of those before it in its part.
pub(crate) fn check_value(
    found: &mut Report,
    values: &mut Marks,
    place: Place,
    c: &Configuration,
) -> Result<(), AllocError>
    ensures reported { OnOk result (found.new ≡ reported found.old (when ((c.now.value == 0) || is_marked values.old c.now.value) (broken (value_cause c.now.value) place))) }
    ensures marked { OnOk result (is_marked values.new ≡ marked (is_marked values.old) c.now.value) }
{
    let is_zero = c.value == 0;
    let cause = if is_zero {
        Cause::ZeroValue
    } else {
        Cause::RepeatedValue
    };
    found.report(cause, is_zero || values.has(c.value), place)?;
    values.add(c.value);
    Ok(())
}
