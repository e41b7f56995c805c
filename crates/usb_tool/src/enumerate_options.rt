//! What the options of `enumerate` mean.
ghost use Rattle.std.specs.Prelude.{◌≡◌, IfErr, IfOk, Some};
ghost use Rattle.usb_tool.specs.Damages.{RefusesSaid, damage_said};
ghost use Rattle.usb_tool.specs.Enumerating.{IsEnumerationSettled, RefusesEnumerating};

use crate::choosing::choice_of;
use crate::damages::read_damages;
use crate::settings::{EnumerateFlags, Settings, SettingsFault, settings_with};
use std::alloc::Global;
use usb_bus::BitChange;
use usb_command_line::{Enumerating, Options};

/// What an enumeration is given beside its file.
#[derive(Debug, Drop)]
pub struct EnumerationSettings {
    /// What the host, the device and the bus are.
    pub settings: Settings,
    /// The bits that change.
    pub changes: Vec<BitChange>,
    /// The flags, with what the host asks for.
    pub flags: EnumerateFlags,
}

/// The settings that the options give.
///
/// ```rust
/// let options = Options { speed: None, address: None, naks: None, attempts: None, fates: None };
/// let enumerating = Enumerating { log: false, brief: true, packets: false, with_strings: false, damage: None, strings: None, other_speed: None };
/// assert_eq!(rt; enumeration_settings(alloc, &options, &enumerating).err(), Some(SettingsFault::BriefAlone));
/// ```
///
/// # Errors
///
/// Those of [`choice_of`], else those of [`settings_with`], and else those of [`read_damages`].
pub fn enumeration_settings(
    alloc: Global,
    options: &Options<'_>,
    enumerating: &Enumerating<'_>,
) -> Result<EnumerationSettings, SettingsFault>
    ensures ok { IfOk result (IsEnumerationSettled options.now enumerating.now) }
    ensures err { IfErr result (RefusesEnumerating options.now enumerating.now) }
{
    let choice = choice_of(enumerating)?;
    let flags = EnumerateFlags {
        log: enumerating.log,
        brief: enumerating.brief,
        packets: enumerating.packets,
        with_strings: enumerating.with_strings,
        choice,
    };
    let settings = settings_with(alloc, options, flags)?;
    let changes = changes_of(alloc, enumerating.damage)?;
    Ok(EnumerationSettings {
        settings,
        changes,
        flags,
    })
}

/// The changes that the option names: none where it is absent.
fn changes_of(alloc: Global, damage: Option<&str>) -> Result<Vec<BitChange>, SettingsFault>
    ensures ok { IfOk result (λ changes. damage_said damage.entry ≡ Some changes.items) }
    ensures err { IfErr result (RefusesSaid (damage_said damage.entry)) }
{
    match damage {
        Some(text) => read_damages(alloc, text),
        None => Ok(Vec::new(alloc)),
    }
}
