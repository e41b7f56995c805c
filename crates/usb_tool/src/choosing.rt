//! What `enumerate` asks a device for.
ghost use Rattle.std.specs.Prelude.{◌≡◌, IfErr, IfOk};
ghost use Rattle.usb_tool.specs.Choosing.{IsChosen, RefusesChoosing, other_speed_of, other_speed_said, strings_of, strings_said};

use crate::settings::SettingsFault;
use usb_command_line::Enumerating;
use usb_host::{Choice, NamedStrings};

/// What the options choose. An absent one is `needed`, or `yes`.
///
/// ```rust
/// let enumerating = Enumerating { log: false, brief: false, packets: false, with_strings: false, damage: None, strings: Some("skipped"), other_speed: None };
/// assert_eq!(rt; choice_of(&enumerating)?, Choice { strings: NamedStrings::Skipped, other_speed: true });
/// ```
///
/// # Errors
///
/// [`SettingsFault::Strings`], and else [`SettingsFault::OtherSpeed`], where the text is none of these.
pub fn choice_of(enumerating: &Enumerating<'_>) -> Result<Choice, SettingsFault>
    ensures ok { IfOk result (IsChosen enumerating.now) }
    ensures err { IfErr result (RefusesChoosing enumerating.now) }
{
    let Some(strings) = strings_said(enumerating.strings) else {
        return Err(SettingsFault::Strings);
    };
    let Some(other_speed) = other_speed_said(enumerating.other_speed) else {
        return Err(SettingsFault::OtherSpeed);
    };
    Ok(Choice {
        strings,
        other_speed,
    })
}

fn strings_said(option: Option<&str>) -> Option<NamedStrings>
    ensures { result ≡ strings_said option.entry }
{
    match option {
        Some(name) => strings_of(name),
        None => Some(NamedStrings::Needed),
    }
}

fn strings_of(name: &str) -> Option<NamedStrings>
    ensures { result ≡ strings_of name.now }
{
    if name == "needed" {
        Some(NamedStrings::Needed)
    } else if name == "wanted" {
        Some(NamedStrings::Wanted)
    } else if name == "skipped" {
        Some(NamedStrings::Skipped)
    } else {
        None
    }
}

fn other_speed_said(option: Option<&str>) -> Option<bool>
    ensures { result ≡ other_speed_said option.entry }
{
    match option {
        Some(name) => other_speed_of(name),
        None => Some(true),
    }
}

fn other_speed_of(name: &str) -> Option<bool>
    ensures { result ≡ other_speed_of name.now }
{
    if name == "yes" {
        Some(true)
    } else if name == "no" {
        Some(false)
    } else {
        None
    }
}
