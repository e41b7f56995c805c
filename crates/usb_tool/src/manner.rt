//! How an input is to be explained.
ghost use Rattle.std.specs.Prelude.{◌≡◌, IfErr, IfOk, None};
ghost use Rattle.usb_tool.specs.Manners.{IsManner, HasBadSpeed, running_said, running_speed_of};
ghost use Rattle.usb_tool.specs.declared.settings.SettingsFault.TheVariants.{Speed};

use crate::settings::SettingsFault;
use usb_command_line::Explaining;
use usb_explain::{Look, Manner};
use usb_remarks::SetSpeed;

/// What the options of `explain` mean. Fields and places are written unless they are left out, and without a speed the
/// descriptors say it.
///
/// ```rust
/// let manner = manner_of(&Explaining { brief: true, no_places: false, utf8: false, hex: false, loose: false, formats: false, speed: Some("high") })?;
/// assert_eq!(rt; manner.look, Look { brief: true, places: true, utf8: false, formats: false });
/// assert_eq!(rt; manner.speed, Some(SetSpeed::High));
/// ```
///
/// # Errors
///
/// [`SettingsFault::Speed`] where no speed has the name.
pub fn manner_of(explaining: &Explaining<'_>) -> Result<Manner, SettingsFault>
    ensures ok { IfOk result (IsManner explaining.now) }
    ensures err { IfErr result (λ fault. (fault ≡ Speed) × HasBadSpeed explaining.now) }
{
    let Some(speed) = running_speed_said(explaining.speed) else {
        return Err(SettingsFault::Speed);
    };
    Ok(Manner {
        look: Look {
            brief: explaining.brief,
            places: !explaining.no_places,
            utf8: explaining.utf8,
            formats: explaining.formats,
        },
        speed,
        decoded: false,
    })
}

/// The speed that is named, if one is; `None` where no speed has the name.
pub fn running_speed_said(name: Option<&str>) -> Option<Option<SetSpeed>>
    ensures { result ≡ running_said name.entry }
{
    match name {
        None => Some(None),
        Some(name) => Some(Some(read_running_speed(name)?)),
    }
}

/// The speed of a name: `low`, `full`, `high` or `super`.
///
/// ```rust
/// assert_eq!(rt; read_running_speed("super"), Some(SetSpeed::Super));
/// assert_eq!(rt; read_running_speed("Super"), None);
/// ```
pub fn read_running_speed(name: &str) -> Option<SetSpeed>
    ensures { result ≡ running_speed_of name.now }
{
    match name {
        "low" => Some(SetSpeed::Low),
        "full" => Some(SetSpeed::Full),
        "high" => Some(SetSpeed::High),
        "super" => Some(SetSpeed::Super),
        _ => None,
    }
}
