//! What `show` and `check` do by their options.
ghost use Rattle.std.specs.Prelude.{◌≡◌, IfErr, IfOk};
ghost use Rattle.usb_tool.specs.WorkOptions.{IsCheckingTask, IsCheckingWork, RefusesChecking, showing_task};

use crate::manner::running_speed_said;
use crate::settings::SettingsFault;
use crate::source::Source;
use crate::taken::Taken;
use crate::task::Task;
use crate::work::Work;
use usb_command_line::{Checking, Showing};

/// What `show` does with its input.
pub(crate) fn showing_task(options: Showing) -> Task
    ensures { result ≡ showing_task options }
{
    Task {
        source: Source::with_flag(options.hex),
        taken: Taken::SetOrFile.with_flag(options.any),
        work: Work::List,
    }
}

/// What `check` does with its input.
///
/// ```rust
/// let checking = Checking { any: true, hex: false, remarks: true, speed: Some("high") };
/// assert_eq!(rt; checking_task(&checking)?.work, Work::Remark(Some(SetSpeed::High)));
/// ```
///
/// # Errors
///
/// [`SettingsFault::SpeedAlone`] where a speed is named and remarks are not asked for, and [`SettingsFault::Speed`] where
/// they are and no speed has the name.
pub fn checking_task(options: &Checking<'_>) -> Result<Task, SettingsFault>
    ensures ok { IfOk result (IsCheckingTask options.now) }
    ensures err { IfErr result (RefusesChecking options.now) }
{
    let work = checking_work(options)?;
    Ok(Task {
        source: Source::with_flag(options.hex),
        taken: Taken::File.with_flag(options.any),
        work,
    })
}

fn checking_work(options: &Checking<'_>) -> Result<Work, SettingsFault>
    ensures ok { IfOk result (IsCheckingWork options.now) }
    ensures err { IfErr result (RefusesChecking options.now) }
{
    if options.remarks {
        match running_speed_said(options.speed) {
            Some(speed) => Ok(Work::Remark(speed)),
            None => Err(SettingsFault::Speed),
        }
    } else {
        match options.speed {
            None => Ok(Work::Check),
            Some(_) => Err(SettingsFault::SpeedAlone),
        }
    }
}
