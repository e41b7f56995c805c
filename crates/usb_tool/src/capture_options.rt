//! What the options of `capture` mean.
ghost use Rattle.std.specs.Prelude.{◌≡◌, ◌≤◌, ◌-◌, ◌*◌, ◌^◌, IfErr, IfOk, IfSome, option_map};
ghost use Rattle.usb_tool.specs.CaptureOptions.{IsCaptureCommand, IsFileCommand, IsLinesCommand, IsSelected, RefusesCapturing, RefusesFile, RefusesSelecting, around_point, asks_lines, asks_transfers, device_number, device_of, device_said, fraction_of, time_of, time_said, whole_time};
ghost use Rattle.usb_tool.specs.OptionValues.{number_of};

use crate::settings::SettingsFault;
use usb_capture_lines::{DeviceAddress, Selection};
use usb_command_line::Capturing;
use usb_fields::byte_at;

/// What `capture` writes.
#[derive(Clone, Copy, Debug, PartialEq, Eq, Hash)]
pub enum CaptureCommand {
    /// The lines of a recording.
    Lines(Selection),
    /// The descriptors of a device, as a file or a dump.
    File(DeviceAddress),
}

/// What the options ask for.
///
/// ```rust
/// let capturing = Capturing { data: false, brief: false, device: None, from: None, to: None, file: Some("1.5") };
/// assert_eq!(rt; capture_command(&capturing)?, CaptureCommand::File(DeviceAddress { bus: 1, device: 5 }));
/// ```
///
/// # Errors
///
/// [`SettingsFault::FileBeside`] where a file is asked for beside what is for lines, [`SettingsFault::BriefBeside`] where lines
/// of transfers are left out beside what is for these, and else [`SettingsFault::Device`] and [`SettingsFault::Time`] where a
/// text names none.
pub fn capture_command(capturing: &Capturing<'_>) -> Result<CaptureCommand, SettingsFault>
    ensures ok { IfOk result (IsCaptureCommand capturing.now) }
    ensures err { IfErr result (RefusesCapturing capturing.now) }
{
    match capturing.file {
        Some(text) => file_command(capturing, text),
        None => lines_command(capturing),
    }
}

/// What they ask for where this names the device of a file.
fn file_command(capturing: &Capturing<'_>, text: &str) -> Result<CaptureCommand, SettingsFault>
    ensures ok { IfOk result (IsFileCommand capturing.now text.now) }
    ensures err { IfErr result (RefusesFile capturing.now text.now) }
{
    if asks_lines(capturing) {
        return Err(SettingsFault::FileBeside);
    }
    match device_of(text) {
        Some(device) => Ok(CaptureCommand::File(device)),
        None => Err(SettingsFault::Device),
    }
}

/// What they ask for where no file is.
fn lines_command(capturing: &Capturing<'_>) -> Result<CaptureCommand, SettingsFault>
    ensures ok { IfOk result (IsLinesCommand capturing.now) }
    ensures err { IfErr result (RefusesSelecting capturing.now) }
{
    match selection_of(capturing) {
        Ok(selection) => Ok(CaptureCommand::Lines(selection)),
        Err(fault) => Err(fault),
    }
}

/// Whether an option is given that is for lines.
fn asks_lines(capturing: &Capturing<'_>) -> bool
    ensures { result ≡ asks_lines capturing.now }
{
    capturing.brief || capturing.device.is_some() || asks_transfers(capturing)
}

/// Whether an option is given that is for lines of transfers.
fn asks_transfers(capturing: &Capturing<'_>) -> bool
    ensures { result ≡ asks_transfers capturing.now }
{
    capturing.data || capturing.from.is_some() || capturing.to.is_some()
}

/// Which lines are asked for.
fn selection_of(capturing: &Capturing<'_>) -> Result<Selection, SettingsFault>
    ensures ok { IfOk result (IsSelected capturing.now) }
    ensures err { IfErr result (RefusesSelecting capturing.now) }
{
    if capturing.brief && asks_transfers(capturing) {
        return Err(SettingsFault::BriefBeside);
    }
    let Some(device) = device_said(capturing.device) else {
        return Err(SettingsFault::Device);
    };
    let (Some(from), Some(to)) = (time_said(capturing.from), time_said(capturing.to)) else {
        return Err(SettingsFault::Time);
    };
    Ok(Selection {
        brief: capturing.brief,
        data: capturing.data,
        device,
        from,
        to,
    })
}

/// The device that an option names, if it is given.
fn device_said(option: Option<&str>) -> Option<Option<DeviceAddress>>
    ensures { result ≡ device_said option.entry }
{
    match option {
        Some(text) => Some(Some(device_of(text)?)),
        None => Some(None),
    }
}

/// The device of a text: the number of its bus, a point, and its address.
fn device_of(text: &str) -> Option<DeviceAddress>
    ensures { result ≡ device_of text.now }
{
    let (bus, device) = around_point(text)?;
    Some(DeviceAddress {
        bus: device_number(bus)?,
        device: device_number(device)?,
    })
}

/// The number of a bus or an address, maybe with zeros before it, as lsusb writes them.
fn device_number(text: &str) -> Option<u16>
    ensures { result ≡ device_number text.now }
{
    if byte_at(text.as_bytes(), 0) == b'+' {
        return None;
    }
    short_number(text)
}

/// The time that an option names, if it is given, in nanoseconds.
fn time_said(option: Option<&str>) -> Option<Option<u64>>
    ensures { result ≡ time_said option.entry }
{
    match option {
        Some(text) => Some(Some(time_of(text)?)),
        None => Some(None),
    }
}

/// The nanoseconds of a number of seconds, with a point and at most nine digits after it, or without.
fn time_of(text: &str) -> Option<u64>
    ensures { result ≡ time_of text.now }
{
    match around_point(text) {
        Some((whole, fraction)) => Some(whole_time(whole)? + fraction_of(fraction)?),
        None => whole_time(text),
    }
}

/// The nanoseconds of a whole number of seconds.
fn whole_time(text: &str) -> Option<u64>
    ensures value { result ≡ whole_time text.now }
    ensures few { IfSome result (λ time. time ≤ 4294967295000000000) }
{
    Some(u64::from(number(text)?) * 1_000_000_000)
}

/// The nanoseconds of the digits after the point.
fn fraction_of(text: &str) -> Option<u64>
    ensures value { result ≡ fraction_of text.now }
    ensures few { IfSome result (λ time. time ≤ 4294967295000000000) }
{
    if text.len() > 9 || byte_at(text.as_bytes(), 0) == b'+' {
        return None;
    }
    Some(scaled(number(text)?, text.len()))
}

/// The nanoseconds of a number that has this many digits after the point.
fn scaled(number: u32, digits: usize) -> u64
    ensures value { result ≡ number * 10 ^ (9 - digits) }
    ensures few { result ≤ 4294967295000000000 }
{
    let number = u64::from(number);
    match digits {
        0 => number * 1_000_000_000,
        1 => number * 100_000_000,
        2 => number * 10_000_000,
        3 => number * 1_000_000,
        4 => number * 100_000,
        5 => number * 10_000,
        6 => number * 1000,
        7 => number * 100,
        8 => number * 10,
        _ => number,
    }
}

/// The text before the first point and the one after it, if there is one.
fn around_point(text: &str) -> Option<(&str, &str)>
    ensures { option_map (λ p. (p.0.now, p.1.now)) result ≡ around_point text.now }
{
    text.split_once('.')
}

fn number(text: &str) -> Option<u32>
    ensures { result ≡ number_of 32 text.now }
{
    text.parse::<u32>().ok()
}

fn short_number(text: &str) -> Option<u16>
    ensures { result ≡ number_of 16 text.now }
{
    text.parse::<u16>().ok()
}
