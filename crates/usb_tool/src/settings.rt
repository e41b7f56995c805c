//! What the options of `enumerate` mean.
ghost use Rattle.std.specs.Prelude.{◌≡◌, IfErr, IfOk, Some, IsSomeAnd};
ghost use Rattle.usb_tool.specs.OptionValues.{speed_of, RefusesFates, fate_of, fates_of};
ghost use Rattle.usb_tool.specs.declared.settings.FatesFault.TheVariants as letters;
ghost use Rattle.usb_tool.specs.declared.settings.SettingsFault.TheVariants as faults;
ghost use Rattle.usb_tool.specs.Settings.{IsSettled, IsSettledUnless, RefusesOptions, RefusesUnless, byte_said, fates_said, flag_alone, limits_said, settings_fault_of, speed_said, word_said};
ghost use Rattle.usb_tool.specs.OptionFaults.{settings_fault_number, settings_line, settings_status};

use std::alloc::{AllocError, AllocFailed, Global};
use std::{error, fmt};
use usb_bus::Fate;
use usb_command_line::Options;
use usb_fields::Speed;
use usb_host::{Choice, Limits};

/// The speed of a name: `low`, `full` or `high`.
///
/// ```rust
/// assert_eq!(rt; read_speed("high"), Some(Speed::High));
/// assert_eq!(rt; read_speed("fast"), None);
/// ```
pub fn read_speed(text: &str) -> Option<Speed>
    ensures { result ≡ speed_of text.now }
{
    if text == "low" {
        Some(Speed::Low)
    } else if text == "full" {
        Some(Speed::Full)
    } else if text == "high" {
        Some(Speed::High)
    } else {
        None
    }
}

/// The fates that the letters of a text name, in order: `.` is `Pass`, `n` `Busy`, `d` `LostDown`, `u` `LostUp` and
/// `a` `LostAck`.
///
/// ```rust
/// assert_eq!(rt; read_fates(alloc, ".n")?.as_slice(), [Fate::Pass, Fate::Busy]);
/// assert_eq!(rt; read_fates(alloc, ".x").err(), Some(FatesFault::Letter));
/// ```
///
/// # Errors
///
/// [`FatesFault::Letter`] where a character is none of the five, and [`FatesFault::Memory`] where a growth was
/// refused, the first of which is asked for where the first character is one of the five.
pub fn read_fates(alloc: Global, text: &str) -> Result<Vec<Fate>, FatesFault>
    ensures ok { IfOk result (λ fates. fates_of text.now ≡ Some fates.items) }
    ensures err { IfErr result (RefusesFates text.now) }
{
    let mut fates = Vec::new(alloc);
    for letter in text.as_bytes() {
        match fate_of(*letter) {
            Some(fate) => fates.push(fate)?,
            None => return Err(FatesFault::Letter),
        }
    }
    Ok(fates)
}

/// The fate of one letter.
fn fate_of(letter: u8) -> Option<Fate>
    ensures { result ≡ fate_of letter }
{
    match letter {
        b'.' => Some(Fate::Pass),
        b'n' => Some(Fate::Busy),
        b'd' => Some(Fate::LostDown),
        b'u' => Some(Fate::LostUp),
        b'a' => Some(Fate::LostAck),
        _ => None,
    }
}

/// Why a text names no fates.
#[derive(Clone, Copy, Debug, PartialEq, Eq, Hash)]
pub enum FatesFault {
    /// A character names no fate.
    Letter,
    /// Out of memory.
    Memory,
}

impl FatesFault {
    ghost use Rattle.usb_tool.specs.OptionFaults.{fates_fault_number};

    /// The fault's number, 1 or 2.
    ///
    /// ```rust
    /// assert_eq!(rt; FatesFault::Letter.number(), 1);
    /// ```
    pub fn number(self) -> u8
        ensures { result ≡ fates_fault_number self }
    {
        self as u8 + 1
    }
}

impl fmt::Display for FatesFault {
    ghost use Rattle.usb_tool.specs.OptionFaults.{fates_fault_message};

    ghost output = { λ fault. Some (fates_fault_message fault) };

    fn fmt<W: fmt::Write>(&self, f: &mut fmt::Formatter<W>) -> fmt::Result {
        match self {
            FatesFault::Letter => f.write_str("a letter that names no fate"),
            FatesFault::Memory => f.write_str("out of memory"),
        }
    }
}

impl error::Error for FatesFault {}

impl<T: Drop> From<AllocFailed<T>> for FatesFault {
    ghost from_gives = { λ _ fault. fault ≡ letters.Memory };

    fn from(_e: AllocFailed<T>) -> FatesFault {
        FatesFault::Memory
    }
}

/// The flags of `enumerate`: what it does beside, and what its host asks for.
#[derive(Clone, Copy, Debug, PartialEq, Eq, Hash)]
pub struct EnumerateFlags {
    /// Whether a log of the transactions is asked for.
    pub log: bool,
    /// Whether its lines of data are left out.
    pub brief: bool,
    /// Whether it shows the bytes of each packet.
    pub packets: bool,
    /// Whether a dump is taken, with a text in each place that names a string.
    pub with_strings: bool,
    /// What the host asks for.
    pub choice: Choice,
}

/// What an enumeration is given beside its file.
#[derive(Debug, Drop)]
pub struct Settings {
    /// The limits of the host's retries, and the address that it gives.
    pub limits: Limits,
    /// The speed of the device.
    pub speed: Speed,
    /// What the bus does to each transaction; after the last one all arrives.
    pub fates: Vec<Fate>,
}

/// The settings that the options give. An absent one is address 1, 16 NAKs, 3 attempts, full speed, or no fates.
///
/// ```rust
/// let options = Options { speed: Some("high"), address: None, naks: Some("2"), attempts: None, fates: None };
/// let settings = settings_of(alloc, &options)?;
/// assert_eq!(rt; settings.speed, Speed::High);
/// assert_eq!(rt; settings.limits, Limits::new(1, 2, 3)?);
/// ```
///
/// # Errors
///
/// The first of these that holds: [`SettingsFault::Number`] where one of the numbers is none that `parse` reads or
/// is out of its range, [`SettingsFault::Speed`], and [`SettingsFault::Fates`]. [`SettingsFault::Memory`] as
/// [`read_fates`] has it; then neither of the first two holds.
pub fn settings_of(alloc: Global, options: &Options<'_>) -> Result<Settings, SettingsFault>
    ensures ok { IfOk result (IsSettled options.now) }
    ensures err { IfErr result (RefusesOptions options.now) }
{
    let Some(limits) = limits_of(options) else {
        return Err(SettingsFault::Number);
    };
    let Some(speed) = speed_of(options) else {
        return Err(SettingsFault::Speed);
    };
    let fates = fates_of(alloc, options)?;
    Ok(Settings {
        limits,
        speed,
        fates,
    })
}

/// The settings that the options give beside these flags.
///
/// ```rust
/// let options = Options { speed: None, address: None, naks: None, attempts: None, fates: None };
/// let choice = Choice::everything();
/// let flags = EnumerateFlags { log: false, brief: true, packets: false, with_strings: false, choice };
/// assert_eq!(rt; settings_with(alloc, &options, flags).err(), Some(SettingsFault::BriefAlone));
/// ```
///
/// # Errors
///
/// [`SettingsFault::BriefAlone`] or [`SettingsFault::PacketsAlone`] where a flag is for a log and none is asked for, and else those of
/// [`settings_of`].
pub fn settings_with(
    alloc: Global,
    options: &Options<'_>,
    flags: EnumerateFlags,
) -> Result<Settings, SettingsFault>
    ensures ok { IfOk result (IsSettledUnless (flag_alone flags) options.now) }
    ensures err { IfErr result (RefusesUnless (flag_alone flags) options.now) }
{
    match flag_alone(flags) {
        Some(fault) => Err(fault),
        None => settings_of(alloc, options),
    }
}

/// The fault of a flag that is for a log where none is asked for.
fn flag_alone(flags: EnumerateFlags) -> Option<SettingsFault>
    ensures { result ≡ flag_alone flags }
{
    if flags.log {
        None
    } else if flags.brief {
        Some(SettingsFault::BriefAlone)
    } else if flags.packets {
        Some(SettingsFault::PacketsAlone)
    } else {
        None
    }
}

/// The limits that the numbers say.
fn limits_of(options: &Options<'_>) -> Option<Limits>
    ensures { result ≡ limits_said options.now }
{
    let address = byte_of(options.address, 1)?;
    let naks = word_of(options.naks, 16)?;
    let attempts = byte_of(options.attempts, 3)?;
    Limits::new(address, naks, attempts).ok()
}

/// The number that an option of 8 bits says, or what it is where it is absent.
fn byte_of(option: Option<&str>, absent: u8) -> Option<u8>
    ensures { result ≡ byte_said absent option.entry }
{
    match option {
        Some(text) => text.parse::<u8>().ok(),
        None => Some(absent),
    }
}

/// The number that an option of 16 bits says, or what it is where it is absent.
fn word_of(option: Option<&str>, absent: u16) -> Option<u16>
    ensures { result ≡ word_said absent option.entry }
{
    match option {
        Some(text) => text.parse::<u16>().ok(),
        None => Some(absent),
    }
}

/// The speed that is named: full speed where none is.
fn speed_of(options: &Options<'_>) -> Option<Speed>
    ensures { result ≡ speed_said options.now }
{
    match options.speed {
        Some(name) => read_speed(name),
        None => Some(Speed::Full),
    }
}

/// The fates that are named: none where there is no such option.
fn fates_of(alloc: Global, options: &Options<'_>) -> Result<Vec<Fate>, FatesFault>
    ensures ok { IfOk result (λ fates. fates_said options.now ≡ Some fates.items) }
    ensures err { IfErr result (λ fault. IsSomeAnd options.now.fates (λ text. RefusesFates text.now fault)) }
{
    match options.fates {
        Some(letters) => read_fates(alloc, letters),
        None => Ok(Vec::new(alloc)),
    }
}

/// Why the options give no settings.
#[derive(Clone, Copy, Debug, PartialEq, Eq, Hash)]
pub enum SettingsFault {
    /// A number is none that `parse` reads, or is out of its range.
    Number,
    /// No speed has the name.
    Speed,
    /// A letter names no fate.
    Fates,
    /// Out of memory.
    Memory,
    /// A speed is named, and no remarks are asked for.
    SpeedAlone,
    /// Lines of a log are left out, and no log is asked for.
    BriefAlone,
    /// A text names no changes of bits.
    Damages,
    /// The bytes of packets are asked for, and no log is, which shows them.
    PacketsAlone,
    /// No choice of strings has the name.
    Strings,
    /// No choice of the other speed has the name.
    OtherSpeed,
    /// A file is asked for, and lines of a recording too.
    FileBeside,
    /// Lines of transfers are left out, and something is asked for that is for these.
    BriefBeside,
    /// A text names no device.
    Device,
    /// A text is no number of seconds.
    Time,
}

impl SettingsFault {
    /// The fault's number, 1 to 15 without 6: of the first three a lower one is tested first.
    ///
    /// ```rust
    /// assert_eq!(rt; SettingsFault::Speed.number(), 2);
    /// ```
    pub fn number(self) -> u8
        ensures { result ≡ settings_fault_number self }
    {
        match self {
            SettingsFault::Number => 1,
            SettingsFault::Speed => 2,
            SettingsFault::Fates => 3,
            SettingsFault::Memory => 4,
            SettingsFault::SpeedAlone => 5,
            SettingsFault::BriefAlone => 7,
            SettingsFault::Damages => 8,
            SettingsFault::PacketsAlone => 9,
            SettingsFault::Strings => 10,
            SettingsFault::OtherSpeed => 11,
            SettingsFault::FileBeside => 12,
            SettingsFault::BriefBeside => 13,
            SettingsFault::Device => 14,
            SettingsFault::Time => 15,
        }
    }

    /// The exit status of the program: 2 as for a line that is no command, and 3 out of memory.
    ///
    /// ```rust
    /// assert_eq!(rt; SettingsFault::Speed.status(), 2);
    /// ```
    pub fn status(self) -> u8
        ensures { result ≡ settings_status self }
    {
        match self {
            SettingsFault::Memory => 3,
            _ => 2,
        }
    }
}

impl SettingsFault {
    ghost use Rattle.usb_tool.specs.OptionFaults.{settings_meaning};

    /// What the fault means, for people.
    pub fn meaning(self) -> &'static str
        ensures { result.now ≡ settings_meaning self }
    {
        match self {
            SettingsFault::Number => "a number that is none or out of its range",
            SettingsFault::Speed => "a speed is low, full or high, of explain also super",
            SettingsFault::Fates => "a letter that names no fate: they are . n d u a",
            SettingsFault::Memory => "there was not enough memory",
            SettingsFault::SpeedAlone => "a speed is for remarks: check --remarks --speed full",
            SettingsFault::BriefAlone => "a log is brief: enumerate --log --brief",
            SettingsFault::Damages => "damage is TRANSACTION:PACKET:BIT,..;.. with packets 1 to 3",
            SettingsFault::PacketsAlone => "a log shows packets: enumerate --log --packets",
            SettingsFault::Strings => "strings are needed, wanted or skipped",
            SettingsFault::OtherSpeed => "the other speed is asked for or not: yes or no",
            SettingsFault::FileBeside => "--file is for a file alone: capture --file 1.5",
            SettingsFault::BriefBeside =>
                "--brief leaves out the lines that --data, --from and --to are for",
            SettingsFault::Device => "a device is its bus and its address: 1.5",
            SettingsFault::Time => "a time is in seconds, with at most nine digits after the point",
        }
    }
}

/// The line that the program prints on standard error, without its line feed.
impl fmt::Display for SettingsFault {
    ghost output = { λ fault. Some (settings_line fault) };

    fn fmt<W: fmt::Write>(&self, f: &mut fmt::Formatter<W>) -> fmt::Result {
        match self {
            SettingsFault::Number => f.write_str("usbdesc: bad number"),
            SettingsFault::Speed => f.write_str("usbdesc: bad speed"),
            SettingsFault::Fates => f.write_str("usbdesc: bad fates"),
            SettingsFault::Memory => f.write_str("usbdesc: out of memory"),
            SettingsFault::SpeedAlone => f.write_str("usbdesc: --speed without --remarks"),
            SettingsFault::BriefAlone => f.write_str("usbdesc: --brief without --log"),
            SettingsFault::Damages => f.write_str("usbdesc: bad damages"),
            SettingsFault::PacketsAlone => f.write_str("usbdesc: --packets without --log"),
            SettingsFault::Strings => f.write_str("usbdesc: bad strings"),
            SettingsFault::OtherSpeed => f.write_str("usbdesc: bad other speed"),
            SettingsFault::FileBeside => f.write_str("usbdesc: --file beside other options"),
            SettingsFault::BriefBeside => f.write_str(
                "usbdesc: --brief beside --data, --from or --to",
            ),
            SettingsFault::Device => f.write_str("usbdesc: bad device"),
            SettingsFault::Time => f.write_str("usbdesc: bad time"),
        }
    }
}

impl error::Error for SettingsFault {}

impl From<FatesFault> for SettingsFault {
    ghost from_gives = { λ e fault. fault ≡ settings_fault_of e };

    fn from(e: FatesFault) -> SettingsFault {
        match e {
            FatesFault::Letter => SettingsFault::Fates,
            FatesFault::Memory => SettingsFault::Memory,
        }
    }
}

impl<T: Drop> From<AllocFailed<T>> for SettingsFault {
    ghost from_gives = { λ _ fault. fault ≡ faults.Memory };

    fn from(_e: AllocFailed<T>) -> SettingsFault {
        SettingsFault::Memory
    }
}

impl From<AllocError> for SettingsFault {
    ghost from_gives = { λ _ fault. fault ≡ faults.Memory };

    fn from(_e: AllocError) -> SettingsFault {
        SettingsFault::Memory
    }
}
