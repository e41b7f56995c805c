//! What the words of the command line ask for.
ghost use Rattle.std.specs.Prelude.{◌≡◌, IfOk, Some, codes};
ghost use Rattle.clap.specs.Words.{fault_of, found_of, rows_of, subcommand_of, subcommand_rows_of};
ghost use Rattle.clap.specs.Kinds.{FailsBy};
ghost use Rattle.usb_command_line.specs.CommandLine.{Asks, HasCapturing, HasFlags, HasTexts, IsBuilding, IsChecking, IsEnumerating, IsShowing, asks_more, gives, is_given, text_of, usbdesc_app, word_texts};
ghost use Rattle.usb_command_line.specs.inside.Parsing.{NamesCommand};

use crate::building::Building;
use crate::capturing::Capturing;
use crate::checking::Checking;
use crate::clap_command::usbdesc;
use crate::enumerating::Enumerating;
use crate::explaining::Explaining;
use crate::options::Options;
use crate::showing::Showing;
use clap::{ArgMatches, Error};
use std::alloc::Global;

/// What a command line asks for.
#[derive(Clone, Copy, Debug, PartialEq, Eq, Hash)]
pub enum Line<'a> {
    /// The listing of the set or the file that is the input.
    Show,
    /// What breaks a rule of chapter 9 in the file that is the input.
    Check,
    /// The bytes of the file whose listing is the input.
    Build,
    /// What a host reads of a device that has the descriptors of the file that is the input.
    Enumerate(Options<'a>),
    /// `show` with at least one of its flags.
    ShowWith(Showing),
    /// `check` with at least one of its options.
    CheckWith(Checking<'a>),
    /// `build` with at least one of its flags.
    BuildWith(Building),
    /// `enumerate` with at least one of the options beside these.
    EnumerateWith(Options<'a>, Enumerating<'a>),
    /// What the descriptors of the input mean, in words.
    Explain(Explaining<'a>),
    /// What a recording says, in lines, or the descriptors of one of its devices.
    Capture(Capturing<'a>),
}

/// What the words ask for, of which the first is the program's name.
///
/// ```rust
/// let words = vec![in alloc; String::from_str(alloc, "usbdesc")?, String::from_str(alloc, "build")?]?;
/// assert_eq!(rt; read_line(alloc, &words)?, Line::Build);
///
/// let words = vec![in alloc; String::from_str(alloc, "usbdesc")?, String::from_str(alloc, "enumerate")?,
///     String::from_str(alloc, "--naks")?, String::from_str(alloc, "2")?]?;
/// let options = Options { speed: None, address: None, naks: Some("2"), attempts: None, fates: None };
/// assert_eq!(rt; read_line(alloc, &words)?, Line::Enumerate(options));
/// ```
///
/// # Errors
///
/// That of `clap`, whose text and kind it carries: a request for help, words that are no command, a number out
/// of its range, or out of memory.
pub fn read_line<'a>(alloc: Global, words: &'a [String]) -> Result<Line<'a>, Error>
    ensures line { IfOk result (λ line. Asks line (subcommand_of usbdesc_app (word_texts words.entry.now))) }
    ensures err { FailsBy (fault_of usbdesc_app (word_texts words.entry.now)) result }
{
    let matches = parse(alloc, words)?;
    Ok(line_of(&matches))
}

fn parse<'a>(alloc: Global, words: &'a [String]) -> Result<ArgMatches<'a>, Error>
    ensures found { IfOk result (λ m. subcommand_rows_of m ≡ subcommand_of usbdesc_app (word_texts words.entry.now)) }
    ensures named { IfOk result (λ m. NamesCommand (subcommand_rows_of m)) }
    ensures err { FailsBy (fault_of usbdesc_app (word_texts words.entry.now)) result }
{
    usbdesc(alloc)?.try_get_matches_from(words)
}

/// What matches ask for. There is always a line: a subcommand is required, and `help`, which `clap` adds, is
/// an error of the parse.
fn line_of<'a>(matches: &ArgMatches<'a>) -> Line<'a>
    requires named { NamesCommand (subcommand_rows_of matches.now) }
    ensures { Asks result (subcommand_rows_of matches.now) }
{
    match matches.subcommand() {
        Some((name, options)) if name == "show" => show_of(options),
        Some((name, options)) if name == "check" => check_of(options),
        Some((name, options)) if name == "build" => build_of(options),
        Some((name, options)) if name == "explain" => explain_of(options),
        Some((name, options)) if name == "enumerate" => enumerate_of(options),
        Some((name, options)) if name == "capture" => capture_of(options),
        _ => unreachable!(),
    }
}

fn show_of<'a>(matches: &ArgMatches<'a>) -> Line<'a>
    ensures { Asks result (Some (codes "show", rows_of (found_of matches.now))) }
{
    let showing = showing_of(matches);
    if showing.any || showing.hex {
        Line::ShowWith(showing)
    } else {
        Line::Show
    }
}

fn showing_of(matches: &ArgMatches<'_>) -> Showing
    ensures { IsShowing result (rows_of (found_of matches.now)) }
{
    Showing {
        any: has_flag(matches, "any"),
        hex: has_flag(matches, "hex"),
    }
}

fn check_of<'a>(matches: &ArgMatches<'a>) -> Line<'a>
    ensures { Asks result (Some (codes "check", rows_of (found_of matches.now))) }
{
    let checking = checking_of(matches);
    if checking.any || checking.hex || checking.remarks || checking.speed.is_some() {
        Line::CheckWith(checking)
    } else {
        Line::Check
    }
}

fn checking_of<'a>(matches: &ArgMatches<'a>) -> Checking<'a>
    ensures { IsChecking result (rows_of (found_of matches.now)) }
{
    Checking {
        any: has_flag(matches, "any"),
        hex: has_flag(matches, "hex"),
        remarks: has_flag(matches, "remarks"),
        speed: matches.get_str("speed"),
    }
}

fn build_of<'a>(matches: &ArgMatches<'a>) -> Line<'a>
    ensures { Asks result (Some (codes "build", rows_of (found_of matches.now))) }
{
    let building = building_of(matches);
    if building.comments || building.hex {
        Line::BuildWith(building)
    } else {
        Line::Build
    }
}

fn building_of(matches: &ArgMatches<'_>) -> Building
    ensures { IsBuilding result (rows_of (found_of matches.now)) }
{
    Building {
        comments: has_flag(matches, "comments"),
        hex: has_flag(matches, "hex"),
    }
}

fn enumerate_of<'a>(matches: &ArgMatches<'a>) -> Line<'a>
    ensures { Asks result (Some (codes "enumerate", rows_of (found_of matches.now))) }
{
    let options = options_of(matches);
    let enumerating = enumerating_of(matches);
    if asks_more(&enumerating) {
        Line::EnumerateWith(options, enumerating)
    } else {
        Line::Enumerate(options)
    }
}

fn enumerating_of<'a>(matches: &ArgMatches<'a>) -> Enumerating<'a>
    ensures { IsEnumerating result (rows_of (found_of matches.now)) }
{
    Enumerating {
        log: has_flag(matches, "log"),
        brief: has_flag(matches, "brief"),
        packets: has_flag(matches, "packets"),
        with_strings: has_flag(matches, "with-strings"),
        damage: matches.get_str("damage"),
        strings: matches.get_str("strings"),
        other_speed: matches.get_str("other-speed"),
    }
}

/// Whether one of these options was given.
fn asks_more(enumerating: &Enumerating<'_>) -> bool
    ensures { result ≡ asks_more enumerating.now }
{
    enumerating.log
        || enumerating.brief
        || enumerating.packets
        || enumerating.with_strings
        || enumerating.damage.is_some()
        || enumerating.strings.is_some()
        || enumerating.other_speed.is_some()
}

fn explain_of<'a>(matches: &ArgMatches<'a>) -> Line<'a>
    ensures { Asks result (Some (codes "explain", rows_of (found_of matches.now))) }
{
    Line::Explain(explaining_of(matches))
}

fn capture_of<'a>(matches: &ArgMatches<'a>) -> Line<'a>
    ensures { Asks result (Some (codes "capture", rows_of (found_of matches.now))) }
{
    Line::Capture(capturing_of(matches))
}

fn capturing_of<'a>(matches: &ArgMatches<'a>) -> Capturing<'a>
    ensures { HasCapturing result (rows_of (found_of matches.now)) }
{
    Capturing {
        data: has_flag(matches, "data"),
        brief: has_flag(matches, "brief"),
        device: matches.get_str("device"),
        from: matches.get_str("from"),
        to: matches.get_str("to"),
        file: matches.get_str("file"),
    }
}

fn explaining_of<'a>(matches: &ArgMatches<'a>) -> Explaining<'a>
    ensures { HasFlags result (rows_of (found_of matches.now)) }
{
    Explaining {
        brief: has_flag(matches, "brief"),
        no_places: has_flag(matches, "no-places"),
        utf8: has_flag(matches, "utf8"),
        hex: has_flag(matches, "hex"),
        loose: has_flag(matches, "loose"),
        formats: has_flag(matches, "formats"),
        speed: matches.get_str("speed"),
    }
}

/// Whether the flag of this name was given.
fn has_flag(matches: &ArgMatches<'_>, name: &str) -> bool
    ensures { result ≡ gives name.now (rows_of (found_of matches.now)) }
{
    is_given(matches.get_str(name))
}

/// Whether a flag was given, whose text this is.
fn is_given(text: Option<&str>) -> bool
    ensures { result ≡ is_given (text_of text.entry) }
{
    text == Some("true")
}

fn options_of<'a>(matches: &ArgMatches<'a>) -> Options<'a>
    ensures { HasTexts result (rows_of (found_of matches.now)) }
{
    Options {
        speed: matches.get_str("speed"),
        address: matches.get_str("address"),
        naks: matches.get_str("naks"),
        attempts: matches.get_str("attempts"),
        fates: matches.get_str("fates"),
    }
}
