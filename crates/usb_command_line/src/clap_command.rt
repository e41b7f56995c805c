//! The command `usbdesc`, as `clap` has it.
ghost use Rattle.std.specs.Prelude.{◌≡◌, IfOk, false};
ghost use Rattle.clap.specs.Words.{app_of, new_app, rule_of, with_rule, with_subcommand};
ghost use Rattle.clap.specs.declared.builder.Command.TheViews.{out-Command};
ghost use Rattle.usb_command_line.specs.CommandLine.{address_rule, attempts_rule, build_app, bus_rules, capture_app, check_app, chosen_rule, enumerate_app, explain_app, file_apps, flag_rule, host_rules, naks_rule, show_app, string_rules, usbdesc_app, valued_rule, with_commands, with_rules};

use crate::help::{
    ABOUT, ADDRESS_HELP, ATTEMPTS_HELP, BRIEF_HELP, BRIEF_LINES_HELP, BRIEF_LOG_HELP, BUILD_ABOUT,
    BUILD_HELP, BUILD_USAGE, CAPTURE_ABOUT, CAPTURE_HELP, CAPTURE_USAGE, CHECK_ABOUT,
    CHECK_ANY_HELP, CHECK_HELP, CHECK_USAGE, COMMENTS_HELP, DAMAGE, DAMAGE_HELP, DATA_HELP, DEVICE,
    DEVICE_HELP, ENUMERATE_ABOUT, ENUMERATE_HELP, ENUMERATE_USAGE, EXPLAIN_ABOUT, EXPLAIN_HELP,
    EXPLAIN_USAGE, FATES, FATES_HELP, FILE_HELP, FORMATS_HELP, FROM_HELP, HEX_HELP,
    HEX_OUTPUT_HELP, LOG_HELP, LOOSE_HELP, NAKS_HELP, NO_PLACES_HELP, OTHER_SPEED,
    OTHER_SPEED_HELP, PACKETS_HELP, RAN_AT_HELP, REMARKS_HELP, RUNNING_SPEEDS, SECONDS, SHOW_ABOUT,
    SHOW_ANY_HELP, SHOW_HELP, SHOW_USAGE, SPEED_HELP, SPEEDS, STRINGS, STRINGS_HELP, TO_HELP,
    UTF8_HELP, VERSION, WITH_STRINGS_HELP,
};
use clap::{Arg, ArgAction, Command, value_parser};
use std::alloc::{AllocError, Global};

/// The command with its subcommands.
pub(crate) fn usbdesc<'a>(alloc: Global) -> Result<Command<'a>, AllocError>
    ensures { IfOk result (λ c. app_of c ≡ usbdesc_app) }
{
    let usbdesc = Command::new(alloc, "usbdesc")
        .version(VERSION)
        .about(ABOUT)
        .subcommand_required(true);
    let usbdesc = add_file_commands(alloc, usbdesc)?;
    let usbdesc = add_command(usbdesc, explain(alloc)?)?;
    let usbdesc = add_command(usbdesc, enumerate(alloc)?)?;
    add_command(usbdesc, capture(alloc)?)
}

/// The command with the subcommands for a descriptor file.
fn add_file_commands<'a>(alloc: Global, command: Command<'a>) -> Result<Command<'a>, AllocError>
    ensures { IfOk result (λ c. app_of c ≡ with_commands (app_of command.entry) file_apps) }
{
    let command = add_command(command, show(alloc)?)?;
    let command = add_command(command, check(alloc)?)?;
    add_command(command, build(alloc)?)
}

/// The command with one more subcommand, none of whose options its own subcommands take.
fn add_command<'a>(command: Command<'a>, subcommand: Command<'a>) -> Result<Command<'a>, AllocError>
    requires { (out-Command subcommand).has_globals ≡ false }
    ensures { IfOk result (λ c. app_of c ≡ with_subcommand (app_of command.entry) (app_of subcommand.entry).top) }
{
    command.subcommand(subcommand)
}

/// The subcommand `show` with its options.
fn show<'a>(alloc: Global) -> Result<Command<'a>, AllocError>
    ensures app { IfOk result (λ c. app_of c ≡ show_app) }
    ensures local { IfOk result (λ c. (out-Command c).has_globals ≡ false) }
{
    let show = command(alloc, "show", SHOW_USAGE, SHOW_ABOUT, SHOW_HELP);
    let show = add_option(show, flag(alloc, "any", SHOW_ANY_HELP))?;
    add_option(show, flag(alloc, "hex", HEX_HELP))
}

/// The subcommand `check` with its options.
fn check<'a>(alloc: Global) -> Result<Command<'a>, AllocError>
    ensures app { IfOk result (λ c. app_of c ≡ check_app) }
    ensures local { IfOk result (λ c. (out-Command c).has_globals ≡ false) }
{
    let check = command(alloc, "check", CHECK_USAGE, CHECK_ABOUT, CHECK_HELP);
    let check = add_option(check, flag(alloc, "any", CHECK_ANY_HELP))?;
    let check = add_option(check, flag(alloc, "hex", HEX_HELP))?;
    let check = add_option(check, flag(alloc, "remarks", REMARKS_HELP))?;
    add_option(check, chosen(alloc, "speed", RUNNING_SPEEDS, RAN_AT_HELP))
}

/// The subcommand `build` with its options.
fn build<'a>(alloc: Global) -> Result<Command<'a>, AllocError>
    ensures app { IfOk result (λ c. app_of c ≡ build_app) }
    ensures local { IfOk result (λ c. (out-Command c).has_globals ≡ false) }
{
    let build = command(alloc, "build", BUILD_USAGE, BUILD_ABOUT, BUILD_HELP);
    let build = add_option(build, flag(alloc, "comments", COMMENTS_HELP))?;
    add_option(build, flag(alloc, "hex", HEX_OUTPUT_HELP))
}

/// The subcommand `explain` with its options.
fn explain<'a>(alloc: Global) -> Result<Command<'a>, AllocError>
    ensures app { IfOk result (λ c. app_of c ≡ explain_app) }
    ensures local { IfOk result (λ c. (out-Command c).has_globals ≡ false) }
{
    let explain = command(alloc, "explain", EXPLAIN_USAGE, EXPLAIN_ABOUT, EXPLAIN_HELP);
    let explain = add_option(explain, flag(alloc, "brief", BRIEF_HELP))?;
    let explain = add_option(explain, flag(alloc, "no-places", NO_PLACES_HELP))?;
    let explain = add_option(explain, flag(alloc, "utf8", UTF8_HELP))?;
    let explain = add_option(explain, flag(alloc, "hex", HEX_HELP))?;
    let explain = add_option(explain, flag(alloc, "loose", LOOSE_HELP))?;
    let explain = add_option(explain, flag(alloc, "formats", FORMATS_HELP))?;
    add_option(explain, chosen(alloc, "speed", RUNNING_SPEEDS, RAN_AT_HELP))
}

/// The subcommand `enumerate` with its options.
fn enumerate<'a>(alloc: Global) -> Result<Command<'a>, AllocError>
    ensures app { IfOk result (λ c. app_of c ≡ enumerate_app) }
    ensures local { IfOk result (λ c. (out-Command c).has_globals ≡ false) }
{
    let enumerate = command(
        alloc,
        "enumerate",
        ENUMERATE_USAGE,
        ENUMERATE_ABOUT,
        ENUMERATE_HELP,
    );
    let enumerate = add_host_options(alloc, enumerate)?;
    let enumerate = add_bus_options(alloc, enumerate)?;
    add_string_options(alloc, enumerate)
}

/// The command with the options that say what the host is.
fn add_host_options<'a>(alloc: Global, command: Command<'a>) -> Result<Command<'a>, AllocError>
    ensures app { IfOk result (λ c. app_of c ≡ with_rules (app_of command.entry) host_rules) }
    ensures local { IfOk result (λ c. (out-Command c).has_globals ≡ (out-Command command.entry).has_globals) }
{
    let command = add_option(command, chosen(alloc, "speed", SPEEDS, SPEED_HELP))?;
    let command = add_option(command, address(alloc))?;
    let command = add_option(command, naks(alloc))?;
    add_option(command, attempts(alloc))
}

/// The command with the options that say what befalls the packets, and whether they are reported.
fn add_bus_options<'a>(alloc: Global, command: Command<'a>) -> Result<Command<'a>, AllocError>
    ensures app { IfOk result (λ c. app_of c ≡ with_rules (app_of command.entry) bus_rules) }
    ensures local { IfOk result (λ c. (out-Command c).has_globals ≡ (out-Command command.entry).has_globals) }
{
    let command = add_option(command, chosen(alloc, "fates", FATES, FATES_HELP))?;
    let command = add_option(command, chosen(alloc, "damage", DAMAGE, DAMAGE_HELP))?;
    let command = add_option(command, flag(alloc, "log", LOG_HELP))?;
    let command = add_option(command, flag(alloc, "brief", BRIEF_LOG_HELP))?;
    add_option(command, flag(alloc, "packets", PACKETS_HELP))
}

/// The command with the options that say which strings and sets are wanted.
fn add_string_options<'a>(alloc: Global, command: Command<'a>) -> Result<Command<'a>, AllocError>
    ensures app { IfOk result (λ c. app_of c ≡ with_rules (app_of command.entry) string_rules) }
    ensures local { IfOk result (λ c. (out-Command c).has_globals ≡ (out-Command command.entry).has_globals) }
{
    let command = add_option(command, flag(alloc, "with-strings", WITH_STRINGS_HELP))?;
    let command = add_option(command, chosen(alloc, "strings", STRINGS, STRINGS_HELP))?;
    add_option(
        command,
        chosen(alloc, "other-speed", OTHER_SPEED, OTHER_SPEED_HELP),
    )
}

/// The subcommand `capture` with its options.
fn capture<'a>(alloc: Global) -> Result<Command<'a>, AllocError>
    ensures app { IfOk result (λ c. app_of c ≡ capture_app) }
    ensures local { IfOk result (λ c. (out-Command c).has_globals ≡ false) }
{
    let capture = command(alloc, "capture", CAPTURE_USAGE, CAPTURE_ABOUT, CAPTURE_HELP);
    let capture = add_option(capture, flag(alloc, "data", DATA_HELP))?;
    let capture = add_option(capture, flag(alloc, "brief", BRIEF_LINES_HELP))?;
    let capture = add_option(capture, chosen(alloc, "device", DEVICE, DEVICE_HELP))?;
    let capture = add_option(capture, chosen(alloc, "from", SECONDS, FROM_HELP))?;
    let capture = add_option(capture, chosen(alloc, "to", SECONDS, TO_HELP))?;
    add_option(capture, chosen(alloc, "file", DEVICE, FILE_HELP))
}

/// A command of this name, which takes no words of its own.
fn command<'a>(
    alloc: Global,
    name: &'a str,
    usage: &'a str,
    about: &'a str,
    help: &'a str,
) -> Command<'a>
    ensures app { app_of result ≡ new_app name.entry.now }
    ensures local { (out-Command result).has_globals ≡ false }
{
    Command::new(alloc, name)
        .override_usage(usage)
        .about(about)
        .after_help(help)
}

/// The command with one more option, which its subcommands do not take.
fn add_option<'a>(command: Command<'a>, option: Arg<'a>) -> Result<Command<'a>, AllocError>
    requires { option.global ≡ false }
    ensures app { IfOk result (λ c. app_of c ≡ with_rule (app_of command.entry) (rule_of option.entry)) }
    ensures local { IfOk result (λ c. (out-Command c).has_globals ≡ (out-Command command.entry).has_globals) }
{
    command.arg(option)
}

/// An option of this name, with one value.
fn valued<'a>(alloc: Global, name: &'a str, help: &'a str) -> Arg<'a>
    ensures rule { rule_of result ≡ valued_rule name.entry.now }
    ensures local { result.global ≡ false }
{
    Arg::new(alloc, name).long(name).help(help)
}

/// An option of this name, with one value, which help calls by what it may be.
fn chosen<'a>(alloc: Global, name: &'a str, values: &'a str, help: &'a str) -> Arg<'a>
    ensures rule { rule_of result ≡ chosen_rule name.entry.now }
    ensures local { result.global ≡ false }
{
    valued(alloc, name, help).value_name(values)
}

/// An option of this name, without a value.
fn flag<'a>(alloc: Global, name: &'a str, help: &'a str) -> Arg<'a>
    ensures rule { rule_of result ≡ flag_rule name.entry.now }
    ensures local { result.global ≡ false }
{
    Arg::new(alloc, name)
        .long(name)
        .help(help)
        .action(ArgAction::SetTrue)
}

fn address<'a>(alloc: Global) -> Arg<'a>
    ensures rule { rule_of result ≡ address_rule }
    ensures local { result.global ≡ false }
{
    valued(alloc, "address", ADDRESS_HELP).value_parser(value_parser!(u8).range(1..=127))
}

fn naks<'a>(alloc: Global) -> Arg<'a>
    ensures rule { rule_of result ≡ naks_rule }
    ensures local { result.global ≡ false }
{
    valued(alloc, "naks", NAKS_HELP).value_parser(value_parser!(u16))
}

fn attempts<'a>(alloc: Global) -> Arg<'a>
    ensures rule { rule_of result ≡ attempts_rule }
    ensures local { result.global ≡ false }
{
    valued(alloc, "attempts", ATTEMPTS_HELP).value_parser(value_parser!(u8).range(1..=8))
}
