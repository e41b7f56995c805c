//! The commands of the program `usbdesc`, over any reader and writer.
//!
//! Three questions say what `show` and `check` do: where the bytes of the input come from ([`Source`]), what they are taken for
//! ([`Taken`]), and what is made of them ([`Work`]). [`run_work`] does a [`Task`], which answers the three. Its contract speaks of
//! the bytes that the reader has and of those that the writer gains, where the two state them: `specs/Works.antt` says what it
//! does, fault by fault. [`run_show`] and [`run_check`] are tasks. What each line of a listing says is in the crate `usb_listing`.
//!
//! [`run_build`] reads a listing and writes the bytes of its file, and [`run_build_as`] one with comments too, or hexadecimal
//! text (`specs/Builds.antt`). [`run_explain`] writes what the descriptors of any input mean, in words, also where it is
//! hexadecimal text, as an [`Explanation`] says, and what [`run_capture`] tells of a recording (`specs/Explains.antt`).
//! [`run_capture`] tells of a recording of a bus, which may have any length, or writes the descriptors of one of its devices
//! (`specs/Captures.antt`), by the options that [`capture_command`] reads (`specs/CaptureOptions.antt`).
//! [`run_enumerate`] enumerates a device that has the descriptors of a file, over a bus that loses
//! packets and handshakes, and writes what came of that (`specs/Enumerations.antt`). [`run_enumeration`] does so under all that an
//! [`Enumeration`] says: it takes a dump too where it is asked to, writes a log, whose lines are in the crate `usb_bus`, and
//! changes bits. It answers the [`EnumerationEnd`], whose meaning is `specs/EnumerationEnds.antt`.
//!
//! [`run`] is the whole program over any standard streams: [`read_line`] reads its command line, what it asks for comes to an
//! [`Outcome`], and the [`Audience`] of standard error is reported of that (`specs/Outcomes.antt`).
//! [`ToolFault`] says why a command failed, and [`verdict`] gives the exit status. What a run does is `specs/Runs.antt`. Where
//! its words could not be taken, [`refuse_words`] gives the line for standard error and the status.
//!
//! What the words of a command line ask for is read in the crate `usb_command_line`. What `show` and `check` do by their options
//! is `specs/WorkOptions.antt`.
//! [`enumeration_settings`] makes the [`EnumerationSettings`] of all options of `enumerate` (`specs/Enumerating.antt`). Of
//! these [`settings_of`] reads the texts of [`Options`], with what holds where one is absent, and [`settings_with`] refuses flags
//! too (`specs/Settings.antt`). It reads the numbers, and [`read_speed`] and [`read_fates`] the other two
//! (`specs/OptionValues.antt`). [`read_damages`] reads the bits that change (`specs/Damages.antt`), and [`choice_of`] what the host
//! asks for (`specs/Choosing.antt`). [`manner_of`] says what the options of `explain` mean (`specs/Manners.antt`).
//!
//! [`converse`] makes control transfers between a host and a device over a bus that loses packets and handshakes.
//! It takes the description of the device (crate `usb_device`), how many NAKs the host retries, the requests
//! (`Setup` of `usb_fields`) and a [`Fate`] for each transaction. Its answer is a [`Talk`], with a [`Reply`] for
//! each request that was completed. It and its [`laws`] are in the crate `usb_bus`.
#![tactic(auto)]

mod audience;
mod build;
mod capture;
mod capture_options;
mod check;
mod choosing;
mod command;
mod damages;
mod enumerate_options;
mod enumeration;
mod enumeration_end;
mod explanation;
mod fault;
mod hex_output;
mod input;
mod intake;
mod invocation;
mod lack_line;
mod manner;
mod meaning;
mod numbers;
mod outcome;
mod output;
mod program;
mod recorded;
mod reporting;
mod result_line;
mod settings;
mod show;
mod source;
mod subject;
mod taken;
mod task;
mod work;
mod work_options;

pub use audience::Audience;
pub use build::{run_build, run_build_as};
pub use capture::run_capture;
pub use capture_options::{CaptureCommand, capture_command};
pub use check::run_check;
pub use choosing::choice_of;
pub use damages::read_damages;
pub use enumerate_options::{EnumerationSettings, enumeration_settings};
pub use enumeration::{Enumeration, run_enumerate, run_enumeration};
pub use enumeration_end::EnumerationEnd;
pub use explanation::{Explanation, no_input_is_hexadecimal_text, run_explain};
pub use fault::{ToolFault, verdict};
pub use invocation::Invocation;
pub use manner::{manner_of, read_running_speed, running_speed_said};
pub use meaning::Hint;
pub use numbers::numbers_are_those_of_the_tables;
pub use outcome::Outcome;
pub use program::{refuse_words, run, run_for};
pub use settings::{
    EnumerateFlags, FatesFault, Settings, SettingsFault, read_fates, read_speed, settings_of,
    settings_with,
};
pub use show::run_show;
pub use source::Source;
pub use taken::Taken;
pub use task::{Task, run_work};
pub use usb_bus::{BitChange, Fate, Reply, Run, Talk, converse, enumerate, laws};
pub use usb_capture_lines::{DeviceAddress, Selection};
pub use usb_command_line::{
    Building, Capturing, Checking, Enumerating, Explaining, Line, Options, Showing, read_line,
};
pub use usb_explain::{Look, Manner};
pub use usb_listing::LISTING_LIMIT;
pub use usb_remarks::SetSpeed;
pub use work::{Work, remarks_add_lines_alone};
pub use work_options::checking_task;
