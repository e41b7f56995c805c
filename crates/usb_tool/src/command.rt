//! What each command does and what it comes to.
ghost use Rattle.std.specs.Prelude.{◌≡◌};
ghost use Rattle.usb_command_line.specs.CommandLine.{no_enumerating};
ghost use Rattle.usb_tool.specs.Runs.{Ends, EndsBuild, EndsCapture, EndsCheck, EndsEnumeration, EndsExplanation, EndsLine, EndsShow, any_hint, build_hint};
ghost use Rattle.usb_tool.specs.Works.{WorkFails, Worked};

use crate::build::run_build_as;
use crate::capture::run_capture;
use crate::capture_options::capture_command;
use crate::enumerate_options::enumeration_settings;
use crate::enumeration::{Enumeration, run_enumeration};
use crate::explanation::{Explanation, run_explain};
use crate::manner::manner_of;
use crate::meaning::Hint;
use crate::outcome::Outcome;
use crate::task::{Task, run_work};
use crate::work_options::{checking_task, showing_task};
use std::alloc::Global;
use std::io::{Read, Write};
use usb_command_line::{
    Building, Capturing, Checking, Enumerating, Explaining, Line, Options, Showing,
};

/// Carries out what a line asks for.
pub(crate) fn carry_out<R: Read, W: Write>(
    alloc: Global,
    line: &Line<'_>,
    r: &mut R,
    w: &mut W,
) -> Outcome
    ensures { EndsLine line.now (R.remaining r.old) (R.remaining r.new) (W.contents w.old) (W.contents w.new) result }
{
    match line {
        Line::Show => {
            let plain = Showing {
                any: false,
                hex: false,
            };
            show(alloc, plain, r, w)
        }
        Line::Check => {
            let plain = Checking {
                any: false,
                hex: false,
                remarks: false,
                speed: None,
            };
            check(alloc, &plain, r, w)
        }
        Line::Build => {
            let plain = Building {
                comments: false,
                hex: false,
            };
            build(alloc, plain, r, w)
        }
        Line::Enumerate(options) => enumerate_plainly(alloc, options, r, w),
        Line::ShowWith(options) => show(alloc, *options, r, w),
        Line::CheckWith(options) => check(alloc, options, r, w),
        Line::BuildWith(options) => build(alloc, *options, r, w),
        Line::EnumerateWith(options, others) => enumerate(alloc, options, others, r, w),
        Line::Explain(options) => explain(alloc, options, r, w),
        Line::Capture(options) => capture(alloc, options, r, w),
    }
}

fn show<R: Read, W: Write>(alloc: Global, options: Showing, r: &mut R, w: &mut W) -> Outcome
    ensures { EndsShow options (R.remaining r.old) (R.remaining r.new) (W.contents w.old) (W.contents w.new) result }
{
    work(alloc, showing_task(options), any_hint(options.any), r, w)
}

/// Checks as the options say. What is wrong with them is reported before anything is read.
fn check<R: Read, W: Write>(alloc: Global, options: &Checking<'_>, r: &mut R, w: &mut W) -> Outcome
    ensures { EndsCheck options.now (R.remaining r.old) (R.remaining r.new) (W.contents w.old) (W.contents w.new) result }
{
    match checking_task(options) {
        Ok(task) => work(alloc, task, any_hint(options.any), r, w),
        Err(fault) => Outcome::Refused(fault),
    }
}

/// What to try where the input of `show` or `check` is at fault.
fn any_hint(any: bool) -> Hint
    ensures { result ≡ any_hint any }
{
    if any { Hint::Explain } else { Hint::Any }
}

/// Does what a task says.
#[tactic(auto, using(crate::proofs::Running::command_ends))]
fn work<R: Read, W: Write>(alloc: Global, task: Task, hint: Hint, r: &mut R, w: &mut W) -> Outcome
    ensures { Ends hint (Worked task) (WorkFails task) (R.remaining r.old) (R.remaining r.new) (W.contents w.old) (W.contents w.new) result }
{
    Outcome::of(run_work(alloc, r, w, task), hint)
}

#[tactic(auto, using(crate::proofs::Running::command_ends))]
fn build<R: Read, W: Write>(alloc: Global, options: Building, r: &mut R, w: &mut W) -> Outcome
    ensures { EndsBuild options (R.remaining r.old) (R.remaining r.new) (W.contents w.old) (W.contents w.new) result }
{
    Outcome::of(
        run_build_as(alloc, r, w, options),
        build_hint(options.comments),
    )
}

/// What to try where the input of `build` is at fault.
fn build_hint(comments: bool) -> Hint
    ensures { result ≡ build_hint comments }
{
    if comments {
        Hint::Nothing
    } else {
        Hint::Comments
    }
}

/// Explains as the options say. A speed that is none is reported before anything is read.
#[tactic(auto, using(crate::proofs::Running::command_ends))]
fn explain<R: Read, W: Write>(
    alloc: Global,
    options: &Explaining<'_>,
    r: &mut R,
    w: &mut W,
) -> Outcome
    ensures { EndsExplanation options.now (R.remaining r.old) (R.remaining r.new) (W.contents w.old) (W.contents w.new) result }
{
    match manner_of(options) {
        Ok(manner) => {
            let (hex, loose) = (options.hex, options.loose);
            let explanation = Explanation { manner, hex, loose };
            Outcome::of(run_explain(alloc, r, w, explanation), Hint::Nothing)
        }
        Err(fault) => Outcome::Refused(fault),
    }
}

/// Tells of a recording as the options say, which are refused before anything is read.
#[tactic(auto, using(crate::proofs::Running::command_ends))]
fn capture<R: Read, W: Write>(
    alloc: Global,
    options: &Capturing<'_>,
    r: &mut R,
    w: &mut W,
) -> Outcome
    ensures { EndsCapture options.now (R.remaining r.old) (R.remaining r.new) (W.contents w.old) (W.contents w.new) result }
{
    match capture_command(options) {
        Ok(command) => Outcome::of(run_capture(alloc, r, w, command), Hint::Nothing),
        Err(fault) => Outcome::Refused(fault),
    }
}

fn enumerate_plainly<R: Read, W: Write>(
    alloc: Global,
    options: &Options<'_>,
    r: &mut R,
    w: &mut W,
) -> Outcome
    ensures { EndsEnumeration options.now no_enumerating (R.remaining r.old) (R.remaining r.new) (W.contents w.old) (W.contents w.new) result }
{
    let plain = Enumerating {
        log: false,
        brief: false,
        packets: false,
        with_strings: false,
        damage: None,
        strings: None,
        other_speed: None,
    };
    enumerate(alloc, options, &plain, r, w)
}

/// Enumerates as the options say. What is wrong with them is reported before anything is read.
#[tactic(auto, using(crate::proofs::Running::enumeration_ends))]
fn enumerate<R: Read, W: Write>(
    alloc: Global,
    options: &Options<'_>,
    others: &Enumerating<'_>,
    r: &mut R,
    w: &mut W,
) -> Outcome
    ensures { EndsEnumeration options.now others.now (R.remaining r.old) (R.remaining r.new) (W.contents w.old) (W.contents w.new) result }
{
    match enumeration_settings(alloc, options, others) {
        Ok(settings) => {
            let answer = run_enumeration(alloc, r, w, &Enumeration::of(&settings));
            Outcome::of_enumeration(answer, settings.flags)
        }
        Err(fault) => Outcome::Refused(fault),
    }
}
