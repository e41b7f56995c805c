//! What standard error has after a command, and the exit status.
ghost use Rattle.std.specs.Prelude.{◌≡◌, IfSome};
ghost use Rattle.usb_tool.specs.Faults.{fault_line, meaning_line};
ghost use Rattle.usb_tool.specs.OptionFaults.{settings_line, settings_meaning};
ghost use Rattle.usb_tool.specs.Outcomes.{Reports, ReportsEnd, ReportsLines, ReportsMeaning, outcome_status};

use crate::audience::Audience;
use crate::enumeration_end::{EnumerationEnd, TroubleMeaning, refusal_hint, trouble_hint};
use crate::fault::{ToolFault, tell_line};
use crate::meaning::{Hint, MeaningLine, fault_meaning};
use crate::outcome::Outcome;
use crate::settings::SettingsFault;
use std::fmt::Display;
use std::io::Write;

/// The exit status of a command, after standard error has the lines of its outcome.
pub(crate) fn tell<E: Write>(outcome: Outcome, audience: Audience, e: &mut E) -> u8
    ensures status { result ≡ outcome_status outcome }
    ensures lines { Reports audience outcome (E.contents e.old) (E.contents e.new) }
{
    tell_lines(outcome, audience, e);
    outcome.status()
}

fn tell_lines<E: Write>(outcome: Outcome, audience: Audience, e: &mut E)
    ensures { Reports audience outcome (E.contents e.old) (E.contents e.new) }
{
    match outcome {
        Outcome::Done(_) => {}
        Outcome::Enumerated { end, is_logged } => tell_end(end, is_logged, audience, e),
        Outcome::Failed { fault, hint } => tell_fault(fault, hint, audience, e),
        Outcome::Refused(fault) => tell_refusal(fault, audience, e),
    }
}

/// Writes for a person what the end of an enumeration means and what to try, if it isn't success.
fn tell_end<E: Write>(end: EnumerationEnd, is_logged: bool, audience: Audience, e: &mut E)
    ensures { ReportsEnd audience is_logged end (E.contents e.old) (E.contents e.new) }
{
    match end {
        EnumerationEnd::Success => {}
        EnumerationEnd::Refused(fault) => {
            let line = MeaningLine {
                meaning: fault.message(),
                hint: refusal_hint(fault).words(),
            };
            tell_person(line, audience, e);
        }
        EnumerationEnd::Trouble(trouble) => {
            let line = TroubleMeaning {
                trouble,
                hint: trouble_hint(trouble.why, is_logged).words(),
            };
            tell_person(line, audience, e);
        }
    }
}

/// Writes the line of a fault, and for a person what it means and what to try.
fn tell_fault<E: Write>(fault: ToolFault, hint: Hint, audience: Audience, e: &mut E)
    ensures { ReportsLines audience (fault_line fault) (meaning_line hint fault) (E.contents e.old) (E.contents e.new) }
{
    tell_line(fault, e);
    let line = MeaningLine {
        meaning: fault_meaning(fault),
        hint: hint.words_at(fault),
    };
    tell_person(line, audience, e);
}

/// Writes the line of options that are refused, and for a person what it means.
fn tell_refusal<E: Write>(fault: SettingsFault, audience: Audience, e: &mut E)
    ensures { ReportsLines audience (settings_line fault) (settings_meaning fault) (E.contents e.old) (E.contents e.new) }
{
    tell_line(fault, e);
    let line = MeaningLine {
        meaning: fault.meaning(),
        hint: "",
    };
    tell_person(line, audience, e);
}

/// Writes a line that is for a person alone.
fn tell_person<D: Display + Drop, E: Write>(line: D, audience: Audience, e: &mut E)
    ensures { IfSome (D.output line) (λ line. ReportsMeaning audience line (E.contents e.old) (E.contents e.new)) }
{
    match audience {
        Audience::Program => {}
        Audience::Person => tell_line(line, e),
    }
}
