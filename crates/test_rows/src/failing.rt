//! Rows on readers and writers that fail, with each of the program's commands.
use crate::row::Row;
use crate::streams::{End, Pieces, Sheet};
use crate::words::changed;
use anyhow::{Context, Result, bail, ensure};
use std::alloc::Global;
use std::io::{Read, Write};
use usb_tool::run;

/// A run of the program over an input: its command with the option, if there is one, what it writes, and how it ends.
#[derive(Drop)]
struct Case {
    command: Vec<String>,
    input: Vec<u8>,
    written: Vec<u8>,
    report: String,
}

/// Runs the program with this command: the exit status, and the line of the fault if there is one. A call of its own, so
/// that its callers are proved without the long contract of `run`.
fn report<R: Read, W: Write>(
    alloc: Global,
    command: &[String],
    r: &mut R,
    w: &mut W,
) -> Result<String> {
    let mut words = vec![in alloc; String::from_str(alloc, "usbdesc")?]?;
    for word in command {
        words.push(word.clone()?)?;
    }
    let mut errors = Vec::new(alloc);
    let status = run(alloc, &words, r, w, &mut errors);
    let fault = String::from_utf8(errors)?;
    let report = format!(in alloc; "{status} {fault}")?;
    Ok(String::from_str(alloc, report.as_str().trim_end())?)
}

/// The command that the words begin with, with its option if there is one, and the words behind it.
fn command_of(alloc: Global, words: &[String]) -> Result<(Vec<String>, &[String])> {
    match words {
        [word, option, words @ ..] if option.as_str().starts_with("--") => {
            Ok((vec![in alloc; word.clone()?, option.clone()?]?, words))
        }
        [word, words @ ..] => Ok((vec![in alloc; word.clone()?]?, words)),
        [] => bail!("no command"),
    }
}

/// The run that a row asks for, which succeeds, and the row's number, which a flush doesn't have. Its input is the bytes
/// of the row's lines, once the words after the command and the number have changed them.
fn case_of(alloc: Global, row: &Row) -> Result<(Case, usize)> {
    let (command, words) = command_of(alloc, &row.words)?;
    let (number, words) = match words {
        words if row.call.as_str() == "failing_flush" => (usize::MAX, words),
        [number, words @ ..] => (number.parse::<usize>()?, words),
        _ => bail!("no number"),
    };
    let input = changed(alloc, row.lines.as_str(), words)?;
    let mut written = Vec::new(alloc);
    let report = report(alloc, &command, &mut input.as_slice(), &mut written)?;
    ensure!(report.len() == 1, "{report}");
    let case = Case {
        command,
        input,
        written,
        report,
    };
    Ok((case, number))
}

/// Reads with a reader that gives this many bytes a call, which fails once at each of its calls in turn and
/// would go on. Says how many calls there are.
pub(crate) fn failing_reads(alloc: Global, row: &Row) -> Result<String> {
    let (case, step) = case_of(alloc, row)?;
    for calls in 0..=case.input.len().saturating_add(1) {
        let fails = fails_to_read(alloc, &case, step, calls).context(format_args!(
            "after {calls} calls"
        ))?;
        if !fails {
            return Ok(format!(in alloc; "{calls} calls")?);
        }
    }
    bail!("the reading does not end")
}

/// Whether the reader fails in a run: then it is not asked again, and nothing is written.
fn fails_to_read(alloc: Global, case: &Case, step: usize, calls: usize) -> Result<bool> {
    let mut reader = Pieces {
        rest: &case.input,
        step,
        calls,
        failed: 0,
        after: 0,
    };
    let mut text = Vec::new(alloc);
    let report = report(alloc, &case.command, &mut reader, &mut text)?;
    if reader.failed == 0 {
        ensure!(
            report == case.report,
            "a fault though no call failed: {report}"
        );
        ensure!(text == case.written, "something else is written");
        return Ok(false);
    }
    ensure!(report.as_str() == "3 usbdesc: read failed", "{report}");
    ensure!(text.is_empty(), "something is written though a call fails");
    ensure!(
        reader.failed == 1 && reader.after == 0,
        "it is asked again after the call that fails"
    );
    Ok(true)
}

/// Writes to a writer that takes this many bytes a call, and fails at each of its calls in turn, in two ways.
/// Says how many calls there are.
pub(crate) fn failing_writes(alloc: Global, row: &Row) -> Result<String> {
    let (case, step) = case_of(alloc, row)?;
    let calls = failing_writer(alloc, &case, step, End::Fails)?;
    let again = failing_writer(alloc, &case, step, End::TakesNothing)?;
    ensure!(calls == again, "{again} calls where it takes nothing");
    Ok(format!(in alloc; "{calls} calls")?)
}

/// At how many calls a writer fails that ends so, until it takes the whole output.
fn failing_writer(alloc: Global, case: &Case, step: usize, end: End) -> Result<usize> {
    for calls in 0..=case.written.len() {
        let mut sheet = sheet_of(alloc, step, calls, end);
        let report = write_to(alloc, case, &mut sheet)?;
        if !sheet.ended {
            ensure!(
                report == case.report,
                "a fault though no call failed: {report}"
            );
            ensure!(sheet.text == case.written, "less than all is written");
            return Ok(calls);
        }
        ensure!(
            report.as_str() == "3 usbdesc: write failed",
            "after {calls} calls: {report}"
        );
        ensure!(
            sheet.text.len() <= calls.saturating_mul(step),
            "more is written than {calls} calls took"
        );
    }
    bail!("the writing does not end")
}

/// An empty sheet for this many calls, whose flush succeeds.
fn sheet_of(alloc: Global, step: usize, calls: usize, end: End) -> Sheet {
    Sheet {
        text: Vec::new(alloc),
        step,
        calls,
        end,
        ended: false,
        flushes: true,
    }
}

/// How a run with this writer ends, which then holds a prefix of the output.
fn write_to(alloc: Global, case: &Case, sheet: &mut Sheet) -> Result<String> {
    let report = report(alloc, &case.command, &mut case.input.as_slice(), sheet)?;
    ensure!(
        case.written.starts_with(&sheet.text),
        "no front of the output"
    );
    Ok(report)
}

/// What comes of a write that fails after this many calls that took a byte each: the fault of the run, and how much
/// of the output is written.
pub(crate) fn failing_write(alloc: Global, row: &Row) -> Result<String> {
    let (case, calls) = case_of(alloc, row)?;
    let mut sheet = sheet_of(alloc, 1, calls, End::Fails);
    let report = write_to(alloc, &case, &mut sheet)?;
    Ok(format!(in alloc; "{report}, {} bytes written", sheet.text.len())?)
}

/// What comes of a flush that fails: the fault of the run, after the whole output.
pub(crate) fn failing_flush(alloc: Global, row: &Row) -> Result<String> {
    let (case, step) = case_of(alloc, row)?;
    let mut sheet = sheet_of(alloc, step, usize::MAX, End::Fails);
    sheet.flushes = false;
    let report = write_to(alloc, &case, &mut sheet)?;
    ensure!(sheet.text == case.written, "less than all is written");
    Ok(report)
}
