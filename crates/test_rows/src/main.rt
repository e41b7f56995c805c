//! Goes through what the file `list` of `data/` names, and asks the libraries what can't be asked of the built program
//! (`.ci/rows`): files of rows, each of which says what is asked for and what must come, and sets and files, which are
//! written again. It stops at the first that differs. `docs/testing.md` says how rows are written.
#![tactic(auto)]

mod answers;
mod failing;
mod fields;
mod files;
mod listings;
mod packets;
mod row;
mod sets;
mod streams;
mod tree;
mod words;

use anyhow::{Context, Result, bail, ensure};
use std::fs;
use std::rt::Files;

fn main(rt: HostRuntime) -> Result<()> {
    let list = fs::read_to_string(&rt, "list")?;
    for line in list.as_str().lines() {
        if line.is_empty() || line.starts_with('#') {
            continue;
        }
        let report = go_through(&rt, line).context(format_args!("{line}"))?;
        if !report.is_empty() {
            println!(rt; "{line}: {report}")?;
        }
    }
    Ok(())
}

/// Goes through what a line of the list names, and says how much there was, or nothing where only the program is asked.
fn go_through<R: Files + AllocGlobal>(rt: &R, line: &str) -> Result<String> {
    let alloc = rt.alloc();
    let (kind, name) = line.split_once(' ').context("a line of one word")?;
    let report = match kind {
        "rows" => return rows(rt, name),
        "set" => {
            sets::go_round(alloc, &read(rt, name, "bin")?)?;
            "written again"
        }
        "file" | "listing" => {
            let bytes = read(rt, name, "file")?;
            files::go_round(alloc, &bytes)?;
            listings::go_round(alloc, &bytes, &read(rt, name, "txt")?, true)?;
            "written again"
        }
        "commented" => {
            let bytes = read(rt, name, "commented.file")?;
            listings::go_round(alloc, &bytes, &read(rt, name, "txt")?, false)?;
            "written again"
        }
        "dump" | "broken" | "output" | "capture" => "",
        _ => bail!("neither rows nor an example"),
    };
    Ok(String::from_str(alloc, report)?)
}

/// The bytes that lie there under this name and ending.
fn read<R: Files + AllocGlobal>(rt: &R, name: &str, ending: &str) -> Result<Vec<u8>> {
    let path = format!(in rt.alloc(); "{name}.{ending}")?;
    Ok(fs::read(rt, path)?)
}

/// Goes through a file of rows, and says how many of them were asked here.
fn rows<R: Files + AllocGlobal>(rt: &R, name: &str) -> Result<String> {
    let alloc = rt.alloc();
    let text = fs::read_to_string(rt, name)?;
    let rows = row::rows_of(alloc, text.as_str())?;
    let mut count = 0usize;
    for row in rows.iter() {
        let line = row.line;
        if let Some(got) = answers::answer(alloc, row).context(format_args!("line {line}"))? {
            ensure!(got == row.wanted, "line {line}: {got}");
            count = count.saturating_add(1);
        }
    }
    Ok(format!(in alloc; "{count} of {} rows", rows.len())?)
}
