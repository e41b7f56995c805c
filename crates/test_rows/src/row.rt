//! Rows: what is asked for, and what must come.
use crate::words::{Names, expand, expand_all, expand_line};
use anyhow::{Context, Result, bail};
use std::alloc::Global;
use std::collections::BTreeMap;

/// One row of a file.
#[derive(Drop)]
pub(crate) struct Row {
    /// The number of its line in the file, from 1.
    pub(crate) line: usize,
    /// What is asked for.
    pub(crate) call: String,
    /// What is given to it.
    pub(crate) words: Vec<String>,
    /// The lines that are given to it, which are after `|`.
    pub(crate) lines: String,
    /// What must come: the words after the arrow, and the lines after `>` and `!`.
    pub(crate) wanted: String,
}

/// All rows of a text.
pub(crate) fn rows_of(alloc: Global, text: &str) -> Result<Vec<Row>> {
    let mut names = BTreeMap::new(alloc);
    let mut rows = Vec::new(alloc);
    for (before, line) in text.lines().enumerate() {
        let place = before.saturating_add(1);
        read_line(alloc, &mut names, &mut rows, place, line).context(format_args!("line {place}"))?;
    }
    Ok(rows)
}

/// Reads one line: a name, a line of the row before it, or a new row.
fn read_line(
    alloc: Global,
    names: &mut Names,
    rows: &mut Vec<Row>,
    place: usize,
    line: &str,
) -> Result<()> {
    if line.is_empty() || line.starts_with('#') {
        return Ok(());
    }
    if let Some(definition) = line.strip_prefix("let ") {
        let (name, word) = definition.split_once(" = ").context("no name and text")?;
        let text = expand(alloc, names, word)?;
        names.insert(String::from_str(alloc, name)?, text)?;
        return Ok(());
    }
    match line.split_once("->") {
        Some((asked, wanted)) if !matches!(line.as_bytes().first(), Some(b'|' | b'>' | b'!')) => {
            rows.push(begin(alloc, names, place, asked, wanted)?)?;
            Ok(())
        }
        _ => {
            let row = rows.last_mut().context("no row above")?;
            let (mark, rest) = line.split_once(' ').unwrap_or((line, ""));
            let text = expand_line(alloc, names, rest)?;
            match mark {
                "|" => row.lines.push_str(text.as_str())?,
                ">" | "!" => row.wanted.push_str(text.as_str())?,
                _ => bail!("neither a row nor a line of one"),
            }
            Ok(())
        }
    }
}

/// The row of its first line.
fn begin(alloc: Global, names: &Names, line: usize, asked: &str, wanted: &str) -> Result<Row> {
    let (call, given) = asked.split_once(' ').unwrap_or((asked, ""));
    Ok(Row {
        line,
        call: String::from_str(alloc, call)?,
        words: expand_all(alloc, names, given)?,
        lines: String::new(alloc),
        wanted: expand_all(alloc, names, wanted)?.join(alloc, " ")?,
    })
}
