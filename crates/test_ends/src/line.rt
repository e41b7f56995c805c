//! The lines of a file, or of standard input.
use anyhow::Result;
use std::alloc::{AllocError, Global};
use std::io::BufRead;

/// A line with a step.
#[derive(Drop)]
pub struct Line {
    /// Its number, from 1.
    pub number: u64,
    /// The step.
    pub step: String,
    /// What is wanted of it, if the line says so.
    pub wanted: Option<String>,
}

/// The next line that has a step: others are passed over.
pub fn next_line<R: BufRead>(alloc: Global, lines: &mut R, before: u64) -> Result<Option<Line>> {
    let mut number = before;
    for _ in 0..u64::MAX {
        let mut text = String::new(alloc);
        if lines.read_line(&mut text)? == 0 {
            return Ok(None);
        }
        number = number.saturating_add(1);
        if let Some(line) = line_of(alloc, number, text.as_str())? {
            return Ok(Some(line));
        }
    }
    Ok(None)
}

/// The line with this text, if it has a step. What follows a `#` is a comment.
fn line_of(alloc: Global, number: u64, text: &str) -> Result<Option<Line>, AllocError> {
    let text = text
        .split_once("#")
        .map_or(text, |(before, _)| before)
        .trim();
    if text.is_empty() {
        return Ok(None);
    }
    let (step, wanted) = match text.split_once("->") {
        Some((step, wanted)) => (step.trim(), Some(String::from_str(alloc, wanted.trim())?)),
        None => (text, None),
    };
    Ok(Some(Line {
        number,
        step: String::from_str(alloc, step)?,
        wanted,
    }))
}
