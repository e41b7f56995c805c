//! What a command answers to an input.
use anyhow::Result;
use std::alloc::Global;
use usb_tool::{ToolFault, verdict};

/// What a command answers to an input.
#[derive(Drop)]
pub(crate) struct Answer {
    /// The exit status.
    pub status: u8,
    /// What is written to standard output.
    pub output: Vec<u8>,
    /// The line of the fault, without its line feed; nothing where there is none.
    pub fault: String,
}

impl Answer {
    /// The answer of a command that ended so and wrote this.
    pub(crate) fn new(
        alloc: Global,
        outcome: std::result::Result<u8, ToolFault>,
        output: Vec<u8>,
    ) -> Result<Answer> {
        let status = verdict(&outcome);
        let fault = match outcome {
            Ok(_) => String::new(alloc),
            Err(fault) => format!(in alloc; "{fault}")?,
        };
        Ok(Answer {
            status,
            output,
            fault,
        })
    }

    /// What it is counted as, after the command: its status, of a fault its line up to the place, and of status 1 the
    /// first word that is written.
    pub(crate) fn kind(&self, alloc: Global) -> Result<String> {
        let status = self.status;
        if status == 0 {
            return Ok(format!(in alloc; "status 0")?);
        }
        if status == 1 {
            let text = String::from_utf8(self.output.clone()?)?;
            return Ok(format!(in alloc; "status 1, {}", before(text.as_str(), " "))?);
        }
        let line = self.fault.as_str();
        let line = line.strip_prefix("usbdesc: ").unwrap_or(line);
        Ok(format!(in alloc;
            "status {status}, {}",
            before(before(line, " at "), " line ")
        )?)
    }
}

/// The text before these words, or all of it.
pub(crate) fn before<'a>(text: &'a str, words: &str) -> &'a str {
    match text.split_once(words) {
        Some((front, _)) => front,
        None => text,
    }
}
