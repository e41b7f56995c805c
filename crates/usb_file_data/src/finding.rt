//! What breaks a rule, and where; and the text of `check`.
ghost use Rattle.std.specs.Prelude.{Some};
ghost use Rattle.usb_file_data.specs.FindingLine.{finding_line, part_word};
ghost use Rattle.std.specs.Prelude.{◌≡◌, ◌++◌, IfOk, OnOk};
ghost use Rattle.usb_file_data.specs.FindingLine.{check_text, finding_line_end, finding_lines};

use crate::rule::Rule;
use std::alloc::{AllocError, Global};
use std::fmt;

/// A part of a descriptor file.
///
/// ```rust
/// let part = Part::Other;
/// assert_eq!(rt; format!(in rt.alloc(); "{part}")?.as_str(), "other");
/// ```
#[derive(Clone, Copy, Debug, PartialEq, Eq, Hash)]
pub enum Part {
    /// The device descriptor.
    Device,
    /// The configuration sets of the speed that the device runs at.
    Main,
    /// The device qualifier, with the sets of the other speed.
    Other,
}

impl fmt::Display for Part {
    ghost output = { λ part. Some (part_word part) };

    fn fmt<W: fmt::Write>(&self, f: &mut fmt::Formatter<W>) -> fmt::Result {
        match self {
            Part::Device => write!(f, "device"),
            Part::Main => write!(f, "main"),
            Part::Other => write!(f, "other"),
        }
    }
}

/// A broken rule at its place. Numbers that a rule does not use are 0.
///
/// ```rust
/// let second_set = Finding { rule: 10, part: Part::Main, set: 1, setting: 0, endpoint: 0 };
/// assert_eq!(rt; format!(in rt.alloc(); "{second_set}")?.as_str(), "V10 main 1 0 0");
/// ```
#[derive(Clone, Copy, Debug, PartialEq, Eq, Hash)]
pub struct Finding {
    /// The number of the rule that is broken, from 1 to 13.
    pub rule: u8,
    /// The part that breaks it.
    pub part: Part,
    /// The set's number in its part, from 0.
    pub set: usize,
    /// The setting's number in its set, from 0.
    pub setting: usize,
    /// The endpoint's number in its setting, from 0.
    pub endpoint: usize,
}

impl Finding {
    ghost use Rattle.std.specs.Prelude.{◌≡◌};
    ghost use Rattle.usb_file_data.specs.Numbers.{rule_numbered};

    /// The rule that is broken, where its number is one of 1 to 13, as it is in all that a check finds.
    ///
    /// ```rust
    /// for finding in &check(rt.alloc(), &file)? {
    ///     println!(rt; "{finding}: {}", finding.rule().map_or("", |rule| rule.message()))?;
    /// }
    /// ```
    pub fn rule(&self) -> Option<Rule>
        ensures { result ≡ rule_numbered self.now.rule }
    {
        Rule::of(self.rule)
    }
}

/// The line that the program prints for a finding, without its line feed.
impl fmt::Display for Finding {
    ghost output = { λ finding. Some (finding_line finding) };

    fn fmt<W: fmt::Write>(&self, f: &mut fmt::Formatter<W>) -> fmt::Result {
        let Finding {
            rule,
            part,
            set,
            setting,
            endpoint,
        } = *self;
        write!(f, "V{rule} {part} {set} {setting} {endpoint}")
    }
}

/// The line of each finding, ended by a line feed, or the line `no findings` where there is none.
///
/// ```rust
/// let text = findings_text(alloc, &check(alloc, &file)?)?;
/// assert_eq!(rt; text.as_slice(), b"V4 main 0 0 0\n");
/// ```
///
/// # Errors
///
/// Out of memory.
pub fn findings_text(alloc: Global, found: &[Finding]) -> Result<Vec<u8>, AllocError>
    ensures { IfOk result (λ text. text.items ≡ check_text found.now) }
{
    if found.is_empty() {
        return Vec::from_slice(alloc, b"no findings\n");
    }
    lines_of(alloc, found)
}

fn lines_of(alloc: Global, found: &[Finding]) -> Result<Vec<u8>, AllocError>
    ensures { IfOk result (λ text. text.items ≡ finding_lines found.now) }
{
    let mut text = Vec::new(alloc);
    for finding in found {
        put_line(alloc, &mut text, finding)?;
    }
    Ok(text)
}

fn put_line(alloc: Global, text: &mut Vec<u8>, finding: &Finding) -> Result<(), AllocError>
    ensures { OnOk result (text.new.items ≡ text.old.items ++ finding_line_end finding.now) }
{
    let line = format!(in alloc; "{finding}")?;
    text.extend_from_slice(line.as_bytes())?;
    text.push(b'\n')?;
    Ok(())
}
