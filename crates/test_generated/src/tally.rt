//! The cases of a line, and how many answers there are of each kind.
use crate::answer::Answer;
use anyhow::Result;
use md5::{Digest, Md5};
use std::alloc::Global;
use std::collections::BTreeMap;
use std::mem;

/// The cases of a line with their answers, and the number of answers of each kind in all lines.
#[derive(Drop)]
pub(crate) struct Tally {
    /// Where its text is made.
    pub alloc: Global,
    cases: u64,
    text: Vec<u8>,
    kinds: BTreeMap<String, u64>,
}

impl Tally {
    /// Before the first case.
    pub(crate) fn new(alloc: Global) -> Tally {
        Tally {
            alloc,
            cases: 0,
            text: Vec::new(alloc),
            kinds: BTreeMap::new(alloc),
        }
    }

    /// Begins one more case, with this line or none.
    pub(crate) fn begin(&mut self, line: &str) -> Result<()> {
        self.cases = self.cases.saturating_add(1);
        self.text.extend_from_slice(line.as_bytes())?;
        Ok(())
    }

    /// One more answer of this kind.
    pub(crate) fn count(&mut self, kind: String) -> Result<()> {
        let sum = self.kinds.entry(kind)?.or_insert(0);
        *sum = sum.saturating_add(1);
        Ok(())
    }

    /// Adds a device's answer to the case: its word and the bytes of its packet.
    pub(crate) fn add_packet(&mut self, word: &str, bytes: &[u8]) -> Result<()> {
        let digits = hex::encode(self.alloc, bytes)?;
        let line = format!(in self.alloc; "{word} {digits}\n")?;
        self.text.extend_from_slice(line.as_bytes())?;
        self.count(format!(in self.alloc; "device, {word}")?)
    }

    /// Adds the answer of the command of this word to the case.
    pub(crate) fn add(&mut self, word: &str, answer: &Answer) -> Result<()> {
        let lines = format!(in self.alloc; "{word} {}\n{}\n", answer.status, answer.fault)?;
        self.text.extend_from_slice(lines.as_bytes())?;
        self.text.extend_from_slice(&answer.output)?;
        let kind = answer.kind(self.alloc)?;
        self.count(format!(in self.alloc; "{word}, {kind}")?)
    }

    /// The line of this title, which says how many cases there are, with the MD5 of all answers; or these themselves. The
    /// next line begins with no case.
    pub(crate) fn end(&mut self, title: &str, wants_answers: bool) -> Result<Vec<u8>> {
        let cases = mem::take(&mut self.cases);
        let text = mem::replace(&mut self.text, Vec::new(self.alloc));
        if wants_answers {
            return Ok(text);
        }
        let digest = hex::encode(self.alloc, Md5::digest(text.as_slice()))?;
        Ok(format!(in self.alloc; "{title}: {cases} cases, {digest}\n")?.into_bytes())
    }

    /// A line for each kind.
    pub(crate) fn kinds(&self) -> Result<String> {
        let mut text = String::new(self.alloc);
        for (kind, sum) in self.kinds.iter() {
            text.push_str(format!(in self.alloc; "{kind}: {sum}\n")?.as_str())?;
        }
        Ok(text)
    }
}
