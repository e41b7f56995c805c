//! What comes of a step.
use std::alloc::{AllocError, Global};

/// What comes of a step.
#[derive(Drop)]
pub enum Outcome {
    /// A word that many steps answer.
    Word(&'static str),
    /// In the words of a line.
    Text(String),
    /// The bytes of a reply. A line may want how many there are in place of them.
    Bytes(Vec<u8>),
    /// The line is no step, or none that can be there: why.
    NoStep(&'static str),
}

impl Outcome {
    /// In the words of a line.
    pub fn text(&self, alloc: Global) -> Result<String, AllocError> {
        match self {
            Outcome::Word(word) => String::from_str(alloc, word),
            Outcome::Text(text) => String::from_str(alloc, text),
            Outcome::Bytes(bytes) => hex::encode(alloc, bytes),
            Outcome::NoStep(why) => format!(in alloc; "no step: {why}"),
        }
    }

    /// Whether it is the one that is wanted: its words, how many bytes, as in `18 bytes`, or `no step` with no reason.
    pub fn is(&self, alloc: Global, wanted: &str) -> Result<bool, AllocError> {
        let other = match self {
            Outcome::Bytes(bytes) => format!(in alloc; "{} bytes", bytes.len())?,
            _ => String::from_str(alloc, "no step")?,
        };
        let may_be_other = matches!(self, Outcome::Bytes(_) | Outcome::NoStep(_));
        Ok(wanted == self.text(alloc)?.as_str() || may_be_other && wanted == other.as_str())
    }
}
