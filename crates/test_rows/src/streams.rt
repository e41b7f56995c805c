//! Readers and writers that fail.
use std::io::{Error, ErrorKind, Read, Result, Write};

/// A reader that gives at most `step` bytes a call, and fails once, at the call after this many.
#[derive(Drop)]
pub(crate) struct Pieces<'a> {
    pub(crate) rest: &'a [u8],
    pub(crate) step: usize,
    pub(crate) calls: usize,
    /// How often it failed.
    pub(crate) failed: usize,
    /// How often it was called after it had failed.
    pub(crate) after: usize,
}

impl Read for Pieces<'_> {
    fn read(&mut self, buf: &mut [u8]) -> Result<usize> {
        if self.failed > 0 {
            self.after = self.after.saturating_add(1);
        } else if self.calls == 0 {
            self.failed = 1;
            return Err(Error::from(ErrorKind::Other));
        }
        self.calls = self.calls.saturating_sub(1);
        let count = self.rest.len().min(buf.len()).min(self.step);
        let (piece, rest) = self.rest.split_at(count);
        for (to, from) in buf.iter_mut().zip(piece) {
            *to = *from;
        }
        self.rest = rest;
        Ok(count)
    }
}

/// What a writer does once its calls are used up.
#[derive(Clone, Copy, PartialEq, Eq)]
pub(crate) enum End {
    /// Each further call fails.
    Fails,
    /// Each further call takes no byte.
    TakesNothing,
}

/// A writer that takes at most `step` bytes a call.
#[derive(Drop)]
pub(crate) struct Sheet {
    /// What it was given.
    pub(crate) text: Vec<u8>,
    pub(crate) step: usize,
    pub(crate) calls: usize,
    pub(crate) end: End,
    /// Whether it was called once its calls were used up.
    pub(crate) ended: bool,
    /// Whether a flush succeeds.
    pub(crate) flushes: bool,
}

impl Write for Sheet {
    fn write(&mut self, buf: &[u8]) -> Result<usize> {
        if self.calls == 0 {
            self.ended = true;
            return match self.end {
                End::Fails => Err(Error::from(ErrorKind::Other)),
                End::TakesNothing => Ok(0),
            };
        }
        self.calls -= 1;
        let count = buf.len().min(self.step);
        let (taken, _) = buf.split_at(count);
        if self.text.extend_from_slice(taken).is_err() {
            return Err(Error::from(ErrorKind::OutOfMemory));
        }
        Ok(count)
    }

    fn flush(&mut self) -> Result<()> {
        if self.flushes {
            Ok(())
        } else {
            Err(Error::from(ErrorKind::Other))
        }
    }
}
