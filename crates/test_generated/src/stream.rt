//! A stream that fails.
use crate::plan::{Fault, Plan};
use std::alloc::Global;
use std::io::{Error, ErrorKind, Read, Result, Write};

/// A reader or writer with one fault, that would go on after it.
#[derive(Drop)]
pub(crate) struct Stream<'a> {
    /// What it has not given yet.
    pub rest: &'a [u8],
    /// What it has taken.
    pub text: Vec<u8>,
    plan: Plan,
    /// Whether its fault has come.
    pub has_failed: bool,
    /// How often it was called after it.
    pub after: usize,
}

impl<'a> Stream<'a> {
    /// A stream that gives these bytes, and was not called yet.
    pub(crate) fn new(alloc: Global, rest: &'a [u8], plan: Plan) -> Stream<'a> {
        Stream {
            rest,
            text: Vec::new(alloc),
            plan,
            has_failed: false,
            after: 0,
        }
    }

    /// Counts a call of this kind, and says whether its fault comes now.
    fn comes_next(&mut self, is_flush: bool) -> bool {
        if self.has_failed {
            self.after = self.after.saturating_add(1);
            return false;
        }
        let is_kind = is_flush == (self.plan.fault == Fault::NoFlush);
        self.has_failed = is_kind && self.plan.calls == 0;
        if is_kind {
            self.plan.calls = self.plan.calls.saturating_sub(1);
        }
        self.has_failed
    }
}

impl Read for Stream<'_> {
    fn read(&mut self, buf: &mut [u8]) -> Result<usize> {
        if self.comes_next(false) {
            return self.plan.fault.result();
        }
        let count = self.rest.len().min(buf.len()).min(self.plan.step);
        let (piece, rest) = self.rest.split_at(count);
        for (to, from) in buf.iter_mut().zip(piece) {
            *to = *from;
        }
        self.rest = rest;
        Ok(count)
    }
}

impl Write for Stream<'_> {
    fn write(&mut self, buf: &[u8]) -> Result<usize> {
        if self.comes_next(false) {
            return self.plan.fault.result();
        }
        let count = buf.len().min(self.plan.step);
        let (taken, _) = buf.split_at(count);
        if self.text.extend_from_slice(taken).is_err() {
            return Err(Error::from(ErrorKind::OutOfMemory));
        }
        Ok(count)
    }

    fn flush(&mut self) -> Result<()> {
        if self.comes_next(true) {
            return Err(Error::from(ErrorKind::Other));
        }
        Ok(())
    }
}
