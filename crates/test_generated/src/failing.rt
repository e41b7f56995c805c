//! Commands over readers and writers that fail.
use crate::answer::Answer;
use crate::command::Command;
use crate::plan::{Fault, Plan};
use crate::stream::Stream;
use crate::tally::Tally;
use anyhow::Result;
use usb_tool::Settings;

/// How many bytes a call gives or takes at most: one, a few, or all that the commands ask for at a time.
const STEPS: [usize; 3] = [1, 7, 4096];

/// Which of its two ends fails a command.
#[derive(Clone, Copy, PartialEq, Eq)]
pub(crate) enum End {
    Reader,
    Writer,
}

/// A command whose reader or writer fails.
#[derive(Drop)]
pub(crate) struct Failing {
    pub command: Command,
    pub settings: Settings,
    pub end: End,
}

impl Failing {
    /// Each fault at each call in turn, and of a writer at its flush.
    pub(crate) fn all(&self, bytes: &[u8], tally: &mut Tally) -> Result<()> {
        for step in STEPS {
            self.at_each_call(bytes, step, Fault::Fails, tally)?;
            self.at_each_call(bytes, step, Fault::IsInterrupted, tally)?;
            self.at_each_call(bytes, step, Fault::Nothing, tally)?;
            if self.end == End::Writer {
                let (calls, fault) = (0, Fault::NoFlush);
                self.write(bytes, Plan { step, calls, fault }, tally)?;
            }
        }
        Ok(())
    }

    /// The fault at each call in turn, until there was none.
    fn at_each_call(
        &self,
        bytes: &[u8],
        step: usize,
        fault: Fault,
        tally: &mut Tally,
    ) -> Result<()> {
        for calls in 0..usize::MAX {
            let plan = Plan { step, calls, fault };
            let has_failed = match self.end {
                End::Reader => self.read(bytes, plan, tally)?,
                End::Writer => self.write(bytes, plan, tally)?,
            };
            if !has_failed {
                break;
            }
        }
        Ok(())
    }

    /// One reader, and whether its fault came. What it holds then and how often it was called after the fault counts.
    fn read(&self, bytes: &[u8], plan: Plan, tally: &mut Tally) -> Result<bool> {
        let alloc = tally.alloc;
        let mut reader = Stream::new(alloc, bytes, plan);
        let mut output = Vec::new(alloc);
        let outcome = self
            .command
            .run(alloc, &mut reader, &mut output, &self.settings);
        let (left, behind) = (reader.rest.len(), reader.after);
        tally.begin(format!(in alloc; "{plan}, {left} left, {behind} calls behind\n")?.as_str())?;
        tally.add(self.command.word(), &Answer::new(alloc, outcome, output)?)?;
        Ok(reader.has_failed)
    }

    /// One writer, and whether its fault came. What it holds then and how often it was called after the fault counts.
    fn write(&self, bytes: &[u8], plan: Plan, tally: &mut Tally) -> Result<bool> {
        let alloc = tally.alloc;
        let mut rest = bytes;
        let mut writer = Stream::new(alloc, &[], plan);
        let outcome = self
            .command
            .run(alloc, &mut rest, &mut writer, &self.settings);
        let (behind, has_failed) = (writer.after, writer.has_failed);
        tally.begin(format!(in alloc; "{plan}, {behind} calls behind\n")?.as_str())?;
        tally.add(
            self.command.word(),
            &Answer::new(alloc, outcome, writer.text)?,
        )?;
        Ok(has_failed)
    }
}
