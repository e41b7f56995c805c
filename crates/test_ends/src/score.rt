//! How the steps of a file came out.
use crate::line::Line;
use crate::outcome::Outcome;
use anyhow::Result;

/// How the steps came out, up to a line.
#[derive(Drop)]
pub struct Score<'n> {
    /// The name of the file, or none where steps come from standard input: what comes of each is written then.
    name: Option<&'n str>,
    /// The number of the last line.
    pub line: u64,
    /// The exit status: 0 where all came as it is wanted, 1 where something came differently, and 2 where a line is
    /// no step.
    pub status: u8,
    steps: u64,
    differing: u64,
    not_steps: u64,
}

impl<'n> Score<'n> {
    /// Before the first line.
    pub fn new(name: Option<&'n str>) -> Score<'n> {
        Score {
            name,
            line: 0,
            status: 0,
            steps: 0,
            differing: 0,
            not_steps: 0,
        }
    }

    /// Takes what came of a line, and prints it: on standard input each outcome, in a file each that is another than
    /// the one that is wanted, and each line that is no step, unless just that is wanted.
    pub fn settle<H: Print + AllocGlobal>(
        &mut self,
        rt: &H,
        line: &Line,
        outcome: &Outcome,
    ) -> Result<()> {
        let alloc = rt.alloc();
        let (came, number) = (outcome.text(alloc)?, line.number);
        let is_wanted = match &line.wanted {
            Some(wanted) => outcome.is(alloc, wanted)?,
            None => !matches!(outcome, Outcome::NoStep(_)),
        };
        match (outcome, &line.wanted) {
            _ if is_wanted => {}
            (Outcome::NoStep(_), _) => {
                self.not_steps = self.not_steps.saturating_add(1);
                self.status = 2;
                return self.tell(rt, format!(in alloc; "line {number}: {came}")?.as_str());
            }
            (_, Some(wanted)) => {
                self.steps = self.steps.saturating_add(1);
                self.differing = self.differing.saturating_add(1);
                self.status = self.status.max(1);
                let report = format!(in alloc; "line {number}: {came}, not {wanted}")?;
                return self.tell(rt, report.as_str());
            }
            (_, None) => {}
        }
        self.steps = self.steps.saturating_add(1);
        if self.name.is_none() {
            println!(rt; "{came}")?;
        }
        Ok(())
    }

    /// Prints how many steps there were, and how many lines came out differently or were none.
    pub fn close<H: Print + AllocGlobal>(&self, rt: &H) -> Result<()> {
        let (steps, differing, not_steps) = (self.steps, self.differing, self.not_steps);
        self.tell(rt, format!(in rt.alloc(); "{steps} steps")?.as_str())?;
        if differing > 0 {
            self.tell(rt, format!(in rt.alloc(); "{differing} differ")?.as_str())?;
        }
        if not_steps > 0 {
            self.tell(
                rt,
                format!(in rt.alloc(); "{not_steps} are no step")?.as_str(),
            )?;
        }
        Ok(())
    }

    fn tell<H: Print>(&self, rt: &H, text: &str) -> Result<()> {
        match self.name {
            Some(name) => println!(rt; "{name}: {text}")?,
            None => println!(rt; "{text}")?,
        }
        Ok(())
    }
}
