//! Pages whose lines are passed on to a writer.
use std::io::Write;
use usb_text::{Lines, OutFault, Page};

/// A page whose lines are passed on to a writer from time to time. As with [`Page`], a function that is generic over it can meet
/// a contract on what it shows only by showing this, in this order, on one page after another.
pub(crate) trait PassingPage<W: Write>: Page {
    ghost use Rattle.std.specs.Prelude.{◌≡◌, IfErr, OnErr, OnOk};

    /// The page and the writer as they were, and as they are after lines were passed on.
    ghost passed: { Self → W → Self → W → Type 0 };

    /// The page of which a writer failed to take lines, and the writer as it was and as it is.
    ghost broken: { Self → W → W → Type 0 };

    /// Passes lines on, or none yet.
    ///
    /// # Errors
    ///
    /// `Write` where the writer failed.
    fn pass_lines(&mut self, w: &mut W) -> Result<(), OutFault>
        ensures passed { OnOk result (passed self.old w.old self.new w.new) }
        ensures broken { OnErr result (broken self.old w.old w.new) }
        ensures why { IfErr result (λ fault. fault ≡ OutFault.Write) };
}

impl<W: Write> PassingPage<W> for Lines {
    ghost use Rattle.usb_explain.specs.inside.Explaining.{LosesLines, PassesLines};

    ghost passed = { λ from old to new. PassesLines from (W.contents old) to (W.contents new) };

    ghost broken = { λ from old new. LosesLines from (W.contents old) (W.contents new) };

    fn pass_lines(&mut self, w: &mut W) -> Result<(), OutFault> {
        self.pass_on(w)
    }
}
