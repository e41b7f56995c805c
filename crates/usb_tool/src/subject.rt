//! Bytes that are explained after a heading.
ghost use Rattle.std.specs.Prelude.{◌≡◌, IfErr, IfOk, OnErr, OnOk, true};
ghost use Rattle.std.specs.Io.KnownBytes.{Appends};
ghost use Rattle.usb_file_data.specs.Inputs.{InputRefused, IsInput};
ghost use Rattle.usb_text.specs.Output.{AppendsLess};
ghost use Rattle.usb_explain.specs.Fragments.{fragment_lines};
ghost use Rattle.usb_tool.specs.Endings.{Writes};
ghost use Rattle.usb_tool.specs.Explains.{RefusesAs, RefusesToExplain, ReportsAs, ReportsExplanation, ReportsFragment, WritesAfter, WritesExplained};
ghost use Rattle.usb_tool.specs.inside.Telling.{CutsExplained, CutsFragment};

use crate::fault::ToolFault;
use crate::output::finish;
use std::alloc::Global;
use std::io::Write;
use usb_explain::{Manner, explain, explain_fragment};
use usb_file::{Input, read_input};
use usb_file_data::InputFault;
use usb_text::{OutFault, write_all};

/// Bytes that are explained, after which heading, and in which manner.
#[derive(Clone, Copy)]
pub(crate) struct Subject<'b> {
    pub(crate) heading: &'b [u8],
    pub(crate) bytes: &'b [u8],
    pub(crate) manner: Manner,
}

impl<'b> Subject<'b> {
    /// Writes the explanation of the bytes after the heading, as a fragment or an input. Out of memory nothing is known of them.
    pub(crate) fn explain<W: Write>(
        &self,
        alloc: Global,
        w: &mut W,
        loose: bool,
    ) -> Result<u8, ToolFault>
        ensures explained { IfOk result (Writes Appends (ReportsAs loose self.now.manner self.now.heading.now) self.now.bytes.now (W.contents w.old) (W.contents w.new)) }
        ensures err { IfErr result (RefusesAs loose self.now.manner self.now.heading.now self.now.bytes.now (W.contents w.old) (W.contents w.new)) }
    {
        match loose {
            true => self.explain_loose(alloc, w),
            false => {
                let read = read_input(alloc, self.bytes);
                self.explain_known(alloc, &read, w)
            }
        }
    }

    /// Writes the explanation of the bytes as a fragment after the heading.
    fn explain_loose<W: Write>(&self, alloc: Global, w: &mut W) -> Result<u8, ToolFault>
        ensures explained { IfOk result (Writes Appends (ReportsFragment self.now.manner self.now.heading.now) self.now.bytes.now (W.contents w.old) (W.contents w.new)) }
        ensures err { IfErr result (RefusesAs true self.now.manner self.now.heading.now self.now.bytes.now (W.contents w.old) (W.contents w.new)) }
    {
        self.flush_fragment(alloc, w)?;
        Ok(0)
    }

    /// Writes the heading and the explanation of a fragment, and flushes the writer.
    #[tactic(auto, using(crate::proofs::Explained::flushed, crate::proofs::Explained::not_flushed))]
    fn flush_fragment<W: Write>(&self, alloc: Global, w: &mut W) -> Result<(), ToolFault>
        ensures explained { OnOk result (WritesAfter Appends self.now.manner.look.utf8 (fragment_lines self.now.manner self.now.bytes.now) self.now.heading.now (W.contents w.old) (W.contents w.new)) }
        ensures err { IfErr result (CutsFragment self.now.manner self.now.heading.now self.now.bytes.now (W.contents w.old) (W.contents w.new)) }
    {
        self.write_fragment(alloc, w)?;
        finish(w)
    }

    /// Writes the heading and the explanation of a fragment.
    #[tactic(auto, using(crate::proofs::Explained::explained, crate::proofs::Explained::explained_less, crate::proofs::Explained::headed_less, crate::proofs::Explained::only_headed))]
    fn write_fragment<W: Write>(&self, alloc: Global, w: &mut W) -> Result<(), OutFault>
        ensures ok { OnOk result (WritesAfter Appends self.now.manner.look.utf8 (fragment_lines self.now.manner self.now.bytes.now) self.now.heading.now (W.contents w.old) (W.contents w.new)) }
        ensures err { OnErr result (WritesAfter AppendsLess self.now.manner.look.utf8 (fragment_lines self.now.manner self.now.bytes.now) self.now.heading.now (W.contents w.old) (W.contents w.new)) }
        ensures memory { IfErr result (λ fault. fault ≡ OutFault.Memory → Appends (W.contents w.old) (W.contents w.new) self.now.heading.now) }
    {
        write_all(w, self.heading)?;
        explain_fragment(alloc, self.bytes, self.manner, w)
    }

    /// Writes the explanation of the bytes, of which this was read.
    fn explain_known<W: Write>(
        &self,
        alloc: Global,
        read: &Result<Input, InputFault>,
        w: &mut W,
    ) -> Result<u8, ToolFault>
        requires ok { IfOk read.now (λ input. IsInput input self.now.bytes.now) }
        requires err { IfErr read.now (InputRefused self.now.bytes.now) }
        ensures explained { IfOk result (Writes Appends (ReportsExplanation self.now.manner self.now.heading.now) self.now.bytes.now (W.contents w.old) (W.contents w.new)) }
        ensures err { IfErr result (RefusesToExplain self.now.manner self.now.heading.now self.now.bytes.now (W.contents w.old) (W.contents w.new)) }
    {
        match read {
            Ok(_) => {
                self.explain_read(alloc, read, w)?;
                Ok(0)
            }
            Err(fault) => {
                let report = ToolFault::from(*fault);
                if report == ToolFault::Memory {
                    return Err(report);
                }
                self.explain_read(alloc, read, w)?;
                Err(report)
            }
        }
    }

    /// Writes the heading and the explanation of the bytes, of which this was read, and flushes the writer.
    #[tactic(auto, using(crate::proofs::Explained::flushed, crate::proofs::Explained::not_flushed))]
    fn explain_read<W: Write>(
        &self,
        alloc: Global,
        read: &Result<Input, InputFault>,
        w: &mut W,
    ) -> Result<(), ToolFault>
        ensures explained { OnOk result (WritesExplained Appends self.now.manner read.now self.now.heading.now self.now.bytes.now (W.contents w.old) (W.contents w.new)) }
        ensures err { IfErr result (CutsExplained self.now.manner read.now self.now.heading.now self.now.bytes.now (W.contents w.old) (W.contents w.new)) }
    {
        self.write_explained(alloc, read, w)?;
        finish(w)
    }

    /// Writes the heading and the explanation of the bytes, of which this was read.
    #[tactic(auto, using(crate::proofs::Explained::explained, crate::proofs::Explained::explained_less, crate::proofs::Explained::headed_less))]
    fn write_explained<W: Write>(
        &self,
        alloc: Global,
        read: &Result<Input, InputFault>,
        w: &mut W,
    ) -> Result<(), OutFault>
        ensures ok { OnOk result (WritesExplained Appends self.now.manner read.now self.now.heading.now self.now.bytes.now (W.contents w.old) (W.contents w.new)) }
        ensures err { OnErr result (WritesExplained AppendsLess self.now.manner read.now self.now.heading.now self.now.bytes.now (W.contents w.old) (W.contents w.new)) }
    {
        write_all(w, self.heading)?;
        explain(alloc, self.bytes, read, self.manner, w)
    }
}
