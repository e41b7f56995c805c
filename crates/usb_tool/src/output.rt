//! Writing an output to its end.
ghost use Rattle.std.specs.Prelude.{◌≡◌, IfErr, OnErr, OnOk};
ghost use Rattle.std.specs.Io.KnownBytes.{Appends, Keeps};
ghost use Rattle.usb_text.specs.Output.{AppendsFront};

use crate::fault::ToolFault;
use std::io::Write;
use usb_text::write_all;

/// Writes all of the bytes, and flushes the writer.
///
/// # Errors
///
/// `Write` where the writer or its flush failed. A prefix of the bytes is written then.
pub(crate) fn write_flushed<W: Write>(w: &mut W, bytes: &[u8]) -> Result<(), ToolFault>
    ensures ok { OnOk result (Appends (W.contents w.old) (W.contents w.new) bytes.now) }
    ensures err { OnErr result (AppendsFront (W.contents w.old) (W.contents w.new) bytes.now) }
    ensures why { IfErr result (λ fault. fault ≡ ToolFault.Write) }
{
    write_all(w, bytes)?;
    finish(w)
}

/// Flushes the writer, after all was written.
///
/// # Errors
///
/// `Write` where the flush failed.
pub(crate) fn finish<W: Write>(w: &mut W) -> Result<(), ToolFault>
    ensures kept { Keeps (W.contents w.old) (W.contents w.new) }
    ensures why { IfErr result (λ fault. fault ≡ ToolFault.Write) }
{
    match w.flush() {
        Ok(()) => Ok(()),
        Err(_) => Err(ToolFault::Write),
    }
}
