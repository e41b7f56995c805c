//! Writing bytes to a writer that may take a part of them at a time.
ghost use Rattle.std.specs.Prelude.{◌≡◌, ◌⊎◌, [], IfErr, OnErr, OnOk};
ghost use Rattle.std.specs.Io.KnownBytes.{Appends, Keeps};
ghost use Rattle.usb_text.specs.Output.{AppendsLess, out_number};
ghost use Rattle.usb_text.specs.declared.output.OutFault.TheVariants.{Memory};
ghost use Rattle.usb_text.specs.inside.Pages.{Puts};

use crate::text::Text;
use std::alloc::AllocError;
use std::io::Write;
use thiserror::Error;

/// Why a text was not written to its end.
///
/// ```rust
/// if let Err(OutFault::Write) = list(alloc, &file, &mut writer) {
///     // The writer holds a prefix of the listing.
/// }
/// ```
#[derive(Clone, Copy, Debug, Drop, Error, PartialEq, Eq, Hash)]
pub enum OutFault {
    /// The writer answered an error, or took none of some bytes.
    #[error("the writer failed")]
    Write,
    /// Out of memory.
    #[error("out of memory")]
    Memory,
}

impl OutFault {
    /// The fault's number, 1 or 2.
    pub fn number(self) -> u8
        ensures { result ≡ out_number self }
    {
        self as u8 + 1
    }
}

impl From<AllocError> for OutFault {
    ghost from_gives = { λ _ fault. fault ≡ Memory };

    fn from(_e: AllocError) -> OutFault {
        OutFault::Memory
    }
}

/// Writes all of the bytes.
///
/// ```rust
/// write_all(&mut rt.stdout(), b"raw 21 -\n")?;
/// ```
///
/// # Errors
///
/// `Write` at the first call of the writer that fails or takes nothing. A prefix of the bytes is
/// written then, and not all of them.
pub fn write_all<W: Write>(w: &mut W, bytes: &[u8]) -> Result<(), OutFault>
    ensures ok { OnOk result (Appends (W.contents w.old) (W.contents w.new) bytes.now) }
    ensures err { OnErr result (AppendsLess (W.contents w.old) (W.contents w.new) bytes.now) }
    ensures why { IfErr result (λ fault. fault ≡ OutFault.Write) }
{
    let mut rest = bytes;
    while !rest.is_empty() {
        match w.write(rest) {
            Ok(0) | Err(_) => return Err(OutFault::Write),
            Ok(count) => rest = &rest[count..],
        }
    }
    Ok(())
}

/// A text of this many bytes or more is passed on to the writer.
const FULL: usize = 32 * 1024;

impl Text {
    /// Writes the text and empties it, where it has 32 KB or more. Its memory is kept for what is put next.
    ///
    /// # Errors
    ///
    /// `Write` where the writer failed.
    pub fn pass_on<W: Write>(&mut self, w: &mut W) -> Result<(), OutFault>
        ensures ok { OnOk result (Puts (W.contents w.old) (W.contents w.new) self.old self.new []) }
        ensures err { OnErr result (AppendsLess (W.contents w.old) (W.contents w.new) self.old) }
        ensures whole { OnOk result (Keeps (W.contents w.old) (W.contents w.new) ⊎ Appends (W.contents w.old) (W.contents w.new) self.old) }
        ensures why { IfErr result (λ fault. fault ≡ OutFault.Write) }
    {
        if self.len() >= FULL {
            write_all(w, self.as_bytes())?;
            self.clear();
        }
        Ok(())
    }
}
