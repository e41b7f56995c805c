//! Where the bytes of an input come from.
ghost use Rattle.std.specs.Prelude.{◌≡◌, IfErr, IfOk};
ghost use Rattle.usb_tool.specs.WorkOptions.{source_of};
ghost use Rattle.usb_tool.specs.Works.{Gives, GivesNone};

use crate::fault::ToolFault;
use std::alloc::Global;
use usb_hex::{HexFault, parse};

/// Where the bytes of an input come from.
#[derive(Clone, Copy, Debug, PartialEq, Eq, Hash)]
pub enum Source {
    /// The input is the bytes.
    Bytes,
    /// The input is their hexadecimal text, in the forms that [`run_explain`](crate::run_explain) takes.
    Hexadecimal,
}

impl Source {
    /// Where they come from with `--hex`, or without.
    pub(crate) fn with_flag(hex: bool) -> Source
        ensures { result ≡ source_of hex }
    {
        if hex {
            Source::Hexadecimal
        } else {
            Source::Bytes
        }
    }

    /// The bytes of an input.
    ///
    /// # Errors
    ///
    /// `Hex` where the input has to be hexadecimal text and is none. `Memory` when out of memory.
    pub(crate) fn bytes_of(self, alloc: Global, input: Vec<u8>) -> Result<Vec<u8>, ToolFault>
        ensures ok { IfOk result (λ bytes. Gives self input.items bytes.items) }
        ensures err { IfErr result (GivesNone self input.items) }
    {
        match self {
            Source::Bytes => Ok(input),
            Source::Hexadecimal => match parse(alloc, &input) {
                Ok(bytes) => Ok(bytes),
                Err(HexFault::Memory) => Err(ToolFault::Memory),
                Err(HexFault::Text { line, column, .. }) => Err(ToolFault::Hex { line, column }),
            },
        }
    }
}
