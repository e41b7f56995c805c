//! Why bytes are no capture.
ghost use Rattle.std.specs.Prelude.{◌≡◌};
ghost use Rattle.usb_capture.specs.FaultNumbers.{fault_number};

use std::alloc::{AllocError, AllocFailed};

/// Why a reader has stopped, at the part of the file that is being read.
#[derive(Clone, Copy, Debug, PartialEq, Eq, Hash)]
pub enum CaptureFault {
    /// The first four bytes are no magic number of a capture file, nor digits of usbmon's text.
    Magic,
    /// Byte-Order Magic of a section header is 1a2b3c4d in neither order.
    Order,
    /// Block Total Length is no multiple of four, or less than a block of its type has.
    Length,
    /// The length at the end of a block isn't that at its beginning.
    Trailer,
    /// Major Version of a section isn't 1.
    Version,
    /// A description of an interface has over 65,627 bytes.
    Long,
    /// A section has over 65,536 interfaces.
    Interfaces,
    /// An option of an interface runs past its block, or `if_tsresol` or `if_tsoffset` hasn't its length.
    Options,
    /// A packet names an interface that its section doesn't have.
    Interface,
    /// The data of a packet run past its block.
    Data,
    /// A line isn't as usbmon's text has it, or has over 512 bytes.
    Line,
    /// Out of memory.
    Memory,
}

impl CaptureFault {
    /// The fault's number, from 1 to 12.
    pub fn number(self) -> u8
        ensures { result ≡ fault_number self }
    {
        self as u8 + 1
    }
}

impl From<AllocError> for CaptureFault {
    ghost use Rattle.std.specs.Prelude.{◌≡◌};
    ghost use Rattle.usb_capture.specs.declared.fault.CaptureFault.TheVariants.{Memory};

    ghost from_gives = { λ _ fault. fault ≡ Memory };

    fn from(_: AllocError) -> CaptureFault {
        CaptureFault::Memory
    }
}

impl<T: Drop> From<AllocFailed<T>> for CaptureFault {
    ghost use Rattle.std.specs.Prelude.{◌≡◌};
    ghost use Rattle.usb_capture.specs.declared.fault.CaptureFault.TheVariants.{Memory};

    ghost from_gives = { λ _ fault. fault ≡ Memory };

    fn from(_: AllocFailed<T>) -> CaptureFault {
        CaptureFault::Memory
    }
}
