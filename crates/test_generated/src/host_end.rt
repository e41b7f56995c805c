//! The host's end of a request: a write where data go to the device, else a transfer.
ghost use Rattle.std.specs.Prelude.{◌<◌};

use usb_fields::{Answer, Direction, Setup, Transaction};
use usb_host::{Heard, Transfer, Write};

/// The host's end of a request.
#[derive(Clone, Copy)]
pub(crate) enum HostEnd {
    Transfer(Transfer),
    Write(Write),
}

impl HostEnd {
    /// It begins with this setup packet.
    pub(crate) fn new(address: u8, packet: u8, naks: u16, request: Setup) -> HostEnd
        requires { 0 < packet }
    {
        if request.length > 0 && request.direction() == Direction::Out {
            HostEnd::Write(Write::new(address, packet, naks, request))
        } else {
            HostEnd::Transfer(Transfer::new(address, packet, naks, request))
        }
    }

    /// The setup packet.
    pub(crate) fn request(&self) -> Setup {
        match self {
            HostEnd::Transfer(transfer) => transfer.request(),
            HostEnd::Write(write) => write.request(),
        }
    }

    /// The next transaction, where these are the data of a write. None where they are not wLength bytes.
    pub(crate) fn next<'a>(&self, data: &'a [u8]) -> Option<Transaction<'a>> {
        match self {
            HostEnd::Transfer(transfer) => transfer.next(),
            HostEnd::Write(write) if data.len() == usize::from(write.request().length) => {
                write.next(data)
            }
            HostEnd::Write(_) => None,
        }
    }

    /// Takes what came back.
    pub(crate) fn take<'a>(&mut self, answer: Answer<'a>) -> Heard<'a> {
        match self {
            HostEnd::Transfer(transfer) => transfer.take(answer),
            HostEnd::Write(write) => write.take(answer),
        }
    }
}
