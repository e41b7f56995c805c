//! What a frame says of a transfer.
ghost use Rattle.std.specs.Prelude.{◌≡◌, Some, IfOk, IfErr, nat_lt};
ghost use Rattle.usb_capture.specs.Events.{event_fault, transfer_of, IsEvent};

use crate::frame::Frame;
use crate::{usbmon, usbpcap};
use usb_fields::Setup;
use usb_set::TransferType;

/// What befell a transfer of a host.
#[derive(Clone, Copy, Debug, PartialEq, Eq, Hash)]
pub enum EventKind {
    /// It was given to the host controller.
    Submission,
    /// It came back.
    Completion,
    /// The host controller didn't take it.
    Refusal,
}

/// Why a frame tells of no transfer: the first of these that holds.
#[derive(Clone, Copy, Debug, PartialEq, Eq, Hash)]
pub enum EventFault {
    /// Its link type is another one: it has no USB, or packets of the bus.
    Link,
    /// It has fewer bytes than its header.
    Short,
    /// It is no submission, completion or refusal.
    Kind,
    /// It has no type of a transfer.
    Transfer,
}

/// The system of a host.
#[derive(Clone, Copy, Debug, PartialEq, Eq, Hash)]
pub enum System {
    /// Linux, of which usbmon tells.
    Linux,
    /// Windows, of which USBPcap tells.
    Windows,
}

/// What a frame says of a transfer.
#[derive(Clone, Copy, Debug)]
pub struct Event<'d> {
    /// When it was captured, in nanoseconds.
    pub time: Option<u64>,
    /// The system of the host.
    pub system: System,
    /// What a submission and its completion have in common.
    pub id: u64,
    /// What befell it.
    pub kind: EventKind,
    /// Whether the transfer is over with it: not where USBPcap has the data stage apart.
    pub ends: bool,
    /// The type of its endpoint.
    pub transfer: TransferType,
    /// The number of its bus.
    pub bus: u16,
    /// The address of its device.
    pub device: u16,
    /// The address of its endpoint, with the direction in bit 7 as in bEndpointAddress (USB 2.0, 9.6.6).
    pub endpoint: u8,
    /// Its setup packet, where the frame has it.
    pub setup: Option<Setup>,
    /// How it ended, as the host's system numbers it: 0 is success. Linux has a negative number in two's complement.
    pub status: u32,
    /// How many bytes were asked for or, at its completion, came or went. USBPcap has a length for each stage.
    pub length: u32,
    /// Those of them that the frame has.
    pub data: &'d [u8],
    /// Whether the file has fewer of the frame's bytes than it had.
    pub is_cut: bool,
}

impl<'d> Event<'d> {
    /// What this frame says.
    ///
    /// # Errors
    ///
    /// The first [`EventFault`] that holds.
    pub fn of_frame(frame: &'d Frame) -> Result<Event<'d>, EventFault>
        ensures ok { IfOk result (λ event. IsEvent frame.now.link frame.now.order frame.now.bytes event) }
        ensures time { IfOk result (λ event. event.time ≡ frame.now.time) }
        ensures cut { IfOk result (λ event. event.is_cut ≡ nat_lt frame.now.captured frame.now.original) }
        ensures err { IfErr result (λ fault. event_fault frame.now.link frame.now.bytes ≡ Some fault) }
    {
        match frame.link {
            189 => usbmon::read(frame, usbmon::OLD_HEADER_LENGTH),
            220 => usbmon::read(frame, usbmon::HEADER_LENGTH),
            249 => usbpcap::read(frame),
            _ => Err(EventFault::Link),
        }
    }
}

/// The type of a transfer by its number, which usbmon and USBPcap have in common.
pub(crate) fn transfer_of(number: u8) -> Option<TransferType>
    ensures { result ≡ transfer_of number }
{
    match number {
        0 => Some(TransferType::Isochronous),
        1 => Some(TransferType::Interrupt),
        2 => Some(TransferType::Control),
        3 => Some(TransferType::Bulk),
        _ => None,
    }
}
