//! How a control transfer ended.
ghost use Rattle.std.specs.Prelude.{◌≡◌};
ghost use Rattle.usb_capture.specs.Transfers.{ending_of, stall_of};

use crate::event::{Event, EventKind, System};

/// How a control transfer ended, as a host's system says it.
#[derive(Clone, Copy, Debug, PartialEq, Eq, Hash)]
pub enum Ending {
    /// Its end isn't in the recording.
    Unseen,
    /// All its stages were done.
    Done,
    /// The device answered STALL (USB 2.0, 8.5.3.4).
    Stall,
    /// It failed with this status of the host's system.
    Failed(u32),
    /// The host controller didn't take it, with this status.
    Refused(u32),
}

impl Ending {
    /// How an event ends a transfer.
    pub(crate) fn of(event: &Event<'_>) -> Ending
        ensures { result ≡ ending_of event.now }
    {
        match event.kind {
            EventKind::Submission => Ending::Unseen,
            EventKind::Refusal => Ending::Refused(event.status),
            EventKind::Completion if event.status == 0 => Ending::Done,
            EventKind::Completion if event.status == stall_of(event.system) => Ending::Stall,
            EventKind::Completion => Ending::Failed(event.status),
        }
    }
}

/// A system's status of a transfer that was answered with STALL: EPIPE, or USBD_STATUS_STALL_PID.
fn stall_of(system: System) -> u32
    ensures { result ≡ stall_of system }
{
    match system {
        System::Linux => 0xffff_ffe0,
        System::Windows => 0xc000_0004,
    }
}
