//! A control transfer of a recording.
ghost use Rattle.std.specs.Prelude.{◌≡◌, IfOk};
ghost use Rattle.usb_capture.specs.Transfers.{begun, ended, gone_on, length_after};

use crate::ending::Ending;
use crate::event::{Event, System};
use std::alloc::{AllocError, Global};
use usb_fields::{Sequence, Setup};

/// A control transfer of a device's default control pipe: what was asked and answered (USB 2.0, 9.3).
#[derive(Debug, Drop)]
pub struct ControlTransfer {
    /// The number of its bus.
    pub bus: u16,
    /// The address of its device.
    pub device: u16,
    /// When it was given to the host controller, in nanoseconds.
    pub begun: Option<u64>,
    /// Its setup packet.
    pub setup: Setup,
    /// The bytes of its data stage that the recording has.
    pub data: Sequence<u8>,
    /// How many bytes of data came or went; at a setup packet alone, how many its frame speaks of.
    pub length: u32,
    /// Whether a frame of it was cut, so that bytes of data may lack.
    pub is_cut: bool,
    /// When it ended, in nanoseconds.
    pub ended: Option<u64>,
    /// How it ended.
    pub ending: Ending,
}

impl ControlTransfer {
    /// A transfer that begins with this setup packet.
    pub(crate) fn begin(
        alloc: Global,
        event: &Event<'_>,
        setup: Setup,
    ) -> Result<ControlTransfer, AllocError>
        ensures { IfOk result (λ transfer. transfer ≡ begun event.now setup) }
    {
        Ok(ControlTransfer {
            bus: event.bus,
            device: event.device,
            begun: event.time,
            setup,
            data: Sequence::from_vec(Vec::from_slice(alloc, event.data)?),
            length: event.length,
            is_cut: event.is_cut,
            ended: None,
            ending: Ending::Unseen,
        })
    }

    /// The transfer after an event that doesn't end it.
    pub(crate) fn go_on(self, event: &Event<'_>) -> Result<ControlTransfer, AllocError>
        ensures { IfOk result (λ transfer. transfer ≡ gone_on event.now self) }
    {
        let mut data = self.data.into_vec();
        data.extend_from_slice(event.data)?;
        Ok(ControlTransfer {
            bus: self.bus,
            device: self.device,
            begun: self.begun,
            setup: self.setup,
            data: Sequence::from_vec(data),
            length: length_after(event.system, self.length, event.length),
            is_cut: self.is_cut || event.is_cut,
            ended: self.ended,
            ending: self.ending,
        })
    }

    /// The transfer after the event that ends it.
    pub(crate) fn end(self, event: &Event<'_>) -> Result<ControlTransfer, AllocError>
        ensures { IfOk result (λ transfer. transfer ≡ ended event.now self) }
    {
        let mut transfer = self.go_on(event)?;
        transfer.ended = event.time;
        transfer.ending = Ending::of(event);
        Ok(transfer)
    }
}

/// How many bytes there were, where an event speaks of this many.
fn length_after(system: System, before: u32, said: u32) -> u32
    ensures { result ≡ length_after system before said }
{
    match system {
        System::Linux => said,
        System::Windows => before.saturating_add(said),
    }
}
