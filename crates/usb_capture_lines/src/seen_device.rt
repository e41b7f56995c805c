//! A device of a recording.
ghost use Rattle.std.specs.Prelude.{◌≡◌, OnOk};
ghost use Rattle.std.specs.List.{position};
ghost use Rattle.usb_capture_lines.specs.Recordings.{first_seen, is_seen_in, met, met_all, with_findings};

use crate::bus_finding::BusFinding;
use crate::selection::DeviceAddress;
use std::alloc::AllocError;

/// A device of a recording, and what was found.
#[derive(Clone, Copy, Debug, PartialEq, Eq, Hash)]
pub struct SeenDevice {
    /// The number of its bus, and its address, or `None` for packets of which no device is known.
    pub address: Option<DeviceAddress>,
    /// How many findings it has.
    pub findings: u64,
}

impl SeenDevice {
    /// One that is first seen with this many findings.
    pub(crate) fn first(address: Option<DeviceAddress>, count: usize) -> SeenDevice
        ensures { result ≡ first_seen address count }
    {
        SeenDevice {
            address,
            findings: count as u64,
        }
    }

    /// Whether it is this device.
    pub(crate) fn is_at(self, address: Option<DeviceAddress>) -> bool
        ensures { result ≡ is_seen_in address self }
    {
        match self.address {
            Some(own) => own.is(address),
            None => address.is_none(),
        }
    }

    /// With this many findings more.
    pub(crate) fn with_findings(self, count: usize) -> SeenDevice
        ensures { result ≡ with_findings count self }
    {
        SeenDevice {
            findings: self.findings.saturating_add(count as u64),
            ..self
        }
    }
}

/// Counts this many findings more of a device, which may be a new one.
pub(crate) fn meet(
    devices: &mut Vec<SeenDevice>,
    device: Option<DeviceAddress>,
    found: usize,
) -> Result<(), AllocError>
    ensures { OnOk result (devices.new.items ≡ met device found devices.old.items) }
{
    match place_of(devices, device) {
        Some(place) => devices[place] = devices[place].with_findings(found),
        None => devices.push(SeenDevice::first(device, found))?,
    }
    Ok(())
}

/// Counts what is wrong in packets.
pub(crate) fn meet_all(
    devices: &mut Vec<SeenDevice>,
    found: &[BusFinding],
) -> Result<(), AllocError>
    ensures { OnOk result (devices.new.items ≡ met_all found.now devices.old.items) }
{
    for finding in found {
        meet(devices, finding.device(), 1)?;
    }
    Ok(())
}

/// Which of these devices this is, if it is one of them.
fn place_of(devices: &[SeenDevice], device: Option<DeviceAddress>) -> Option<usize>
    ensures { result ≡ position (is_seen_in device) devices.now }
{
    devices.iter().position(|seen| seen.is_at(device))
}
