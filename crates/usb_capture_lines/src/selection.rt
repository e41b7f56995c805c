//! Of which devices and which times there are lines.
ghost use Rattle.std.specs.Prelude.{◌≡◌};
ghost use Rattle.usb_capture_lines.specs.Recordings.{address_of, is_device, is_wanted, is_within, time_of, wants_device, wants_time};

use usb_capture::ControlTransfer;

/// A device: the number of its bus, and its address.
#[derive(Clone, Copy, Debug, PartialEq, Eq, Hash)]
pub struct DeviceAddress {
    /// The number of its bus.
    pub bus: u16,
    /// Its address.
    pub device: u16,
}

impl DeviceAddress {
    /// That of a transfer.
    pub(crate) fn of(transfer: &ControlTransfer) -> DeviceAddress
        ensures { result ≡ address_of transfer.now }
    {
        DeviceAddress {
            bus: transfer.bus,
            device: transfer.device,
        }
    }

    /// Whether this is the device.
    pub(crate) fn is(self, other: Option<DeviceAddress>) -> bool
        ensures { result ≡ is_device self other }
    {
        match other {
            Some(other) => self.bus == other.bus && self.device == other.device,
            None => false,
        }
    }
}

/// Which lines are wanted.
#[derive(Clone, Copy, Debug, PartialEq, Eq, Hash)]
pub struct Selection {
    /// Whether lines of transfers are left out.
    pub brief: bool,
    /// Whether lines of transfers have their bytes below them.
    pub data: bool,
    /// The device that has lines, or all.
    pub device: Option<DeviceAddress>,
    /// The least time of a line, in nanoseconds after the first frame.
    pub from: Option<u64>,
    /// The greatest time of a line.
    pub to: Option<u64>,
}

impl Selection {
    /// Whether there are lines of what a device did at this time.
    pub(crate) fn wants(
        &self,
        origin: u64,
        device: Option<DeviceAddress>,
        time: Option<u64>,
    ) -> bool
        ensures { result ≡ is_wanted self.now origin device time }
    {
        !self.brief && self.wants_device(device) && self.wants_time(origin, time)
    }

    /// Whether lines of a device are wanted, or of what is of none that is known.
    pub(crate) fn wants_device(&self, device: Option<DeviceAddress>) -> bool
        ensures { result ≡ wants_device self.now.device device }
    {
        match self.device {
            None => true,
            Some(wanted) => wanted.is(device),
        }
    }

    /// Whether a time is within those wanted. One that isn't known is.
    fn wants_time(&self, origin: u64, time: Option<u64>) -> bool
        ensures { result ≡ wants_time self.now.from self.now.to origin time }
    {
        match time {
            None => true,
            Some(time) => is_within(self.from, self.to, time.saturating_sub(origin)),
        }
    }
}

fn is_within(from: Option<u64>, to: Option<u64>, time: u64) -> bool
    ensures { result ≡ is_within from to time }
{
    from.unwrap_or(0) <= time && time <= to.unwrap_or(u64::MAX)
}

/// When a transfer ended, or began where its end isn't there.
pub(crate) fn time_of(transfer: &ControlTransfer) -> Option<u64>
    ensures { result ≡ time_of transfer.now }
{
    transfer.ended.or(transfer.begun)
}
