//! Remarks on bInterval of an endpoint.
ghost use Rattle.std.specs.Prelude.{◌≡◌};
ghost use Rattle.usb_remarks.specs.Remarks.{from_to, interval_range, interval_remark};

use crate::remark::{IntervalRange, Remark};
use crate::speed::SetSpeed;
use usb_set::TransferType;

/// The values that bInterval has at a speed, if it has a meaning (USB 2.0, 9.6.6).
fn interval_range(speed: SetSpeed, transfer: TransferType) -> Option<IntervalRange>
    ensures { result ≡ interval_range speed transfer }
{
    match (transfer, speed) {
        (TransferType::Control | TransferType::Bulk, _) => None,
        (TransferType::Interrupt, SetSpeed::Low) => from_to(10, 255),
        (TransferType::Interrupt, SetSpeed::Full | SetSpeed::LowOrFull | SetSpeed::FullOrHigh) =>
            from_to(1, 255),
        (TransferType::Isochronous, SetSpeed::Low | SetSpeed::LowOrFull) => None,
        _ => from_to(1, 16),
    }
}

fn from_to(least: u8, most: u8) -> Option<IntervalRange>
    ensures { result ≡ from_to least most }
{
    Some(IntervalRange { least, most })
}

/// A remark on bInterval that is out of its range.
pub(crate) fn interval_remark(
    speed: SetSpeed,
    transfer: TransferType,
    interval: u8,
) -> Option<Remark>
    ensures { result ≡ interval_remark speed transfer interval }
{
    let range = interval_range(speed, transfer)?;
    if range.least <= interval && interval <= range.most {
        None
    } else {
        Some(Remark::Interval {
            transfer,
            speed,
            range,
            found: interval,
        })
    }
}
