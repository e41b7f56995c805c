//! bInterval of periodic endpoints as a time.
ghost use Rattle.std.specs.Prelude.{◌≡◌, ◌*◌, ◌<◌, ◌≤◌, IfSome, OnOk};
ghost use Rattle.usb_set.specs.Descriptors.{transfer_type_of};
ghost use Rattle.usb_text.specs.Shown.{showing_all};
ghost use Rattle.usb_explain.specs.Speeds.{at_least_one, full_microseconds, full_period, high_microseconds, interval_at, interval_shown, is_periodic, period};

use std::alloc::AllocError;
use usb_remarks::SetSpeed;
use usb_set::TransferType;
use usb_text::Page;

/// Whether an endpoint of these attributes has an interval: isochronous and interrupt ones do (USB 2.0, 5.6 and 5.7).
pub(crate) fn is_periodic(attributes: u8) -> bool
    ensures { result ≡ is_periodic (transfer_type_of attributes) }
{
    match TransferType::of(attributes) {
        TransferType::Control | TransferType::Bulk => false,
        TransferType::Isochronous | TransferType::Interrupt => true,
    }
}

/// Puts the interval of a periodic endpoint of these attributes at a speed: `10 ms`, or `10 ms; at high speed 64 ms`.
///
/// ```rust
/// put_interval(&mut lines, SetSpeed::High, 3, 4)?;
/// assert_eq!(rt; lines.as_bytes(), b"1 ms");
/// ```
#[tactic(auto, using(usb_text::proofs::ShownLines::showing_joined), unfolding(crate::specs::Speeds::interval_at))]
pub(crate) fn put_interval<P: Page>(
    page: &mut P,
    speed: SetSpeed,
    attributes: u8,
    interval: u8,
) -> Result<(), AllocError>
    ensures { OnOk result (P.seen page.new ≡ showing_all P.showing (interval_at speed (transfer_type_of attributes) interval) (P.seen page.old)) }
{
    let transfer = TransferType::of(attributes);
    match speed {
        SetSpeed::Low | SetSpeed::Full | SetSpeed::LowOrFull => {
            put_time(page, full_microseconds(transfer, interval))
        }
        SetSpeed::FullOrHigh => {
            put_time(page, full_microseconds(transfer, interval))?;
            page.put("; at high speed ")?;
            put_time(page, high_microseconds(interval))
        }
        SetSpeed::High | SetSpeed::Super => put_time(page, high_microseconds(interval)),
    }
}

/// Puts a time in microseconds, if it is in its range: `125 us`, or `2 ms`.
#[inline(always)]
fn put_time<P: Page>(page: &mut P, microseconds: Option<u32>) -> Result<(), AllocError>
    ensures { OnOk result (P.seen page.new ≡ showing_all P.showing (interval_shown microseconds) (P.seen page.old)) }
{
    match microseconds {
        None => page.put("out of range"),
        Some(time) if time < 1000 => {
            page.put_decimal(u64::from(time))?;
            page.put(" us")
        }
        Some(time) => {
            page.put_decimal(u64::from(time / 1000))?;
            page.put(" ms")
        }
    }
}

/// bInterval in microseconds at low or full speed, if it is in its range.
fn full_microseconds(transfer: TransferType, interval: u8) -> Option<u32>
    ensures { result ≡ full_microseconds transfer interval }
{
    match full_period(transfer, interval) {
        None => None,
        Some(frames) => Some(1000 * frames),
    }
}

/// And at high speed and above.
fn high_microseconds(interval: u8) -> Option<u32>
    ensures { result ≡ high_microseconds interval }
{
    match period(interval) {
        None => None,
        Some(microframes) => Some(125 * microframes),
    }
}

fn full_period(transfer: TransferType, interval: u8) -> Option<u32>
    ensures frames { result ≡ full_period transfer interval }
    ensures most { IfSome result (λ frames. frames ≤ 32768) }
{
    match transfer {
        TransferType::Interrupt => at_least_one(interval),
        _ => period(interval),
    }
}

fn at_least_one(interval: u8) -> Option<u32>
    ensures frames { result ≡ at_least_one interval }
    ensures most { IfSome result (λ frames. frames ≤ 32768) }
{
    if interval == 0 {
        None
    } else {
        Some(u32::from(interval))
    }
}

/// 2^(n-1), for n from 1 to 16 (USB 2.0, 9.6.6).
fn period(interval: u8) -> Option<u32>
    ensures period { result ≡ period interval }
    ensures most { IfSome result (λ period. period ≤ 32768) }
{
    if interval == 0 || interval > 16 {
        return None;
    }
    Some(1 << (interval - 1))
}
