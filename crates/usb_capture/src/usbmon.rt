//! Frames of usbmon (the kernel's document "usbmon", struct usbmon_packet).
ghost use Rattle.std.specs.Prelude.{◌≡◌, ◌<◌, Some, IfOk, IfErr, nat_lt};
ghost use Rattle.usb_capture.specs.Events.{IsUsbmon, kind_of, setup_at, usbmon_fault};

use crate::event::{Event, EventFault, EventKind, System, transfer_of};
use crate::frame::Frame;
use crate::order::ByteOrder;
use usb_fields::{Setup, after, byte_at, prefix};

/// How many bytes the header has before its fields for isochronous transfers: link type 189.
pub(crate) const OLD_HEADER_LENGTH: usize = 48;

/// How many bytes the header has: link type 220.
pub(crate) const HEADER_LENGTH: usize = 64;

/// What a frame with a header of this length says.
#[inline(always)]
pub(crate) fn read(frame: &Frame, header: usize) -> Result<Event<'_>, EventFault>
    ensures ok { IfOk result (λ event. IsUsbmon frame.now.order header frame.now.bytes event) }
    ensures time { IfOk result (λ event. event.time ≡ frame.now.time) }
    ensures cut { IfOk result (λ event. event.is_cut ≡ nat_lt frame.now.captured frame.now.original) }
    ensures err { IfErr result (λ fault. usbmon_fault header frame.now.bytes ≡ Some fault) }
{
    let order = frame.order;
    let b = frame.bytes.as_slice();
    if b.len() < header {
        return Err(EventFault::Short);
    }
    let Some(kind) = kind_of(byte_at(b, 8)) else {
        return Err(EventFault::Kind);
    };
    let Some(transfer) = transfer_of(byte_at(b, 9)) else {
        return Err(EventFault::Transfer);
    };
    let captured = order.number_at(b, 36) as usize;
    Ok(Event {
        time: frame.time,
        system: System::Linux,
        id: order.long_at(b, 0),
        kind,
        ends: kind != EventKind::Submission,
        transfer,
        bus: order.short_at(b, 12),
        device: u16::from(byte_at(b, 11)),
        endpoint: byte_at(b, 10),
        setup: if byte_at(b, 14) == 0 {
            Some(setup_at(b, 40))
        } else {
            None
        },
        status: order.number_at(b, 28),
        length: order.number_at(b, 32),
        data: prefix(after(b, header), captured),
        is_cut: frame.is_cut(),
    })
}

/// What the letter of an event says.
pub(crate) fn kind_of(letter: u8) -> Option<EventKind>
    ensures { result ≡ kind_of letter }
{
    match letter {
        b'S' => Some(EventKind::Submission),
        b'C' => Some(EventKind::Completion),
        b'E' => Some(EventKind::Refusal),
        _ => None,
    }
}

/// The setup packet at this place, of whose bytes those that aren't there are 0.
pub(crate) fn setup_at(b: &[u8], at: u8) -> Setup
    requires { at < 128 }
    ensures { result ≡ setup_at b.now at }
{
    Setup {
        request_type: byte_at(b, usize::from(at)),
        request: byte_at(b, usize::from(at) + 1),
        value: ByteOrder::Little.short_at(b, at + 2),
        index: ByteOrder::Little.short_at(b, at + 4),
        length: ByteOrder::Little.short_at(b, at + 6),
    }
}
