//! Frames of USBPcap ("USBPcap capture format specification", USBPCAP_BUFFER_PACKET_HEADER): all numbers are little-endian.
ghost use Rattle.std.specs.Prelude.{◌≡◌, Some, IfOk, IfErr, nat_lt};
ghost use Rattle.usb_capture.specs.Events.{IsUsbpcap, is_stage, usbpcap_fault};

use crate::event::{Event, EventFault, EventKind, System, transfer_of};
use crate::frame::Frame;
use crate::order::ByteOrder;
use crate::usbmon::setup_at;
use usb_fields::{after, byte_at, prefix};
use usb_set::TransferType;

/// How many bytes a header has at least.
const HEADER_LENGTH: usize = 27;

/// What a frame says. A setup packet stands before the data of a control transfer's first stage, and isn't part of them.
pub(crate) fn read(frame: &Frame) -> Result<Event<'_>, EventFault>
    ensures ok { IfOk result (λ event. IsUsbpcap frame.now.bytes event) }
    ensures time { IfOk result (λ event. event.time ≡ frame.now.time) }
    ensures cut { IfOk result (λ event. event.is_cut ≡ nat_lt frame.now.captured frame.now.original) }
    ensures err { IfErr result (λ fault. usbpcap_fault frame.now.bytes ≡ Some fault) }
{
    let b = frame.bytes.as_slice();
    let order = ByteOrder::Little;
    let header = usize::from(order.short_at(b, 0));
    if header < HEADER_LENGTH || b.len() < header {
        return Err(EventFault::Short);
    }
    let Some(transfer) = transfer_of(byte_at(b, 22)) else {
        return Err(EventFault::Transfer);
    };
    let length = order.number_at(b, 23);
    let data = prefix(after(b, header), length as usize);
    let begins = is_stage(0, transfer, header, b);
    let comes_back = byte_at(b, 16) % 2 == 1;
    Ok(Event {
        time: frame.time,
        system: System::Windows,
        id: order.long_at(b, 2),
        kind: if comes_back {
            EventKind::Completion
        } else {
            EventKind::Submission
        },
        ends: comes_back && !is_stage(1, transfer, header, b),
        transfer,
        bus: order.short_at(b, 17),
        device: order.short_at(b, 19),
        endpoint: byte_at(b, 21),
        setup: if begins {
            Some(setup_at(data, 0))
        } else {
            None
        },
        status: order.number_at(b, 10),
        length: if begins {
            length.saturating_sub(8)
        } else {
            length
        },
        data: if begins { after(data, 8) } else { data },
        is_cut: frame.is_cut(),
    })
}

/// Whether a frame is of this stage of a control transfer: 0 is the setup stage, 1 the data stage.
fn is_stage(stage: u8, transfer: TransferType, header: usize, b: &[u8]) -> bool
    ensures { result ≡ is_stage stage transfer header b.now }
{
    match transfer {
        TransferType::Control => header > HEADER_LENGTH && byte_at(b, HEADER_LENGTH) == stage,
        _ => false,
    }
}
