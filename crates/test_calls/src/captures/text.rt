//! Text of usbmon: the examples of the kernel's document, fed in two pieces, cut at every byte.
use crate::captures::read_cut;
use usb_capture::{Event, EventKind, Frame};
use usb_fields::Setup;
use usb_set::TransferType;

/// A port's status is read, and a command of 31 bytes is sent.
const LINES: &[u8] = b"d5ea89a0 3575914555 S Ci:1:001:0 s a3 00 0000 0003 0004 4 <
d5ea89a0 3575914560 C Ci:1:001:0 0 4 = 01050000
dd65f0e8 4128379752 S Bo:1:005:2 -115 31 = 55534243 ad000000 00800000 80010a28 20000000 20000040 00000000 000000
dd65f0e8 4128379808 C Bo:1:005:2 0 31 >
";

/// The command.
const COMMAND: &[u8] = &[
    0x55, 0x53, 0x42, 0x43, 0xad, 0, 0, 0, 0, 0x80, 0, 0, 0x80, 1, 0x0a, 0x28, //
    0x20, 0, 0, 0, 0x20, 0, 0, 0x40, 0, 0, 0, 0, 0, 0, 0,
];

/// GET_STATUS of a hub's port 3 (USB 2.0, 11.24.2.7).
const GET_STATUS: Setup = Setup {
    request_type: 0xa3,
    request: 0,
    value: 0,
    index: 3,
    length: 4,
};

/// What a frame says: its time, id, kind, type, whose it is, status and length.
type Said = (
    Option<u64>,
    u64,
    EventKind,
    TransferType,
    (u16, u16, u8),
    u32,
    u32,
);

/// Whether a frame says this, with this setup packet and these data.
fn says(frame: &Frame, said: Said, setup: Option<Setup>, data: &[u8]) -> bool {
    match Event::of_frame(frame) {
        Ok(e) => {
            let of = (e.bus, e.device, e.endpoint);
            (frame.time, e.id, e.kind, e.transfer, of, e.status, e.length) == said
                && e.setup == setup
                && e.data == data
                && !frame.is_cut()
        }
        Err(_) => false,
    }
}

/// Whether these are the frames of the lines.
fn are_those(frames: &[Frame]) -> bool {
    let read = (0xd5ea_89a0, TransferType::Control, (1, 1, 0x80));
    let sent = (0xdd65_f0e8, TransferType::Bulk, (1, 5, 2));
    let said = |time, kind, (id, transfer, of), status, length| {
        (Some(time), id, kind, transfer, of, status, length)
    };
    match frames {
        [a, b, c, d] => {
            let first = said(3_575_914_555_000, EventKind::Submission, read, 0, 4);
            let second = said(3_575_914_560_000, EventKind::Completion, read, 0, 4);
            // EINPROGRESS, 115.
            let third = said(
                4_128_379_752_000,
                EventKind::Submission,
                sent,
                0xffff_ff8d,
                31,
            );
            let fourth = said(4_128_379_808_000, EventKind::Completion, sent, 0, 31);
            says(a, first, Some(GET_STATUS), &[])
                && says(b, second, None, &[1, 5, 0, 0])
                && says(c, third, None, COMMAND)
                && says(d, fourth, None, &[])
        }
        _ => false,
    }
}

#[test]
fn reads_lines(rt: HostRuntime) {
    for cut in 0..=LINES.len() {
        let read = read_cut(rt.alloc(), LINES, cut);
        let (frames, pending) = read.expect(&rt, "a capture");
        assert_eq!(rt; pending, 0);
        assert!(rt; are_those(&frames));
    }
}

#[test]
fn tells_that_data_are_cut(rt: HostRuntime) {
    let line: &[u8] =
        b"ffff88003a0b1c00 7 C Ii:2:127:15 0:8 64 = 00010203 04050607 08090a0b 0c0d0e0f 10111213 14151617 18191a1b 1c1d1e1f\n";
    let (frames, _) = read_cut(rt.alloc(), line, 9).expect(&rt, "a capture");
    assert_eq!(rt; frames.len(), 1);
    for frame in &frames {
        assert!(rt; frame.is_cut());
        assert_eq!(rt; (frame.captured, frame.original), (96, 128));
        let event = Event::of_frame(frame).expect(&rt, "an event");
        assert_eq!(rt; (event.id, event.length), (0xffff_8800_3a0b_1c00, 64));
        assert!(rt; event.transfer == TransferType::Interrupt);
        assert!(rt; event.data.len() == 32 && event.data.last() == Some(&0x1f));
    }
}
