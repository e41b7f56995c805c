//! Files whose bytes are typed from the format's document, each in two pieces, cut at every byte.
mod pcapng;
mod text;

use std::alloc::Global;
use usb_capture::{
    BusTransactions, ByteOrder, CaptureFault, CaptureReader, Event, EventFault, EventKind, Frame,
    MOST_BYTES, PacketFault, RecordedPacket, packet_of,
};
use usb_fields::{Sequence, Setup, after, prefix};
use usb_set::TransferType;
use usb_wire::{AddressFields, Packet, TokenKind};

/// Two records of link type 220: one of three bytes, and an earlier one, of which the file has no byte.
const LITTLE: &[u8] = &[
    0xd4, 0xc3, 0xb2, 0xa1, 2, 0, 4, 0, 0, 0, 0, 0, 0, 0, 0, 0, 0, 0, 4, 0, 220, 0, 0, 0, //
    3, 0, 0, 0, 7, 0, 0, 0, 3, 0, 0, 0, 3, 0, 0, 0, 0xaa, 0xbb, 0xcc, //
    2, 0, 0, 0, 0x3f, 0x42, 0x0f, 0, 0, 0, 0, 0, 0, 0, 1, 0,
];

/// The same in the other byte order, with nanoseconds in place of microseconds.
const BIG: &[u8] = &[
    0xa1, 0xb2, 0x3c, 0x4d, 0, 2, 0, 4, 0, 0, 0, 0, 0, 0, 0, 0, 0, 4, 0, 0, 0, 0, 0, 220, //
    0, 0, 0, 3, 0, 0, 0, 7, 0, 0, 0, 3, 0, 0, 0, 3, 0xaa, 0xbb, 0xcc, //
    0, 0, 0, 2, 0, 0x0f, 0x42, 0x3f, 0, 0, 0, 0, 0, 1, 0, 0,
];

/// Feeds a piece until it is used up. The frames that are whole now go to the end.
fn feed_all(
    reader: &mut CaptureReader,
    piece: &[u8],
    frames: &mut Vec<Frame>,
) -> Result<(), CaptureFault> {
    let mut rest = piece;
    for _ in 0..piece.len() {
        if rest.is_empty() {
            break;
        }
        let step = reader.feed(rest)?;
        rest = after(rest, step.used);
        if let Some(frame) = step.frame {
            let Ok(()) = frames.push(frame) else {
                return Err(CaptureFault::Memory);
            };
        }
    }
    Ok(())
}

/// The frames of bytes that are cut at this place, and how many bytes are left of a part that isn't whole.
pub(crate) fn read_cut(
    alloc: Global,
    bytes: &[u8],
    cut: usize,
) -> Result<(Vec<Frame>, u64), CaptureFault> {
    let mut reader = CaptureReader::new(alloc);
    let mut frames = Vec::new(alloc);
    feed_all(&mut reader, prefix(bytes, cut), &mut frames)?;
    feed_all(&mut reader, after(bytes, cut), &mut frames)?;
    let pending = reader.pending();
    Ok((frames, pending))
}

/// Whether a frame has these numbers and bytes.
fn is(frame: &Frame, time: u64, captured: u32, original: u32, bytes: &[u8]) -> bool {
    frame.time == Some(time)
        && frame.link == 220
        && frame.captured == captured
        && frame.original == original
        && frame.is_cut() == (captured < original)
        && frame.bytes.as_slice() == bytes
}

/// Whether it is the two records, at these times.
fn are_both(frames: &[Frame], first: u64, second: u64) -> bool {
    match frames {
        [a, b] => { is(a, first, 3, 3, &[0xaa, 0xbb, 0xcc]) && is(b, second, 0, 65_536, &[]) }
        _ => false,
    }
}

#[test]
fn reads_two_records_in_either_order(rt: HostRuntime) {
    for cut in 0..=LITTLE.len() {
        let read = read_cut(rt.alloc(), LITTLE, cut);
        let (frames, pending) = read.expect(&rt, "a capture");
        assert_eq!(rt; pending, 0);
        assert!(rt; are_both(&frames, 3_000_007_000, 2_999_999_000));
        let read = read_cut(rt.alloc(), BIG, cut);
        let (frames, pending) = read.expect(&rt, "a capture");
        assert_eq!(rt; pending, 0);
        assert!(rt; are_both(&frames, 3_000_000_007, 2_000_999_999));
    }
}

#[test]
fn passes_over_the_end_of_a_long_record(rt: HostRuntime) {
    let alloc = rt.alloc();
    let mut reader = CaptureReader::new(alloc);
    let mut frames = Vec::new(alloc);
    let header = [2, 0, 0, 0, 0, 0, 0, 0, 0xa0, 0x86, 1, 0, 0xa0, 0x86, 1, 0];
    feed_all(&mut reader, prefix(LITTLE, 24), &mut frames).expect(&rt, "a file header");
    feed_all(&mut reader, &header, &mut frames).expect(&rt, "a record header");
    for _ in 0..100 {
        assert_eq!(rt; frames.len(), 0);
        feed_all(&mut reader, &[0x5a; 1000], &mut frames).expect(&rt, "its data");
    }
    assert!(rt; matches!(frames.as_slice(), [frame] if frame.bytes.len() == MOST_BYTES));
    assert_eq!(rt; reader.pending(), 0);
}

/// GET_DESCRIPTOR of the device, given to the host controller: struct usbmon_packet of a little-endian host.
const SUBMISSION: &[u8] = &[
    0x00, 0x1c, 0x0b, 0x3a, 0x00, 0x88, 0xff, 0xff, b'S', 2, 0x80, 5, 1, 0, 0, b'<', //
    3, 0, 0, 0, 0, 0, 0, 0, 7, 0, 0, 0, 0x8d, 0xff, 0xff, 0xff, //
    18, 0, 0, 0, 0, 0, 0, 0, 0x80, 6, 0, 1, 0, 0, 18, 0, //
    0, 0, 0, 0, 0, 0, 0, 0, 0, 2, 0, 0, 0, 0, 0, 0,
];

/// A completion with two bytes of three, of a big-endian host, with the header of 48 bytes.
const COMPLETION: &[u8] = &[
    0xff, 0xff, 0x88, 0x00, 0x3a, 0x0b, 0x1c, 0x00, b'C', 3, 0x81, 6, 0, 2, b'-', 0, //
    0, 0, 0, 0, 0, 0, 0, 3, 0, 0, 0, 7, 0, 0, 0, 0, //
    0, 0, 0, 3, 0, 0, 0, 2, 0, 0, 0, 0, 0, 0, 0, 0, //
    0xaa, 0xbb,
];

/// The setup stage of GET_DESCRIPTOR, as USBPcap has it.
const SETUP_STAGE: &[u8] = &[
    28, 0, 0x10, 0x50, 0x4d, 0x0c, 0x86, 0xe5, 0xff, 0xff, 0, 0, 0, 0, 0x0b, 0, //
    0, 2, 0, 5, 0, 0x80, 2, 8, 0, 0, 0, 0, //
    0x80, 6, 0, 1, 0, 0, 18, 0,
];

/// GET_DESCRIPTOR of the device, 18 bytes.
const GET_DESCRIPTOR: Setup = Setup {
    request_type: 0x80,
    request: 6,
    value: 0x0100,
    index: 0,
    length: 18,
};

/// A frame with these bytes.
fn frame_with(
    alloc: Global,
    link: u16,
    order: ByteOrder,
    bytes: &[u8],
) -> Result<Frame, CaptureFault> {
    let bytes = Sequence::from_vec(Vec::from_slice(alloc, bytes)?);
    Ok(Frame {
        time: None,
        link,
        order,
        captured: 0,
        original: 0,
        bytes,
    })
}

#[test]
fn reads_a_submission_of_usbmon(rt: HostRuntime) {
    let frame = frame_with(rt.alloc(), 220, ByteOrder::Little, SUBMISSION).expect(&rt, "memory");
    let event = Event::of_frame(&frame).expect(&rt, "an event");
    assert_eq!(rt; event.id, 0xffff_8800_3a0b_1c00);
    assert!(rt; event.kind == EventKind::Submission && event.transfer == TransferType::Control);
    assert!(rt; (event.bus, event.device, event.endpoint) == (1, 5, 0x80));
    assert!(rt; event.setup == Some(GET_DESCRIPTOR));
    // EINPROGRESS, 115.
    assert!(rt; (event.status, event.length) == (0xffff_ff8d, 18));
    assert!(rt; event.data.is_empty());
}

#[test]
fn reads_a_completion_of_usbmon(rt: HostRuntime) {
    let frame = frame_with(rt.alloc(), 189, ByteOrder::Big, COMPLETION).expect(&rt, "memory");
    let event = Event::of_frame(&frame).expect(&rt, "an event");
    assert_eq!(rt; event.id, 0xffff_8800_3a0b_1c00);
    assert!(rt; event.kind == EventKind::Completion && event.transfer == TransferType::Bulk);
    assert!(rt; (event.bus, event.device, event.endpoint) == (2, 6, 0x81));
    assert!(rt; event.setup == None);
    assert!(rt; (event.status, event.length) == (0, 3));
    assert!(rt; event.data == [0xaa, 0xbb].as_slice());
}

#[test]
fn reads_a_setup_stage_of_usbpcap(rt: HostRuntime) {
    let frame = frame_with(rt.alloc(), 249, ByteOrder::Big, SETUP_STAGE).expect(&rt, "memory");
    let event = Event::of_frame(&frame).expect(&rt, "an event");
    assert_eq!(rt; event.id, 0xffff_e586_0c4d_5010);
    assert!(rt; event.kind == EventKind::Submission && event.transfer == TransferType::Control);
    assert!(rt; (event.bus, event.device, event.endpoint) == (2, 5, 0x80));
    assert!(rt; event.setup == Some(GET_DESCRIPTOR));
    assert!(rt; (event.status, event.length) == (0, 0));
    assert!(rt; event.data.is_empty());
}

#[test]
fn says_why_a_frame_tells_nothing(rt: HostRuntime) {
    let (alloc, order) = (rt.alloc(), ByteOrder::Little);
    let short = frame_with(alloc, 220, order, prefix(SUBMISSION, 63)).expect(&rt, "memory");
    assert!(rt; matches!(Event::of_frame(&short), Err(EventFault::Short)));
    assert!(rt; matches!(packet_of(&short), Err(PacketFault::Link)));
    let other = frame_with(alloc, 1, order, SUBMISSION).expect(&rt, "memory");
    assert!(rt; matches!(Event::of_frame(&other), Err(EventFault::Link)));
    let mut cut = frame_with(alloc, 288, order, &[0xd2]).expect(&rt, "memory");
    cut.original = 1;
    assert!(rt; matches!(packet_of(&cut), Err(PacketFault::Cut)));
}

/// A token to an endpoint of device 5.
fn token(kind: TokenKind, endpoint: u8) -> Packet<'static> {
    let address = 5;
    Packet::Token(kind, AddressFields { address, endpoint })
}

#[test]
fn counts_tokens_to_other_endpoints(rt: HostRuntime) {
    let packets = [
        token(TokenKind::In, 1),
        Packet::Split(0),
        token(TokenKind::Out, 0),
        token(TokenKind::In, 0),
    ];
    let mut bus = BusTransactions::new(rt.alloc());
    let mut number = 0;
    for packet in packets {
        let recorded = RecordedPacket {
            number,
            time: Some(number),
            packet: Ok(packet),
        };
        assert!(rt; bus.take(&recorded).expect(&rt, "memory").is_none());
        number = number.saturating_add(1);
    }
    assert_eq!(rt; bus.others(), 1);
    let last = bus.finish().expect(&rt, "a transaction");
    assert!(rt; (last.number, last.time, last.to.address, last.to.endpoint) == (3, Some(3), 5, 0));
    assert!(rt; last.data.is_none() && last.handshake.is_none());
}
