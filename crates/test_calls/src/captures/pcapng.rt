//! Files of pcapng whose bytes are typed from the format's document, fed in two pieces, cut at every byte.
use crate::captures::read_cut;
use usb_capture::{Clock, Frame};

/// A little-endian section: two interfaces, the second of them with `if_tsresol` 2^-10 and `if_tsoffset` -1; a packet of
/// each type, and a block of an unknown one. Then a big-endian section with an interface and a packet.
const SECTIONS: &[u8] = &[
    0x0a, 0x0d, 0x0d, 0x0a, 28, 0, 0, 0, 0x4d, 0x3c, 0x2b, 0x1a, 1, 0, 0, 0, //
    0xff, 0xff, 0xff, 0xff, 0xff, 0xff, 0xff, 0xff, 28, 0, 0, 0, //
    1, 0, 0, 0, 20, 0, 0, 0, 220, 0, 0, 0, 2, 0, 0, 0, 20, 0, 0, 0, //
    1, 0, 0, 0, 48, 0, 0, 0, 249, 0, 0, 0, 0, 0, 0, 0, //
    9, 0, 1, 0, 0x8a, 0, 0, 0, 14, 0, 8, 0, 0xff, 0xff, 0xff, 0xff, 0xff, 0xff, 0xff, 0xff, //
    0, 0, 0, 0, 5, 0, 5, 0, 48, 0, 0, 0, //
    6, 0, 0, 0, 36, 0, 0, 0, 0, 0, 0, 0, 1, 0, 0, 0, 2, 0, 0, 0, 3, 0, 0, 0, 9, 0, 0, 0, //
    0xaa, 0xbb, 0xcc, 0, 36, 0, 0, 0, //
    1, 0, 0, 0x80, 12, 0, 0, 0, 12, 0, 0, 0, //
    3, 0, 0, 0, 20, 0, 0, 0, 5, 0, 0, 0, 0xdd, 0xee, 0, 0, 20, 0, 0, 0, //
    2, 0, 0, 0, 32, 0, 0, 0, 1, 0, 7, 0, 0, 0, 0, 0, 1, 6, 0, 0, 0, 0, 0, 0, 0, 0, 0, 0, 32, 0, 0,
    0, //
    0x0a, 0x0d, 0x0d, 0x0a, 0, 0, 0, 28, 0x1a, 0x2b, 0x3c, 0x4d, 0, 1, 0, 0, //
    0xff, 0xff, 0xff, 0xff, 0xff, 0xff, 0xff, 0xff, 0, 0, 0, 28, //
    0, 0, 0, 1, 0, 0, 0, 20, 1, 32, 0, 0, 0, 0, 0, 0, 0, 0, 0, 20, //
    0, 0, 0, 6, 0, 0, 0, 36, 0, 0, 0, 0, 0, 0, 0, 0, 0, 0, 0, 5, 0, 0, 0, 1, 0, 0, 0, 1, //
    0xd2, 0, 0, 0, 0, 0, 0, 36,
];

/// Whether a frame has this time, this link type, these lengths and these bytes.
fn is(frame: &Frame, time: Option<u64>, link: u16, lengths: (u32, u32), bytes: &[u8]) -> bool {
    frame.time == time
        && frame.link == link
        && (frame.captured, frame.original) == lengths
        && frame.bytes.as_slice() == bytes
}

/// Whether these are the frames of the sections.
fn are_those(frames: &[Frame]) -> bool {
    match frames {
        [a, b, c, d] => {
            is(a, Some(4_294_967_298_000), 220, (3, 9), &[0xaa, 0xbb, 0xcc])
                && is(b, None, 220, (2, 5), &[0xdd, 0xee])
                // 1537 of 1024 a second, a second earlier.
                && is(c, Some(500_976_562), 249, (0, 0), &[])
                && is(d, Some(5_000), 288, (1, 1), &[0xd2])
        }
        _ => false,
    }
}

#[test]
fn reads_two_sections(rt: HostRuntime) {
    for cut in 0..=SECTIONS.len() {
        let read = read_cut(rt.alloc(), SECTIONS, cut);
        let (frames, pending) = read.expect(&rt, "a capture");
        assert_eq!(rt; pending, 0);
        assert!(rt; are_those(&frames));
    }
}

#[test]
fn counts_time_by_resolution_and_offset(rt: HostRuntime) {
    // The resolution, the offset, how many units there were, and nanoseconds or none.
    let times = [
        (0, 0, 3, Some(3_000_000_000)),
        (9, 0, 7, Some(7)),
        (10, 0, 19, Some(1)),
        (127, 0, u64::MAX, Some(0)),
        (0x80, 0, 2, Some(2_000_000_000)),
        (0x81, 2, 1, Some(2_500_000_000)),
        (0xff, 0, u64::MAX, Some(0)),
        (0, u64::MAX, 1, Some(0)),
        (0, u64::MAX, 0, None),
        (0, 0, 18_446_744_073, Some(18_446_744_073_000_000_000)),
        (0, 0, 18_446_744_074, None),
        (9, 1 << 63, u64::MAX, None),
        (0x8a, 0, 1_740_800_000_511, Some(1_700_000_000_499_023_437)),
        (
            0x94,
            u64::MAX,
            1_782_579_200_000_001,
            Some(1_699_999_999_000_000_953),
        ),
        (
            10,
            0,
            17_000_000_000_123_456_789,
            Some(1_700_000_000_012_345_678),
        ),
    ];
    for (resolution, offset, units, time) in times {
        let clock = Clock { resolution, offset };
        assert_eq!(rt; clock.time(units), time);
    }
}
