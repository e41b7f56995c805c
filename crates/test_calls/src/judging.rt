//! What a device under test may answer.
use usb_device::{Difference, OpenTransfer, judge};
use usb_fields::{Answer, Setup, Stage, Toggle};

/// What is judged of an answer to IN, where packets have at most 8 bytes.
fn judged(
    transfer: &mut OpenTransfer,
    free: bool,
    request: Setup,
    came: Answer<'_>,
    has: Answer<'_>,
) -> Option<Difference> {
    judge(transfer, free, request, 8, Stage::In, came, has)
}

/// Of a device's status bit 0, self-powered, may be another than that of its descriptors, and no other bit (USB 2.0, 9.4.5).
#[test]
fn of_a_status_self_powered_is_free(rt: HostRuntime) {
    let mut transfer = OpenTransfer::new();
    let request = Setup::from_bytes(&[0x80, 0, 0, 0, 0, 0, 2, 0]);
    let has = Answer::Data(Toggle::Data1, &[0, 0]);
    let self_powered = Answer::Data(Toggle::Data1, &[1, 0]);
    assert_eq!(rt;
        judged(&mut transfer, false, request, self_powered, has),
        None
    );
    for others in [
        [2, 0],
        [4, 0],
        [8, 0],
        [16, 0],
        [32, 0],
        [64, 0],
        [128, 0],
        [0, 1],
        [0, 128],
    ] {
        let came = Answer::Data(Toggle::Data1, &others);
        assert_eq!(rt;
            judged(&mut transfer, false, request, came, has),
            Some(Difference::Bytes)
        );
    }
    // Nor is bit 0 of an endpoint's, its halt.
    let request = Setup::from_bytes(&[0x82, 0, 0, 0, 0x81, 0, 2, 0]);
    assert_eq!(rt;
        judged(&mut transfer, false, request, self_powered, has),
        Some(Difference::Bytes)
    );
}

/// A vendor's read of 10 bytes that the known device stalls: its bytes are free, and toggles and lengths are those of chapter 8
/// (USB 2.0, 8.5.3 and 8.6.4).
#[test]
fn an_open_read_keeps_its_toggles_and_lengths(rt: HostRuntime) {
    let mut transfer = OpenTransfer::new();
    let request = Setup::from_bytes(&[0xc0, 1, 0, 0, 0, 0, 10, 0]);
    for (toggle, bytes, is_acknowledged, wanted) in [
        (Toggle::Data0, b"8 bytes.", false, Some(Difference::Toggle)),
        (Toggle::Data1, b"8 bytes.", false, None),
        // Not acknowledged, it comes again.
        (Toggle::Data1, b"8 others", true, None),
        (Toggle::Data1, b"8 bytes.", false, Some(Difference::Toggle)),
        // wLength leaves two bytes.
        (Toggle::Data0, b"8 bytes.", false, Some(Difference::Bytes)),
    ] {
        let came = Answer::Data(toggle, bytes);
        assert_eq!(rt;
            judged(&mut transfer, true, request, came, Answer::Stall),
            wanted
        );
        if is_acknowledged {
            transfer.acked();
        }
    }
}
