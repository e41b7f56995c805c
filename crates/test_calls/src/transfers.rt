//! The limits of an enumeration, and one control transfer, answer by answer.
use usb_fields::{Answer, Setup, Stage, Toggle, Transaction, request, request_type};
use usb_host::{Heard, LimitFault, Limits, Transfer, Why};

/// GET_DESCRIPTOR of the device descriptor, with this wLength.
fn device_request(length: u16) -> Setup {
    Setup {
        request_type: request_type::IN,
        request: request::GET_DESCRIPTOR,
        value: 0x0100,
        index: 0,
        length,
    }
}

#[test]
fn refuses_limits_out_of_range(rt: HostRuntime) {
    for (address, attempts, fault) in [
        (0, 3, LimitFault::Address),
        (128, 3, LimitFault::Address),
        (0, 0, LimitFault::Address),
        (1, 0, LimitFault::Attempts),
        (1, 9, LimitFault::Attempts),
    ] {
        assert_eq!(rt; Limits::new(address, 16, attempts), Err(fault));
    }
    assert!(rt; Limits::new(127, 65535, 8).is_ok());
}

/// 18 bytes at packet size 8, the first packet twice: the second copy is a duplicate.
#[test]
fn reads_a_descriptor(rt: HostRuntime) {
    let mut transfer = Transfer::new(5, 8, 16, device_request(18));
    let setup = [0x80, 6, 0, 1, 0, 0, 18, 0];
    assert_eq!(rt;
        transfer.next(),
        Some(Transaction {
            address: 5,
            stage: Stage::Setup(setup)
        })
    );
    assert_eq!(rt; transfer.take(Answer::Ack), Heard::Again);
    assert_eq!(rt;
        transfer.next(),
        Some(Transaction {
            address: 5,
            stage: Stage::In
        })
    );

    let first = [18, 1, 0x10, 1, 0, 0, 0, 8];
    let second = [0x34, 0x12, 0x78, 0x56, 0, 1, 0, 0];
    assert_eq!(rt;
        transfer.take(Answer::Data(Toggle::Data1, &first)),
        Heard::Bytes(&first)
    );
    assert_eq!(rt;
        transfer.take(Answer::Data(Toggle::Data1, &first)),
        Heard::Again
    );
    assert_eq!(rt; transfer.take(Answer::Nak), Heard::Again);
    assert_eq!(rt;
        transfer.take(Answer::Data(Toggle::Data0, &second)),
        Heard::Bytes(&second)
    );
    assert_eq!(rt;
        transfer.take(Answer::Data(Toggle::Data1, &[0, 1])),
        Heard::Bytes(&[0, 1])
    );

    let status = Stage::Out(Toggle::Data1, &[]);
    assert_eq!(rt;
        transfer.next(),
        Some(Transaction {
            address: 5,
            stage: status
        })
    );
    assert_eq!(rt; transfer.take(Answer::Ack), Heard::Complete);
    assert_eq!(rt; transfer.next(), None);
    assert_eq!(rt; transfer.take(Answer::Stall), Heard::Complete);
}

/// Three strikes with a NAK between them, and the limit of NAKs with a strike between them.
#[test]
fn counts_strikes_and_naks_apart(rt: HostRuntime) {
    let mut transfer = Transfer::new(0, 8, 2, device_request(8));
    transfer.take(Answer::Ack);
    for answer in [Answer::Silence, Answer::Nak, Answer::Silence, Answer::Nak] {
        assert_eq!(rt; transfer.take(answer), Heard::Again);
    }
    assert_eq!(rt;
        transfer.take(Answer::Silence),
        Heard::Failed(Why::NoAnswer)
    );

    let mut transfer = Transfer::new(0, 8, 1, device_request(8));
    transfer.take(Answer::Ack);
    for answer in [Answer::Nak, Answer::Silence] {
        assert_eq!(rt; transfer.take(answer), Heard::Again);
    }
    assert_eq!(rt; transfer.take(Answer::Nak), Heard::Failed(Why::Busy));
    assert_eq!(rt; transfer.take(Answer::Ack), Heard::Failed(Why::Busy));
}

/// A transfer has no data for the device: its data packet is empty, and an ACK of that is none of a device's.
#[test]
fn a_transfer_sends_no_data(rt: HostRuntime) {
    // SET_LINE_CODING.
    let request = Setup::from_bytes(&[0x21, 0x20, 0, 0, 0, 0, 7, 0]);
    let mut transfer = Transfer::new(5, 8, 16, request);
    transfer.take(Answer::Ack);
    let empty = Transaction {
        address: 5,
        stage: Stage::Out(Toggle::Data1, &[]),
    };
    for answer in [Answer::Nak, Answer::Silence] {
        assert_eq!(rt; transfer.next(), Some(empty));
        assert_eq!(rt; transfer.take(answer), Heard::Again);
    }
    assert_eq!(rt; transfer.next(), Some(empty));
    assert_eq!(rt; transfer.take(Answer::Ack), Heard::Failed(Why::Unexpected));
    assert_eq!(rt; transfer.kept(), 0);
    assert_eq!(rt;
        transfer.take(Answer::Data(Toggle::Data1, &[])),
        Heard::Failed(Why::Unexpected)
    );
}
