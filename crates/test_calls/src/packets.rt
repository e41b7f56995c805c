//! Packets that borrow their bytes, and a check value of their CRC that no packet has.
use usb_fields::{Answer, Stage, Toggle, Transaction, laws};
use usb_wire::crc5;

/// Packets are compared by what they carry, wherever it lies.
#[test]
fn compares_packets(rt: HostRuntime) {
    let (here, there) = ([1, 2, 3], [1, 2, 3]);
    let data = Answer::Data(Toggle::Data1, &here);
    assert!(rt; laws::equal_answers_say_the_same(&data, &Answer::Data(Toggle::Data1, &there)));
    assert!(rt; data != Answer::Data(Toggle::Data1.flip(), &there));
    let out = |bytes| Transaction {
        address: 1,
        stage: Stage::Out(Toggle::Data0, bytes),
    };
    assert!(rt; laws::equal_transactions_send_the_same(&out(&here), &out(&there)));
    assert!(rt; out(&here) != out(&there[1..]));
}

/// CRC-5/USB of the nine digits, which have more bits than `crc5` takes: it goes on where the bits that follow are changed by
/// the CRC of those before.
#[test]
fn has_the_check_value_of_the_short_crc(rt: HostRuntime) {
    let mut crc = 0;
    for three_digits in [0x33_3231, 0x36_3534, 0x39_3837] {
        crc = crc5(three_digits ^ u32::from(crc), 24);
    }
    assert_eq!(rt; crc, 0x19);
}
