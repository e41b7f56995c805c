//! The outcomes of the three programs: a driver, a firmware and a test bench, each of which uses one crate.
use crate::{bench, driver, firmware};
use anyhow::Result;
use nozzlegorse::bus::{Answer, Fate, Stage, Toggle, Transaction};
use nozzlegorse::descriptors::Speed;
use nozzlegorse::device::{Description, Device, DeviceStage};
use nozzlegorse::files::read_file;
use std::alloc::{AllocError, Global};

/// QEMU's mouse: `testdata/files/qemu-usb-mouse.file`.
pub(crate) const MOUSE: [u8; 202] = [
    0x12, 1, 0, 2, 0, 0, 0, 0x40, 0x27, 6, 1, 0, 0, 0, 1, 2, 9, 1, 9, 2, 0x22, 0, 1, 1, 6, 0xa0,
    0x32, 9, 4, 0, 0, 1, 3, 1, 2, 0, 9, 0x21, 1, 0, 0, 1, 0x22, 0x34, 0, 7, 5, 0x81, 3, 4, 0, 7,
    0x0a, 6, 0, 1, 0, 0, 0, 8, 1, 0, 9, 7, 0x22, 0, 1, 1, 6, 0xa0, 0x32, 9, 4, 0, 0, 1, 3, 1, 2, 0,
    9, 0x21, 1, 0, 0, 1, 0x22, 0x34, 0, 7, 5, 0x81, 3, 4, 0, 0x0a, 4, 3, 9, 4, 0x0a, 3, 0x51, 0,
    0x45, 0, 0x4d, 0, 0x55, 0, 0x1e, 3, 0x51, 0, 0x45, 0, 0x4d, 0, 0x55, 0, 0x20, 0, 0x55, 0, 0x53,
    0, 0x42, 0, 0x20, 0, 0x4d, 0, 0x6f, 0, 0x75, 0, 0x73, 0, 0x65, 0, 0x14, 3, 0x48, 0, 0x49, 0,
    0x44, 0, 0x20, 0, 0x4d, 0, 0x6f, 0, 0x75, 0, 0x73, 0, 0x65, 0, 0x2a, 3, 0x38, 0, 0x39, 0, 0x31,
    0, 0x32, 0, 0x36, 0, 0x2d, 0, 0x30, 0, 0x30, 0, 0x30, 0, 0x30, 0, 0x3a, 0, 0x30, 0, 0x30, 0,
    0x3a, 0, 0x30, 0, 0x34, 0, 0x2e, 0, 0x30, 0, 0x2d, 0, 0x32, 0,
];

/// The message of a failure for people, or nothing.
fn message<T>(alloc: Global, outcome: &Result<T>) -> std::result::Result<String, AllocError> {
    match outcome {
        Ok(_) => Ok(String::new(alloc)),
        Err(error) => format!(in alloc; "{error}"),
    }
}

/// The set of the mouse, in pieces, and without its last byte.
#[test]
fn a_driver_picks_an_endpoint(rt: HostRuntime) -> Result<()> {
    let (header, rest) = MOUSE[18..52].split_at(9);
    assert_eq!(rt; driver::mouse_of(rt.alloc(), &[header, rest])?, (0, 1, 7));
    let cut = driver::mouse_of(rt.alloc(), &[header, &rest[..24]]);
    assert_eq!(rt;
        message(rt.alloc(), &cut)?.as_str(),
        "the bytes end before the set does at 33"
    );
    Ok(())
}

/// GET_DESCRIPTOR of the report descriptor, and SET_IDLE, which is not refused.
#[test]
fn a_firmware_answers(rt: HostRuntime) -> Result<()> {
    let file = read_file(rt.alloc(), &MOUSE)?;
    let description = Description::new(rt.alloc(), file, Speed::Full)?;
    let mut mouse = Device::new(&description);
    let report = Stage::Setup([0x81, 6, 0, 0x22, 0, 0, 52, 0]);
    let idle = Stage::Setup([0x21, 10, 0, 0, 0, 0, 0, 0]);
    for (stage, answer) in [
        (report, Answer::Ack),
        (
            Stage::In,
            Answer::Data(Toggle::Data1, &firmware::REPORT_DESCRIPTOR),
        ),
        (idle, Answer::Ack),
        (Stage::In, Answer::Data(Toggle::Data1, &[])),
    ] {
        let token = Transaction { address: 0, stage };
        assert_eq!(rt; firmware::on_token(&mut mouse, &token, true), answer);
    }
    firmware::on_ack(&mut mouse);
    assert_eq!(rt; mouse.stage(), DeviceStage::Idle);
    Ok(())
}

/// As the README has it: the lost ACK costs an attempt. With each first transaction lost there is no answer.
#[test]
fn a_bench_tells_what_a_loss_costs(rt: HostRuntime) -> Result<()> {
    let lost_ack = [
        Fate::Pass,
        Fate::Pass,
        Fate::Pass,
        Fate::Pass,
        Fate::LostAck,
    ];
    let cost = bench::report(rt.alloc(), &MOUSE, &lost_ack)?;
    assert_eq!(rt; cost.as_str(), "2 attempts, 48 transactions");
    let trouble = bench::report(rt.alloc(), &MOUSE, &[Fate::LostDown; 9]);
    assert_eq!(rt;
        message(rt.alloc(), &trouble)?.as_str(),
        "no answer, three times in a row, at step first"
    );
    Ok(())
}
