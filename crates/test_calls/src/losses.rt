//! The firmware and a controller, read and written to under all lists of six fates: each request is right, or failed for a loss.
use crate::controller::Controller;
use crate::lossy_bus::{Course, End, REPORT, Request, make};
use anyhow::{Result, ensure};
use nozzlegorse::bus::{Fate, Setup};
use nozzlegorse::descriptors::Speed;
use nozzlegorse::device::{Description, Device};
use nozzlegorse::files::read_file;
use nozzlegorse::host::{Transfer, Why, Write};
use std::alloc::Global;
use usb_fields::Direction;

/// QEMU's hub, with packets of 8 bytes: `testdata/files/qemu-usb-hub.file`.
const HUB: [u8; 127] = [
    0x12, 1, 0x10, 1, 9, 0, 0, 8, 9, 4, 0xaa, 0x55, 1, 1, 1, 2, 3, 1, 9, 2, 0x19, 0, 1, 1, 0, 0xe0,
    0, 9, 4, 0, 0, 1, 9, 0, 0, 0, 7, 5, 0x81, 3, 2, 0, 0xff, 4, 3, 9, 4, 0x0a, 3, 0x51, 0, 0x45, 0,
    0x4d, 0, 0x55, 0, 0x1a, 3, 0x51, 0, 0x45, 0, 0x4d, 0, 0x55, 0, 0x20, 0, 0x55, 0, 0x53, 0, 0x42,
    0, 0x20, 0, 0x48, 0, 0x75, 0, 0x62, 0, 0x2c, 3, 0x33, 0, 0x31, 0, 0x34, 0, 0x31, 0, 0x35, 0,
    0x39, 0, 0x2d, 0, 0x30, 0, 0x30, 0, 0x30, 0, 0x30, 0, 0x3a, 0, 0x30, 0, 0x30, 0, 0x3a, 0, 0x30,
    0, 0x33, 0, 0x2e, 0, 0x30, 0, 0x2d, 0, 0x32, 0,
];

const FATES: [Fate; 5] = [
    Fate::Pass,
    Fate::Busy,
    Fate::LostDown,
    Fate::LostUp,
    Fate::LostAck,
];

/// How many lists of six fates there are.
const LISTS: u16 = 15_625;

/// The most transactions of a request: six, and one for each fate.
const MOST: u128 = 12;

/// The list of this number.
fn fates_of(number: u16) -> [Fate; 6] {
    let mut fates = [Fate::Pass; 6];
    let mut rest = number;
    for fate in &mut fates {
        *fate = FATES[usize::from(rest % 5)];
        rest /= 5;
    }
    fates
}

pub(crate) fn hub(alloc: Global) -> Result<Description> {
    let file = read_file(alloc, &HUB)?;
    Ok(Description::new(alloc, file, Speed::Full)?)
}

/// Whether a request brought these bytes, all of them once, or failed for three losses.
fn is_right(course: &Course, bytes: &[u8], arrivals: u8, fates: &[Fate]) -> bool {
    let losses = fates
        .iter()
        .filter(|fate| !matches!(fate, Fate::Pass | Fate::Busy))
        .count();
    match course.outcome {
        Some(Ok(())) => course.bytes.as_slice() == bytes && course.arrivals == arrivals,
        Some(Err(Why::NoAnswer)) => losses >= 3 && course.arrivals <= arrivals,
        _ => false,
    }
}

/// Makes a request of an end that is new, under the list of fates of this number, and once more without a loss.
fn is_made(
    alloc: Global,
    mut end: End<'_>,
    request: Request,
    bytes: &[u8],
    number: u16,
) -> Result<()> {
    let fates = fates_of(number);
    let arrivals = u8::from(matches!(request, Request::Write(_)));
    let course = make(alloc, &mut end, request, &fates, MOST)?;
    ensure!(
        is_right(&course, bytes, arrivals, &fates),
        "under {fates:?}"
    );
    let again = make(alloc, &mut end, request, &[], MOST)?;
    ensure!(is_right(&again, bytes, arrivals, &[]), "after {fates:?}");
    Ok(())
}

/// The read of the hub's set.
fn reading() -> Request {
    let request = Setup::from_bytes(&[0x80, 6, 0, 2, 0, 0, 25, 0]);
    Request::Read(Transfer::new(0, 8, 16, request))
}

/// SET_REPORT, with its data.
fn writing() -> Result<Request> {
    let request = Setup::from_bytes(&[0x21, 9, 0, 2, 0, 0, 20, 0]);
    ensure!(
        request.length > 0 && request.direction() == Direction::Out,
        "a write"
    );
    Ok(Request::Write(Write::new(0, 8, 16, request)))
}

#[test]
fn a_firmware_is_read(rt: HostRuntime) -> Result<()> {
    let description = hub(rt.alloc())?;
    for number in 0..LISTS {
        let firmware = End::Firmware(Device::new(&description));
        is_made(rt.alloc(), firmware, reading(), &HUB[18..43], number)?;
    }
    Ok(())
}

#[test]
fn a_controller_is_read(rt: HostRuntime) -> Result<()> {
    let description = hub(rt.alloc())?;
    for number in 0..LISTS {
        let controller = End::Controller(Controller::new(&description));
        is_made(rt.alloc(), controller, reading(), &HUB[18..43], number)?;
    }
    Ok(())
}

#[test]
fn a_firmware_is_written_to(rt: HostRuntime) -> Result<()> {
    let description = hub(rt.alloc())?;
    for number in 0..LISTS {
        let firmware = End::Firmware(Device::new(&description));
        is_made(rt.alloc(), firmware, writing()?, REPORT, number)?;
    }
    Ok(())
}

#[test]
fn a_controller_is_written_to(rt: HostRuntime) -> Result<()> {
    let description = hub(rt.alloc())?;
    for number in 0..LISTS {
        let controller = End::Controller(Controller::new(&description));
        is_made(rt.alloc(), controller, writing()?, REPORT, number)?;
    }
    Ok(())
}
