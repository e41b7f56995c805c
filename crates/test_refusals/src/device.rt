//! A description, and a device that is asked request by request.
use crate::answer::{Answer, Call, refused, right};
use crate::samples::EVERYTHING;
use std::alloc::Global;
use usb_device::{Description, DescriptionFault, Device};
use usb_fields::{Setup, Speed, descriptor_type};
use usb_file::{FileWhy, read_file};
use usb_host::{Heard, Reply, Transfer, Why};

/// The requests: SET_ADDRESS, SET_FEATURE of the wakeup, GET_STATUS, SET_FEATURE of a test mode, SET_CONFIGURATION,
/// SET_FEATURE of a halt, GET_STATUS of the endpoint, SET_INTERFACE and GET_STATUS again (USB 2.0, 9.4).
pub(crate) const REQUESTS: [[u8; 8]; 9] = [
    [0x00, 5, 5, 0, 0, 0, 0, 0],
    [0x00, 3, 1, 0, 0, 0, 0, 0],
    [0x80, 0, 0, 0, 0, 0, 2, 0],
    [0x00, 3, 2, 0, 0, 0, 0, 0],
    [0x00, 9, 1, 0, 0, 0, 0, 0],
    [0x02, 3, 0, 0, 0x81, 0, 0, 0],
    [0x82, 0, 0, 0, 0x81, 0, 2, 0],
    [0x01, 11, 0, 0, 0, 0, 0, 0],
    [0x82, 0, 0, 0, 0x81, 0, 2, 0],
];

/// The outcome of a request.
#[derive(Clone, Copy)]
pub(crate) enum Wanted {
    /// It is carried out.
    Done,
    /// It brings these bytes.
    Bytes([u8; 2]),
    /// The device refuses it.
    Refused,
}

impl Wanted {
    /// Whether a reply is this one.
    pub(crate) fn is(&self, reply: &Reply) -> bool {
        match (self, reply) {
            (Wanted::Done, Reply::Done) | (Wanted::Refused, Reply::Refused) => true,
            (Wanted::Bytes(two), Reply::Bytes(bytes)) => bytes.as_slice() == two.as_slice(),
            _ => false,
        }
    }
}

/// The outcomes of these requests.
pub(crate) const WANTED: [Wanted; 9] = [
    Wanted::Done,
    Wanted::Done,
    Wanted::Bytes([2, 0]),
    Wanted::Refused,
    Wanted::Done,
    Wanted::Done,
    Wanted::Bytes([1, 0]),
    Wanted::Done,
    Wanted::Bytes([0, 0]),
];

/// How many transactions these take.
pub(crate) const TRANSACTIONS: u32 = 21;

/// The address that the device is given.
pub(crate) const ADDRESS: u8 = 5;

/// The packet size of the device.
const PACKET: u8 = 64;

/// What came of a file, and of a description of it; where memory is wanting, both are made once more.
pub(crate) fn describe(
    alloc: Global,
    bytes: &[u8],
    speed: Speed,
) -> ([Call; 2], Option<Description>) {
    let (mut calls, mut made) = make(alloc, bytes, speed);
    if made.is_none() {
        made = make(alloc, bytes, speed).1;
        if made.is_none() {
            calls[1].1 = Answer::Wrong;
        }
    }
    (calls, made)
}

/// Makes a file of these bytes, and a description of it.
fn make(alloc: Global, bytes: &[u8], speed: Speed) -> ([Call; 2], Option<Description>) {
    let (read, made, description) = match read_file(alloc, bytes) {
        Ok(file) => match Description::new(alloc, file, speed) {
            Ok(description) => (Answer::Right, Answer::Right, Some(description)),
            Err(fault) => (
                Answer::Right,
                refused(fault == DescriptionFault::Memory),
                None,
            ),
        },
        Err(fault) => (refused(fault.why == FileWhy::Memory), Answer::Right, None),
    };
    (
        [("read_file", read), ("Description::new", made)],
        description,
    )
}

/// Looks for each descriptor of the mouse with a second speed and a string.
pub(crate) fn look_up(description: &Description) -> Answer {
    let mut holds = true;
    for (kind, index, language, from, to) in [
        (descriptor_type::DEVICE, 0u8, 0u16, 0usize, 18usize),
        (descriptor_type::CONFIGURATION, 0, 0, 18, 52),
        (descriptor_type::DEVICE_QUALIFIER, 0, 0, 52, 62),
        (descriptor_type::OTHER_SPEED_CONFIGURATION, 0, 0, 62, 96),
        (descriptor_type::STRING, 0, 0, 96, 100),
        (descriptor_type::STRING, 1, 0x0409, 100, 112),
    ] {
        let found = description.descriptor(kind, index, language);
        holds = holds && found == EVERYTHING.get(from..to);
    }
    right(
        holds
            && description
                .descriptor(descriptor_type::STRING, 2, 0x0409)
                .is_none(),
    )
}

/// Makes the requests of a device by hand, transaction by transaction. Whether their outcomes are right.
pub(crate) fn drive(description: &Description) -> Answer {
    let mut device = Device::new(description);
    let mut transactions = 0u32;
    for (bytes, wanted) in REQUESTS.iter().zip(&WANTED) {
        let address = device.state().address;
        let request = Setup::from_bytes(bytes);
        let mut transfer = Transfer::new(address, PACKET, 16, request);
        let Some(count) = end(&mut device, &mut transfer, *wanted) else {
            return Answer::Wrong;
        };
        transactions = transactions.saturating_add(count);
    }
    right(transactions == TRANSACTIONS && device.state().address == ADDRESS)
}

/// Drives a transfer to its end, which is as it must be. How many transactions that took.
fn end(device: &mut Device<'_>, transfer: &mut Transfer, wanted: Wanted) -> Option<u32> {
    for count in 1..=8u32 {
        let transaction = transfer.next()?;
        let received = transfer.take(device.serve(&transaction, true));
        let goes_on = match (received, wanted) {
            (Heard::Again, _) => true,
            (Heard::Bytes(bytes), Wanted::Bytes(two)) => bytes == two.as_slice(),
            (Heard::Complete, Wanted::Done | Wanted::Bytes(_)) => false,
            (Heard::Failed(Why::Stalled), Wanted::Refused) => false,
            _ => return None,
        };
        device.acked();
        if !goes_on {
            return Some(count);
        }
    }
    None
}
