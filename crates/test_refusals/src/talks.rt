//! Devices with many descriptors: they are described, asked over a bus, and enumerated. Nothing is refused.
use crate::device::describe;
use crate::plenty::is_round;
use crate::samples::MOUSE;
use crate::shapes::{ASSOCIATIONS, STRINGS, many_strings, push_set};
use std::alloc::{AllocError, Global};
use usb_bus::{Asked, Fate, Talk, converse, converse_asked, enumerate};
use usb_device::Description;
use usb_fields::{Setup, Speed};
use usb_file::{DescriptorFile, named, read_file};
use usb_host::Limits;

/// How many requests are made of a device.
const REQUESTS: usize = 5000;

/// How many transactions each of them takes: GET_DESCRIPTOR of the device, in packets of 8 bytes.
const TRANSACTIONS: u128 = 5;

/// How many transactions a write takes that is rejected: its setup and its data.
const TRANSACTIONS_OF_WRITE: u128 = 2;

/// How many fates the list of an enumeration has.
const FATES: usize = 5000;

/// A device with 255 sets, each of which names a string.
pub(crate) fn strings(alloc: Global) -> Result<bool, AllocError> {
    let bytes = many_strings(alloc)?;
    let Ok(file) = read_file(alloc, &bytes) else {
        return Ok(false);
    };
    let count = named(alloc, &file)?.len();
    if count != usize::from(STRINGS) || !is_round(alloc, &file, &bytes, 511) {
        return Ok(false);
    }
    is_enumerated(alloc, file, 1000)
}

/// A device in packets of 8 bytes, one set of which has 65,530 bytes.
pub(crate) fn long_set(alloc: Global) -> Result<bool, AllocError> {
    let mut bytes = Vec::from_slice(alloc, &MOUSE[..18])?;
    bytes[7] = 8;
    push_set(&mut bytes, ASSOCIATIONS)?;
    match read_file(alloc, &bytes) {
        Ok(file) => is_enumerated(alloc, file, 8192),
        Err(_) => Ok(false),
    }
}

/// Whether a device with this file is enumerated, in more transactions than this, under a list of fates.
fn is_enumerated(alloc: Global, file: DescriptorFile, least: u64) -> Result<bool, AllocError> {
    let (Ok(limits), Ok(description)) = (
        Limits::new(1, 16, 3),
        Description::new(alloc, file, Speed::Full),
    ) else {
        return Ok(false);
    };
    let mut fates = Vec::new(alloc);
    for _ in 0..FATES {
        fates.push(Fate::Pass)?;
    }
    let run = enumerate(alloc, &description, limits, &fates);
    match &run.outcome {
        Ok(read) => Ok(*read == *description.file() && run.transactions > least),
        Err(_) => Ok(false),
    }
}

/// Many requests of a device, one after another, and as many with data to it.
pub(crate) fn requests(alloc: Global) -> Result<bool, AllocError> {
    let mut bytes = MOUSE;
    bytes[7] = 8;
    match describe(alloc, &bytes, Speed::Full).1 {
        Some(description) => Ok(reads(alloc, &description)? && writes(alloc, &description)?),
        None => Ok(false),
    }
}

fn reads(alloc: Global, description: &Description) -> Result<bool, AllocError> {
    let request = Setup::from_bytes(&[0x80, 6, 0, 1, 0, 0, 18, 0]);
    let mut requests = Vec::new(alloc);
    for _ in 0..REQUESTS {
        requests.push(request)?;
    }
    match converse(alloc, description, 16, &requests, &[]) {
        Ok(talk) => Ok(is_whole(&talk, TRANSACTIONS * REQUESTS as u128)),
        Err(_) => Ok(false),
    }
}

/// SET_REPORT of one byte, which no owner takes: each is rejected.
fn writes(alloc: Global, description: &Description) -> Result<bool, AllocError> {
    let write = Asked {
        setup: Setup::from_bytes(&[0x21, 9, 0, 2, 0, 0, 1, 0]),
        data: &[1],
    };
    let mut writes = Vec::new(alloc);
    for _ in 0..REQUESTS {
        writes.push(write)?;
    }
    match converse_asked(alloc, description, 16, &writes, &[]) {
        Ok(talk) => Ok(is_whole(&talk, TRANSACTIONS_OF_WRITE * REQUESTS as u128)),
        Err(_) => Ok(false),
    }
}

/// Whether each request has its reply, after this many transactions.
fn is_whole(talk: &Talk, transactions: u128) -> bool {
    talk.stopped.is_none() && talk.replies.len() == REQUESTS && talk.transactions == transactions
}
