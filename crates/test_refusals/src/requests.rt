//! Every kind of request to a device, of which neither it nor a host's transfer takes memory.
use crate::answer::{Answer, right};
use usb_device::{Description, Device};
use usb_fields::{Direction, Setup, Stage, Toggle, Transaction};
use usb_host::{Transfer, Write};

/// bmRequestType: the standard requests to the device, an interface and an endpoint, and a class request.
const REQUEST_TYPES: [u8; 7] = [0x00, 0x80, 0x01, 0x81, 0x02, 0x82, 0x21];

/// wValue: small numbers, and the types and indices of descriptors.
const VALUES: [u16; 8] = [0, 1, 2, 0x0100, 0x0200, 0x0301, 0x0600, 0x0700];

/// wIndex: an interface, an endpoint, and a language.
const INDICES: [u16; 3] = [0, 0x0081, 0x0409];

/// wLength.
const LENGTHS: [u16; 3] = [0, 2, 255];

/// What goes to the device, as many bytes of it as wLength says: more than a packet.
const DATA: [u8; 255] = [0xa5; 255];

/// What the owner answers where bytes are asked for: more than a packet.
const ANSWER: [u8; 100] = [0x5a; 100];

/// bRequest is below this (USB 2.0, table 9-4).
const CODES: u32 = 13;

/// More transactions than a transfer of these takes.
const TRANSACTIONS: u8 = 16;

/// bMaxPacketSize0 of a device at high speed (USB 2.0, 5.5.3).
const PACKET: u8 = 64;

/// How many requests these make.
const REQUESTS: u32 = 7 * CODES * 8 * 3 * 3;

/// Makes every request of a device, in each of its states.
pub(crate) fn make_each(description: &Description) -> Answer {
    let mut count = 0u32;
    for state in 0..3u8 {
        count = count.saturating_add(make_requests(description, state));
    }
    right(count == 3 * REQUESTS)
}

/// Makes every request of a device in the Default (0), Address (1) or Configured (2) state. How many these were.
fn make_requests(description: &Description, state: u8) -> u32 {
    let mut device = Device::new(description);
    let mut count = 0u32;
    for number in 0..REQUESTS {
        device.reset();
        if state > 0 {
            make(&mut device, [0, 5, 5, 0, 0, 0, 0, 0]);
        }
        if state > 1 {
            make(&mut device, [0, 9, 1, 0, 0, 0, 0, 0]);
        }
        let request = request_of(number);
        make(&mut device, request.to_bytes());
        transfer(&mut device, request, false);
        transfer(&mut device, request, true);
        count = count.saturating_add(1);
    }
    count
}

/// The request that has this number.
fn request_of(number: u32) -> Setup {
    let rest = number / CODES;
    Setup {
        request_type: REQUEST_TYPES[(rest % 7) as usize],
        request: (number % CODES) as u8,
        value: VALUES[(rest / 7 % 8) as usize],
        index: INDICES[(rest / 56 % 3) as usize],
        length: LENGTHS[(rest / 168 % 3) as usize],
    }
}

/// A control transfer with two packets in, each acknowledged, and then two packets out.
fn make(device: &mut Device<'_>, setup: [u8; 8]) {
    let address = device.state().address;
    send(device, address, Stage::Setup(setup));
    send(device, address, Stage::In);
    device.acked();
    let address = device.state().address;
    send(device, address, Stage::In);
    device.acked();
    send(device, address, Stage::Out(Toggle::Data0, &[0]));
    send(device, address, Stage::Out(Toggle::Data1, &[]));
}

/// The same request by a host that acknowledges each packet, to its end. The device's owner answers what is refused and takes
/// data, or doesn't.
fn transfer(device: &mut Device<'_>, request: Setup, is_answered: bool) {
    let address = device.state().address;
    if request.length > 0 && request.direction() == Direction::Out {
        write(device, Write::new(address, PACKET, 0, request), is_answered);
        return;
    }
    let mut transfer = Transfer::new(address, PACKET, 0, request);
    for _ in 0..TRANSACTIONS {
        let Some(transaction) = transfer.next() else {
            break;
        };
        let _ = transfer.take(device.serve(&transaction, true));
        device.acked();
        if is_answered {
            respond(device);
        }
    }
}

/// A request with data to the device.
fn write(device: &mut Device<'_>, mut write: Write, is_answered: bool) {
    let data = DATA
        .get(..usize::from(write.request().length))
        .unwrap_or(&[]);
    for _ in 0..TRANSACTIONS {
        if data.len() != usize::from(write.request().length) {
            break;
        }
        let Some(transaction) = write.next(data) else {
            break;
        };
        let _ = write.take(device.serve(&transaction, true));
        device.acked();
        if is_answered {
            respond(device);
        }
    }
}

/// The owner answers the request that is refused, if there is one, by bytes where it asks for some, and else accepts it, and
/// the data that have come.
fn respond(device: &mut Device<'_>) {
    let is_read =
        matches!(device.refused(), Some(request) if request.length > 0 && request.direction() == Direction::In);
    let _ = if is_read {
        device.answer_with(&ANSWER)
    } else {
        device.accept()
    };
}

fn send(device: &mut Device<'_>, address: u8, stage: Stage<'_>) {
    let _ = device.serve(&Transaction { address, stage }, true);
}
