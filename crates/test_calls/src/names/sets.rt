//! The names of usb_set.
use anyhow::Result as Outcome;
use std::alloc::{AllocError, Global};
use usb_fields::Sequence;
use usb_set::{
    Association, Configuration, Decoder, EncodeFault, Endpoint, Extra, Progress, Raw, SetFault,
    SetKind, SetWhy, Setting, encode,
};

/// A list of these elements.
pub(crate) fn list_of<T: Drop, const N: usize>(
    alloc: Global,
    elements: [T; N],
) -> Result<Sequence<T>, AllocError> {
    Ok(Vec::from_array(alloc, elements)?.into())
}

/// A boot mouse: an association, an interface with a HID descriptor, and an endpoint with a byte more.
pub(crate) fn mouse(alloc: Global) -> Result<Configuration, AllocError> {
    let association = Association {
        first: 0,
        count: 1,
        class: 3,
        subclass: 1,
        protocol: 2,
        text: 0,
        tail: Sequence::<u8>::new(alloc),
    };
    let hid = Raw {
        kind: 0x21,
        body: list_of(alloc, [0x10u8, 1, 0, 1, 0x22, 0x34, 0])?,
    };
    let endpoint = Endpoint {
        address: 0x81,
        attributes: 3,
        max_packet: 4u16,
        interval: 10,
        tail: list_of(alloc, [0u8])?,
        extras: Sequence::<Extra>::new(alloc),
    };
    let setting = Setting {
        number: 0,
        alternate: 0,
        declared_endpoints: 1,
        class: 3,
        subclass: 1,
        protocol: 2,
        text: 0,
        tail: Sequence::<u8>::new(alloc),
        extras: list_of(alloc, [Extra::Raw(hid)])?,
        endpoints: list_of(alloc, [endpoint])?,
    };
    Ok(Configuration {
        kind: SetKind::Configuration,
        declared_interfaces: 1,
        value: 1,
        text: 0,
        attributes: 0xa0,
        power: 50,
        tail: Sequence::<u8>::new(alloc),
        extras: list_of(alloc, [Extra::Association(association)])?,
        settings: list_of(alloc, [setting])?,
    })
}

/// Its bytes.
pub(crate) const MOUSE: [u8; 43] = [
    9, 2, 43, 0, 1, 1, 0, 0xa0, 50, 8, 11, 0, 1, 3, 1, 2, 0, 9, 4, 0, 0, 1, 3, 1, 2, 0, 9, 0x21,
    0x10, 1, 0, 1, 0x22, 0x34, 0, 8, 5, 0x81, 3, 4, 0, 10, 0,
];

fn kind_number(kind: SetKind) -> u8 {
    match kind {
        SetKind::Configuration => 2,
        SetKind::OtherSpeed => 7,
    }
}

fn extra_kind(extra: &Extra) -> u8 {
    match extra {
        Extra::Raw(raw) => raw.kind,
        Extra::Association(_) => 11,
    }
}

fn why_number(why: SetWhy) -> u8 {
    match why {
        SetWhy::HeaderLength => 1,
        SetWhy::HeaderKind => 2,
        SetWhy::Total => 3,
        SetWhy::ItemLength => 4,
        SetWhy::Over => 5,
        SetWhy::Nested => 6,
        SetWhy::ItemShort => 7,
        SetWhy::Stray => 8,
        SetWhy::Truncated => 9,
        SetWhy::Memory => 10,
    }
}

fn fault_number(fault: EncodeFault) -> u8 {
    match fault {
        EncodeFault::Tail => 1,
        EncodeFault::RawKind => 2,
        EncodeFault::TooLong => 3,
        EncodeFault::Memory => 4,
    }
}

/// How many bytes were taken, where the set is whole.
fn taken(progress: Progress) -> Option<usize> {
    match progress {
        Progress::More => None,
        Progress::Done { used } => Some(used),
    }
}

#[test]
fn a_set(rt: HostRuntime) -> Outcome<()> {
    let set = mouse(rt.alloc())?;
    let bytes: Result<Vec<u8>, EncodeFault> = encode(rt.alloc(), &set);
    assert_eq!(rt; bytes?.as_slice(), MOUSE.as_slice());
    assert_eq!(rt; kind_number(set.kind), 2);
    assert_eq!(rt; set.extras.first().map(extra_kind), Some(11));

    let mut decoder: Decoder = Decoder::new(rt.alloc());
    let progress: Result<Progress, SetFault> = decoder.feed(&MOUSE[..9]);
    assert_eq!(rt; taken(progress?), None);
    assert_eq!(rt; taken(decoder.feed(&MOUSE[9..])?), Some(34));
    let read: Result<Configuration, SetFault> = decoder.finish();
    assert!(rt; read? == set);
    Ok(())
}

#[test]
fn a_piece_that_ends_no_descriptor(rt: HostRuntime) -> Outcome<()> {
    let mut decoder = Decoder::new(rt.alloc());
    assert_eq!(rt; taken(decoder.feed(&MOUSE[..14])?), None);
    assert!(rt; decoder.keeps(&MOUSE[14..16]));
    // The association ends with this byte, and it was not taken.
    assert!(rt; !decoder.keeps(&MOUSE[16..17]));
    assert_eq!(rt; taken(decoder.feed(&MOUSE[16..])?), Some(27));
    Ok(())
}

#[test]
fn faults_of_a_set(rt: HostRuntime) -> Outcome<()> {
    let mut decoder = Decoder::new(rt.alloc());
    let fault = decoder.feed(&[8]);
    let wanted = SetFault {
        at: 0u32,
        why: SetWhy::HeaderLength,
    };
    assert_eq!(rt; fault, Err(wanted));
    assert_eq!(rt; why_number(wanted.why), 1);
    let mut set = mouse(rt.alloc())?;
    for setting in set.settings.iter_mut() {
        for extra in setting.extras.iter_mut() {
            if let Extra::Raw(raw) = extra {
                raw.kind = 11;
            }
        }
    }
    let fault = encode(rt.alloc(), &set).err().map(fault_number);
    assert_eq!(rt; fault, Some(2));
    Ok(())
}
