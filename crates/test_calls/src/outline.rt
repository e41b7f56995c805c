//! The descriptors of an input as values, and their fields.
use crate::programs::MOUSE;
use anyhow::Result;
use nozzlegorse::files::{
    ClassCodes, DescriptorOwner, Fields, Form, InterfaceSetting, Outline, Role, SetSpeed,
    WalkedDescriptor, read_input,
};
use nozzlegorse::rules::{Cause, Part, found_in_order};

/// A set of one interface with two settings. Descriptors of a class follow its association, its interface, its endpoint and
/// the other setting. It announces two endpoints (V5), and the one that is there has the address of endpoint 0 (V6).
const FUNCTION: [u8; 53] = [
    9, 2, 53, 0, 1, 1, 0, 0x80, 50, 8, 0x0b, 0, 1, 0xff, 0, 0, 0, 3, 0x30, 0xaa, 9, 4, 0, 0, 2,
    0xff, 0, 0, 0, 3, 0x24, 1, 7, 5, 0x80, 3, 8, 0, 10, 3, 0x25, 2, 9, 4, 0, 1, 0, 0xff, 0, 0, 0,
    2, 0x30,
];

/// A file with eighteen descriptors. Its qualifier has a subclass without a class (V11), and the
/// set after it clears bit 7 of bmAttributes (V9). In the first set an association names interface 5, which isn't there, and one
/// that follows an endpoint binds none (V13); the last endpoint has the address of endpoint 0 (V6). In the other one an
/// association names interface 7 (V13).
const NUMBERED: [u8; 134] = [
    18, 1, 0, 2, 0, 0, 0, 64, 9, 0x12, 1, 0, 0, 1, 0, 0, 0, 1, 9, 2, 80, 0, 1, 1, 0, 0x80, 50, 8,
    0x0b, 0, 1, 0xff, 0, 0, 0, 3, 0x30, 0xaa, 8, 0x0b, 5, 1, 0xff, 0, 0, 0, 9, 4, 0, 0, 1, 0xff, 0,
    0, 0, 3, 0x24, 1, 7, 5, 0x81, 3, 8, 0, 10, 3, 0x25, 2, 3, 0x25, 3, 8, 0x0b, 6, 0, 0xff, 0, 0,
    0, 9, 4, 0, 1, 1, 0xff, 0, 0, 0, 7, 5, 0x80, 3, 8, 0, 10, 3, 0x25, 4, 10, 6, 0, 2, 0, 1, 0, 64,
    1, 0, 9, 7, 26, 0, 1, 1, 0, 0, 50, 9, 4, 0, 0, 0, 0xff, 0, 0, 0, 8, 0x0b, 7, 1, 0xff, 0, 0, 0,
];

/// The owner of what belongs to the set alone.
const SET: DescriptorOwner = DescriptorOwner {
    part: Part::Main,
    set: 0,
    setting: None,
    endpoint: None,
};

/// Interface 0 in one of its settings.
fn setting(alternate: u8) -> DescriptorOwner {
    DescriptorOwner {
        setting: Some(InterfaceSetting {
            interface: 0,
            alternate,
        }),
        ..SET
    }
}

/// The descriptors of a file stand in the order of its parts, each as long as its bLength says (USB 2.0, 9.5).
#[test]
fn a_file_is_its_descriptors(rt: HostRuntime) {
    let mut outline = Outline::of(&MOUSE, None, &[]);
    for wanted in [
        (0, 18, 0, Role::Device),
        (18, 9, 1, Role::Configuration),
        (27, 9, 2, Role::Interface),
        (36, 9, 3, Role::Raw),
        (45, 7, 3, Role::Endpoint),
        (52, 10, 0, Role::Qualifier),
        (62, 9, 1, Role::Configuration),
        (71, 9, 2, Role::Interface),
        (80, 9, 3, Role::Raw),
        (89, 7, 3, Role::Endpoint),
        (96, 4, 0, Role::Languages),
        (100, 10, 0, Role::Text),
        (110, 30, 0, Role::Text),
        (140, 20, 0, Role::Text),
        (160, 42, 0, Role::Text),
    ] {
        let next = outline.next();
        assert_eq!(rt;
            next.map(|d| (d.at, d.bytes.len(), d.depth, d.role)),
            Some(wanted)
        );
    }
    assert!(rt; outline.next().is_none());
}

/// A descriptor of a class extends the nearest configuration, interface or endpoint before it (USB 2.0, 9.5).
#[test]
fn each_descriptor_has_its_owner(rt: HostRuntime) {
    let endpoint = DescriptorOwner {
        endpoint: Some(0x80),
        ..setting(0)
    };
    let mut outline = Outline::of(&FUNCTION, None, &[]);
    for wanted in [
        (0, Role::Configuration, Some(SET)),
        (9, Role::Association, Some(SET)),
        (17, Role::Raw, Some(SET)),
        (20, Role::Interface, Some(setting(0))),
        (29, Role::Raw, Some(setting(0))),
        (32, Role::Endpoint, Some(endpoint)),
        (39, Role::Raw, Some(endpoint)),
        (42, Role::Interface, Some(setting(1))),
        (51, Role::Raw, Some(setting(1))),
    ] {
        assert_eq!(rt;
            outline.next().map(|d| (d.at, d.role, d.owner)),
            Some(wanted)
        );
    }
    assert!(rt; outline.next().is_none());
}

/// As plain numbers each has its place, its role, that of what an extra belongs to, and its depth.
#[test]
fn a_walk_has_each_descriptor_as_numbers(rt: HostRuntime) {
    let mut descriptor = WalkedDescriptor::start();
    for wanted in [
        (0, 2, 0, 1),
        (9, 5, 2, 2),
        (17, 6, 2, 2),
        (20, 3, 0, 2),
        (29, 6, 3, 3),
        (32, 4, 0, 3),
        (39, 6, 4, 4),
        (42, 3, 0, 2),
        (51, 6, 3, 3),
    ] {
        assert!(rt; descriptor.next_in(&FUNCTION));
        assert_eq!(rt;
            (
                descriptor.place,
                descriptor.role,
                descriptor.owner,
                descriptor.depth
            ),
            wanted
        );
    }
    assert!(rt; !descriptor.next_in(&FUNCTION));
}

/// What is outside of sets is nobody's. The other part has sets of its own.
#[test]
fn owners_are_of_a_part(rt: HostRuntime) {
    for descriptor in Outline::of(&MOUSE, None, &[]) {
        let part = match descriptor.at {
            18..=45 => Some(Part::Main),
            62..=89 => Some(Part::Other),
            _ => None,
        };
        assert_eq!(rt; descriptor.owner.map(|owner| owner.part), part);
    }
}

/// A finding stands at the descriptor that breaks the rule, with what was counted.
#[test]
fn findings_stand_at_their_descriptors(rt: HostRuntime) -> Result<()> {
    let input = read_input(rt.alloc(), &FUNCTION)?;
    let found = found_in_order(rt.alloc(), &input)?;
    let mut report = Vec::new(rt.alloc());
    for descriptor in Outline::of(&FUNCTION, None, &found) {
        for one in descriptor.findings {
            report.push((descriptor.at, one.finding.rule, one.cause))?;
        }
    }
    let count = Cause::EndpointCount {
        declared: 2,
        found: 1,
    };
    let address = Cause::Address {
        endpoint_zero: true,
        reserved: false,
    };
    assert_eq!(rt;
        report.as_slice(),
        [(20, 5, count), (32, 6, address)].as_slice()
    );
    Ok(())
}

/// A finding has the number of its descriptor, where each descriptor of the input counts.
#[test]
fn findings_have_the_numbers_of_their_descriptors(rt: HostRuntime) -> Result<()> {
    let input = read_input(rt.alloc(), &NUMBERED)?;
    let found = found_in_order(rt.alloc(), &input)?;
    let mut report = Vec::new(rt.alloc());
    for descriptor in Outline::of(&NUMBERED, None, &found) {
        for one in descriptor.findings {
            report.push((descriptor.at, one.descriptor, one.finding.rule))?;
        }
    }
    let wanted = [
        (38, 4, 13),
        (71, 10, 13),
        (88, 12, 6),
        (98, 14, 11),
        (108, 15, 9),
        (126, 17, 13),
    ];
    assert_eq!(rt; report.as_slice(), wanted.as_slice());
    Ok(())
}

/// A device with a qualifier has one set for each of two speeds (USB 2.0, 9.6.2 and 9.6.4).
#[test]
fn the_other_set_has_the_other_speed(rt: HostRuntime) -> Result<()> {
    for speeds in [
        [SetSpeed::Full, SetSpeed::High],
        [SetSpeed::High, SetSpeed::Full],
    ] {
        let mut seen = Vec::new(rt.alloc());
        for descriptor in Outline::of(&MOUSE, Some(speeds[0]), &[]) {
            if descriptor.role == Role::Endpoint {
                seen.push(descriptor.speed)?;
            }
        }
        assert_eq!(rt; seen.as_slice(), speeds.as_slice());
    }
    Ok(())
}

/// Cut within the endpoint: its bLength is 7, and five of its bytes are there. Of the descriptor before it the set isn't.
#[test]
fn a_broken_input_ends_where_no_descriptor_can_stand(rt: HostRuntime) {
    let cut = &MOUSE[..50];
    assert!(rt; read_input(rt.alloc(), cut).is_err());
    let last = Outline::of(cut, None, &[]).last();
    assert_eq!(rt;
        last.map(|d| (d.at, d.role, d.rest)),
        Some((36, Role::Raw, None))
    );
    let whole = Outline::of(&MOUSE, None, &[]).nth(3);
    assert_eq!(rt;
        whole.map(|d| (d.at, d.rest)),
        Some((36, Some(&MOUSE[45..52])))
    );
}

/// The fields of table 9-13, and the bytes after them.
#[test]
fn fields_of_an_endpoint(rt: HostRuntime) -> Result<()> {
    let mut seen = Vec::new(rt.alloc());
    for field in Fields::of(Role::Endpoint, None, &[9, 5, 0x81, 3, 4, 1, 10, 0xab, 0xcd]) {
        seen.push((field.name, field.place, field.form, field.value))?;
    }
    let wanted: [(&str, usize, Form, &[u8]); 5] = [
        ("bEndpointAddress", 2, Form::Address, &[0x81]),
        ("bmAttributes", 3, Form::Transfer, &[3]),
        ("wMaxPacketSize", 4, Form::PacketSize, &[4, 1]),
        ("bInterval", 6, Form::Interval, &[10]),
        ("tail", 7, Form::Bytes, &[0xab, 0xcd]),
    ];
    assert_eq!(rt; seen.as_slice(), wanted.as_slice());
    Ok(())
}

/// The HID descriptor of the mouse (HID 1.11, 6.2.1), whose fields depend on the class of its interface.
#[test]
fn fields_of_a_class_descriptor(rt: HostRuntime) -> Result<()> {
    let interface = ClassCodes {
        class: 3,
        subclass: 1,
        protocol: 2,
    };
    let hid = Outline::of(&MOUSE, None, &[]).nth(3);
    assert_eq!(rt; hid.and_then(|d| d.interface), Some(interface));
    let mut seen = Vec::new(rt.alloc());
    for field in Fields::of(Role::Raw, Some(interface), &MOUSE[36..45]) {
        seen.push((field.name, field.place, field.value))?;
    }
    let wanted: [(&str, usize, &[u8]); 6] = [
        ("bDescriptorType", 1, &[0x21]),
        ("bcdHID", 2, &[1, 0]),
        ("bCountryCode", 4, &[0]),
        ("bNumDescriptors", 5, &[1]),
        ("bDescriptorType", 6, &[0x22]),
        ("wDescriptorLength", 7, &[0x34, 0]),
    ];
    assert_eq!(rt; seen.as_slice(), wanted.as_slice());
    Ok(())
}
